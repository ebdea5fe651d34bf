// What the index does: slots found, taken and struck, records noted and looked for.

ghost use Rattle.std.specs.Prelude.{◌≡◌, ℕ, ◌+◌, ◌*◌, ◌/◌, ◌%◌, ◌^◌, ◌<◌, ◌≤◌, true, false, None, ◌&&◌, map, is_ok, IfSome, if◌then◌else◌, MatchOption, slice_set, slice_index_or};
ghost use Rattle.std.specs.Option.{option_copied};
ghost use Rattle.index_layout.specs.Views.{free_view, grown, takes, goes, bucket_of, kept_view, view_at, first_in, next_in, newest_in, older_in};
ghost use Rattle.index_layout.specs.Held.{found, slot_of, Shut, Opened, start_in, has_room, Noted, Seated, total, weight, under, numbers, records, in_slot};
ghost use Rattle.index_layout.specs.Candidates.{nearer, FirstWith};
ghost use Rattle.index.specs.Slots.{views, no_views};
ghost use Rattle.index.specs.Viewed.{slot_view};

use crate::handle::{POSITIONS, unpack};
use crate::index::{Index, Tally};
use crate::key_code::KeyCode;
use crate::marks::{mark, marks_at, unmark, without};
use crate::section::{NoRoom, Section};

/// A position in a slot as a handle.
fn in_slot(slot: usize, position: Option<u64>) -> Option<u64>
    requires { (slot < 16) × (IfSome position (λ p. p < 128)) }
    ensures is { result ≡ in_slot slot position }
    ensures parts { IfSome result (λ h. (h / 2 ^ 40 ≡ slot) × (h % 2 ^ 40 < 128)) }
{
    position.map(|p| slot as u64 * POSITIONS + p)
}

/// The nearer to a number of the best so far and what a slot more holds, if that has a candidate, which is asked last. By the
/// start alone: pairs would go by the slot first.
fn nearer(
    best: Option<(usize, u64)>,
    key: KeyCode,
    from: u64,
    slot: usize,
    held: &Option<Section>,
) -> Option<(usize, u64)>
    ensures { result ≡ nearer best key.code (bucket_of key.hash) from slot (slot_view held.now) }
{
    match (held, best) {
        (Some(section), None) if section.reaches(from) && section.has(key) => {
            Some((slot, section.start()))
        }
        (Some(section), Some((_, start)))
            if section.reaches(from) && section.start() < start && section.has(key) => {
            Some((slot, section.start()))
        }
        _ => best,
    }
}

/// One more record in a slot, where it holds a section that takes it.
fn add_in(slot: &mut Option<Section>, offset: u64, key: KeyCode) -> Result<(), NoRoom>
    ensures is { is_ok result ≡ ((slot_view slot.old).used && takes (slot_view slot.old) offset) }
    ensures view { slot_view slot.new ≡ (if is_ok result then grown (slot_view slot.old) offset key.code (bucket_of key.hash) else slot_view slot.old) }
{
    match slot {
        Some(section) => section.add(offset, key),
        None => Err(NoRoom),
    }
}

/// The same by the slot's number, among all of them.
// By itself, since the check takes a loan of a member of a `Copy` type from the whole array, and not from a field.
fn add_at(
    slots: &mut [Option<Section>; 16],
    slot: usize,
    offset: u64,
    key: KeyCode,
) -> Result<(), NoRoom>
    requires { slot < 16 }
    ensures is { is_ok result ≡ ((slot_view (slice_index_or slots.old slot None)).used && takes (slot_view (slice_index_or slots.old slot None)) offset) }
    ensures view { slot_view (slice_index_or slots.new slot None) ≡ (if is_ok result then grown (slot_view (slice_index_or slots.old slot None)) offset key.code (bucket_of key.hash) else slot_view (slice_index_or slots.old slot None)) }
    ensures others { slots.new ≡ slice_set slots.old slot (slice_index_or slots.new slot None) }
{
    add_in(&mut slots[slot], offset, key)
}

/// Frees a slot whose section begins below a minimum, and counts what goes with it. Looked at where it lies: a section handed
/// out would be copied whole.
fn strike_slot(slot: &mut Option<Section>, min: u64, struck: &mut Tally)
    requires { (struck.old.numbers < 2 ^ 32) × (struck.old.records < 2 ^ 32) }
    ensures left { slot_view slot.new ≡ kept_view min (slot_view slot.old) }
    ensures numbers { struck.new.numbers ≡ struck.old.numbers + weight (under min numbers) (slot_view slot.old) }
    ensures records { struck.new.records ≡ struck.old.records + weight (under min records) (slot_view slot.old) }
    ensures few { (struck.new.numbers ≤ struck.old.numbers + 128) × (struck.new.records ≤ struck.old.records + 128) }
{
    if slot.as_ref().is_some_and(|section| section.is_below(min)) {
        struck.add(slot);
        *slot = None;
    }
}

impl Index {
    pub fn new() -> Index
        ensures views { views result ≡ no_views }
    {
        Index {
            slots: Default::default(),
            marks: [0; 1_024],
        }
    }

    /// Frees every slot.
    pub fn clear(&mut self)
        ensures views { views self.new ≡ no_views }
    {
        self.slots = Default::default();
        self.marks = [0; 1_024];
    }

    /// The slot of a start.
    pub fn slot_of(&self, start: u64) -> Option<usize>
        ensures is { result ≡ slot_of (views self.now) start }
        ensures below { IfSome result (λ i. i < 16) }
    {
        self.slots.iter().position(|slot| slot.as_ref().is_some_and(|section| section.holds(start)))
    }

    /// The section that begins at a start.
    fn find(&self, start: u64) -> Option<&Section>
        ensures { slot_view (option_copied result) ≡ found (views self.now) start }
    {
        self.slots[self.slot_of(start)?].as_ref()
    }

    /// The start that a slot holds.
    pub fn start_of(&self, slot: usize) -> Option<u64>
        ensures is { result ≡ start_in (views self.now) slot }
    {
        let section = self.slots.get(slot)?.as_ref()?;
        Some(section.start())
    }

    /// The first section that begins at a number or above and has a record with this translated key and hash: its slot and
    /// its start.
    pub fn first_with(&self, from: u64, key: KeyCode) -> Option<(usize, u64)>
        ensures is { FirstWith (views self.now) key.code (bucket_of key.hash) from result }
    {
        let mut best = None;
        let mut left = marks_at(&self.marks, key.code);
        // Along marks, of which each turn has one less.
        while left != 0 {
            let slot = left.trailing_zeros() as usize;
            best = nearer(best, key, from, slot, &self.slots[slot]);
            left = without(left, slot);
        }
        best
    }

    /// A free slot.
    fn free_slot(&self) -> Option<usize>
        ensures { MatchOption result ((k : ℕ) → k < 16 → (view_at (views self.now) k).used ≡ true) (λ i. (i < 16) × ((view_at (views self.now) i).used ≡ false)) }
    {
        self.slots.iter().position(|slot| slot.is_none())
    }

    /// Takes a free slot for a start that none holds.
    pub fn open(&mut self, start: u64) -> Option<usize>
        ensures is { MatchOption result (Shut (views self.old) start × (views self.new ≡ views self.old)) (Opened (views self.old) (views self.new) start) }
    {
        if self.slot_of(start).is_some() {
            return None;
        }
        let slot = self.free_slot()?;
        self.slots[slot] = Some(Section::open(start));
        // What was in the slot before may have left marks.
        unmark(&mut self.marks, slot);
        Some(slot)
    }

    /// One more record in a slot, where it goes in.
    pub fn add(&mut self, slot: usize, offset: u64, key: KeyCode) -> Result<(), NoRoom>
        ensures is { is_ok result ≡ ((view_at (views self.old) slot).used && takes (view_at (views self.old) slot) offset) }
        ensures views { views self.new ≡ (if is_ok result then slice_set (views self.old) slot (grown (view_at (views self.old) slot) offset key.code (bucket_of key.hash)) else views self.old) }
    {
        // By index, since of a `get_mut` a proof learns the length alone.
        if slot >= 16 {
            return Err(NoRoom);
        }
        // Marked also where the record is refused then: a mark for nothing costs a look, and no record may go without.
        mark(&mut self.marks, key.code, slot);
        add_at(&mut self.slots, slot, offset, key)
    }

    /// One more record of the section that begins at a start, for which a slot is taken where none holds it.
    pub fn note(&mut self, start: u64, offset: u64, key: KeyCode) -> Result<(), NoRoom>
        ensures is { is_ok result ≡ has_room (views self.old) start offset }
        ensures starts { is_ok result ≡ true → Noted (views self.old) (views self.new) start offset key.code (bucket_of key.hash) }
        ensures slots { is_ok result ≡ true → Seated (views self.old) (views self.new) start offset key.code (bucket_of key.hash) }
        ensures kept { is_ok result ≡ false → views self.new ≡ views self.old }
    {
        if offset >= 64 {
            return Err(NoRoom);
        }
        if let Some(slot) = self.slot_of(start) {
            return self.add(slot, offset, key);
        }
        let Some(slot) = self.open(start) else {
            return Err(NoRoom);
        };
        self.add(slot, offset, key)
    }

    /// The first position of an offset in the section that begins at a start.
    pub fn first_of(&self, start: u64, offset: u64) -> Option<u64>
        ensures is { result ≡ first_in (found (views self.now) start) offset }
        ensures within { IfSome result (λ p. p < 128) }
    {
        self.find(start)?.first_of(offset)
    }

    /// The next position with the number of one, in the section that begins at a start.
    pub fn next_of(&self, start: u64, position: u64) -> Option<u64>
        ensures is { result ≡ next_in (found (views self.now) start) position }
        ensures within { IfSome result (λ p. (position < p) × (p < 128)) }
    {
        self.find(start)?.next_of(position)
    }

    /// The newest record of a slot with this translated key and hash, by its handle.
    pub fn newest(&self, slot: usize, key: KeyCode) -> Option<u64>
        ensures is { result ≡ in_slot slot (newest_in (view_at (views self.now) slot) key.code (bucket_of key.hash)) }
        ensures within { IfSome result (λ h. (h / 2 ^ 40 ≡ slot) × (h % 2 ^ 40 < 128)) }
    {
        let section = self.slots.get(slot)?.as_ref()?;
        in_slot(slot, section.newest(key))
    }

    /// The next older one, after a record with the hash.
    pub fn older(&self, handle: u64, key: KeyCode) -> Option<u64>
        ensures is { result ≡ in_slot (handle / 2 ^ 40) (older_in (view_at (views self.now) (handle / 2 ^ 40)) key.code (bucket_of key.hash) (handle % 2 ^ 40)) }
        ensures within { IfSome result (λ h. (h / 2 ^ 40 ≡ handle / 2 ^ 40) × (h % 2 ^ 40 < 128)) }
        ensures falls { IfSome result (λ h. h < handle) }
    {
        let (slot, position) = unpack(handle);
        let section = self.slots.get(slot as usize)?.as_ref()?;
        in_slot(slot as usize, section.older(position, key))
    }

    /// Frees the slots of the sections that begin below a minimum, and counts what goes with them.
    pub fn strike(&mut self, min: u64) -> Tally
        ensures views { views self.new ≡ map (kept_view min) (views self.old) }
        ensures numbers { result.numbers ≡ total (under min numbers) (views self.old) }
        ensures records { result.records ≡ total (under min records) (views self.old) }
        ensures few { (result.numbers ≤ 2048) × (result.records ≤ 2048) }
    {
        let mut struck = Tally::default();
        for slot in self.slots.iter_mut() {
            strike_slot(slot, min, &mut struck);
        }
        struck
    }

    /// How many different numbers and how many records there are.
    pub fn counts(&self) -> Tally
        ensures numbers { result.numbers ≡ total numbers (views self.now) }
        ensures records { result.records ≡ total records (views self.now) }
        ensures few { (result.numbers ≤ 2048) × (result.records ≤ 2048) }
    {
        let mut kept = Tally::default();
        for slot in &self.slots {
            kept.add(slot);
        }
        kept
    }
}

impl Tally {
    /// A slot more.
    fn add(&mut self, slot: &Option<Section>)
        requires { (self.old.numbers < 2 ^ 32) × (self.old.records < 2 ^ 32) }
        ensures numbers { self.new.numbers ≡ self.old.numbers + weight numbers (slot_view slot.now) }
        ensures records { self.new.records ≡ self.old.records + weight records (slot_view slot.now) }
        ensures few { (self.new.numbers ≤ self.old.numbers + 128) × (self.new.records ≤ self.old.records + 128) }
    {
        if let Some(section) = slot {
            self.numbers += section.distinct();
            self.records += section.len();
        }
    }
}
