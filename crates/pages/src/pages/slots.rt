// Where rows lie, and where they go.

ghost use Rattle.std.specs.Prelude.{◌≡◌, ◌+◌, ◌<◌, ◌≤◌, length, IfSome, MatchResult};
ghost use Rattle.journal.specs.Meaning.{check_size};
ghost use Rattle.format.specs.Decode as decode;
ghost use Rattle.format.specs.Mount as mount;
ghost use Rattle.format.specs.State.{Takes, located, row_in, count_in, used_in};
ghost use Rattle.format.specs.Well.{IsFull, IsAt, Stores};
ghost use Rattle.pages.specs.Journals.{bytes_of};

use super::Pages;
use crate::row::Row;
use journal::fault::JournalFault;
use journal::row::Label;
use journal::slots::has_room;

impl<'a> Pages<'a> {
    /// The slot that a section lies in.
    pub(super) fn slot_of(&self, start: u64) -> Option<u64>
        ensures slot { result ≡ mount.found (mount.bears (bytes_of self.now).limits (bytes_of self.now).entries start) (bytes_of self.now).limits.slots }
        ensures within { IfSome result (λ slot. slot < (bytes_of self.now).limits.slots) }
    {
        let pages = self.raw.pages();
        pages.find(start, pages.layout.limits.slots)
    }

    pub(super) fn count_at(&self, slot: u64) -> u64
        requires { slot < (bytes_of self.now).limits.slots }
        ensures count { result ≡ count_in (bytes_of self.now) slot }
        ensures few { result ≤ (bytes_of self.now).limits.rows }
    {
        self.raw.pages().page(slot).count()
    }

    /// Where a slot's next value lies.
    fn used_at(&self, slot: u64) -> u64
        requires { slot < (bytes_of self.now).limits.slots }
        ensures within { result ≤ (bytes_of self.now).limits.bytes }
        ensures place { result ≡ used_in (bytes_of self.now) slot }
    {
        self.raw.pages().page(slot).next_offset()
    }

    /// The slot that a row of a section goes to: its own, or one that is free.
    // A `match`: `or_else` was tried, and of a closure that an Option calls the proof learns nothing.
    pub(super) fn slot_for(&self, start: u64) -> Result<u64, JournalFault>
        ensures { MatchResult result (λ slot. Takes (bytes_of self.now) slot start) (λ f. (f ≡ JournalFault.NoSlot start) × IsFull (bytes_of self.now) start) }
    {
        match self.slot_of(start) {
            Some(slot) => Ok(slot),
            None => self
                .raw
                .pages()
                .vacant()
                .ok_or(JournalFault::NoSlot { section: start }),
        }
    }

    /// The slot of the row at a place.
    pub(super) fn locate(&self, start: u64, position: u64) -> Result<u64, JournalFault>
        ensures { MatchResult result (λ slot. IsAt (bytes_of self.now) start position slot) (λ f. (f ≡ JournalFault.NoRow start position) × (None ≡ located (bytes_of self.now) start position)) }
    {
        match self.slot_of(start) {
            Some(slot) if position < self.count_at(slot) => Ok(slot),
            _ => Err(JournalFault::NoRow {
                section: start,
                position,
            }),
        }
    }

    /// The row at a place that has one.
    pub(super) fn row(&self, slot: u64, position: u64) -> Row<'_>
        requires slot { slot < (bytes_of self.now).limits.slots }
        requires position { position < count_in (bytes_of self.now) slot }
        ensures row { result.bytes.now ≡ row_in (bytes_of self.now) slot position }
        ensures limits { result.layout.limits ≡ (bytes_of self.now).limits }
        ensures some { check_size ≤ decode.size_of (bytes_of self.now).limits.width result.bytes.now }
        ensures room { decode.offset_of (bytes_of self.now).limits.width result.bytes.now + decode.size_of (bytes_of self.now).limits.width result.bytes.now ≤ (bytes_of self.now).limits.bytes }
    {
        self.raw.pages().page(slot).row(position)
    }

    /// A row of the section `start` to the slot where it goes, where there is room. The last four are the parameters of `append`.
    pub(super) fn push(
        &mut self,
        slot: u64,
        start: u64,
        label: Label,
        key: &[u8],
        value: &[u8],
    ) -> Result<u64, JournalFault>
        requires takes { Takes (bytes_of self.old) slot start }
        requires floor { (bytes_of self.old).floor ≤ start }
        requires key { length key.now ≡ (bytes_of self.old).limits.width }
        ensures { Stores (bytes_of self.old) (bytes_of self.new) start label key.now value.now result }
    {
        let limits = self.raw.layout.limits;
        let count = self.count_at(slot);
        if count >= limits.rows {
            return Err(JournalFault::RowsFull { section: start });
        }
        let used = self.used_at(slot);
        if !has_room(used, value.len() as u64, limits.bytes) {
            return Err(JournalFault::BytesFull { section: start });
        }
        self.raw.store(slot, count, used, start, label, key, value);
        Ok(count)
    }
}
