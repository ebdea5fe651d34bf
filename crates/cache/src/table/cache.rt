// The cache as a journal, and what it promises beside that.

ghost use Rattle.std.specs.Prelude.{◌≡◌, ◌<◌, map, replicate, None};
ghost use Rattle.journal.specs.Promises.{Appends, ReadsEntry, ReadsValue, Prunes};
ghost use Rattle.cache.specs.Table.{held, forgotten, with_copy};
ghost use Rattle.cache.specs.Fit.{CacheFits, Fetches, Wide};

use super::{find, forget};
use crate::row_copy::RowCopy;
use journal::Journal;
use journal::fault::JournalFault;
use journal::limits::Limits;
use journal::row::{Entry, Label};

/// The journal below, and copies of entries that were read from it. Which rows have one is open, but for what `fetch`
/// promises; there are 16 places, and no value is copied.
#[derive(Drop)]
pub struct Cache<J> {
    below: J,
    /// In fixed memory, and always full of places: no length grows beside it.
    slots: [Option<RowCopy>; 16],
    /// The place that the next copy takes; they are taken in turn.
    next: usize,
    ghost within: { next < 16 },
}

impl<J: Journal> Cache<J> {
    /// A cache over `below`, with no copies yet.
    pub fn over(below: J) -> Cache<J>
        ensures same { result.below ≡ below }
        ensures empty { result.slots ≡ replicate 16 None }
        ensures fit { (o : J.Journal.past) → J.Journal.fits o below → CacheFits J.Journal.fits J.Journal.meaning o result.below result.slots }
    {
        Cache {
            below,
            slots: [None; 16],
            next: 0,
        }
    }

    /// The journal below, to look at.
    pub fn below(&self) -> &J
        ensures { result.now ≡ self.now.below }
    {
        &self.below
    }

    /// The journal below, given back.
    pub fn into_below(self) -> J
        ensures { result ≡ self.below }
    {
        self.below
    }

    /// Whether the table has a copy of that row.
    pub fn holds(&self, start: u64, position: u64) -> bool
        ensures { result ≡ held self.now.slots start position }
    {
        find(&self.slots, start, position).is_some()
    }

    // The width of the keys below, and never more than a place of the table has room for.
    fn key_width(&self) -> usize
        ensures { Wide J.Journal.fits J.Journal.meaning self.now.below result }
    {
        self.below.limits().width.min(32) as usize
    }

    // A copy to the next place. The 16 are taken in turn, so that the copy that came first goes first.
    fn take_place(&mut self, copy: RowCopy)
        ensures below { self.new.below ≡ self.old.below }
        ensures table { record { slots = self.new.slots; next = self.new.next } ≡ with_copy (record { slots = self.old.slots; next = self.old.next }) copy }
    {
        self.slots[self.next] = Some(copy);
        self.next = (self.next + 1) % 16;
    }

    /// Reads an entry as every journal does; an accepted read leaves a copy of its row in the table, and the read of a row
    /// with a copy does nothing to the journal below.
    pub fn fetch(
        &mut self,
        start: u64,
        position: u64,
        key: &mut [u8],
    ) -> Result<Entry, JournalFault>
        ensures { Fetches J.Journal.fits J.Journal.meaning self.old.below self.new.below (record { slots = self.old.slots; next = self.old.next }) (record { slots = self.new.slots; next = self.new.next }) start position key.old key.new result }
    {
        let width = self.key_width();
        match find(&self.slots, start, position) {
            Some(copy) => copy.read(width, key),
            None => {
                let entry = self.below.read_entry(start, position, key)?;
                // An accepted read had room for the key; a journal that does not fit could say otherwise.
                if width <= key.len() {
                    let copy = RowCopy::new(start, position, entry, &key[..width]);
                    self.take_place(copy);
                }
                Ok(entry)
            }
        }
    }
}

impl<J: Journal> Journal for Cache<J> {
    ghost meaning = { λ t. J.Journal.meaning t.below };

    ghost past = { J.Journal.past };

    ghost fits = { λ o t. CacheFits J.Journal.fits J.Journal.meaning o t.below t.slots };

    fn limits(&self) -> Limits {
        self.below.limits()
    }

    fn floor(&self) -> u64 {
        self.below.floor()
    }

    fn first_start(&self, from: u64) -> Option<u64> {
        self.below.first_start(from)
    }

    fn row_count(&self, start: u64) -> u64 {
        self.below.row_count(start)
    }

    fn append(
        &mut self,
        start: u64,
        label: Label,
        key: &[u8],
        value: &[u8],
    ) -> Result<u64, JournalFault>
        ensures promise { Appends ⟦<Self as Journal>⟧.fits ⟦<Self as Journal>⟧.meaning self.old self.new start label key.now value.now result }
        ensures slots { self.new.slots ≡ self.old.slots }
        ensures next { self.new.next ≡ self.old.next }
    {
        self.below.append(start, label, key, value)
    }

    fn read_entry(
        &mut self,
        start: u64,
        position: u64,
        key: &mut [u8],
    ) -> Result<Entry, JournalFault>
        ensures promise { ReadsEntry ⟦<Self as Journal>⟧.fits ⟦<Self as Journal>⟧.meaning self.old self.new start position key.old key.new result }
        ensures fetched { Fetches J.Journal.fits J.Journal.meaning self.old.below self.new.below (record { slots = self.old.slots; next = self.old.next }) (record { slots = self.new.slots; next = self.new.next }) start position key.old key.new result }
    {
        self.fetch(start, position, key)
    }

    fn read_value(
        &mut self,
        start: u64,
        position: u64,
        value: &mut [u8],
    ) -> Result<u64, JournalFault>
        ensures promise { ReadsValue ⟦<Self as Journal>⟧.fits ⟦<Self as Journal>⟧.meaning self.old self.new start position value.old value.new result }
        ensures slots { self.new.slots ≡ self.old.slots }
        ensures next { self.new.next ≡ self.old.next }
    {
        self.below.read_value(start, position, value)
    }

    fn prune(&mut self, min: u64) -> bool
        ensures promise { Prunes ⟦<Self as Journal>⟧.fits ⟦<Self as Journal>⟧.meaning self.old self.new min result }
        ensures slots { self.new.slots ≡ map (forgotten min) self.old.slots }
        ensures next { self.new.next ≡ self.old.next }
    {
        forget(&mut self.slots, min);
        self.below.prune(min)
    }
}
