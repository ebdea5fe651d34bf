// Memory rows as a journal, and how they begin.

ghost use Rattle.std.specs.Prelude.{◌≡◌, length};
ghost use Rattle.journal.specs.Making.{checked, made, empty};
ghost use Rattle.journal.specs.Promises.{TellsLimits};
ghost use Rattle.memory_layout.specs.View.{Well, meaning_of};
ghost use Rattle.memory.specs.Start.{start_fault};

use super::{Memory, prune_heads};
use journal::Journal;
use journal::fault::JournalFault;
use journal::limits::{Limits, NOTHING};
use journal::row::{Entry, Label};
use journal::slots::nearer;
use memory_layout::record::RowRecord;

impl<'a> Journal for Memory<'a> {
    ghost meaning = { λ t. meaning_of t };

    ghost past = { Unit {0} };

    ghost fits = { λ _ t. Well t };

    // Of a memory that it is handed a proof learns here that its tables are right.
    fn limits(&self) -> Limits
        ensures promise { TellsLimits ⟦<Self as Journal>⟧.fits ⟦<Self as Journal>⟧.meaning self.now result }
        ensures well { Well self.now }
    {
        Limits {
            slots: self.slots as u64,
            rows: self.rows as u64,
            bytes: self.limit as u64,
            width: self.width as u64,
        }
    }

    fn floor(&self) -> u64 {
        self.floor
    }

    fn first_start(&self, from: u64) -> Option<u64> {
        self.heads[..self.slots].iter().fold(None, |best, head| {
            nearer(best, head.count as u64, head.start, from)
        })
    }

    fn row_count(&self, start: u64) -> u64 {
        // A `match`, here and in the append: of a closure over `self` that an `Option` calls a proof learns nothing.
        match self.find(start) {
            Some(slot) => self.heads[slot].count as u64,
            None => 0,
        }
    }

    fn append(
        &mut self,
        start: u64,
        label: Label,
        key: &[u8],
        value: &[u8],
    ) -> Result<u64, JournalFault> {
        if key.len() != self.width {
            return Err(JournalFault::WrongWidth);
        }
        if start < self.floor {
            return Err(JournalFault::BelowFloor { section: start });
        }
        let slot = match self.find(start) {
            Some(slot) => slot,
            None => self
                .vacant()
                .ok_or(JournalFault::NoSlot { section: start })?,
        };
        self.push(slot, start, label, key, value)
    }

    fn read_entry(
        &mut self,
        start: u64,
        position: u64,
        key: &mut [u8],
    ) -> Result<Entry, JournalFault> {
        self.entry_at(start, position, key)
    }

    fn read_value(
        &mut self,
        start: u64,
        position: u64,
        value: &mut [u8],
    ) -> Result<u64, JournalFault> {
        self.value_at(start, position, value)
    }

    fn prune(&mut self, min: u64) -> bool {
        let gone = prune_heads(&mut self.heads[..self.slots], min);
        self.floor = self.floor.max(min);
        gone
    }
}

impl<'a> Memory<'a> {
    /// Whether memory rows of these limits can begin in these slices.
    pub fn check(records: &[RowRecord], bytes: &[u8], limits: Limits) -> Result<(), JournalFault>
        ensures { result ≡ checked (start_fault limits (length records.now) (length bytes.now)) }
    {
        if limits.in_range()
            && records.len() as u64 == limits.slots * limits.rows
            && bytes.len() as u64 == limits.slots * (limits.rows * limits.width + limits.bytes)
        {
            Ok(())
        } else {
            Err(JournalFault::WrongSizes)
        }
    }

    /// Memory rows that keep nothing yet, whatever the slices held; of limits 0 where the check refuses.
    // No `Result`, by rule: what was checked is not refused, and whoever forgot the check gets a journal that keeps nothing.
    pub fn start(records: &'a mut [RowRecord], bytes: &'a mut [u8], limits: Limits) -> Memory<'a>
        ensures fit { Well result }
        ensures meaning { meaning_of result ≡ made (start_fault limits (length records.old) (length bytes.old)) (empty limits) }
    {
        match Memory::check(records, bytes, limits) {
            Ok(()) => Memory::fresh(records, bytes, limits),
            Err(_) => Memory::fresh(&mut records[..0], &mut bytes[..0], NOTHING),
        }
    }
}
