// A journal by its meaning: what every journal answers and keeps, whatever it is stored in.
#![tactic(auto)]

ghost use Rattle.journal.specs.Meaning.{Meaning};
ghost use Rattle.journal.specs.Promises.{TellsLimits, TellsFloor, TellsFirst, TellsCount, Appends, ReadsEntry, ReadsValue, Prunes};

pub mod fault;
pub mod limits;
pub mod reading;
pub mod row;
pub mod slots;

use fault::JournalFault;
use limits::Limits;
use row::{Entry, Label};

/// Rows in sections, by start and position. Reads take `&mut self`, so that a cache may fill itself.
// A start goes alone as often as with a position, and label, key and value only here: so the calls take numbers and slices.
pub trait Journal {
    /// What the journal holds, as plain data: all that an answer may rest on.
    ghost meaning: { Self → Meaning };

    /// What the journal may remember of how it began: nothing, or for a wrapper what it and the journal below remember.
    ghost past: { Type 0 };

    /// What has to hold beside the meaning, as that a cache's entries are those below. Whoever makes a journal gives it,
    /// each call keeps it for every past, and each promise rests on it.
    ghost fits: { past → Self → Type 0 };

    /// The four limits; and whoever asks learns that the meaning is lawful.
    fn limits(&self) -> Limits
        ensures { TellsLimits fits meaning self.now result };

    /// The number below which no section may start.
    fn floor(&self) -> u64
        ensures { TellsFloor fits meaning self.now result };

    /// The first kept start at or above `from`.
    fn first_start(&self, from: u64) -> Option<u64>
        ensures { TellsFirst fits meaning self.now from result };

    /// How many rows a section has; none where it is not kept.
    fn row_count(&self, start: u64) -> u64
        ensures { TellsCount fits meaning self.now start result };

    /// One row more at the end of a section, which opens where it is not kept; the answer is the row's position.
    fn append(
        &mut self,
        start: u64,
        label: Label,
        key: &[u8],
        value: &[u8],
    ) -> Result<u64, JournalFault>
        ensures { Appends fits meaning self.old self.new start label key.now value.now result };

    /// A row's label and value length, its key to the front of `key`.
    fn read_entry(
        &mut self,
        start: u64,
        position: u64,
        key: &mut [u8],
    ) -> Result<Entry, JournalFault>
        ensures { ReadsEntry fits meaning self.old self.new start position key.old key.new result };

    /// A row's value to the front of `value`; the answer is its length.
    fn read_value(
        &mut self,
        start: u64,
        position: u64,
        value: &mut [u8],
    ) -> Result<u64, JournalFault>
        ensures { ReadsValue fits meaning self.old self.new start position value.old value.new result };

    /// Drops the sections that start below `min`, which the floor then is at least; answers whether one went, which is no refusal.
    fn prune(&mut self, min: u64) -> bool
        ensures { Prunes fits meaning self.old self.new min result };
}
