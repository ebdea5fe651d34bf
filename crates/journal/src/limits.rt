// The four limits of a journal, and the ranges that they may be chosen from.

ghost use Rattle.std.specs.Prelude.{◌≡◌};
ghost use Rattle.journal.specs.Making.{in_range};

use crate::row::CHECK_SIZE;

// As C lays it out, since callers in C choose limits too.
#[repr(C)]
#[derive(Clone, Copy, Debug, PartialEq, Eq)]
pub struct Limits {
    /// How many sections may be kept.
    pub slots: u64,
    /// How many rows a section may have.
    pub rows: u64,
    /// What the rows of a section may cost.
    pub bytes: u64,
    /// How many bytes each key has.
    pub width: u64,
}

/// The limits of a journal that keeps nothing.
pub const NOTHING: Limits = Limits {
    slots: 0,
    rows: 0,
    bytes: 0,
    width: 0,
};

impl Limits {
    /// Whether a journal may be begun with these limits.
    pub fn in_range(&self) -> bool
        ensures { result ≡ in_range self.now }
    {
        (1..=64).contains(&self.slots)
            && (1..=1024).contains(&self.rows)
            && (CHECK_SIZE..=65536).contains(&self.bytes)
            && (1..=32).contains(&self.width)
    }
}
