// What a row carries, and what it costs.

ghost use Rattle.std.specs.Prelude.{◌≡◌, ◌-◌, ◌^◌, min};
ghost use Rattle.journal.specs.Meaning.{cost_of};

/// The bytes that a value's check takes beside the value, in every journal alike.
pub const CHECK_SIZE: u64 = 4;

/// What a row bears beside its key and its value. Journals carry it as it is.
#[derive(Clone, Copy, Debug, PartialEq, Eq)]
pub struct Label {
    /// The move number.
    pub number: u64,
}

/// What reading an entry answers.
#[derive(Clone, Copy, Debug, PartialEq, Eq)]
pub struct Entry {
    pub label: Label,
    /// The length of the row's value, sound or damaged.
    pub length: u64,
}

impl Entry {
    /// What the row costs its section. No kept row costs more than a `u64` holds, so the top is never met.
    pub fn cost(&self) -> u64
        ensures { result ≡ min (cost_of self.now.length) (2 ^ 64 - 1) }
    {
        self.length.saturating_add(CHECK_SIZE)
    }
}
