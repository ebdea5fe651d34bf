// An answer in numbers.

ghost use Rattle.std.specs.Prelude.{◌≡◌, Some};
ghost use Rattle.lent.specs.Told.{tells, told, told_put, told_pruned, told_found, told_counts, told_reply, refused};

use keys::fault::FaultParts;
use rules::answer::{Counts, Found, Pruned, Put, Reply};
use rules::fault::ArchiveFault;

/// What came of a turn: which answer it is, by a number, and its parts. Those of a refusal are as docs/REFUSALS.md has them; of
/// another answer they are what it tells, and 0 else.
#[repr(C)]
#[derive(Clone, Copy, Debug, PartialEq, Eq)]
pub struct Answer {
    pub kind: u64,
    pub parts: FaultParts,
}

/// The call was not made yet.
pub const NOT_MADE: u64 = 0;

/// The call was refused.
pub const REFUSED: u64 = 1;

/// The amount is how many records there are.
pub const LOADED: u64 = 2;

pub const BELOW_FLOOR: u64 = 3;

pub const ALREADY_THERE: u64 = 4;

/// In the section, at the position.
pub const STORED: u64 = 5;

/// The floor was there already, or above.
pub const UNCHANGED: u64 = 6;

/// The amount is how many records went, the number how many move numbers.
pub const STRUCK: u64 = 7;

pub const ABSENT: u64 = 8;

/// The record with the number, at the position; the amount is how many bytes its value has.
pub const FOUND: u64 = 9;

pub const NO: u64 = 10;

pub const YES: u64 = 11;

/// The amount is how many places were filled.
pub const LISTED_BY_NUMBER: u64 = 12;

/// The amount is how many places were filled, the number how many records share the translated key.
pub const LISTED_BY_KEY: u64 = 13;

/// The amount is how many records there are, the number how many move numbers. There is no floor yet.
pub const COUNTED: u64 = 14;

/// The same, and the section is the floor.
pub const COUNTED_FROM: u64 = 15;

/// The turn names no call.
pub const NO_SUCH_CALL: u64 = 16;

impl Answer {
    /// The answer of a kind that tells these.
    pub fn new(kind: u64, number: u64, section: u64, position: u64, amount: u64) -> Answer
        ensures { result ≡ tells kind number section position amount }
    {
        Answer {
            kind,
            parts: FaultParts {
                number,
                layer: 0,
                section,
                position,
                amount,
            },
        }
    }
}

impl From<Put> for Answer {
    ghost from_gives = { λ p a. a ≡ told_put p };

    fn from(put: Put) -> Answer {
        match put {
            Put::BelowFloor => Answer::new(BELOW_FLOOR, 0, 0, 0, 0),
            Put::AlreadyThere => Answer::new(ALREADY_THERE, 0, 0, 0, 0),
            Put::Stored { section, position } => Answer::new(STORED, 0, section, position, 0),
        }
    }
}

impl From<Pruned> for Answer {
    ghost from_gives = { λ p a. a ≡ told_pruned p };

    fn from(pruned: Pruned) -> Answer {
        match pruned {
            Pruned::Unchanged => Answer::new(UNCHANGED, 0, 0, 0, 0),
            Pruned::Struck { numbers, records } => Answer::new(STRUCK, numbers, 0, 0, records),
        }
    }
}

impl From<Option<Found>> for Answer {
    ghost from_gives = { λ f a. a ≡ told_found f };

    fn from(found: Option<Found>) -> Answer {
        match found {
            None => Answer::new(ABSENT, 0, 0, 0, 0),
            Some(found) => {
                let place = found.place;
                Answer::new(FOUND, place.number, 0, place.position, found.length)
            }
        }
    }
}

impl From<Counts> for Answer {
    ghost from_gives = { λ c a. a ≡ told_counts c };

    fn from(counts: Counts) -> Answer {
        match counts.floor {
            None => Answer::new(COUNTED, counts.numbers, 0, 0, counts.records),
            Some(floor) => Answer::new(COUNTED_FROM, counts.numbers, floor, 0, counts.records),
        }
    }
}

impl From<Reply> for Answer {
    ghost from_gives = { λ r a. a ≡ told_reply r };

    fn from(reply: Reply) -> Answer {
        match reply {
            Reply::Loaded { records } => Answer::new(LOADED, 0, 0, 0, records),
            Reply::Put(put) => Answer::from(put),
            Reply::Pruned(pruned) => Answer::from(pruned),
            Reply::Found(found) => Answer::from(found),
            Reply::Has(has) => Answer::new(if has { YES } else { NO }, 0, 0, 0, 0),
            Reply::ListedByNumber { count } => Answer::new(LISTED_BY_NUMBER, 0, 0, 0, count),
            Reply::ListedByKey(listed) => {
                Answer::new(LISTED_BY_KEY, listed.candidates, 0, 0, listed.count)
            }
            Reply::Counted(counts) => Answer::from(counts),
        }
    }
}

impl From<FaultParts> for Answer {
    ghost from_gives = { λ f a. a ≡ refused f };

    fn from(parts: FaultParts) -> Answer {
        Answer {
            kind: REFUSED,
            parts,
        }
    }
}

impl From<Result<Reply, ArchiveFault>> for Answer {
    ghost from_gives = { λ r a. a ≡ told (Some r) };

    fn from(said: Result<Reply, ArchiveFault>) -> Answer {
        match said {
            Ok(reply) => Answer::from(reply),
            Err(fault) => Answer::from(fault.parts()),
        }
    }
}
