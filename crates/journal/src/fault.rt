// What the journal layer refuses.

ghost use Rattle.std.specs.Prelude.{◌≡◌};
ghost use Rattle.journal.specs.Faults.{parts_of};

use keys::fault::FaultParts;

#[derive(Clone, Copy, Debug, PartialEq, Eq)]
pub enum JournalFault {
    /// An append's key is not of the journal's width.
    WrongWidth,
    /// A beginning with limits out of range, or with a slice of another length than they ask for.
    WrongSizes,
    /// A stored page whose header is wrong, by its slot.
    BadHeader {
        slot: u64,
    },
    /// A stored row that breaks its layout, by its page's slot and its place there.
    BadRow {
        slot: u64,
        row: u64,
    },
    /// The value is no longer what was stored.
    Damaged {
        section: u64,
        position: u64,
    },
    /// The section would start below the floor.
    BelowFloor {
        section: u64,
    },
    /// The section is new, and every slot is taken.
    NoSlot {
        section: u64,
    },
    /// The section has all its rows.
    RowsFull {
        section: u64,
    },
    /// The section's cost would pass its limit.
    BytesFull {
        section: u64,
    },
    /// A buffer is too short; the amount is the length that it takes.
    Short {
        section: u64,
        position: u64,
        amount: u64,
    },
    /// There is no row at that place.
    NoRow {
        section: u64,
        position: u64,
    },
}

// What no refusal of this layer names is 0.
const BARE: FaultParts = FaultParts {
    number: 0,
    layer: 2,
    section: 0,
    position: 0,
    amount: 0,
};

impl JournalFault {
    fn number(&self) -> u64
        ensures { result ≡ (parts_of self.now).number }
    {
        match self {
            JournalFault::WrongWidth => 3,
            JournalFault::WrongSizes => 4,
            JournalFault::BadHeader { .. } => 5,
            JournalFault::BadRow { .. } => 6,
            JournalFault::Damaged { .. } => 7,
            JournalFault::BelowFloor { .. } => 11,
            JournalFault::NoSlot { .. } => 12,
            JournalFault::RowsFull { .. } => 13,
            JournalFault::BytesFull { .. } => 14,
            JournalFault::Short { .. } => 15,
            JournalFault::NoRow { .. } => 16,
        }
    }

    /// The five parts; what a refusal does not name is 0.
    // The conversion that `From` is made of, and a method for whoever only looks at a fault.
    pub fn parts(&self) -> FaultParts
        ensures { result ≡ parts_of self.now }
    {
        let bare = FaultParts {
            number: self.number(),
            ..BARE
        };
        match *self {
            JournalFault::WrongWidth | JournalFault::WrongSizes => bare,
            JournalFault::BadHeader { slot: section }
            | JournalFault::BelowFloor { section }
            | JournalFault::NoSlot { section }
            | JournalFault::RowsFull { section }
            | JournalFault::BytesFull { section } => FaultParts { section, ..bare },
            JournalFault::BadRow {
                slot: section,
                row: position,
            }
            | JournalFault::Damaged { section, position }
            | JournalFault::NoRow { section, position } => FaultParts {
                section,
                position,
                ..bare
            },
            JournalFault::Short {
                section,
                position,
                amount,
            } => FaultParts {
                section,
                position,
                amount,
                ..bare
            },
        }
    }
}

/// So that `?` passes a journal's refusal up as its parts, none of them lost.
impl From<JournalFault> for FaultParts {
    ghost from_gives = { λ f r. r ≡ parts_of f };

    fn from(f: JournalFault) -> FaultParts {
        f.parts()
    }
}
