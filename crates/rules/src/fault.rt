// What the archive refuses: cases of its own, and those of the two layers below it whole.

ghost use Rattle.std.specs.Prelude.{◌≡◌};
ghost use Rattle.rules.specs.Faults.{parts_of};
ghost use Rattle.rules.specs.declared.fault.ArchiveFault.TheVariants.{Key, Journal};

use journal::fault::JournalFault;
use keys::fault::{FaultParts, KeyFault};

#[derive(Clone, Copy, Debug, PartialEq, Eq)]
pub enum ArchiveFault {
    /// A load with a section size of 0 or above 64.
    SectionSize,
    /// A load over a journal whose limits are beyond the archive's.
    JournalLimits,
    /// A load over a journal whose width is not that of the kind of key.
    KeyWidth,
    /// A load met a row whose number belongs to another section.
    WrongSection { section: u64, position: u64 },
    /// Nothing was loaded yet.
    NotLoaded,
    /// A load after one that was accepted.
    AlreadyLoaded,
    /// A listing's slice is too short; the amount is how many places it takes.
    ShortListing { amount: u64 },
    /// A slot too large for a handle.
    SlotTooLarge,
    /// A position too large for a handle.
    PositionTooLarge,
    Key(KeyFault),
    Journal(JournalFault),
}

// What no refusal of this layer names is 0.
const BARE: FaultParts = FaultParts {
    number: 0,
    layer: 3,
    section: 0,
    position: 0,
    amount: 0,
};

impl ArchiveFault {
    /// The five parts; what a refusal does not name is 0, and a refusal from below keeps its own.
    // The conversion that `From` is made of, and a method for whoever only looks at a fault.
    pub fn parts(&self) -> FaultParts
        ensures { result ≡ parts_of self.now }
    {
        match *self {
            ArchiveFault::SectionSize => FaultParts { number: 1, ..BARE },
            ArchiveFault::JournalLimits => FaultParts { number: 2, ..BARE },
            ArchiveFault::KeyWidth => FaultParts { number: 3, ..BARE },
            ArchiveFault::WrongSection { section, position } => FaultParts {
                number: 8,
                section,
                position,
                ..BARE
            },
            ArchiveFault::NotLoaded => FaultParts { number: 9, ..BARE },
            ArchiveFault::AlreadyLoaded => FaultParts { number: 10, ..BARE },
            ArchiveFault::ShortListing { amount } => FaultParts {
                number: 15,
                amount,
                ..BARE
            },
            ArchiveFault::SlotTooLarge => FaultParts { number: 18, ..BARE },
            ArchiveFault::PositionTooLarge => FaultParts { number: 19, ..BARE },
            ArchiveFault::Key(f) => f.parts(),
            ArchiveFault::Journal(f) => f.parts(),
        }
    }
}

/// So that `?` passes an archive's refusal up as its parts.
impl From<ArchiveFault> for FaultParts {
    ghost from_gives = { λ f r. r ≡ parts_of f };

    fn from(f: ArchiveFault) -> FaultParts {
        f.parts()
    }
}

/// So that `?` passes a key's refusal up whole.
impl From<KeyFault> for ArchiveFault {
    ghost from_gives = { λ f r. r ≡ Key f };

    fn from(f: KeyFault) -> ArchiveFault {
        ArchiveFault::Key(f)
    }
}

/// So that `?` passes a journal's refusal up whole.
impl From<JournalFault> for ArchiveFault {
    ghost from_gives = { λ f r. r ≡ Journal f };

    fn from(f: JournalFault) -> ArchiveFault {
        ArchiveFault::Journal(f)
    }
}
