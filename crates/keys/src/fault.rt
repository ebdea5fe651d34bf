// What the key layer refuses, and the five parts that every refusal shows.

ghost use Rattle.std.specs.Prelude.{◌≡◌};
ghost use Rattle.keys.specs.Faults.{parts_of};

#[derive(Clone, Copy, Debug, PartialEq, Eq)]
pub enum KeyFault {
    /// The bytes handed in are no key: the width where there are more or fewer, else the first bad place.
    // One number for both, as the refusal shows it: a place is below the width.
    NotAKey { amount: u64 },
    /// A load met a row whose key bytes are no key of the archive's kind.
    StoredKey { section: u64, position: u64 },
}

/// A refusal as every layer shows it; what a refusal does not name is 0.
// Numbers, since this is the form in which a refusal leaves the library, as docs/REFUSALS.md has it: within it they are enums.
// As C lays it out, since callers in C are shown it too.
#[repr(C)]
#[derive(Clone, Copy, Debug, PartialEq, Eq)]
pub struct FaultParts {
    pub number: u64,
    pub layer: u64,
    pub section: u64,
    pub position: u64,
    pub amount: u64,
}

// What no refusal of this layer names is 0.
const BARE: FaultParts = FaultParts {
    number: 0,
    layer: 1,
    section: 0,
    position: 0,
    amount: 0,
};

impl KeyFault {
    // The conversion that `From` is made of, and a method for whoever only looks at a fault.
    pub fn parts(&self) -> FaultParts
        ensures { result ≡ parts_of self.now }
    {
        match *self {
            KeyFault::NotAKey { amount } => FaultParts {
                number: 17,
                amount,
                ..BARE
            },
            KeyFault::StoredKey { section, position } => FaultParts {
                number: 6,
                section,
                position,
                ..BARE
            },
        }
    }
}

/// So that `?` passes a key's refusal up as its parts.
impl From<KeyFault> for FaultParts {
    ghost from_gives = { λ f r. r ≡ parts_of f };

    fn from(f: KeyFault) -> FaultParts {
        f.parts()
    }
}
