// What an export answers.

ghost use Rattle.std.specs.Prelude.{◌≡◌};
ghost use Rattle.lundwazo.specs.Exports.{bare, told};

use journal::fault::JournalFault;
use keys::fault::FaultParts;

/// Whether it went well, by a number, and the parts of the refusal where there is one.
// A number, since C has no enum with fields.
#[repr(C)]
#[derive(Clone, Copy, Debug, PartialEq, Eq)]
pub struct Outcome {
    pub status: u64,
    pub fault: FaultParts,
}

pub const DONE: u64 = 0;

/// The journal refused it; the fault says why.
pub const REFUSED: u64 = 1;

pub const NO_SUCH_KIND: u64 = 2;

pub const NO_SUCH_TRANSLATOR: u64 = 3;

impl Outcome {
    /// An outcome with no refusal to tell.
    pub(crate) fn bare(status: u64) -> Outcome
        ensures { result ≡ bare status }
    {
        Outcome {
            status,
            fault: FaultParts {
                number: 0,
                layer: 0,
                section: 0,
                position: 0,
                amount: 0,
            },
        }
    }
}

impl From<Result<(), JournalFault>> for Outcome {
    ghost from_gives = { λ r o. o ≡ told r };

    fn from(answer: Result<(), JournalFault>) -> Outcome {
        match answer {
            Ok(()) => Outcome::bare(DONE),
            Err(fault) => Outcome {
                status: REFUSED,
                fault: fault.parts(),
            },
        }
    }
}
