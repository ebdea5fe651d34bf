// Which call a turn asks for.

ghost use Rattle.std.specs.Prelude.{◌≡◌, Err};
ghost use Rattle.keys.specs.declared.fault.KeyFault.{KeyFault};
ghost use Rattle.lent.specs.Asked.{ok_as, read_key, asked, told_misread};
ghost use Rattle.lent.specs.Seen.{seen};
ghost use Rattle.lent.specs.declared.asking.Misread.TheVariants.{Key};
ghost use Rattle.rules.specs.Turns.{by_bytes};

use crate::answer::{Answer, NO_SUCH_CALL};
use crate::turn::Turn;
use journal::row::Label;
use keys::fault::KeyFault;
use keys::kind;
use rules::answer::Place;
use rules::call::Call;

pub const LOAD: u64 = 1;

pub const PUT: u64 = 2;

pub const PUT_MULTI: u64 = 3;

pub const PRUNE: u64 = 4;

pub const GET_NUMBER: u64 = 5;

pub const GET_KEY: u64 = 6;

pub const GET_PLACE: u64 = 7;

pub const HAS_NUMBER: u64 = 8;

pub const HAS_KEY: u64 = 9;

pub const HAS_BOTH: u64 = 10;

pub const LIST_NUMBER: u64 = 11;

pub const LIST_KEY: u64 = 12;

pub const COUNTS: u64 = 13;

/// Why a turn asks for no call.
#[derive(Clone, Copy, Debug, PartialEq, Eq)]
pub enum Misread {
    NoSuchCall,
    /// The bytes of the key are none.
    Key(KeyFault),
}

/// So that `?` passes a key's refusal up whole.
impl From<KeyFault> for Misread {
    ghost from_gives = { λ f m. m ≡ Key f };

    fn from(f: KeyFault) -> Misread {
        Misread::Key(f)
    }
}

impl From<Misread> for Answer {
    ghost from_gives = { λ m a. a ≡ told_misread m };

    fn from(misread: Misread) -> Answer {
        match misread {
            Misread::NoSuchCall => Answer::new(NO_SUCH_CALL, 0, 0, 0, 0),
            Misread::Key(fault) => Answer::from(fault.parts()),
        }
    }
}

// The key of these bytes.
fn key_of<K: kind::Key + Drop>(bytes: &[u8]) -> Result<K, KeyFault>
    ensures { ok_as K.bytes result ≡ read_key K.flaw bytes.now }
{
    let mut key = K::first();
    key.read(bytes)?;
    Ok(key)
}

impl Turn<'_> {
    /// The call that the turn asks for, of any kind of key.
    pub fn asked<K: kind::Key + Drop>(&self) -> Result<Call<K>, Misread>
        ensures { ok_as (by_bytes K.bytes) result ≡ asked K.flaw (seen self.now) }
    {
        let number = self.number;
        let label = Label { number };
        let place = Place {
            number,
            position: self.position,
        };
        Ok(match self.call {
            LOAD => Call::Load { size: number },
            PUT => Call::Put {
                label,
                key: key_of(self.key)?,
            },
            PUT_MULTI => Call::PutMulti {
                label,
                key: key_of(self.key)?,
            },
            PRUNE => Call::Prune { min: number },
            GET_NUMBER => Call::GetNumber { number },
            GET_KEY => Call::GetKey {
                key: key_of(self.key)?,
            },
            GET_PLACE => Call::GetPlace { place },
            HAS_NUMBER => Call::HasNumber { number },
            HAS_KEY => Call::HasKey {
                key: key_of(self.key)?,
            },
            HAS_BOTH => Call::HasBoth {
                number,
                key: key_of(self.key)?,
            },
            LIST_NUMBER => Call::ListNumber { number },
            LIST_KEY => Call::ListKey {
                key: key_of(self.key)?,
            },
            COUNTS => Call::Counts,
            _ => return Err(Misread::NoSuchCall),
        })
    }
}
