// Bytes held against bytes, as every comparison of keys does it, and bytes taken as so many.

ghost use Rattle.std.specs.Prelude.{◌≡◌, Ok, Err, Decides, MatchResult};
ghost use Rattle.keys.specs.Reading.{taken};

use crate::fault::KeyFault;

/// `==` itself, under a contract that says what it decides.
pub fn same_bytes(a: &[u8], b: &[u8]) -> bool
    ensures { Decides result (a.now ≡ b.now) }
{
    a == b
}

/// Bytes as an array of the width, lent on and not copied, or the refusal of another length.
pub(crate) fn exactly<const N: usize>(from: &[u8]) -> Result<&[u8; N], KeyFault>
    ensures { MatchResult result (λ bytes. Ok bytes.now ≡ taken N from.now) (λ fault. Err fault ≡ taken N from.now) }
{
    // A `match`: with `map_err` the check was left with the refusal to show.
    match <&[u8; N]>::try_from(from) {
        Ok(bytes) => Ok(bytes),
        Err(_) => Err(KeyFault::NotAKey { amount: N as u64 }),
    }
}
