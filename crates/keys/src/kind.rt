// A kind of key, by the bytes that its keys give and the flaw of bytes that no key gives.

ghost use Rattle.std.specs.Prelude.{◌≡◌, ℕ, ◌<◌, ◌≤◌, List, ◌++◌, length, drop, Some, None, Decides, Option, ◌≢◌};
ghost use Rattle.keys.specs.Reading.{read_answer, read_bytes};

use crate::bytes::same_bytes;
use crate::fault::KeyFault;

pub trait Key: Sized {
    /// How many bytes each key of the kind gives.
    const W: usize;

    ghost W: { ℕ };

    ghost bytes: { Self → List ℕ };

    /// None where some key gives the bytes; else the width for a wrong length, or the first bad place.
    ghost flaw: { List ℕ → Option ℕ };

    ghost first_bytes: { List ℕ };

    /// The fixed key that there is before any other was read.
    fn first() -> Self
        ensures { bytes result ≡ first_bytes };

    /// The bytes that the key gives.
    fn as_bytes(&self) -> &[u8]
        ensures { result.now ≡ bytes self.now };

    /// Becomes the key that gives these bytes, or stays as it is where no key does.
    fn read(&mut self, from: &[u8]) -> Result<(), KeyFault>
        ensures answer { result ≡ read_answer (flaw from.now) }
        ensures after { bytes self.new ≡ read_bytes (flaw from.now) from.now (bytes self.old) };

    /// `W`, for whoever has no constant at hand.
    fn width() -> usize
        ensures { result ≡ W }
    {
        Self::W
    }

    /// Gives the key's bytes into the front; the bytes behind them stay.
    fn copy_to(&self, out: &mut [u8; 32])
        ensures { out.new ≡ bytes self.now ++ drop W out.old }
    {
        let bytes = self.as_bytes();
        out[..bytes.len()].copy_from_slice(bytes);
    }

    /// Whether the two give the same bytes, and so, by the kind's law, are the same key.
    fn same(&self, other: &Self) -> bool
        ensures { Decides result (bytes self.now ≡ bytes other.now) }
    {
        same_bytes(self.as_bytes(), other.as_bytes())
    }

    ghost some: { 1 ≤ W };

    ghost narrow: { W ≤ 32 };

    ghost long: { (k : Self) → length (bytes k) ≡ W };

    ghost apart: { (a b : Self) → bytes a ≡ bytes b → a ≡ b };

    ghost clean: { (k : Self) → flaw (bytes k) ≡ None };

    ghost given: { (xs : List ℕ) → flaw xs ≡ None → ((k : Self) × (bytes k ≡ xs)) };

    ghost sized: { (xs : List ℕ) → (length xs ≢ W) → flaw xs ≡ Some W };

    ghost inside: { (xs : List ℕ) (p : ℕ) → length xs ≡ W → flaw xs ≡ Some p → p < W };
}
