// Translators: key bytes to a translated key, and a translated key to a hash.

ghost use Rattle.std.specs.Prelude.{◌≡◌, ℕ, ◌+◌, ◌*◌, ◌^◌, ◌<◌, ◌≤◌, List, slice_index};
ghost use Rattle.keys.specs.Fnv as hash;
ghost use Rattle.keys.specs.Translators.{behind, leading, count_of, translated_by};

use crate::fnv::fnv_1a_32;

/// Each answer depends on the translator and on the input alone.
pub trait Translator {
    ghost translated: { Self → List ℕ → ℕ };

    ghost hashed: { Self → ℕ → ℕ };

    fn translate(&self, key: &[u8]) -> u64
        ensures { result ≡ translated self.now key.now };

    fn hash(&self, code: u64) -> u64
        ensures { result ≡ hashed self.now code };
}

/// The first bytes of a key as a big-endian number; the type allows these four counts and no other.
#[derive(Clone, Copy, Debug, PartialEq, Eq)]
pub enum Leading {
    One,
    Two,
    Four,
    Eight,
}

impl Leading {
    fn count(self) -> usize
        ensures { (result ≡ count_of self) × (result ≤ 8) }
    {
        match self {
            Leading::One => 1,
            Leading::Two => 2,
            Leading::Four => 4,
            Leading::Eight => 8,
        }
    }
}

// One byte more behind those that a number was made of. Of eight bytes in all none is lost.
fn with_byte(number: u64, b: u8) -> u64
    ensures { result ≡ behind number b }
{
    number.wrapping_mul(256).wrapping_add(u64::from(b))
}

impl Translator for Leading {
    ghost translated = { λ t. leading (count_of t) };

    ghost hashed = { λ _ t. t };

    fn translate(&self, key: &[u8]) -> u64 {
        let count = self.count();
        let given = key.len().min(count);
        let number = key[..given]
            .iter()
            .fold(0, |number, b| with_byte(number, *b));
        // Zeros follow a key that is shorter.
        [0; 8][given..count]
            .iter()
            .fold(number, |number, b| with_byte(number, *b))
    }

    fn hash(&self, code: u64) -> u64 {
        code
    }
}

// `hash` has one body for both kinds: as a default in the trait it would have to be right for every kind's `hashed`.
/// FNV-1a 32 of the whole key.
#[derive(Clone, Copy, Debug, PartialEq, Eq)]
pub struct Fnv;

impl Translator for Fnv {
    ghost translated = { λ _. hash.fnv_1a_32 };

    ghost hashed = { λ _ t. t };

    fn translate(&self, key: &[u8]) -> u64 {
        u64::from(fnv_1a_32(key))
    }

    fn hash(&self, code: u64) -> u64 {
        code
    }
}

/// One of the five, chosen while a program runs.
#[derive(Clone, Copy, Debug, PartialEq, Eq)]
pub enum AnyTranslator {
    Leading(Leading),
    Fnv(Fnv),
}

impl Translator for AnyTranslator {
    ghost translated = { translated_by };

    ghost hashed = { λ _ t. t };

    fn translate(&self, key: &[u8]) -> u64 {
        match self {
            AnyTranslator::Leading(leading) => leading.translate(key),
            AnyTranslator::Fnv(fnv) => fnv.translate(key),
        }
    }

    fn hash(&self, code: u64) -> u64 {
        match self {
            AnyTranslator::Leading(leading) => leading.hash(code),
            AnyTranslator::Fnv(fnv) => fnv.hash(code),
        }
    }
}
