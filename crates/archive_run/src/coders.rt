// Translators of this program's own, that make the index's work hard: equal hashes for all keys, and equal translated keys.

ghost use Rattle.std.specs.Prelude.{◌≡◌, ◌/◌};
ghost use Rattle.keys.specs.Translators.{leading, count_of};

use keys::translator::{Leading, Translator};

/// The leading bytes, under one hash for all.
#[derive(Clone, Copy, Debug, PartialEq, Eq)]
pub struct OneHash(pub Leading);

impl Translator for OneHash {
    ghost translated = { λ t. leading (count_of t.0) };

    ghost hashed = { λ _ _. 5 };

    fn translate(&self, key: &[u8]) -> u64 {
        self.0.translate(key)
    }

    fn hash(&self, _: u64) -> u64 {
        5
    }
}

/// Half of the first byte, so that keys share a translated key by twos.
#[derive(Clone, Copy, Debug, PartialEq, Eq)]
pub struct Halved;

impl Translator for Halved {
    ghost translated = { λ _ xs. leading 1 xs / 2 };

    ghost hashed = { λ _ t. t };

    fn translate(&self, key: &[u8]) -> u64 {
        Leading::One.translate(key) / 2
    }

    fn hash(&self, code: u64) -> u64 {
        code
    }
}
