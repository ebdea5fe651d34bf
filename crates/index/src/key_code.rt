// What the index keeps of a key.

ghost use Rattle.std.specs.Prelude.{◌≡◌, ◌<◌};
ghost use Rattle.index_layout.specs.Views.{bucket_of};

/// What spreads hashes over the buckets, so that those that end alike do not meet: 2^64 by the golden section, made odd.
pub(crate) const SPREAD: u64 = 0x9E37_79B9_7F4A_7C15;

/// A translated key and its hash.
#[derive(Clone, Copy, Debug, PartialEq, Eq)]
pub struct KeyCode {
    pub code: u64,
    pub hash: u64,
}

impl KeyCode {
    /// The bucket of the hash.
    pub fn bucket(self) -> u8
        ensures is { result ≡ bucket_of self.hash }
        ensures below { result < 128 }
    {
        (self.hash.wrapping_mul(SPREAD) >> 57) as u8
    }
}
