// A key as searches want it: its bytes, and its translated key with the hash.

ghost use Rattle.std.specs.Prelude.{◌≡◌};

use index::key_code::KeyCode;
use keys::kind::Key;
use keys::translator::Translator;

/// What a translator makes of key bytes.
pub(crate) fn coded<T: Translator>(translator: &T, key: &[u8]) -> KeyCode
    ensures code { result.code ≡ T.Translator.translated translator.now key.now }
    ensures hash { result.hash ≡ T.Translator.hashed translator.now result.code }
{
    let code = translator.translate(key);
    KeyCode {
        code,
        hash: translator.hash(code),
    }
}

#[derive(Clone, Copy, Debug, PartialEq, Eq)]
pub(crate) struct Wanted<'a> {
    pub(crate) key: &'a [u8],
    pub(crate) coded: KeyCode,
}

impl<'a> Wanted<'a> {
    pub(crate) fn new<T: Translator, K: Key>(translator: &T, key: &'a K) -> Wanted<'a>
        ensures key { result.key.now ≡ K.Key.bytes key.now }
        ensures code { result.coded.code ≡ T.Translator.translated translator.now (K.Key.bytes key.now) }
        ensures hash { result.coded.hash ≡ T.Translator.hashed translator.now result.coded.code }
    {
        let key = key.as_bytes();
        Wanted {
            key,
            coded: coded(translator, key),
        }
    }
}
