// What a kind's laws come to for whoever reads a key, in the words of the subject.

ghost use Rattle.std.specs.Prelude.{◌≡◌, true, false};

use crate::kind::Key;

/// Reads bytes into a key, and says whether some key gives them: exactly then they are taken, that key it then is,
/// and otherwise the key handed in stays.
pub fn accepts<K: Key>(key: &mut K, from: &[u8]) -> bool
    ensures gives { result ≡ true → K.Key.bytes key.new ≡ from.now }
    ensures takes { (k : K) → K.Key.bytes k ≡ from.now → (result ≡ true) × (key.new ≡ k) }
    ensures keeps { result ≡ false → key.new ≡ key.old }
{
    key.read(from).is_ok()
}
