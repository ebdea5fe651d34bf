// A turn: one call of a run, with its buffers and a place for its answer.

ghost use Rattle.std.specs.Prelude.{◌≡◌, None};

use crate::answer::{Place, Reply};
use crate::call::Call;
use crate::fault::ArchiveFault;

/// A run answers its turns where they lie. An answer is plain data, so that writing it lets nothing go, and neither the key nor
/// anything else here has to be `Drop` for it; what a turn holds a later call can name by the turn's place in the run.
#[derive(Drop)]
pub struct Turn<K> {
    pub call: Call<K>,
    /// The value that a put stores, or the buffer that a get fills.
    pub bytes: Vec<u8>,
    /// The slice that a listing fills.
    pub places: Vec<Place>,
    /// None until the call was made.
    pub answer: Option<Result<Reply, ArchiveFault>>,
}

impl<K> Turn<K> {
    /// A turn that has yet to be made.
    pub fn new(call: Call<K>, bytes: Vec<u8>, places: Vec<Place>) -> Turn<K>
        ensures { (result.call ≡ call) × (result.bytes ≡ bytes) × (result.places ≡ places) × (result.answer ≡ None) }
    {
        Turn {
            call,
            bytes,
            places,
            answer: None,
        }
    }
}
