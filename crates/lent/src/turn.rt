// A turn in numbers and lent buffers.

use crate::answer::Answer;
use rules::answer::Place;

/// One call of a run, with its buffers and a place for its answer.
// Numbers for calls and answers, since C has no enum with fields. Within the library they are enums.
#[repr(C)]
pub struct Turn<'a> {
    /// Which call it is, by a number of `asking`.
    pub call: u64,
    /// The move number; of a load the section size, of a prune the minimum.
    pub number: u64,
    /// Beside the number, where the call is about a place.
    pub position: u64,
    /// Where the call is about a key.
    pub key: &'a [u8],
    /// The value that a put stores, or the buffer that a get fills.
    pub bytes: &'a mut [u8],
    /// The slice that a listing fills.
    pub places: &'a mut [Place],
    /// What came of it, once the run was made.
    pub answer: Answer,
}
