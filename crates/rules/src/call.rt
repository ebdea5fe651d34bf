// The archive's calls, each with what it is handed beside its buffers.

use crate::answer::Place;
use journal::row::Label;

#[derive(Drop)]
pub enum Call<K> {
    /// The rows of the journal become the kept records, `size` move numbers to a section.
    Load { size: u64 },
    /// Stores the turn's bytes, unless a kept record has the number.
    Put { label: Label, key: K },
    /// Stores the turn's bytes, whatever records have the number.
    PutMulti { label: Label, key: K },
    Prune { min: u64 },
    /// The earliest record of the number, its value to the front of the turn's bytes.
    GetNumber { number: u64 },
    /// Some record that bears the key.
    GetKey { key: K },
    /// The record at a place.
    GetPlace { place: Place },
    HasNumber { number: u64 },
    HasKey { key: K },
    HasBoth { number: u64, key: K },
    /// The places of the records with the number, to the front of the turn's places.
    ListNumber { number: u64 },
    ListKey { key: K },
    Counts,
}
