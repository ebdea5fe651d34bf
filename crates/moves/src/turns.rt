// Lines as turns of an archive.

use crate::ask::from_hex;
use crate::sailing::{ArchiveCall, Written};
use crate::stop::Stop;
use journal::row::Label;
use keys::box_number::BoxNumber;
use keys::digest::Digest;
use keys::kind::Key;
use rules::answer::Place;
use rules::call::Call;
use rules::turn::Turn;
use std::alloc::Global;

/// A kind of key as the script writes it.
pub trait KeyText: Key {
    /// The bytes that a word stands for.
    fn bytes_of(heap: Global, word: &str) -> Result<Vec<u8>, Stop>;
}

impl KeyText for BoxNumber {
    fn bytes_of(heap: Global, word: &str) -> Result<Vec<u8>, Stop> {
        Ok(word.as_bytes().to_vec(heap)?)
    }
}

impl KeyText for Digest {
    fn bytes_of(heap: Global, word: &str) -> Result<Vec<u8>, Stop> {
        from_hex(heap, word)
    }
}

/// The key that gives these bytes.
pub fn key_of<K: Key + Drop>(bytes: &[u8]) -> Result<K, Stop> {
    let mut key = K::first();
    key.read(bytes)?;
    Ok(key)
}

fn read_key<K: KeyText + Drop>(heap: Global, word: &str) -> Result<K, Stop> {
    let bytes = K::bytes_of(heap, word)?;
    key_of(bytes.as_slice())
}

fn asking<K: Drop>(heap: Global, call: Call<K>) -> Turn<K> {
    Turn::new(call, Vec::new(heap), Vec::new(heap))
}

fn writing<K: KeyText + Drop>(
    heap: Global,
    multi: bool,
    written: Written<'_>,
) -> Result<Turn<K>, Stop> {
    let key = read_key(heap, written.key)?;
    let label = Label {
        number: written.number,
    };
    let bytes = written.text.as_bytes().to_vec(heap)?;
    let call = if multi {
        Call::PutMulti { label, key }
    } else {
        Call::Put { label, key }
    };
    Ok(Turn::new(call, bytes, Vec::new(heap)))
}

// With a buffer for a value.
fn reading<K: Drop>(heap: Global, call: Call<K>, room: Option<u64>) -> Result<Turn<K>, Stop> {
    let bytes = vec![in heap; 0; room.unwrap_or(4_096) as usize]?;
    Ok(Turn::new(call, bytes, Vec::new(heap)))
}

/// A place before any was listed.
pub const NOWHERE: Place = Place {
    number: 0,
    position: 0,
};

// With a slice for places.
fn listing<K: Drop>(heap: Global, call: Call<K>, room: Option<u64>) -> Result<Turn<K>, Stop> {
    let places = vec![in heap; NOWHERE; room.unwrap_or(2_048) as usize]?;
    Ok(Turn::new(call, Vec::new(heap), places))
}

/// The turn that a line asks for, yet to be made; its key is read here.
pub fn turn_of<K: KeyText + Drop>(heap: Global, call: ArchiveCall<'_>) -> Result<Turn<K>, Stop> {
    match call {
        ArchiveCall::Load(size) => Ok(asking(heap, Call::Load { size })),
        ArchiveCall::Put(written) => writing(heap, false, written),
        ArchiveCall::PutMulti(written) => writing(heap, true, written),
        ArchiveCall::Prune(min) => Ok(asking(heap, Call::Prune { min })),
        ArchiveCall::Counts => Ok(asking(heap, Call::Counts)),
        ArchiveCall::Get { number, room } => reading(heap, Call::GetNumber { number }, room),
        ArchiveCall::GetKey { key, room } => {
            let key = read_key(heap, key)?;
            reading(heap, Call::GetKey { key }, room)
        }
        ArchiveCall::Value { place, room } => reading(heap, Call::GetPlace { place }, room),
        ArchiveCall::Has(number) => Ok(asking(heap, Call::HasNumber { number })),
        ArchiveCall::HasKey(key) => {
            let key = read_key(heap, key)?;
            Ok(asking(heap, Call::HasKey { key }))
        }
        ArchiveCall::HasAt { number, key } => {
            let key = read_key(heap, key)?;
            Ok(asking(heap, Call::HasBoth { number, key }))
        }
        ArchiveCall::List { number, room } => listing(heap, Call::ListNumber { number }, room),
        ArchiveCall::ListKey { key, room } => {
            let key = read_key(heap, key)?;
            listing(heap, Call::ListKey { key }, room)
        }
    }
}
