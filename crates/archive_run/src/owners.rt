// The keys of few owners, so that records share them.

use keys::kind::Key;
use std::alloc::{AllocError, Global};

// The bytes of an owner's key of a kind that takes any: neighbours share the first byte, where there are more.
fn plain_bytes(heap: Global, width: u64, owner: u8) -> Result<Vec<u8>, AllocError> {
    let last = if owner == 5 { 255 } else { owner };
    let first = if width == 1 { last } else { owner / 2 };
    let mut bytes = Vec::new(heap);
    bytes.push(first)?;
    for _ in 1..width {
        bytes.push(last)?;
    }
    Ok(bytes)
}

/// The keys of owners of a kind that takes any bytes.
pub fn plain_keys<K: Key + Drop>(heap: Global) -> Result<Vec<K>, AllocError> {
    let mut keys = Vec::new(heap);
    for owner in 0..7u8 {
        let bytes = plain_bytes(heap, K::width() as u64, owner)?;
        let mut key = K::first();
        if key.read(bytes.as_slice()).is_ok() {
            keys.push(key)?;
        }
    }
    Ok(keys)
}

// What a letter or a digit counts in a check sum: the letters' numbers leave out the multiples of 11.
fn count(b: u8) -> u64 {
    if b.is_ascii_digit() {
        return u64::from(b.saturating_sub(b'0'));
    }
    let letter = u64::from(b.saturating_sub(b'A'));
    letter.saturating_add(10).saturating_add(match letter {
        0 => 0,
        1..=10 => 1,
        11..=20 => 2,
        _ => 3,
    })
}

// The check digit behind ten places.
fn digit(bytes: &[u8]) -> u8 {
    let mut sum = 0u64;
    let mut weight = 1u64;
    for b in bytes {
        sum = sum.saturating_add(count(*b).saturating_mul(weight));
        weight = weight.saturating_mul(2);
    }
    (sum % 11 % 10) as u8
}

fn box_bytes(heap: Global, prefix: &str, serial: &str) -> Result<Vec<u8>, AllocError> {
    let mut bytes = prefix.as_bytes().to_vec(heap)?;
    bytes.extend_from_slice(serial.as_bytes())?;
    bytes.push(digit(bytes.as_slice()).saturating_add(b'0'))?;
    Ok(bytes)
}

/// The keys of owners of boxes; one that the kind does not take is missing.
pub fn box_keys<K: Key + Drop>(heap: Global) -> Result<Vec<K>, AllocError> {
    let mut keys = Vec::new(heap);
    for (prefix, serial) in [
        ("LUNU", "000000"),
        ("LUNU", "305418"),
        ("LUZU", "999999"),
        ("AAAU", "000006"),
        ("KVWU", "123456"),
        ("MBLU", "000001"),
        ("XYZU", "777777"),
    ] {
        let bytes = box_bytes(heap, prefix, serial)?;
        let mut key = K::first();
        if key.read(bytes.as_slice()).is_ok() {
            keys.push(key)?;
        }
    }
    Ok(keys)
}
