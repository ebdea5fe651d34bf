// Bytes at places and numbers made of them, by plain arithmetic and without the library.

/// The byte at a place, and 0 where there is none.
pub fn byte_at(bytes: &[u8], at: u64) -> u64 {
    match bytes.get(at as usize) {
        Some(b) => u64::from(*b),
        None => 0,
    }
}

/// The number in `n` bytes at a place, the highest first.
pub fn number_at(bytes: &[u8], at: u64, n: u64) -> u64 {
    let mut number = 0u64;
    for i in 0..n {
        let byte = byte_at(bytes, at.saturating_add(i));
        number = number.wrapping_mul(256).wrapping_add(byte);
    }
    number
}

/// FNV-1a 32 of `n` bytes at a place.
pub fn hash_at(bytes: &[u8], at: u64, n: u64) -> u64 {
    let mut hash = 2_166_136_261u64;
    for i in 0..n {
        let byte = byte_at(bytes, at.saturating_add(i));
        hash = (hash ^ byte).wrapping_mul(16_777_619) % 4_294_967_296;
    }
    hash
}

/// Bytes to a place, as far as there is room.
pub fn put(bytes: &mut [u8], at: u64, new: &[u8]) {
    let mut place = at;
    for b in new {
        if let Some(old) = bytes.get_mut(place as usize) {
            *old = *b;
        }
        place = place.saturating_add(1);
    }
}
