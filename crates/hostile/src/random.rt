// Numbers that look random and are the same in every run: SplitMix64.

use std::alloc::{AllocError, Global};

#[derive(Drop)]
pub struct Random {
    pub state: u64,
}

impl Random {
    pub fn number(&mut self) -> u64 {
        self.state = self.state.wrapping_add(0x9E37_79B9_7F4A_7C15);
        let z = (self.state ^ (self.state >> 30)).wrapping_mul(0xBF58_476D_1CE4_E5B9);
        let z = (z ^ (z >> 27)).wrapping_mul(0x94D0_49BB_1331_11EB);
        z ^ (z >> 31)
    }

    /// A number below `n`, and 0 where there is none.
    pub fn below(&mut self, n: u64) -> u64 {
        let number = self.number();
        if n == 0 { 0 } else { number % n }
    }

    /// Whether a chance of one in `n` came.
    pub fn one_in(&mut self, n: u64) -> bool {
        self.below(n) == 0
    }

    pub fn byte(&mut self) -> u8 {
        (self.number() & 255) as u8
    }

    pub fn word(&mut self) -> u32 {
        (self.number() & 0xFFFF_FFFF) as u32
    }

    pub fn bytes(&mut self, heap: Global, n: u64) -> Result<Vec<u8>, AllocError> {
        let mut bytes = Vec::new(heap);
        for _ in 0..n {
            bytes.push(self.byte())?;
        }
        Ok(bytes)
    }
}
