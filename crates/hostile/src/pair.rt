// A pair of slices, entries and values, and the limits that they are to be mounted under.

use crate::plain::Plain;
use journal::limits::Limits;

fn turn_in(bytes: &mut [u8], place: u64, mask: u8) {
    if let Some(byte) = bytes.get_mut(place as usize) {
        *byte ^= mask;
    }
}

#[derive(Clone, Drop)]
pub struct Pair {
    pub limits: Limits,
    pub entries: Vec<u8>,
    pub values: Vec<u8>,
}

impl Pair {
    /// How many bytes both slices have.
    pub fn size(&self) -> u64 {
        (self.entries.len() as u64).saturating_add(self.values.len() as u64)
    }

    /// Turns the bits of a mask in the byte at a place, the values' places behind those of the entries.
    pub fn turn(&mut self, place: u64, mask: u8) {
        let entries = self.entries.len() as u64;
        if place < entries {
            turn_in(self.entries.as_mut_slice(), place, mask);
        } else {
            turn_in(self.values.as_mut_slice(), place - entries, mask);
        }
    }

    /// The pair as the plain decoder reads it.
    pub fn plain(&self) -> Plain<'_> {
        Plain {
            limits: self.limits,
            entries: self.entries.as_slice(),
            values: self.values.as_slice(),
        }
    }
}
