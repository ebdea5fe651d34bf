// What is stored and asked for: two moves of each of many boxes.

use keys::box_number::BoxNumber;
use keys::kind::Key;
use std::alloc::{AllocError, Global};

/// How many boxes there are, and how many move numbers.
const BOXES: u64 = 1_024;

const OWNERS: u64 = 64;

#[derive(Clone, Copy)]
pub struct Move {
    pub number: u64,
    pub key: BoxNumber,
    pub value: [u8; 16],
}

fn letter(n: u64) -> u8 {
    b'A' + (n % 26) as u8
}

// A box of an owner, with its check digit. Of the ten digits one is right, and a refused read leaves the key as it was.
fn box_of(owner: u64, serial: u64) -> BoxNumber {
    let mut bytes = *b"AAAU0000000";
    bytes[0] = letter(owner / 26);
    bytes[1] = letter(owner);
    bytes[2] = letter(owner.wrapping_mul(7));
    let mut rest = serial;
    for digit in bytes[4..10].iter_mut().rev() {
        *digit = b'0' + (rest % 10) as u8;
        rest /= 10;
    }
    let mut key = BoxNumber::first();
    for digit in b'0'..=b'9' {
        bytes[10] = digit;
        let _ = key.read(&bytes);
    }
    key
}

// The boxes of an owner are far apart, so that their serials differ in the first places too.
fn serial_of(n: u64) -> u64 {
    100_000u64.saturating_add(n.saturating_mul(389))
}

fn box_at(n: u64) -> BoxNumber {
    box_of(n % OWNERS, serial_of(n))
}

// A value tells the key and the number that it was stored with.
fn move_of(number: u64, key: BoxNumber) -> Move {
    let mut value = [0; 16];
    value[..11].copy_from_slice(key.as_bytes());
    value[11..].copy_from_slice(&number.to_be_bytes()[3..]);
    Move { number, key, value }
}

#[derive(Drop)]
pub struct Fleet {
    /// One move for each number, and each box once.
    pub first: Vec<Move>,
    /// A further move for each number, of another box.
    pub further: Vec<Move>,
    /// As many boxes of the same owners that have no move.
    pub absent: Vec<BoxNumber>,
}

impl Fleet {
    pub fn new(heap: Global) -> Result<Fleet, AllocError> {
        let mut fleet = Fleet {
            first: Vec::new(heap),
            further: Vec::new(heap),
            absent: Vec::new(heap),
        };
        for n in 0..BOXES {
            fleet.first.push(move_of(n, box_at(n)))?;
            fleet
                .further
                .push(move_of(n, box_at(n.wrapping_add(BOXES / 2) % BOXES)))?;
            fleet
                .absent
                .push(box_of(n % OWNERS, serial_of(n.wrapping_add(BOXES))))?;
        }
        Ok(fleet)
    }
}
