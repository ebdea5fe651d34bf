// Turns drawn at random, near the records that there are.

use crate::random::Random;
use journal::row::Label;
use keys::kind::Key;
use rules::answer::Place;
use rules::call::Call;
use rules::turn::Turn;
use std::alloc::{AllocError, Global};

/// Where turns are drawn from.
#[derive(Drop)]
pub struct Source<K> {
    pub heap: Global,
    pub random: Random,
    /// Few keys, so that several records bear one.
    pub keys: Vec<K>,
    /// Numbers to a section, of the last accepted load; most loads have it again.
    pub size: u64,
    /// Most numbers are from here on; it rises with the prunes.
    pub low: u64,
    /// A number that was put not long ago.
    pub recent: u64,
    /// Whether puts are drawn.
    pub puts: bool,
}

// What buffers of places hold before a call.
const BLANK: Place = Place {
    number: 77,
    position: 77,
};

impl<K: Key + Copy> Source<K> {
    // Sometimes near one end of all numbers, once in `n`.
    fn number(&mut self, n: u64) -> u64 {
        if self.random.one_in(n) {
            let near = self.random.below(12);
            return if self.random.one_in(2) {
                near
            } else {
                u64::MAX - near
            };
        }
        let width = self.size.saturating_mul(5);
        self.low.saturating_add(self.random.below(width))
    }

    fn key(&mut self) -> K {
        let place = self.random.below(self.keys.len() as u64);
        match self.keys.get(place as usize) {
            Some(key) => *key,
            None => K::first(),
        }
    }

    fn load_size(&mut self) -> u64 {
        match self.random.below(10) {
            0 => 0,
            1 => 65,
            2 => u64::MAX,
            3 => self.random.below(12),
            _ => self.size,
        }
    }

    // A minimum, and the numbers that follow are from about there on.
    fn min(&mut self) -> u64 {
        if self.random.one_in(12) {
            return self.number(2);
        }
        let width = self.size.saturating_mul(3).saturating_add(1);
        let min = self.low.saturating_add(self.random.below(width));
        let back = self.random.below(self.size.saturating_add(1));
        self.low = self.low.max(min.saturating_sub(back));
        min
    }

    fn label(&mut self) -> Label {
        let number = self.number(150);
        if self.random.one_in(2) {
            self.recent = number;
        }
        Label { number }
    }

    // A number to ask for: often one that was put.
    fn asked(&mut self) -> u64 {
        if self.random.one_in(3) {
            return self.recent;
        }
        self.number(12)
    }

    fn place(&mut self) -> Place {
        Place {
            number: self.asked(),
            position: self.random.below(4),
        }
    }

    fn question(&mut self) -> Call<K> {
        match self.random.below(20) {
            0..=2 => Call::GetNumber {
                number: self.asked(),
            },
            3..=5 => Call::GetKey { key: self.key() },
            6..=8 => Call::GetPlace {
                place: self.place(),
            },
            9..=10 => Call::HasNumber {
                number: self.asked(),
            },
            11..=12 => Call::HasKey { key: self.key() },
            13..=14 => Call::HasBoth {
                number: self.asked(),
                key: self.key(),
            },
            15..=16 => Call::ListNumber {
                number: self.asked(),
            },
            17..=18 => Call::ListKey { key: self.key() },
            _ => Call::Counts,
        }
    }

    fn change(&mut self) -> Call<K> {
        match self.random.below(10) {
            0 => Call::Prune { min: self.min() },
            1..=4 => Call::Put {
                label: self.label(),
                key: self.key(),
            },
            _ => Call::PutMulti {
                label: self.label(),
                key: self.key(),
            },
        }
    }

    // Loads come often while nothing is loaded, and then seldom.
    fn call(&mut self, loaded: bool) -> Call<K> {
        if self.random.one_in(if loaded { 60 } else { 3 }) {
            return Call::Load {
                size: self.load_size(),
            };
        }
        if self.puts && self.random.one_in(2) {
            self.change()
        } else {
            self.question()
        }
    }

    // How long a value or its buffer is: mostly so that six fit a section.
    fn length(&mut self) -> u64 {
        if self.random.one_in(16) {
            return self.random.below(64);
        }
        self.random.below(10)
    }

    /// The next turn, where an archive is loaded with so many numbers to a section, or with none.
    pub fn draw(&mut self, loaded: Option<u64>) -> Result<Turn<K>, AllocError> {
        if let Some(size) = loaded {
            self.size = size;
        }
        let call = self.call(loaded.is_some());
        let length = self.length();
        let bytes = self.random.bytes(self.heap, length)?;
        let room = self.random.below(6) as usize;
        let places = vec![in self.heap; BLANK; room]?;
        Ok(Turn::new(call, bytes, places))
    }
}

fn copy_of<K: Copy>(call: &Call<K>) -> Call<K> {
    match call {
        Call::Load { size } => Call::Load { size: *size },
        Call::Put { label, key } => Call::Put {
            label: *label,
            key: *key,
        },
        Call::PutMulti { label, key } => Call::PutMulti {
            label: *label,
            key: *key,
        },
        Call::Prune { min } => Call::Prune { min: *min },
        Call::GetNumber { number } => Call::GetNumber { number: *number },
        Call::GetKey { key } => Call::GetKey { key: *key },
        Call::GetPlace { place } => Call::GetPlace { place: *place },
        Call::HasNumber { number } => Call::HasNumber { number: *number },
        Call::HasKey { key } => Call::HasKey { key: *key },
        Call::HasBoth { number, key } => Call::HasBoth {
            number: *number,
            key: *key,
        },
        Call::ListNumber { number } => Call::ListNumber { number: *number },
        Call::ListKey { key } => Call::ListKey { key: *key },
        Call::Counts => Call::Counts,
    }
}

/// The same turn once more, not answered yet.
pub fn twin<K: Copy + Drop>(turn: &Turn<K>) -> Result<Turn<K>, AllocError> {
    Ok(Turn::new(
        copy_of(&turn.call),
        turn.bytes.clone()?,
        turn.places.clone()?,
    ))
}

/// Whether two turns were answered alike, and left alike buffers.
pub fn same<K>(turn: &Turn<K>, other: &Turn<K>) -> bool {
    turn.answer == other.answer
        && turn.bytes.as_slice() == other.bytes.as_slice()
        && turn.places.as_slice() == other.places.as_slice()
}
