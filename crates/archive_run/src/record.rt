// A record as the model keeps it, and what a call looks for.

use crate::rows::Row;
use rules::answer::Place;

#[derive(Drop)]
pub struct Record {
    /// Where its section starts.
    pub start: u64,
    pub position: u64,
    pub number: u64,
    pub key: Vec<u8>,
    /// The translated key.
    pub code: u64,
    pub value: Vec<u8>,
}

#[derive(Clone, Copy)]
pub enum Wanted<'a> {
    Number(u64),
    Key(&'a [u8]),
    Both(u64, &'a [u8]),
    Place(Place),
}

impl Record {
    pub fn place(&self) -> Place {
        Place {
            number: self.number,
            position: self.position,
        }
    }

    /// Whether a row of its section is it.
    pub fn equals(&self, row: &Row) -> bool {
        self.number == row.number
            && self.key.as_slice() == row.key.as_slice()
            && self.value.as_slice() == row.value.as_slice()
    }

    /// What it costs its section.
    pub fn cost(&self) -> u64 {
        (self.value.len() as u64).saturating_add(4)
    }

    pub fn bears(&self, wanted: Wanted<'_>) -> bool {
        match wanted {
            Wanted::Number(number) => self.number == number,
            Wanted::Key(key) => self.key.as_slice() == key,
            Wanted::Both(number, key) => self.number == number && self.key.as_slice() == key,
            Wanted::Place(place) => self.place() == place,
        }
    }
}
