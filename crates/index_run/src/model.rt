// The index as a list of records, without a chain: every question walks over all of it.

use index::index::Tally;
use index::key_code::KeyCode;
use std::alloc::{AllocError, Global};

/// The bucket of a hash, in numbers so large that none of the product is lost: what 2^64 leaves of it, by 2^57.
fn bucket(hash: u64) -> u128 {
    u128::from(hash) * 11_400_714_819_323_198_485 % (1 << 64) / (1 << 57)
}

/// The position is how many records of the section came before.
#[derive(Clone, Copy, Debug)]
pub struct Record {
    pub start: u64,
    pub offset: u64,
    pub position: u64,
    pub key: KeyCode,
}

/// A kept section and its slot, which the index chose.
#[derive(Clone, Copy, Debug)]
pub struct Kept {
    pub start: u64,
    pub slot: usize,
}

impl Record {
    /// Whether it lies in a section and has a translated key, in the bucket of its hash.
    pub fn bears(&self, start: u64, key: KeyCode) -> bool {
        self.start == start
            && self.key.code == key.code
            && bucket(self.key.hash) == bucket(key.hash)
    }
}

#[derive(Drop)]
pub struct Model {
    pub records: Vec<Record>,
    pub sections: Vec<Kept>,
}

impl Model {
    pub fn new(heap: Global) -> Model {
        Model {
            records: Vec::new(heap),
            sections: Vec::new(heap),
        }
    }

    pub fn slot_of(&self, start: u64) -> Option<usize> {
        let kept = self.sections.iter().find(|kept| kept.start == start)?;
        Some(kept.slot)
    }

    pub fn start_of(&self, slot: usize) -> Option<u64> {
        let kept = self.sections.iter().find(|kept| kept.slot == slot)?;
        Some(kept.start)
    }

    /// The section of the lowest start at or above a number that has a record with a key.
    pub fn first_with(&self, from: u64, key: KeyCode) -> Option<(usize, u64)> {
        let mut best: Option<Kept> = None;
        for kept in self.sections.iter() {
            let start = kept.start;
            let has_one = self.records.iter().any(|record| record.bears(start, key));
            if has_one && start >= from && best.is_none_or(|best| start < best.start) {
                best = Some(*kept);
            }
        }
        best.map(|kept| (kept.slot, kept.start))
    }

    /// The next older record with a key, after one in the bucket of its hash.
    pub fn older(&self, slot: usize, position: u64, key: KeyCode) -> Option<(u64, u64)> {
        let start = self.start_of(slot)?;
        let mut records = self.records.iter();
        let one = records.find(|one| one.start == start && one.position == position)?;
        if bucket(one.key.hash) != bucket(key.hash) {
            return None;
        }
        let mut before = None;
        for record in self.records.iter() {
            if record.bears(start, key) && record.position < position {
                before = Some((slot as u64, record.position));
            }
        }
        before
    }

    /// How many records a section has.
    pub fn len(&self, start: u64) -> u64 {
        self.records
            .iter()
            .filter(|record| record.start == start)
            .count() as u64
    }

    pub fn has_free_slot(&self) -> bool {
        self.sections.len() < 16
    }

    pub fn takes(&self, start: u64, offset: u64) -> bool {
        let room = match self.slot_of(start) {
            Some(_) => self.len(start) < 128,
            None => self.has_free_slot(),
        };
        offset < 64 && room
    }

    pub fn open(&mut self, start: u64, slot: usize) -> Result<(), AllocError> {
        self.sections.push(Kept { start, slot })?;
        Ok(())
    }

    pub fn add(&mut self, start: u64, offset: u64, key: KeyCode) -> Result<(), AllocError> {
        let position = self.len(start);
        self.records.push(Record {
            start,
            offset,
            position,
            key,
        })?;
        Ok(())
    }

    /// Whether no record with the number of this one came before it.
    fn is_first(&self, one: &Record) -> bool {
        !self.records.iter().any(|record| {
            record.start == one.start
                && record.offset == one.offset
                && record.position < one.position
        })
    }

    /// What lies below a minimum.
    pub fn tally_below(&self, min: u64) -> Tally {
        let mut tally = Tally::default();
        for record in self.records.iter().filter(|record| record.start < min) {
            tally.records = tally.records.saturating_add(1);
            tally.numbers = tally
                .numbers
                .saturating_add(u64::from(self.is_first(record)));
        }
        tally
    }

    pub fn strike(&mut self, min: u64) {
        self.records.retain(|record| record.start >= min);
        self.sections.retain(|kept| kept.start >= min);
    }

    pub fn clear(&mut self) {
        self.records.clear();
        self.sections.clear();
    }
}
