// The index and the model side by side: every call goes to both, and their answers are compared.

use crate::model::Model;
use crate::score::{Score, bump};
use index::handle::{handle, unpack};
use index::index::Index;
use index::key_code::KeyCode;
use std::alloc::{AllocError, Global};

#[derive(Drop)]
pub struct Desk<'i> {
    index: &'i mut Index,
    model: Model,
    /// Which slots have held a section before.
    served: [bool; 16],
    pub score: Score,
}

impl<'i> Desk<'i> {
    pub fn new(heap: Global, index: &'i mut Index) -> Desk<'i> {
        Desk {
            index,
            model: Model::new(heap),
            served: [false; 16],
            score: Score::default(),
        }
    }

    /// A section that the model lacks: the slot is the index's choice, of those that are free.
    fn learn(&mut self, start: u64, slot: Option<usize>) -> Result<(), AllocError> {
        let Some(slot) = slot else {
            self.score.judge(false);
            return Ok(());
        };
        self.score.judge(self.model.start_of(slot).is_none());
        bump(&mut self.score.taken);
        if let Some(served) = self.served.get_mut(slot) {
            if *served {
                bump(&mut self.score.taken_again);
            }
            *served = true;
        }
        self.model.open(start, slot)
    }

    /// A record that the index was to take, and whether it did.
    fn took(
        &mut self,
        done: bool,
        start: u64,
        offset: u64,
        key: KeyCode,
    ) -> Result<(), AllocError> {
        if !done {
            bump(&mut self.score.refused);
            return Ok(());
        }
        bump(&mut self.score.added);
        self.model.add(start, offset, key)
    }

    pub fn note(&mut self, start: u64, offset: u64, key: KeyCode) -> Result<(), AllocError> {
        let takes = self.model.takes(start, offset);
        let done = self.index.note(start, offset, key).is_ok();
        self.score.judge(done == takes);
        if done && self.model.slot_of(start).is_none() {
            let slot = self.index.slot_of(start);
            self.learn(start, slot)?;
        }
        self.took(done, start, offset, key)
    }

    pub fn add(&mut self, slot: usize, offset: u64, key: KeyCode) -> Result<(), AllocError> {
        let start = self.model.start_of(slot);
        let takes = start.is_some_and(|start| self.model.takes(start, offset));
        let done = self.index.add(slot, offset, key).is_ok();
        self.score.judge(done == takes);
        self.took(done, start.unwrap_or(0), offset, key)
    }

    pub fn open(&mut self, start: u64) -> Result<(), AllocError> {
        let free = self.model.slot_of(start).is_none() && self.model.has_free_slot();
        let slot = self.index.open(start);
        self.score.judge(slot.is_some() == free);
        if slot.is_some() {
            bump(&mut self.score.opened);
            self.learn(start, slot)?;
        }
        Ok(())
    }

    pub fn strike(&mut self, min: u64) {
        let expected = self.model.tally_below(min);
        let struck = self.index.strike(min);
        self.score.judge(struck == expected);
        bump(&mut self.score.strikes);
        self.score.struck = self.score.struck.saturating_add(expected.records);
        self.model.strike(min);
    }

    pub fn clear(&mut self) {
        self.index.clear();
        self.model.clear();
        bump(&mut self.score.clears);
    }

    pub fn counts(&mut self) {
        let expected = self.model.tally_below(u64::MAX);
        self.score.judge(self.index.counts() == expected);
    }

    pub fn first_with(&mut self, from: u64, key: KeyCode) {
        let expected = self.model.first_with(from, key);
        self.score
            .judge(self.index.first_with(from, key) == expected);
    }

    pub fn starts(&mut self) {
        for slot in 0..18 {
            let expected = self.model.start_of(slot);
            self.score.judge(self.index.start_of(slot) == expected);
        }
    }

    /// The slot of a start, and the positions of a number, the first and the further ones.
    pub fn number(&mut self, start: u64, offset: u64) {
        let slot = self.model.slot_of(start);
        self.score.judge(self.index.slot_of(start) == slot);
        let mut at = self.index.first_of(start, offset);
        for record in self.model.records.iter() {
            if record.start == start && record.offset == offset {
                self.score.judge(at == Some(record.position));
                bump(&mut self.score.positions);
                at = self.index.next_of(start, record.position);
            }
        }
        self.score.judge(at.is_none());
    }

    /// The records of a slot with a translated key, in the bucket of its hash, from the newest to the oldest.
    pub fn candidates(&mut self, slot: usize, key: KeyCode) {
        let start = self.model.start_of(slot);
        let mut at = self.index.newest(slot, key);
        for record in self.model.records.iter().rev() {
            if start.is_some_and(|start| record.bears(start, key)) {
                self.score
                    .judge(at.map(unpack) == Some((slot as u64, record.position)));
                bump(&mut self.score.candidates);
                at = at.and_then(|handle| self.index.older(handle, key));
            }
        }
        self.score.judge(at.is_none());
    }

    /// What follows on any place, whether there is a record with the key or not.
    pub fn after(&mut self, slot: usize, position: u64, key: KeyCode) {
        let expected = self.model.older(slot, position, key);
        let older = match handle(slot as u64, position) {
            Ok(handle) => self.index.older(handle, key),
            Err(_) => None,
        };
        self.score.judge(older.map(unpack) == expected);
    }
}
