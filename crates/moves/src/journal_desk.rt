// The calls on a journal.

use crate::answer::Answer;
use crate::ask::from_hex;
use crate::command::{JournalCall, Row};
use crate::desk::{Begun, Desk, Saved, save};
use crate::misread::Misread;
use crate::sailing::ArchiveCall;
use crate::stop::Stop;
use cache::Cache;
use journal::Journal;
use journal::row::Label;
use std::alloc::Global;
use summary::summary;
use summary::total::SectionTotal;

/// A journal to call, behind a cache, and the runtime, which has the memory for its answers, and the files.
#[derive(Drop)]
pub struct JournalDesk<'r, J> {
    pub rt: &'r HostRuntime,
    pub journal: Cache<J>,
}

// A buffer of the size asked for. No value is as long as 65,536 bytes, so a longer buffer would change no answer.
fn buffer(heap: Global, room: u64) -> Result<Vec<u8>, Stop> {
    Ok(vec![in heap; 0; room.min(65_536) as usize]?)
}

impl<J: Journal> JournalDesk<'_, J> {
    fn read_entry<'a>(&mut self, row: Row) -> Result<Answer<'a>, Stop> {
        let width = self.journal.limits().width;
        let mut key = buffer(self.rt.alloc(), row.room.unwrap_or(width))?;
        let entry = self
            .journal
            .read_entry(row.start, row.position, key.as_mut_slice())?;
        key.truncate(width as usize);
        Ok(Answer::Entry {
            number: entry.label.number,
            length: entry.length,
            key,
        })
    }

    fn read_value<'a>(&mut self, row: Row) -> Result<Answer<'a>, Stop> {
        let mut value = buffer(self.rt.alloc(), row.room.unwrap_or(4_096))?;
        let length = self
            .journal
            .read_value(row.start, row.position, value.as_mut_slice())?;
        value.truncate(length as usize);
        Ok(Answer::Value(value))
    }

    fn append<'a>(
        &mut self,
        start: u64,
        number: u64,
        key: &str,
        value: &str,
    ) -> Result<Answer<'a>, Stop> {
        let key = from_hex(self.rt.alloc(), key)?;
        let position = self
            .journal
            .append(start, Label { number }, key.as_slice(), value.as_bytes())?;
        Ok(Answer::Row(position))
    }

    fn sections<'a>(&mut self) -> Result<Answer<'a>, Stop> {
        let slots = self.journal.limits().slots.min(64);
        let mut totals = vec![in self.rt.alloc(); SectionTotal::NONE; slots as usize]?;
        let kept = summary(&mut self.journal, totals.as_mut_slice())?;
        totals.truncate(kept as usize);
        Ok(Answer::Sections(totals))
    }

    fn cut<'a>(&mut self, min: u64) -> Answer<'a> {
        Answer::Cut {
            gone: self.journal.prune(min),
            floor: self.journal.floor(),
        }
    }
}

impl<J: Journal + Saved> Desk for JournalDesk<'_, J> {
    fn call<'a>(&mut self, call: JournalCall<'a>) -> Result<Answer<'a>, Stop> {
        match call {
            JournalCall::Append {
                start,
                number,
                key,
                value,
            } => self.append(start, number, key, value),
            JournalCall::ReadEntry(row) => self.read_entry(row),
            JournalCall::ReadValue(row) => self.read_value(row),
            JournalCall::Cut(min) => Ok(self.cut(min)),
            JournalCall::Sections => self.sections(),
        }
    }

    fn sail<'a>(&mut self, _: ArchiveCall<'a>) -> Result<Answer<'a>, Stop> {
        Err(Stop::Misread(Misread::NoVoyage))
    }

    fn save(&self, file: &str) -> Result<usize, Stop> {
        save(self.rt, self.journal.below(), file)
    }

    fn reopen(&self, _: &str) -> Result<(u64, Begun), Stop> {
        Err(Stop::Misread(Misread::NoVoyage))
    }

    fn exchange<'a>(&self) -> Result<Answer<'a>, Stop> {
        Err(Stop::Misread(Misread::NoVoyage))
    }
}
