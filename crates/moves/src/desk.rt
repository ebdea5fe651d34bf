// What lines speak to: nothing yet, a journal, or a voyage.

use crate::answer::Answer;
use crate::command::{JournalCall, Voyage};
use crate::files::replace_file;
use crate::misread::Misread;
use crate::sailing::ArchiveCall;
use crate::stop::Stop;
use crate::store::Store;
use memory::Memory;
use pages::Pages;
use std::alloc::Global;

/// What a line begins, with what it lies in.
#[derive(Drop)]
pub enum Begun {
    Journal(Store),
    /// Empty, unless it was opened from a file.
    Voyage {
        voyage: Voyage,
        store: Store,
        from_file: bool,
    },
}

pub trait Desk {
    fn call<'a>(&mut self, call: JournalCall<'a>) -> Result<Answer<'a>, Stop>;

    fn sail<'a>(&mut self, call: ArchiveCall<'a>) -> Result<Answer<'a>, Stop>;

    /// Saves its pages; the answer is how many bytes.
    fn save(&self, file: &str) -> Result<usize, Stop>;

    /// The voyage anew over a file, and how many sections that keeps.
    fn reopen(&self, file: &str) -> Result<(u64, Begun), Stop>;

    /// The calls so far, and beside them the same with two puts exchanged.
    fn exchange<'a>(&self) -> Result<Answer<'a>, Stop>;
}

/// Nothing was begun yet.
#[derive(Drop)]
pub struct NoDesk;

impl Desk for NoDesk {
    fn call<'a>(&mut self, _: JournalCall<'a>) -> Result<Answer<'a>, Stop> {
        Err(Stop::Misread(Misread::NoJournal))
    }

    fn sail<'a>(&mut self, _: ArchiveCall<'a>) -> Result<Answer<'a>, Stop> {
        Err(Stop::Misread(Misread::NoVoyage))
    }

    fn save(&self, _: &str) -> Result<usize, Stop> {
        Err(Stop::Misread(Misread::NoJournal))
    }

    fn reopen(&self, _: &str) -> Result<(u64, Begun), Stop> {
        Err(Stop::Misread(Misread::NoVoyage))
    }

    fn exchange<'a>(&self) -> Result<Answer<'a>, Stop> {
        Err(Stop::Misread(Misread::NoVoyage))
    }
}

/// A journal that may lie in bytes, which can be saved then.
pub trait Saved {
    /// Its entries, and behind them its values; none where it lies in memory rows.
    fn saved(&self, heap: Global) -> Result<Option<Vec<u8>>, Stop>;
}

impl Saved for Memory<'_> {
    fn saved(&self, _: Global) -> Result<Option<Vec<u8>>, Stop> {
        Ok(None)
    }
}

impl Saved for Pages<'_> {
    fn saved(&self, heap: Global) -> Result<Option<Vec<u8>>, Stop> {
        let mut bytes = self.entries().to_vec(heap)?;
        bytes.extend_from_slice(self.values())?;
        Ok(Some(bytes))
    }
}

/// Saves a journal's pages.
pub fn save<J: Saved>(rt: &HostRuntime, journal: &J, file: &str) -> Result<usize, Stop> {
    let bytes = journal.saved(rt.alloc())?.ok_or(Misread::NoPages)?;
    replace_file(rt, file, bytes.as_slice())?;
    Ok(bytes.len())
}
