// A voyage: an archive over a journal behind a cache, and the turns that it took.

use crate::answer::Answer;
use crate::command::{JournalCall, Voyage};
use crate::desk::{Begun, Desk, Saved, save};
use crate::exchange::Log;
use crate::files::open;
use crate::misread::Misread;
use crate::sailed::Sailed;
use crate::sailing::ArchiveCall;
use crate::stop::Stop;
use crate::turns::{KeyText, turn_of};
use archive::archive::Archive;
use cache::Cache;
use journal::Journal;
use keys::translator::AnyTranslator;
use rules::answer::{Found, Pruned, Reply};
use rules::call::Call;
use rules::fault::ArchiveFault;
use rules::turn::Turn;

#[derive(Drop)]
pub struct VoyageDesk<'r, J, K> {
    pub rt: &'r HostRuntime,
    pub voyage: Voyage,
    pub archive: Archive<Cache<J>, AnyTranslator, K>,
    pub log: Log<K>,
}

impl<J: Journal, K: KeyText + Drop> VoyageDesk<'_, J, K> {
    // Whether several kept records bear the key of a get, of which the rules leave open which one is told.
    fn is_open(&mut self, turn: &Turn<K>) -> bool {
        let Call::GetKey { key } = &turn.call else {
            return false;
        };
        match self.archive.list_key(key, &mut []) {
            Err(ArchiveFault::ShortListing { amount }) => amount > 1,
            _ => false,
        }
    }

    fn found(&self, found: Found, turn: &Turn<K>) -> Result<Sailed, Stop> {
        let length = (found.length as usize).min(turn.bytes.len());
        Ok(Sailed::Found {
            place: found.place,
            value: turn.bytes[..length].to_vec(self.rt.alloc())?,
        })
    }

    fn listed(&self, count: u64, candidates: Option<u64>, turn: &Turn<K>) -> Result<Sailed, Stop> {
        let count = (count as usize).min(turn.places.len());
        Ok(Sailed::Listed {
            places: turn.places[..count].to_vec(self.rt.alloc())?,
            candidates,
        })
    }

    fn pruned(&self, pruned: Pruned) -> Sailed {
        let floor = match self.archive.counts() {
            Ok(counts) => counts.floor.unwrap_or(0),
            Err(_) => 0,
        };
        Sailed::Pruned { pruned, floor }
    }

    // What a turn that was made says.
    fn answer(&self, turn: &Turn<K>) -> Result<Sailed, Stop> {
        match turn.answer.ok_or(Misread::NotMade)?? {
            Reply::Loaded { records } => Ok(Sailed::Loaded(records)),
            Reply::Put(put) => Ok(Sailed::Put(put)),
            Reply::Pruned(pruned) => Ok(self.pruned(pruned)),
            Reply::Found(None) => Ok(Sailed::Absent),
            Reply::Found(Some(found)) => self.found(found, turn),
            Reply::Has(has) => Ok(Sailed::Has(has)),
            Reply::ListedByNumber { count } => self.listed(count, None, turn),
            Reply::ListedByKey(listed) => self.listed(listed.count, Some(listed.candidates), turn),
            Reply::Counted(counts) => Ok(Sailed::Counted(counts)),
        }
    }
}

impl<J: Journal + Saved, K: KeyText + Drop> Desk for VoyageDesk<'_, J, K> {
    fn call<'a>(&mut self, _: JournalCall<'a>) -> Result<Answer<'a>, Stop> {
        Err(Stop::Misread(Misread::NoJournal))
    }

    fn sail<'a>(&mut self, call: ArchiveCall<'a>) -> Result<Answer<'a>, Stop> {
        let mut turn = turn_of(self.rt.alloc(), call)?;
        let open = self.is_open(&turn);
        self.archive.take(&mut turn);
        let answer = self.answer(&turn);
        self.log.note(self.rt.alloc(), turn, open)?;
        Ok(Answer::Sailed(answer?))
    }

    fn save(&self, file: &str) -> Result<usize, Stop> {
        save(self.rt, self.archive.journal().below(), file)
    }

    fn reopen(&self, file: &str) -> Result<(u64, Begun), Stop> {
        let (sections, store) = open(self.rt, file, self.voyage.limits)?;
        let voyage = self.voyage;
        Ok((
            sections,
            Begun::Voyage {
                voyage,
                store,
                from_file: true,
            },
        ))
    }

    fn exchange<'a>(&self) -> Result<Answer<'a>, Stop> {
        Ok(Answer::Sailed(self.log.exchange(self.rt.alloc(), &self.voyage)?))
    }
}
