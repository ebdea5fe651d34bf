// What the model answers to a turn.

use crate::model::{Answer, Model, lay};
use crate::record::Wanted;
use keys::kind::Key;
use keys::translator::Translator;
use rules::answer::{Listed, Place, Reply};
use rules::call::Call;
use rules::fault::ArchiveFault;
use rules::turn::Turn;
use std::alloc::AllocError;

impl Model {
    // How many places were laid into a slice, which stays where it has too few.
    fn list(
        &self,
        wanted: Wanted<'_>,
        places: &mut [Place],
    ) -> Result<Result<u64, ArchiveFault>, AllocError> {
        if self.size.is_none() {
            return Ok(Err(ArchiveFault::NotLoaded));
        }
        let listed = self.places(wanted)?;
        let amount = listed.len() as u64;
        if (places.len() as u64) < amount {
            return Ok(Err(ArchiveFault::ShortListing { amount }));
        }
        lay(places, listed.as_slice());
        Ok(Ok(amount))
    }

    fn list_key(&self, key: &[u8], code: u64, places: &mut [Place]) -> Result<Answer, AllocError> {
        let candidates = self
            .records
            .iter()
            .filter(|record| record.code == code)
            .count() as u64;
        let listed = self.list(Wanted::Key(key), places)?;
        Ok(listed.map(|count| Reply::ListedByKey(Listed { count, candidates })))
    }

    fn change<T: Translator, K: Key>(
        &mut self,
        translator: &T,
        call: &Call<K>,
        bytes: &[u8],
    ) -> Result<Option<Answer>, AllocError> {
        let answer = match call {
            Call::Load { size } => self.load(*size),
            Call::Put { label, key } => {
                let code = translator.translate(key.as_bytes());
                self.put(*label, key, code, bytes, false)?
            }
            Call::PutMulti { label, key } => {
                let code = translator.translate(key.as_bytes());
                self.put(*label, key, code, bytes, true)?
            }
            Call::Prune { min } => self.prune(*min),
            _ => return Ok(None),
        };
        Ok(Some(answer))
    }

    fn read<K: Key>(
        &self,
        call: &Call<K>,
        hint: Option<(u64, u64)>,
        bytes: &mut [u8],
    ) -> Option<Answer> {
        match call {
            Call::GetNumber { number } => Some(self.get(Wanted::Number(*number), None, bytes)),
            Call::GetKey { key } => Some(self.get(Wanted::Key(key.as_bytes()), hint, bytes)),
            Call::GetPlace { place } => Some(self.get(Wanted::Place(*place), None, bytes)),
            Call::HasNumber { number } => Some(self.ask(Wanted::Number(*number))),
            Call::HasKey { key } => Some(self.ask(Wanted::Key(key.as_bytes()))),
            Call::HasBoth { number, key } => {
                Some(self.ask(Wanted::Both(*number, key.as_bytes())))
            }
            Call::Counts => Some(self.counts()),
            _ => None,
        }
    }

    fn listing<T: Translator, K: Key>(
        &self,
        translator: &T,
        call: &Call<K>,
        places: &mut [Place],
    ) -> Result<Option<Answer>, AllocError> {
        match call {
            Call::ListNumber { number } => {
                let listed = self.list(Wanted::Number(*number), places)?;
                Ok(Some(listed.map(|count| Reply::ListedByNumber { count })))
            }
            Call::ListKey { key } => {
                let code = translator.translate(key.as_bytes());
                Ok(Some(self.list_key(key.as_bytes(), code, places)?))
            }
            _ => Ok(None),
        }
    }

    // The row that an answer of the archive speaks of.
    fn hint(&self, answer: Option<Answer>) -> Option<(u64, u64)> {
        match answer? {
            Ok(Reply::Found(found)) => {
                let place = found?.place;
                Some((self.round(self.size?, place.number), place.position))
            }
            Ok(_) => None,
            Err(fault) => {
                let parts = fault.parts();
                Some((parts.section, parts.position))
            }
        }
    }

    /// Answers a turn as the rules have it. What the archive answered counts only where the rules leave open which record of a
    /// key is read.
    pub fn take<T: Translator, K: Key>(
        &mut self,
        translator: &T,
        turn: &mut Turn<K>,
        given: Option<Answer>,
    ) -> Result<(), AllocError> {
        let changed = self.change(translator, &turn.call, turn.bytes.as_slice())?;
        let listed = self.listing(translator, &turn.call, turn.places.as_mut_slice())?;
        let hint = self.hint(given);
        let read = self.read(&turn.call, hint, turn.bytes.as_mut_slice());
        turn.answer = changed.or(listed).or(read);
        Ok(())
    }
}
