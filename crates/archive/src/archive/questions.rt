// Calls that answer yes or no, and the counts of what is kept.

ghost use Rattle.std.specs.Prelude.{◌≡◌};
ghost use Rattle.rules.specs.State.{bears_number, bears_key, bears_both};
ghost use Rattle.rules.specs.Calls.{has_answer, counts_answer};
ghost use Rattle.archive.specs.Archives.{Does, Tells};

use crate::archive::Archive;
use crate::numbers::Arrivals;
use crate::search::Search;
use crate::wanted::Wanted;
use journal::Journal;
use keys::kind::Key;
use keys::translator::Translator;
use rules::answer::Counts;
use rules::fault::ArchiveFault;

impl<J: Journal, T: Translator, K: Key> Archive<J, T, K> {
    /// Whether a kept record bears a number.
    pub fn has_index(&self, number: u64) -> Result<bool, ArchiveFault>
        ensures { Tells J.fits J.meaning T.translated T.hashed K.W self.now (λ s x. x ≡ has_answer s (bears_number number)) result }
    {
        let Some(size) = self.size else {
            return Err(ArchiveFault::NotLoaded);
        };
        Ok(Arrivals::new(&self.index, size, number).first().is_some())
    }

    /// Whether a kept record bears a key.
    pub fn has_key(&mut self, key: &K) -> Result<bool, ArchiveFault>
        ensures { Does J.fits J.meaning T.translated T.hashed K.W self.old self.new (λ s x. x ≡ has_answer s (bears_key (K.bytes key.now))) (λ s. s) result }
    {
        let Some(size) = self.size else {
            return Err(ArchiveFault::NotLoaded);
        };
        let search = Search {
            index: &self.index,
            size,
            wanted: Wanted::new(&self.translator, key),
        };
        Ok(search.next(&mut self.journal, None).is_some())
    }

    /// Whether one kept record bears a number and a key.
    pub fn has_at(&mut self, number: u64, key: &K) -> Result<bool, ArchiveFault>
        ensures { Does J.fits J.meaning T.translated T.hashed K.W self.old self.new (λ s x. x ≡ has_answer s (bears_both number (K.bytes key.now))) (λ s. s) result }
    {
        let Some(size) = self.size else {
            return Err(ArchiveFault::NotLoaded);
        };
        let arrivals = Arrivals::new(&self.index, size, number);
        Ok(arrivals.has_key(&mut self.journal, key.as_bytes()))
    }

    /// How many records are kept, how many numbers they bear, and the floor.
    pub fn counts(&self) -> Result<Counts, ArchiveFault>
        ensures { Tells J.fits J.meaning T.translated T.hashed K.W self.now (λ s x. x ≡ counts_answer s) result }
    {
        if self.size.is_none() {
            return Err(ArchiveFault::NotLoaded);
        }
        let kept = self.index.counts();
        Ok(Counts {
            records: kept.records,
            numbers: kept.numbers,
            floor: self.floor,
        })
    }
}
