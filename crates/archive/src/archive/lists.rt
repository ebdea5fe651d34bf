// Listings: the places of all records that bear a number, or a key. They count first and fill after.

ghost use Rattle.std.specs.Prelude.{◌≡◌, length};
ghost use Rattle.rules.specs.State.{bears_number, bears_key};
ghost use Rattle.rules.specs.Calls.{list_number_answer, list_key_answer, list_places};
ghost use Rattle.archive.specs.Parts.{kind_of};
ghost use Rattle.archive.specs.Archives.{Does, Tells, With};

use crate::archive::Archive;
use crate::numbers::Arrivals;
use crate::search::Search;
use crate::wanted::Wanted;
use journal::Journal;
use keys::kind::Key;
use keys::translator::Translator;
use rules::answer::{Listed, Place};
use rules::fault::ArchiveFault;

impl<J: Journal, T: Translator, K: Key> Archive<J, T, K> {
    /// The records that bear a number, by position; the answer is how many there are.
    pub fn list_index(&self, number: u64, places: &mut [Place]) -> Result<u64, ArchiveFault>
        ensures { Tells J.fits J.meaning T.translated T.hashed K.W self.now (λ s. With (list_number_answer s number (length places.old)) (list_places s (bears_number number) places.old)) (result, places.new) }
    {
        let Some(size) = self.size else {
            return Err(ArchiveFault::NotLoaded);
        };
        let arrivals = Arrivals::new(&self.index, size, number);
        let count = arrivals.count();
        if (places.len() as u64) < count {
            return Err(ArchiveFault::ShortListing { amount: count });
        }
        arrivals.fill(&mut places[..count as usize]);
        Ok(count)
    }

    /// The records that bear a key, by number and position; and how many share its translated key.
    pub fn list_key(&mut self, key: &K, places: &mut [Place]) -> Result<Listed, ArchiveFault>
        ensures { Does J.fits J.meaning T.translated T.hashed K.W self.old self.new (λ s. With (list_key_answer (kind_of T.translated K.W K.flaw self.old.translator) s (K.bytes key.now) (length places.old)) (list_places s (bears_key (K.bytes key.now)) places.old)) (λ s. s) (result, places.new) }
    {
        let Some(size) = self.size else {
            return Err(ArchiveFault::NotLoaded);
        };
        let search = Search {
            index: &self.index,
            size,
            wanted: Wanted::new(&self.translator, key),
        };
        let count = search.count(&mut self.journal);
        if (places.len() as u64) < count {
            return Err(ArchiveFault::ShortListing { amount: count });
        }
        search.fill(&mut self.journal, &mut places[..count as usize]);
        Ok(Listed {
            count,
            candidates: search.candidates(),
        })
    }
}
