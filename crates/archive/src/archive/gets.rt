// Calls that read a value: by number, by key, and by place.

ghost use Rattle.std.specs.Prelude.{◌≡◌, ℕ, List, length, Result, Option};
ghost use Rattle.rules.specs.Calls.{get_number_answer, get_number_buffer, GetsKey, get_place_answer, get_place_buffer};
ghost use Rattle.rules.specs.declared.answer.Found.{Found};
ghost use Rattle.rules.specs.declared.fault.ArchiveFault.{ArchiveFault};
ghost use Rattle.archive.specs.Archives.{Does, With};

use crate::archive::Archive;
use crate::numbers::Arrivals;
use crate::search::Search;
use crate::spots::{read_found, spot_at};
use crate::wanted::Wanted;
use journal::Journal;
use keys::kind::Key;
use keys::translator::Translator;
use rules::answer::{Found, Place};
use rules::fault::ArchiveFault;

impl<J: Journal, T: Translator, K: Key> Archive<J, T, K> {
    /// The earliest record that bears a number, its value to the front of `value`.
    pub fn get_index(
        &mut self,
        number: u64,
        value: &mut [u8],
    ) -> Result<Option<Found>, ArchiveFault>
        ensures { Does J.fits J.meaning T.translated T.hashed K.W self.old self.new (λ s. With (get_number_answer s number (length value.old)) (get_number_buffer s number value.old)) (λ s. s) (result, value.new) }
    {
        let Some(size) = self.size else {
            return Err(ArchiveFault::NotLoaded);
        };
        let spot = Arrivals::new(&self.index, size, number).first();
        read_found(&mut self.journal, spot, value)
    }

    /// Some record that bears a key, its value to the front of `value`. Which one is left open.
    pub fn get_key(&mut self, key: &K, value: &mut [u8]) -> Result<Option<Found>, ArchiveFault>
        ensures { Does J.fits J.meaning T.translated T.hashed K.W self.old self.new (λ s (x : Result (Option Found) ArchiveFault × List ℕ). GetsKey s (K.bytes key.now) value.old x.0 x.1) (λ s. s) (result, value.new) }
    {
        let Some(size) = self.size else {
            return Err(ArchiveFault::NotLoaded);
        };
        let search = Search {
            index: &self.index,
            size,
            wanted: Wanted::new(&self.translator, key),
        };
        let spot = search.next(&mut self.journal, None);
        read_found(&mut self.journal, spot, value)
    }

    /// The record at a place.
    pub fn get_at(&mut self, place: Place, value: &mut [u8]) -> Result<Option<Found>, ArchiveFault>
        ensures { Does J.fits J.meaning T.translated T.hashed K.W self.old self.new (λ s. With (get_place_answer s place (length value.old)) (get_place_buffer s place value.old)) (λ s. s) (result, value.new) }
    {
        let Some(size) = self.size else {
            return Err(ArchiveFault::NotLoaded);
        };
        let spot = spot_at(&mut self.journal, size, place);
        read_found(&mut self.journal, spot, value)
    }
}
