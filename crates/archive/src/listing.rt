// Listings by key: counted first and then filled, each place the least bearer behind the one before it.

ghost use Rattle.std.specs.Prelude.{◌≡◌, ℕ, ◌<◌, ◌≤◌, length, take, None};
ghost use Rattle.index_layout.specs.Views.{view_at};
ghost use Rattle.index_layout.specs.Held.{total, weight};
ghost use Rattle.index.specs.Slots.{views};
ghost use Rattle.archive_layout.specs.Fit.{Coding};
ghost use Rattle.archive_layout.specs.Keys.{candidates_in, listed_from};
ghost use Rattle.archive_layout.specs.Promises.{Reads};
ghost use Rattle.archive.specs.Searches.{Knows};

use crate::search::Search;
use journal::Journal;
use rules::answer::Place;

/// What an archive lists at most: 16 sections of 128 records.
const MOST: u64 = 2048;

impl Search<'_> {
    /// How many records bear the key.
    pub(crate) fn count<J: Journal>(&self, journal: &mut J) -> u64
        ensures { Reads J.Journal.fits J.Journal.meaning journal.old journal.new (λ m. (k : Coding) (width : ℕ) → Knows k width m self.now → result ≡ length (listed_from m.sections self.now.wanted.key.now None)) }
    {
        let mut after = None;
        // Up to a bound, since over a journal that does not fit the places need not come to an end.
        for count in 0..MOST {
            let Some(spot) = self.next(journal, after) else {
                return count;
            };
            after = Some(spot.place);
        }
        MOST
    }

    // Counting and filling stay two loops: their step is `next`, and what is left differs, here a number and there a place.
    /// Fills a slice with the places of the first records that bear the key.
    pub(crate) fn fill<J: Journal>(&self, journal: &mut J, places: &mut [Place])
        ensures { Reads J.Journal.fits J.Journal.meaning journal.old journal.new (λ m. (k : Coding) (width : ℕ) → Knows k width m self.now → length places.old ≤ length (listed_from m.sections self.now.wanted.key.now None) → places.new ≡ take (length places.old) (listed_from m.sections self.now.wanted.key.now None)) }
    {
        let mut after = None;
        for place in places {
            let Some(spot) = self.next(journal, after) else {
                return;
            };
            *place = spot.place;
            after = Some(spot.place);
        }
    }

    // The records of a slot with the translated key, counted along their chain.
    fn candidates_of(&self, slot: usize) -> u64
        ensures is { result ≡ weight (candidates_in self.now.wanted.coded.code self.now.wanted.coded.hash) (view_at (views self.now.index.now) slot) }
        ensures few { result ≤ 128 }
    {
        if self.index.start_of(slot).is_none() {
            return 0;
        }
        let mut count = 0;
        let mut at = self.index.newest(slot, self.wanted.coded);
        // Along links, each to a lower position: nothing is counted to.
        while let Some(handle) = at {
            count += 1;
            at = self.index.older(handle, self.wanted.coded);
        }
        count
    }

    /// How many records there are with the translated key.
    pub(crate) fn candidates(&self) -> u64
        ensures { result ≡ total (candidates_in self.now.wanted.coded.code self.now.wanted.coded.hash) (views self.now.index.now) }
    {
        let mut count = 0;
        // As `(0..16).map(..).sum()` it was tried, and the proof that the sum fits did not close.
        for slot in 0..16 {
            count += self.candidates_of(slot);
        }
        count
    }
}
