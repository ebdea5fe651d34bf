// The records of a number, by the order of their arrival.

ghost use Rattle.std.specs.Prelude.{◌≡◌, ℕ, ◌-◌, ◌≤◌, Bool, length, take};
ghost use Rattle.journal.specs.Meaning.{Meaning, Lawful};
ghost use Rattle.rules.specs.State.{section_of, those, records_of, some_in, bears_number, bears_both, places_of};
ghost use Rattle.index.specs.Slots.{views};
ghost use Rattle.archive_layout.specs.Fit.{Coding, Fit};
ghost use Rattle.archive_layout.specs.Keys.{front, spot_in};
ghost use Rattle.archive_layout.specs.Promises.{Reads};

use crate::search::bearer;
use archive_layout::spot::Spot;
use index::index::Index;
use journal::Journal;
use rules::answer::Place;
use rules::rounding::section_of;

/// A number in the index of a loaded archive, with `size` numbers to a section.
#[derive(Clone, Copy)]
pub(crate) struct Arrivals<'a> {
    index: &'a Index,
    size: u64,
    number: u64,
    start: u64,
    offset: u64,
    ghost home: { section_of size number ≡ start },
    ghost near: { offset ≡ number - start },
}

impl<'a> Arrivals<'a> {
    pub(crate) fn new(index: &'a Index, size: u64, number: u64) -> Arrivals<'a>
        ensures index { result.index.now ≡ index.now }
        ensures parts { (result.size ≡ size) × (result.number ≡ number) }
    {
        let start = section_of(size, number);
        Arrivals {
            index,
            size,
            number,
            start,
            offset: number.saturating_sub(start),
        }
    }

    /// Where the earliest record that bears the number lies.
    pub(crate) fn first(&self) -> Option<Spot>
        ensures { (k : Coding) (width : ℕ) (m : Meaning) → Lawful m → Fit k width self.now.size m (views self.now.index.now) → result ≡ spot_in (front (those (bears_number self.now.number) (records_of m.sections))) }
    {
        let position = self.index.first_of(self.start, self.offset)?;
        Some(Spot {
            start: self.start,
            place: Place {
                number: self.number,
                position,
            },
        })
    }

    // Counting and filling stay two walks, as for a key: one adds, the other lays places, and a walk has no more than that.
    /// How many records bear the number.
    pub(crate) fn count(&self) -> u64
        ensures { (k : Coding) (width : ℕ) (m : Meaning) → Lawful m → Fit k width self.now.size m (views self.now.index.now) → result ≡ length (those (bears_number self.now.number) (records_of m.sections)) }
    {
        let mut count = 0;
        let mut at = self.index.first_of(self.start, self.offset);
        // Along links, each to a higher position: nothing is counted to.
        while let Some(position) = at {
            count += 1;
            at = self.index.next_of(self.start, position);
        }
        count
    }

    /// Fills a slice with the places of the first records that bear the number.
    pub(crate) fn fill(&self, places: &mut [Place])
        ensures { (k : Coding) (width : ℕ) (m : Meaning) → Lawful m → Fit k width self.now.size m (views self.now.index.now) → length places.old ≤ length (those (bears_number self.now.number) (records_of m.sections)) → places.new ≡ take (length places.old) (places_of (those (bears_number self.now.number) (records_of m.sections))) }
    {
        let number = self.number;
        let mut at = self.index.first_of(self.start, self.offset);
        for place in places {
            let Some(position) = at else {
                return;
            };
            *place = Place { number, position };
            at = self.index.next_of(self.start, position);
        }
    }

    /// Whether a record bears the number and a key at once.
    pub(crate) fn has_key<J: Journal>(&self, journal: &mut J, key: &[u8]) -> bool
        ensures { Reads J.Journal.fits J.Journal.meaning journal.old journal.new (λ m. (k : Coding) (width : ℕ) → Lawful m → Fit k width self.now.size m (views self.now.index.now) → length key.now ≡ m.limits.width → result ≡ some_in (those (bears_both self.now.number key.now) (records_of m.sections))) }
    {
        let mut at = self.index.first_of(self.start, self.offset);
        // Along links, each to a higher position: nothing is counted to.
        while let Some(position) = at {
            if bearer(journal, self.start, position, key).is_some() {
                return true;
            }
            at = self.index.next_of(self.start, position);
        }
        false
    }
}
