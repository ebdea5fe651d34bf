// A search for a key: its least bearer behind a place, by number and then position, the one call that gets, questions and
// listings by key are made of.

ghost use Rattle.std.specs.Prelude.{◌≡◌, ℕ, ◌%◌, ◌^◌, ◌<◌, List, length, if◌then◌else◌, Some, None, MatchOption};
ghost use Rattle.journal.specs.Meaning.{Meaning, Row, Lawful, rows_of, row_at};
ghost use Rattle.rules.specs.State.{filed, records_of, those};
ghost use Rattle.index_layout.specs.Views.{view_at, bucket_of};
ghost use Rattle.index_layout.specs.Candidates.{FirstWith};
ghost use Rattle.index.specs.Slots.{views};
ghost use Rattle.archive_layout.specs.Fit.{Coding, full_view};
ghost use Rattle.archive_layout.specs.Walks.{filed_at};
ghost use Rattle.archive_layout.specs.Keys.{sought, least, least_from, place_in, spot_in, lower, start_behind, Coded};
ghost use Rattle.archive_layout.specs.Promises.{Reads, bearer_of};
ghost use Rattle.archive.specs.Searches.{Knows};

use crate::wanted::Wanted;
use archive_layout::spot::Spot;
use index::handle::unpack;
use index::index::Index;
use journal::Journal;
use keys::bytes::same_bytes;
use rules::answer::Place;
use rules::rounding::section_of;

// The number of the row at a place, if it bears the key.
pub(crate) fn bearer<J: Journal>(
    journal: &mut J,
    start: u64,
    position: u64,
    key: &[u8],
) -> Option<u64>
    ensures { Reads J.Journal.fits J.Journal.meaning journal.old journal.new (λ m. Lawful m → length key.now ≡ m.limits.width → result ≡ bearer_of (row_at m start position) key.now) }
{
    if key.len() > 32 {
        return None;
    }
    let mut buffer = [0u8; 32];
    let Ok(entry) = journal.read_entry(start, position, &mut buffer) else {
        return None;
    };
    if same_bytes(&buffer[..key.len()], key) {
        Some(entry.label.number)
    } else {
        None
    }
}

// The first of a place and the best so far, which has the higher position. By number alone, so `min` of places is another rule.
fn nearer(place: Place, best: Option<Place>) -> Option<Place>
    ensures { result ≡ Some (lower place best) }
{
    best.filter(|b| b.number < place.number).or(Some(place))
}

// One candidate more: the best of it and those at higher positions.
fn better<J: Journal>(
    journal: &mut J,
    start: u64,
    position: u64,
    key: &[u8],
    after: Option<Place>,
    best: Option<Place>,
) -> Option<Place>
    ensures { Reads J.Journal.fits J.Journal.meaning journal.old journal.new (λ m. Lawful m → length key.now ≡ m.limits.width → (row : Row) → row_at m start position ≡ Some row → result ≡ (if sought key.now after (filed_at start position row) then Some (lower (record { number = row.label.number; position = position }) best) else best)) }
{
    let Some(number) = bearer(journal, start, position, key) else {
        return best;
    };
    let place = Place { number, position };
    if after.is_none_or(|a| a < place) {
        nearer(place, best)
    } else {
        best
    }
}

/// Through the index of a loaded archive, with `size` numbers to a section.
#[derive(Clone, Copy)]
pub(crate) struct Search<'a> {
    pub(crate) index: &'a Index,
    pub(crate) size: u64,
    pub(crate) wanted: Wanted<'a>,
}

impl Search<'_> {
    // The slot of the first section that starts at or above `from` and has a candidate, with the start; none where there is no
    // such number.
    fn slot_with(&self, from: Option<u64>) -> Option<(usize, u64)>
        ensures { MatchOption from (result ≡ None) (λ n. FirstWith (views self.now.index.now) self.now.wanted.coded.code (bucket_of self.now.wanted.coded.hash) n result) }
    {
        self.index.first_with(from?, self.wanted.coded)
    }

    // The least bearer of one section, whose slot is given with its start.
    fn least_in<J: Journal>(
        &self,
        journal: &mut J,
        slot: usize,
        start: u64,
        after: Option<Place>,
    ) -> Option<Place>
        ensures { Reads J.Journal.fits J.Journal.meaning journal.old journal.new (λ m. Lawful m → (k : Coding) → Coded k m self.now.wanted.key.now self.now.wanted.coded.code self.now.wanted.coded.hash → view_at (views self.now.index.now) slot ≡ full_view k start (rows_of m.sections start) → result ≡ place_in (least (those (sought self.now.wanted.key.now after) (filed start 0 (rows_of m.sections start))))) }
    {
        let Wanted { key, coded } = self.wanted;
        let mut best = None;
        let mut at = self.index.newest(slot, coded);
        // Along links, each to a lower position: nothing is counted to.
        while let Some(handle) = at {
            let (_, position) = unpack(handle);
            best = better(journal, start, position, key, after, best);
            at = self.index.older(handle, coded);
        }
        best
    }

    // The least bearer behind a place, in the sections that start at or above `from`.
    fn least_bearer<J: Journal>(
        &self,
        journal: &mut J,
        from: u64,
        after: Option<Place>,
    ) -> Option<Spot>
        ensures { Reads J.Journal.fits J.Journal.meaning journal.old journal.new (λ m. (k : Coding) (width : ℕ) → Knows k width m self.now → result ≡ spot_in (least_from (sought self.now.wanted.key.now after) m.sections from)) }
    {
        let mut from = Some(from);
        // Counted, since a walk over starts has to be seen to end; there are sixteen slots. What it passes over has no candidate,
        // and so no bearer.
        for turn in 0..16usize {
            let (slot, start) = self.slot_with(from)?;
            if let Some(place) = self.least_in(journal, slot, start, after) {
                return Some(Spot { start, place });
            }
            from = start.checked_add(1);
        }
        None
    }

    // Where a search behind a place may begin: nothing behind it lies in an earlier section.
    fn start_behind(&self, after: Option<Place>) -> u64
        ensures { result ≡ start_behind self.now.size after }
    {
        let size = self.size;
        after.map_or(0, |place| section_of(size, place.number))
    }

    /// The least bearer of the key behind a place, of all that there are.
    pub(crate) fn next<J: Journal>(&self, journal: &mut J, after: Option<Place>) -> Option<Spot>
        ensures { Reads J.Journal.fits J.Journal.meaning journal.old journal.new (λ m. (k : Coding) (width : ℕ) → Knows k width m self.now → result ≡ spot_in (least (those (sought self.now.wanted.key.now after) (records_of m.sections)))) }
    {
        self.least_bearer(journal, self.start_behind(after), after)
    }
}
