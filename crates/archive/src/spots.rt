// The record at a place, and the value of a record that was found.

ghost use Rattle.std.specs.Prelude.{◌≡◌, ℕ, length};
ghost use Rattle.std.specs.List.{AllByRecursion};
ghost use Rattle.journal.specs.Meaning.{Lawful};
ghost use Rattle.rules.specs.State.{records_of, those, lies_at};
ghost use Rattle.archive_layout.specs.Fit.{Homed};
ghost use Rattle.archive_layout.specs.Keys.{front, spot_in};
ghost use Rattle.archive_layout.specs.Promises.{Reads};
ghost use Rattle.archive_layout.specs.Founds.{ReadsSpot};

use archive_layout::spot::Spot;
use journal::Journal;
use rules::answer::{Found, Place};
use rules::fault::ArchiveFault;
use rules::rounding::section_of;

/// Where the record at a place lies, with `size` numbers to a section; none where no record lies there.
pub(crate) fn spot_at<J: Journal>(journal: &mut J, size: u64, place: Place) -> Option<Spot>
    ensures { Reads J.Journal.fits J.Journal.meaning journal.old journal.new (λ m. Lawful m → AllByRecursion (Homed size) m.sections → result ≡ spot_in (front (those (lies_at place) (records_of m.sections)))) }
{
    let start = section_of(size, place.number);
    let mut key = [0u8; 32];
    let Ok(entry) = journal.read_entry(start, place.position, &mut key) else {
        return None;
    };
    if entry.label.number != place.number {
        return None;
    }
    Some(Spot { start, place })
}

/// The value of a record, if one was found, to the front of `value`.
pub(crate) fn read_found<J: Journal>(
    journal: &mut J,
    spot: Option<Spot>,
    value: &mut [u8],
) -> Result<Option<Found>, ArchiveFault>
    ensures { Reads J.Journal.fits J.Journal.meaning journal.old journal.new (λ m. ReadsSpot m spot value.old value.new result) }
{
    let Some(Spot { start, place }) = spot else {
        return Ok(None);
    };
    let length = journal.read_value(start, place.position, value)?;
    Ok(Some(Found { place, length }))
}
