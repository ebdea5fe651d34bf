// Reading any journal: a row as a whole, and its sections one after another.

ghost use Rattle.std.specs.Prelude.{◌≡◌, None, MatchOption};
ghost use Rattle.journal.specs.Promises.{TellsFirst, ReadsRow};

use crate::Journal;
use crate::fault::JournalFault;
use crate::row::Entry;

/// A row's entry with its key, and then its value. A refusal of either comes up whole; where the entry is refused
/// the value's buffer waits as it was.
pub fn read_row<J: Journal>(
    journal: &mut J,
    start: u64,
    position: u64,
    key: &mut [u8],
    value: &mut [u8],
) -> Result<Entry, JournalFault>
    ensures { ReadsRow J.Journal.fits J.Journal.meaning journal.old journal.new start position key.old key.new value.old value.new result }
{
    let entry = journal.read_entry(start, position, key)?;
    journal.read_value(start, position, value)?;
    Ok(entry)
}

/// The first kept start at or above `from`; none where there is no such number, as there is none above the highest start.
pub fn start_from<J: Journal>(journal: &J, from: Option<u64>) -> Option<u64>
    ensures { MatchOption from (result ≡ None) (λ n. TellsFirst J.Journal.fits J.Journal.meaning journal.now n result) }
{
    journal.first_start(from?)
}
