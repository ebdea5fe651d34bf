// A summary of what any journal keeps: for each section its rows and their cost, read row by row.
#![tactic(auto)]

ghost use Rattle.std.specs.Prelude.{◌≡◌, slice_set};
ghost use Rattle.summary.specs.Totals.{Adds, Summarises};

pub mod total;

use journal::Journal;
use journal::fault::JournalFault;
use journal::reading::start_from;
use total::SectionTotal;

// A total to its place, where there is one. By index, since of a slice's `get_mut` a proof learns the length alone.
fn place_total(out: &mut [SectionTotal], i: u64, total: SectionTotal)
    ensures { out.new ≡ slice_set out.old i total }
{
    if i < out.len() as u64 {
        out[i as usize] = total;
    }
}

/// What the rows of a section cost, entry by entry.
pub fn section_cost<J: Journal>(journal: &mut J, start: u64) -> Result<u64, JournalFault>
    ensures { Adds J.Journal.fits J.Journal.meaning journal.old journal.new start result }
{
    // To ask for the limits is to learn that they are kept: no key is longer than this, and no sum passes a `u64`.
    let _ = journal.limits();
    let mut key = [0u8; 32];
    let rows = journal.row_count(start);
    let mut cost = 0;
    // Counted, since a journal is asked for a row by its position, and lends none of its rows.
    for position in 0..rows {
        let entry = journal.read_entry(start, position, &mut key)?;
        cost = entry.cost().saturating_add(cost);
    }
    Ok(cost)
}

/// The totals of the kept sections by rising start, as many as `out` has places for; the answer is how many are kept.
pub fn summary<J: Journal>(journal: &mut J, out: &mut [SectionTotal]) -> Result<u64, JournalFault>
    ensures { Summarises J.Journal.fits J.Journal.meaning journal.old journal.new out.old out.new result }
{
    let slots = journal.limits().slots;
    let mut from = Some(0);
    // Counted, since a walk over starts has to be seen to end, and the count is the answer.
    for i in 0..slots {
        let Some(start) = start_from(journal, from) else {
            return Ok(i);
        };
        let rows = journal.row_count(start);
        let cost = section_cost(journal, start)?;
        place_total(out, i, SectionTotal { start, rows, cost });
        from = start.checked_add(1);
    }
    Ok(slots)
}
