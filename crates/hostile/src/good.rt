// A good pair, built by the library itself: a page that is full, one with room over older bytes, one that was freed and
// one that was never used.

use crate::pair::Pair;
use journal::Journal;
use journal::fault::JournalFault;
use journal::limits::Limits;
use journal::row::Label;
use pages::Pages;
use pages::sizes::Sizes;
use std::alloc::{AllocError, Global};

pub const LIMITS: Limits = Limits {
    slots: 4,
    rows: 3,
    bytes: 24,
    width: 11,
};

fn append<J: Journal>(
    journal: &mut J,
    start: u64,
    number: u64,
    value: &[u8],
) -> Result<u64, JournalFault> {
    journal.append(start, Label { number }, b"AAAU0000007", value)
}

// Section 10 goes and leaves its page to 40; 20 goes too, and 30 is full.
fn fill<J: Journal>(journal: &mut J) -> Result<(), JournalFault> {
    append(journal, 10, 11, b"older")?;
    append(journal, 10, 12, b"bytes")?;
    append(journal, 10, 13, b"st")?;
    append(journal, 20, 21, b"to be freed")?;
    append(journal, 30, 31, b"deck")?;
    append(journal, 30, 30, b"")?;
    append(journal, 30, 39, b"holds 2")?;
    journal.prune(20);
    append(journal, 40, 45, b"hi")?;
    append(journal, 40, 41, b"")?;
    journal.prune(30);
    Ok(())
}

/// The pair; without rows where the library refuses some step, which the first line of the output would show.
pub fn good_pair(heap: Global) -> Result<Pair, AllocError> {
    let Sizes { entries, values } = Pages::sizes(LIMITS).unwrap_or(Sizes {
        entries: 0,
        values: 0,
    });
    let mut entries = vec![in heap; 0; entries]?;
    let mut values = vec![in heap; 0; values]?;
    let mut pages = Pages::mount(entries.as_mut_slice(), values.as_mut_slice(), LIMITS);
    let _ = fill(&mut pages);
    Ok(Pair {
        limits: LIMITS,
        entries: pages.entries().to_vec(heap)?,
        values: pages.values().to_vec(heap)?,
    })
}
