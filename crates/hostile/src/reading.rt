// What a journal keeps, read through its calls alone. What it answers as it never should is left out here, so that the
// comparison with the plain decoder tells.

use crate::meaning::{Row, Section};
use journal::Journal;
use journal::fault::JournalFault;
use journal::reading::start_from;
use std::alloc::{AllocError, Global};

// A row read into buffers that just do; none where the journal refuses more than a damaged value.
fn read_row<J: Journal>(
    heap: Global,
    journal: &mut J,
    start: u64,
    position: u64,
) -> Result<Option<Row>, AllocError> {
    let width = journal.limits().width;
    let mut key = vec![in heap; 0; width as usize]?;
    let Ok(entry) = journal.read_entry(start, position, key.as_mut_slice()) else {
        return Ok(None);
    };
    let length = entry.length;
    let mut value = vec![in heap; 0; length as usize]?;
    let damaged = JournalFault::Damaged {
        section: start,
        position,
    };
    let value = match journal.read_value(start, position, value.as_mut_slice()) {
        Ok(n) if n == length => Some(value),
        Err(fault) if fault == damaged => None,
        _ => return Ok(None),
    };
    Ok(Some(Row {
        number: entry.label.number,
        key,
        length,
        value,
    }))
}

// Whether buffers one byte too short for a row are refused, with what would do, and left as they were.
fn refuses_short<J: Journal>(
    heap: Global,
    journal: &mut J,
    start: u64,
    position: u64,
    row: &Row,
) -> Result<bool, AllocError> {
    let mut key = vec![in heap; 0; row.key.len().saturating_sub(1)]?;
    let mut value = vec![in heap; 0; row.length.saturating_sub(1) as usize]?;
    let entry = journal
        .read_entry(start, position, key.as_mut_slice())
        .err();
    let content = journal
        .read_value(start, position, value.as_mut_slice())
        .err();
    let short = |amount: u64| JournalFault::Short {
        section: start,
        position,
        amount,
    };
    // No buffer is too short for an empty value.
    let is_content_right = row.length == 0 || content == Some(short(row.length));
    let are_left = key.iter().chain(value.iter()).all(|b| *b == 0);
    Ok(entry == Some(short(row.key.len() as u64)) && is_content_right && are_left)
}

// The place behind the last row is asked for too: a row there would show.
fn read_section<J: Journal>(
    heap: Global,
    journal: &mut J,
    start: u64,
) -> Result<Section, AllocError> {
    let mut rows = Vec::new(heap);
    for position in 0..=journal.row_count(start) {
        if let Some(row) = read_row(heap, journal, start, position)? {
            if refuses_short(heap, journal, start, position, &row)? {
                rows.push(row)?;
            }
        }
    }
    Ok(Section { start, rows })
}

/// The sections by rising start; one more than there are slots would show too.
pub fn read_all<J: Journal>(heap: Global, journal: &mut J) -> Result<Vec<Section>, AllocError> {
    let mut sections = Vec::new(heap);
    let mut from = Some(0);
    for _ in 0..=journal.limits().slots {
        let Some(start) = start_from(journal, from) else {
            break;
        };
        sections.push(read_section(heap, journal, start)?)?;
        from = start.checked_add(1);
    }
    Ok(sections)
}
