// The rows of a journal, read through its calls, and appended to another.

use journal::Journal;
use journal::reading::{read_row, start_from};
use journal::row::Label;
use std::alloc::{AllocError, Global};

#[derive(Clone, Drop)]
pub struct Row {
    pub start: u64,
    pub number: u64,
    pub key: Vec<u8>,
    pub value: Vec<u8>,
}

impl Row {
    pub fn equals(&self, other: &Row) -> bool {
        self.start == other.start
            && self.number == other.number
            && self.key.as_slice() == other.key.as_slice()
            && self.value.as_slice() == other.value.as_slice()
    }
}

// A row that is refused shows as one of another length.
fn row_at<J: Journal>(
    heap: Global,
    journal: &mut J,
    start: u64,
    position: u64,
) -> Result<Row, AllocError> {
    let mut key = vec![in heap; 0; 32]?;
    let mut value = vec![in heap; 0; 4_096]?;
    let (number, length) = match read_row(
        journal,
        start,
        position,
        key.as_mut_slice(),
        value.as_mut_slice(),
    ) {
        Ok(entry) => (entry.label.number, entry.length),
        Err(_) => (0, 0),
    };
    key.truncate(journal.limits().width as usize);
    value.truncate(length as usize);
    Ok(Row {
        start,
        number,
        key,
        value,
    })
}

/// All rows, by rising start and then by position.
pub fn rows_of<J: Journal>(heap: Global, journal: &mut J) -> Result<Vec<Row>, AllocError> {
    let mut rows = Vec::new(heap);
    let mut from = Some(0);
    for _ in 0..journal.limits().slots {
        let Some(start) = start_from(journal, from) else {
            break;
        };
        for position in 0..journal.row_count(start) {
            rows.push(row_at(heap, journal, start, position)?)?;
        }
        from = start.checked_add(1);
    }
    Ok(rows)
}

/// Appends rows; answers whether all were taken.
pub fn refill<J: Journal>(journal: &mut J, rows: &[Row]) -> bool {
    let mut all = true;
    for row in rows {
        let number = row.number;
        let done = journal.append(
            row.start,
            Label { number },
            row.key.as_slice(),
            row.value.as_slice(),
        );
        all = all && done.is_ok();
    }
    all
}

pub fn same_rows(rows: &[Row], others: &[Row]) -> bool {
    rows.len() == others.len() && rows.iter().zip(others.iter()).all(|(a, b)| a.equals(b))
}
