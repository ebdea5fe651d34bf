// The record that a row has in the slice of records.

use journal::row::Label;

/// One row: its label, where its key begins among the bytes, its value right behind, and its value's length.
#[derive(Clone, Copy, Debug, PartialEq, Eq)]
pub struct RowRecord {
    pub label: Label,
    pub at: usize,
    pub length: usize,
}

impl RowRecord {
    /// What a slice of records may be filled with before it is lent; what it holds then does not matter.
    pub const BLANK: RowRecord = RowRecord {
        label: Label { number: 0 },
        at: 0,
        length: 0,
    };
}
