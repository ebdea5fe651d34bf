// What pages mean: their sections by rising start, row by row.

#[derive(PartialEq, Eq, Drop)]
pub struct Row {
    pub number: u64,
    pub key: Vec<u8>,
    /// The value's length, also where it is damaged.
    pub length: u64,
    /// None where the value is damaged.
    pub value: Option<Vec<u8>>,
}

#[derive(PartialEq, Eq, Drop)]
pub struct Section {
    pub start: u64,
    pub rows: Vec<Row>,
}

/// Whether no row is damaged.
pub fn is_sound(sections: &[Section]) -> bool {
    sections.iter().all(|section| section.rows.iter().all(|row| row.value.is_some()))
}
