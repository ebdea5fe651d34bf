// What a summary tells of one section.

#[derive(Clone, Copy, Debug, PartialEq, Eq)]
pub struct SectionTotal {
    pub start: u64,
    pub rows: u64,
    pub cost: u64,
}

impl SectionTotal {
    /// What a slice of totals may be filled with before a summary.
    pub const NONE: SectionTotal = SectionTotal {
        start: 0,
        rows: 0,
        cost: 0,
    };
}
