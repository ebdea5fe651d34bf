// A section of the index. Its methods are in section/ops.rt, since their contracts cite what a section stands for.

ghost use Rattle.std.specs.Prelude.{◌≤◌, length};
ghost use Rattle.index.specs.Rows.{held, Linked};

pub mod ops;

use crate::link::Link;
use crate::row::Ends;
use crate::row_table::RowTable;

/// A kept section: its rows by position, and where the chains of the numbers and of the buckets begin and end. Two tables
/// beside the rows, since each goes by another key, in fixed memory.
#[derive(Clone, Copy)]
pub struct Section {
    start: u64,
    /// Kept beside the tables, so that counting the numbers walks over nothing.
    distinct: usize,
    rows: RowTable,
    numbers: [Ends; 64],
    heads: [Link; 128],
    ghost few: { length (held rows) ≤ 128 },
    ghost linked: { Linked distinct (held rows) numbers heads },
}

/// What an addition answers where there is no room.
#[derive(Clone, Copy, Debug, PartialEq, Eq)]
pub struct NoRoom;
