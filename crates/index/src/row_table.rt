// The rows of a section as they lie. The methods are in row_table/ops.rt, since their contracts cite what rows stand for.

ghost use Rattle.std.specs.Prelude.{◌≤◌};

pub(crate) mod ops;

use crate::link::Link;

// By columns: a row by itself would be padded to 16 bytes, with which sixteen sections leave a processor's nearest memory. No
// vector of a library, since a section is `Copy`.
/// Rows by position, in fixed memory: as many as are counted.
#[derive(Clone, Copy)]
pub(crate) struct RowTable {
    codes: [u64; 128],
    offsets: [u8; 128],
    buckets: [u8; 128],
    next: [Link; 128],
    below: [Link; 128],
    count: usize,
    ghost few: { count ≤ 128 },
}
