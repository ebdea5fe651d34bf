// A page of the entries: its header, and its rows.

ghost use Rattle.std.specs.Prelude.{◌≡◌, ◌^◌, ◌<◌, ◌≤◌, ◌&&◌, ◌==◌, nat_lt, length, MatchOption};
ghost use Rattle.format.specs.Layout as lay;
ghost use Rattle.format.specs.Decode as decode;
ghost use Rattle.format.specs.Mount as mount;
ghost use Rattle.format.specs.Well.{GoodPage};

use crate::layout::{COUNT_AT, HEAD_CHECK_AT, HEAD_SIZE, Layout};
use crate::numbers::{is_checked, number_at, part, seal, write_number};
use crate::row::Row;

/// A page's bytes.
#[derive(Clone, Copy)]
pub(crate) struct Page<'a> {
    pub(crate) bytes: &'a [u8],
    pub(crate) layout: Layout,
    pub(crate) ghost long: { length bytes.now ≡ lay.page_size layout.limits.rows layout.limits.width },
}

impl<'a> Page<'a> {
    pub(crate) fn start(&self) -> u64
        ensures { result ≡ decode.start_of self.now.bytes.now }
    {
        number_at::<8>(self.bytes, 0)
    }

    /// How many rows it has.
    pub(crate) fn count(&self) -> u64
        ensures count { result ≡ decode.count_of self.now.bytes.now }
        ensures bound { result < 2 ^ 32 }
    {
        number_at::<4>(self.bytes, COUNT_AT)
    }

    pub(crate) fn is_free(&self) -> bool
        ensures { result ≡ decode.is_free self.now.bytes.now }
    {
        part(self.bytes, 0, HEAD_SIZE).iter().all(|b| *b == 0)
    }

    /// Whether it has rows, of the section that starts there.
    pub(crate) fn bears(&self, start: u64) -> bool
        ensures { result ≡ (nat_lt 0 (decode.count_of self.now.bytes.now) && decode.start_of self.now.bytes.now == start) }
    {
        0 < self.count() && self.start() == start
    }

    pub(crate) fn row(&self, row: u64) -> Row<'a>
        requires { row < self.now.layout.limits.rows }
        ensures row { result.bytes.now ≡ decode.row_at self.now.layout.limits.width self.now.bytes.now row }
        ensures limits { result.layout.limits ≡ self.now.layout.limits }
    {
        let layout = self.layout;
        Row {
            bytes: part(self.bytes, layout.row_place(row), layout.row_size()),
            layout,
        }
    }

    /// Whether the header's check is its own.
    pub(crate) fn is_checked(&self) -> bool
        ensures { result ≡ mount.checked_at self.now.bytes.now lay.head_check_at }
    {
        is_checked(self.bytes, HEAD_CHECK_AT)
    }

    /// Whether the header is right by itself.
    pub(crate) fn is_head_right(&self) -> bool
        ensures { result ≡ mount.head_right self.now.layout.limits self.now.bytes.now }
    {
        let count = self.count();
        0 < count && count <= self.layout.limits.rows && self.is_checked()
    }

    /// The first row that is not right.
    // A `for`: the row's number is the answer, and the offset goes on from row to row, which a closure's capture may not.
    pub(crate) fn bad_row(&self) -> Option<u64>
        requires { decode.count_of self.now.bytes.now ≤ self.now.layout.limits.rows }
        ensures { MatchOption result (mount.sound_rows self.now.layout.limits self.now.bytes.now ≡ decode.count_of self.now.bytes.now) (λ row. (row < decode.count_of self.now.bytes.now) × (mount.sound_rows self.now.layout.limits self.now.bytes.now ≡ row)) }
    {
        let mut used = 0;
        for r in 0..self.count() {
            let row = self.row(r);
            if !row.fits(used) {
                return Some(r);
            }
            used += row.size();
        }
        None
    }

    /// Where the page's next value lies: behind that of its last row.
    pub(crate) fn next_offset(&self) -> u64
        requires { GoodPage self.now.layout.limits self.now.bytes.now }
        ensures within { result ≤ self.now.layout.limits.bytes }
        ensures place { result ≡ decode.used self.now.layout.limits.width self.now.bytes.now (decode.count_of self.now.bytes.now) }
    {
        let count = self.count();
        if count == 0 {
            return 0;
        }
        let last = self.row(count - 1);
        last.offset() + last.size()
    }
}

pub(crate) fn write_head(head: &mut [u8], start: u64, count: u64)
    requires long { length head.old ≡ lay.head_size }
    requires count { count < 2 ^ 32 }
    ensures { head.new ≡ lay.head_bytes start count }
{
    write_number::<8>(head, 0, start);
    write_number::<4>(head, COUNT_AT, count);
    seal(head, HEAD_CHECK_AT);
}
