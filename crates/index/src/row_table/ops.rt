// What the rows of a section do.

ghost use Rattle.std.specs.Prelude.{◌≡◌, ◌+◌, ◌<◌, ◌≤◌, ◌++◌, ◌∷◌, [], length, IfSome, MatchOption, ◌==◌, slice_index_or};
ghost use Rattle.index.specs.Rows.{blank, held, last_in, followed};

use crate::link::Link;
use crate::row::{Ends, Row};
use crate::row_table::RowTable;

impl RowTable {
    pub(crate) fn new() -> RowTable
        ensures { held result ≡ [] }
    {
        RowTable {
            codes: [0; 128],
            offsets: [0; 128],
            buckets: [0; 128],
            next: [Link::none(); 128],
            below: [Link::none(); 128],
            count: 0,
        }
    }

    pub(crate) fn len(&self) -> usize
        ensures value { result ≡ length (held self.now) }
        ensures fits { result ≤ 128 }
    {
        self.count
    }

    pub(crate) fn is_full(&self) -> bool
        ensures value { result ≡ (length (held self.now) == 128) }
        ensures fits { length (held self.now) ≤ 128 }
    {
        self.count == 128
    }

    /// The row at a position that has one.
    pub(crate) fn row(&self, position: u8) -> Row
        requires { position < length (held self.now) }
        ensures { result ≡ slice_index_or (held self.now) position blank }
    {
        let at = position as usize;
        Row {
            code: self.codes[at],
            offset: self.offsets[at],
            bucket: self.buckets[at],
            next: self.next[at],
            below: self.below[at],
        }
    }

    /// The row at a position, where it has one.
    pub(crate) fn get(&self, position: u64) -> Option<Row>
        ensures { MatchOption result (length (held self.now) ≤ position) (λ r. (position < length (held self.now)) × (r ≡ slice_index_or (held self.now) position blank)) }
    {
        if position < self.count as u64 {
            Some(self.row(position as u8))
        } else {
            None
        }
    }

    /// One row more at the end.
    pub(crate) fn push(&mut self, row: Row)
        requires room { length (held self.old) < 128 }
        ensures items { held self.new ≡ held self.old ++ row ∷ [] }
        ensures len { length (held self.new) ≡ length (held self.old) + 1 }
    {
        let at = self.count;
        self.codes[at] = row.code;
        self.offsets[at] = row.offset;
        self.buckets[at] = row.bucket;
        self.next[at] = row.next;
        self.below[at] = row.below;
        self.count = at + 1;
    }

    /// Lets the last row of a number lead on to the next.
    pub(crate) fn follow(&mut self, ends: Ends, next: Link)
        requires { IfSome (last_in ends) (λ p. p < length (held self.old)) }
        ensures { held self.new ≡ followed (held self.old) (last_in ends) next }
    {
        if let Some(last) = ends.last.position() {
            self.next[last as usize] = next;
        }
    }
}
