// Where the fields of byte pages lie. No other file knows a place or a size.

ghost use Rattle.std.specs.Prelude.{◌≡◌, ◌*◌, ◌<◌, ◌≤◌, true, false, MatchOption};
ghost use Rattle.journal.specs.Making.{in_range};
ghost use Rattle.format.specs.Layout as lay;
ghost use Rattle.format.specs.Decode as decode;
ghost use Rattle.format.specs.Well.{Small};

use journal::limits::Limits;

/// A header: the start, the row count, and the check of both.
pub(crate) const COUNT_AT: usize = 8;

pub(crate) const HEAD_CHECK_AT: usize = COUNT_AT + 4;

pub(crate) const HEAD_SIZE: usize = HEAD_CHECK_AT + 4;

/// A row: the label and the key, the value's offset, its size, and the check of all of them.
pub(crate) const KEY_AT: usize = 8;

/// The places under limits so small that none of them overflows.
#[derive(Clone, Copy)]
pub(crate) struct Layout {
    pub(crate) limits: Limits,
    pub(crate) ghost small: { Small limits },
}

impl Layout {
    /// None where no journal may have these limits.
    pub(crate) fn new(limits: Limits) -> Option<Layout>
        ensures { MatchOption result (in_range limits ≡ false) (λ layout. (in_range limits ≡ true) × (layout.limits ≡ limits)) }
    {
        if !limits.in_range() {
            return None;
        }
        Some(Layout { limits })
    }

    pub(crate) fn width(self) -> usize
        ensures { result ≡ self.limits.width }
    {
        self.limits.width as usize
    }

    pub(crate) fn offset_at(self) -> usize
        ensures { result ≡ lay.offset_at self.limits.width }
    {
        KEY_AT + self.width()
    }

    pub(crate) fn size_at(self) -> usize
        ensures { result ≡ lay.size_at self.limits.width }
    {
        self.offset_at() + 8
    }

    pub(crate) fn row_check_at(self) -> usize
        ensures { result ≡ lay.row_check_at self.limits.width }
    {
        self.size_at() + 4
    }

    pub(crate) fn row_size(self) -> usize
        ensures { result ≡ lay.row_size self.limits.width }
    {
        self.row_check_at() + 4
    }

    pub(crate) fn row_place(self, row: u64) -> usize
        requires { row ≤ self.limits.rows }
        ensures { result ≡ lay.row_place self.limits.width row }
    {
        HEAD_SIZE + row as usize * self.row_size()
    }

    pub(crate) fn page_size(self) -> usize
        ensures { result ≡ lay.page_size self.limits.rows self.limits.width }
    {
        self.row_place(self.limits.rows)
    }

    /// Where a slot's page lies among the entries.
    // That a slot is below `slots` stays a `requires`, here and above: a type for it would have to ask that its limits are these.
    pub(crate) fn page_place(self, slot: u64) -> usize
        requires { slot ≤ self.limits.slots }
        ensures { result ≡ decode.page_place self.limits slot }
    {
        slot as usize * self.page_size()
    }

    /// Where its values lie among the values.
    pub(crate) fn values_place(self, slot: u64) -> usize
        requires { slot ≤ self.limits.slots }
        ensures { result ≡ decode.vals_place self.limits slot }
    {
        slot as usize * self.limits.bytes as usize
    }

    /// How long the entries of all slots are, and the values.
    pub(crate) fn entries_size(self) -> usize
        ensures { result ≡ self.limits.slots * lay.page_size self.limits.rows self.limits.width }
    {
        self.page_place(self.limits.slots)
    }

    pub(crate) fn values_size(self) -> usize
        ensures { result ≡ self.limits.slots * self.limits.bytes }
    {
        self.values_place(self.limits.slots)
    }
}
