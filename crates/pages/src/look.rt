// What lies in pages, whatever their bytes: for whoever is to tell why a mounting refuses them.

ghost use Rattle.std.specs.Prelude.{◌≡◌, ◌<◌, true, false, length, MatchOption};
ghost use Rattle.journal.specs.Making.{in_range};
ghost use Rattle.format.specs.Decode as decode;
ghost use Rattle.format.specs.State.{offered};
ghost use Rattle.pages.specs.Looks.{bytes_seen, has_page, slot_seen, is_whole, row_seen_in, row_seen};

use crate::layout::Layout;
use crate::numbers::part;
use crate::page::Page;
use crate::row::Row;
use crate::value::is_value_checked;
use journal::limits::Limits;
use journal::row::CHECK_SIZE;

/// What lies in a slot.
#[derive(Clone, Copy, Debug, PartialEq, Eq)]
pub enum SlotSeen {
    Free,
    Used {
        start: u64,
        /// How many rows the header counts: more than there is room for, it may be.
        rows: u64,
        /// Whether the header's check is its own.
        is_right: bool,
    },
}

/// What lies in a row's place.
#[derive(Clone, Copy, Debug, PartialEq, Eq)]
pub struct RowSeen {
    /// The move number.
    pub number: u64,
    pub offset: u64,
    /// The value's length; 0 where the size is less than a check's.
    pub length: u64,
    /// Whether the row's check is its own.
    pub is_right: bool,
    /// Whether the value lies where the row says, its check its own.
    pub is_sound: bool,
}

/// A look into bytes of any kind and length, as pages of some limits.
#[derive(Clone, Copy)]
pub struct Look<'a> {
    entries: &'a [u8],
    values: &'a [u8],
    layout: Layout,
}

impl<'a> Look<'a> {
    /// None where no journal may have these limits.
    pub fn new(entries: &'a [u8], values: &'a [u8], limits: Limits) -> Option<Look<'a>>
        ensures { MatchOption result (in_range limits ≡ false) (λ look. (in_range limits ≡ true) × (bytes_seen look ≡ offered limits entries.now values.now)) }
    {
        let layout = Layout::new(limits)?;
        Some(Look {
            entries,
            values,
            layout,
        })
    }

    /// What a slot's header says; none where the slot's page does not lie whole in the entries.
    pub fn slot(&self, slot: u64) -> Option<SlotSeen>
        ensures { result ≡ slot_seen (bytes_seen self.now).limits (bytes_seen self.now).entries slot }
    {
        let page = self.page(slot)?;
        if page.is_free() {
            return Some(SlotSeen::Free);
        }
        Some(SlotSeen::Used {
            start: page.start(),
            rows: page.count(),
            is_right: page.is_checked(),
        })
    }

    /// What a row says; none where the slot's page does not lie whole in the entries, or has no such row.
    pub fn row(&self, slot: u64, row: u64) -> Option<RowSeen>
        ensures { result ≡ row_seen (bytes_seen self.now).limits (bytes_seen self.now).entries (bytes_seen self.now).values slot row }
    {
        let page = self.page(slot)?;
        if self.layout.limits.rows <= row || page.count() <= row {
            return None;
        }
        Some(self.row_seen(slot, &page.row(row)))
    }

    fn row_seen(&self, slot: u64, row: &Row) -> RowSeen
        requires slot { slot < (bytes_seen self.now).limits.slots }
        requires limits { row.now.layout.limits ≡ (bytes_seen self.now).limits }
        ensures { result ≡ row_seen_in (bytes_seen self.now).limits (bytes_seen self.now).values slot row.now.bytes.now }
    {
        RowSeen {
            number: row.label().number,
            offset: row.offset(),
            length: row.size().saturating_sub(CHECK_SIZE),
            is_right: row.is_checked(),
            is_sound: self.is_whole(slot, row.offset(), row.size()),
        }
    }

    fn page(&self, slot: u64) -> Option<Page<'a>>
        ensures { MatchOption result (has_page (bytes_seen self.now).limits (length (bytes_seen self.now).entries) slot ≡ false) (λ page. (has_page (bytes_seen self.now).limits (length (bytes_seen self.now).entries) slot ≡ true) × (page.bytes.now ≡ decode.page (bytes_seen self.now).limits (bytes_seen self.now).entries slot) × (page.layout.limits ≡ (bytes_seen self.now).limits)) }
    {
        let layout = self.layout;
        if layout.limits.slots <= slot {
            return None;
        }
        let at = layout.page_place(slot);
        let size = layout.page_size();
        if self.entries.len() < at + size {
            return None;
        }
        Some(Page {
            bytes: part(self.entries, at, size),
            layout,
        })
    }

    /// Whether a value with its check lies at an offset of a slot's values.
    // Both numbers may be any: they are added only once both are known to be small.
    fn is_whole(&self, slot: u64, offset: u64, size: u64) -> bool
        requires { slot < (bytes_seen self.now).limits.slots }
        ensures { result ≡ is_whole (bytes_seen self.now).limits (bytes_seen self.now).values slot offset size }
    {
        let bytes = self.layout.limits.bytes;
        if size < CHECK_SIZE || bytes < size || bytes - size < offset {
            return false;
        }
        let at = self.layout.values_place(slot);
        if self.values.len() < at + bytes as usize {
            return false;
        }
        is_value_checked(part(self.values, at + offset as usize, size as usize))
    }
}
