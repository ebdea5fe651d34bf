// A plain decoder of byte pages, written from docs/FORMATS.md alone: it shares no code with the library's mounting check,
// reckons every place and every check by itself, and says what the library has to answer.

use crate::bytes::{byte_at, hash_at, number_at};
use crate::meaning::{Row, Section};
use journal::fault::JournalFault;
use journal::limits::Limits;
use std::alloc::{AllocError, Global};

/// Why pages are refused.
#[derive(Clone, Copy)]
pub enum Flaw {
    Lengths,
    HeaderCheck,
    NoRows,
    TooManyRows,
    RepeatedStart,
    RowCheck,
    Offset,
    SmallSize,
    BeyondPage,
}

/// The refusal that pages are due, and its reason, which the library does not tell.
#[derive(Clone, Copy)]
pub struct Refusal {
    pub fault: JournalFault,
    pub flaw: Flaw,
}

#[derive(Clone, Copy)]
pub struct Plain<'a> {
    pub limits: Limits,
    pub entries: &'a [u8],
    pub values: &'a [u8],
}

/// Some bytes of a slice, and none where it does not have them all.
pub fn some_bytes(heap: Global, bytes: &[u8], at: u64, n: u64) -> Result<Vec<u8>, AllocError> {
    let end = at.saturating_add(n);
    bytes
        .get(at as usize..end as usize)
        .unwrap_or(&[])
        .to_vec(heap)
}

impl<'a> Plain<'a> {
    pub fn row_size(&self) -> u64 {
        self.limits.width.saturating_add(24)
    }

    pub fn page_size(&self) -> u64 {
        self.limits
            .rows
            .saturating_mul(self.row_size())
            .saturating_add(16)
    }

    /// Where a slot's page begins.
    pub fn page(&self, slot: u64) -> u64 {
        slot.saturating_mul(self.page_size())
    }

    /// Where a row begins.
    pub fn row(&self, slot: u64, row: u64) -> u64 {
        self.page(slot)
            .saturating_add(16)
            .saturating_add(row.saturating_mul(self.row_size()))
    }

    fn is_free(&self, slot: u64) -> bool {
        let page = self.page(slot);
        (0..16u64).all(|i| byte_at(self.entries, page.saturating_add(i)) == 0)
    }

    fn start(&self, slot: u64) -> u64 {
        number_at(self.entries, self.page(slot), 8)
    }

    fn count(&self, slot: u64) -> u64 {
        number_at(self.entries, self.page(slot).saturating_add(8), 4)
    }

    fn offset(&self, slot: u64, row: u64) -> u64 {
        let behind_key = self.limits.width.saturating_add(8);
        number_at(
            self.entries,
            self.row(slot, row).saturating_add(behind_key),
            8,
        )
    }

    fn size(&self, slot: u64, row: u64) -> u64 {
        let behind_offset = self.limits.width.saturating_add(16);
        number_at(
            self.entries,
            self.row(slot, row).saturating_add(behind_offset),
            4,
        )
    }

    // Whether the four bytes behind `n` bytes are their check.
    fn is_checked(&self, at: u64, n: u64) -> bool {
        hash_at(self.entries, at, n) == number_at(self.entries, at.saturating_add(n), 4)
    }

    fn are_lengths_right(&self) -> bool {
        let Limits {
            slots,
            rows,
            bytes,
            width,
        } = self.limits;
        let in_range = 0 < slots
            && slots < 65
            && 0 < rows
            && rows < 1025
            && 3 < bytes
            && bytes < 65_537
            && 0 < width
            && width < 33;
        in_range
            && self.entries.len() as u64 == slots.saturating_mul(self.page_size())
            && self.values.len() as u64 == slots.saturating_mul(bytes)
    }

    fn is_start_repeated(&self, slot: u64) -> bool {
        let start = self.start(slot);
        (0..slot).any(|lower| !self.is_free(lower) && self.start(lower) == start)
    }

    fn header_flaw(&self, slot: u64) -> Option<Flaw> {
        let count = self.count(slot);
        if !self.is_checked(self.page(slot), 12) {
            Some(Flaw::HeaderCheck)
        } else if count == 0 {
            Some(Flaw::NoRows)
        } else if count > self.limits.rows {
            Some(Flaw::TooManyRows)
        } else if self.is_start_repeated(slot) {
            Some(Flaw::RepeatedStart)
        } else {
            None
        }
    }

    // The sizes of all rows before one.
    fn sum_before(&self, slot: u64, row: u64) -> u64 {
        let mut sum = 0u64;
        for r in 0..row {
            sum = sum.saturating_add(self.size(slot, r));
        }
        sum
    }

    fn row_flaw(&self, slot: u64, row: u64) -> Option<Flaw> {
        let offset = self.offset(slot, row);
        let size = self.size(slot, row);
        if !self.is_checked(self.row(slot, row), self.limits.width.saturating_add(20)) {
            Some(Flaw::RowCheck)
        } else if offset != self.sum_before(slot, row) {
            Some(Flaw::Offset)
        } else if size < 4 {
            Some(Flaw::SmallSize)
        } else if offset.saturating_add(size) > self.limits.bytes {
            Some(Flaw::BeyondPage)
        } else {
            None
        }
    }

    fn page_refusal(&self, slot: u64) -> Option<Refusal> {
        if self.is_free(slot) {
            return None;
        }
        if let Some(flaw) = self.header_flaw(slot) {
            let fault = JournalFault::BadHeader { slot };
            return Some(Refusal { fault, flaw });
        }
        for row in 0..self.count(slot) {
            if let Some(flaw) = self.row_flaw(slot, row) {
                let fault = JournalFault::BadRow { slot, row };
                return Some(Refusal { fault, flaw });
            }
        }
        None
    }

    /// The first thing wrong with the pages.
    pub fn refusal(&self) -> Option<Refusal> {
        if !self.are_lengths_right() {
            return Some(Refusal {
                fault: JournalFault::WrongSizes,
                flaw: Flaw::Lengths,
            });
        }
        for slot in 0..self.limits.slots {
            let refusal = self.page_refusal(slot);
            if refusal.is_some() {
                return refusal;
            }
        }
        None
    }

    // The value of a row, and none where its check differs.
    fn value(&self, heap: Global, slot: u64, row: u64) -> Result<Option<Vec<u8>>, AllocError> {
        let at = slot
            .saturating_mul(self.limits.bytes)
            .saturating_add(self.offset(slot, row));
        let length = self.size(slot, row).saturating_sub(4);
        if hash_at(self.values, at, length)
            != number_at(self.values, at.saturating_add(length), 4)
        {
            return Ok(None);
        }
        Ok(Some(some_bytes(heap, self.values, at, length)?))
    }

    fn row_read(&self, heap: Global, slot: u64, row: u64) -> Result<Row, AllocError> {
        let at = self.row(slot, row);
        Ok(Row {
            number: number_at(self.entries, at, 8),
            key: some_bytes(heap, self.entries, at.saturating_add(8), self.limits.width)?,
            length: self.size(slot, row).saturating_sub(4),
            value: self.value(heap, slot, row)?,
        })
    }

    fn section(&self, heap: Global, slot: u64) -> Result<Section, AllocError> {
        let mut rows = Vec::new(heap);
        for row in 0..self.count(slot) {
            rows.push(self.row_read(heap, slot, row)?)?;
        }
        Ok(Section {
            start: self.start(slot),
            rows,
        })
    }

    // How many other pages have a lower start: the place of a slot's section.
    fn rank(&self, slot: u64) -> u64 {
        let start = self.start(slot);
        let mut rank = 0u64;
        for other in 0..self.limits.slots {
            if !self.is_free(other) && self.start(other) < start {
                rank = rank.saturating_add(1);
            }
        }
        rank
    }

    /// What the pages mean, where nothing is wrong with them.
    pub fn meaning(&self, heap: Global) -> Result<Vec<Section>, AllocError> {
        let mut sections = Vec::new(heap);
        for place in 0..self.limits.slots {
            let slot = (0..self.limits.slots).find(|slot| !self.is_free(*slot)
                && self.rank(*slot) == place);
            if let Some(slot) = slot {
                sections.push(self.section(heap, slot)?)?;
            }
        }
        Ok(sections)
    }
}
