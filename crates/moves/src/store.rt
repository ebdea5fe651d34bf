// What a journal lies in: memory for rows, or the bytes of pages.

ghost use Rattle.std.specs.Prelude.{◌≡◌};
ghost use Rattle.pages.specs.Lengths.{sizes_of};
ghost use Rattle.moves.specs.Sizes.{pages_for};

use crate::stop::Stop;
use journal::fault::JournalFault;
use journal::limits::Limits;
use memory::{Memory, RowRecord};
use pages::Pages;
use pages::sizes::Sizes;
use std::alloc::Global;

/// Where a journal is to lie.
#[derive(Clone, Copy, Debug, PartialEq, Eq)]
pub enum Medium {
    Memory,
    Pages,
}

#[derive(Drop)]
pub enum Store {
    Memory(Rows),
    Pages(PageBytes),
}

/// The memory that a journal of memory rows is lent.
#[derive(Drop)]
pub struct Rows {
    pub records: Vec<RowRecord>,
    pub bytes: Vec<u8>,
    pub limits: Limits,
}

/// The bytes that a journal on pages is lent, or that are laid open.
#[derive(Drop)]
pub struct PageBytes {
    pub entries: Vec<u8>,
    pub values: Vec<u8>,
    pub limits: Limits,
}

// How many records and bytes a journal of these limits wants; nothing for limits that no journal may have.
fn rows_for(limits: &Limits) -> (usize, usize) {
    if !limits.in_range() {
        return (0, 0);
    }
    let area = limits
        .rows
        .saturating_mul(limits.width)
        .saturating_add(limits.bytes);
    (
        limits.slots.saturating_mul(limits.rows) as usize,
        limits.slots.saturating_mul(area) as usize,
    )
}

impl Rows {
    /// Memory for rows, none of them kept; refused where no journal may have the limits.
    pub fn new(heap: Global, limits: Limits) -> Result<Rows, Stop> {
        let (records, bytes) = rows_for(&limits);
        let records = vec![in heap; RowRecord::BLANK; records]?;
        let bytes = vec![in heap; 0; bytes]?;
        Memory::check(records.as_slice(), bytes.as_slice(), limits)?;
        Ok(Rows {
            records,
            bytes,
            limits,
        })
    }
}

// How long the slices are; nothing for limits that no journal may have.
fn sizes(limits: Limits) -> Sizes
    ensures { result ≡ pages_for (sizes_of limits) }
{
    Pages::sizes(limits).unwrap_or(Sizes {
        entries: 0,
        values: 0,
    })
}

impl PageBytes {
    /// Pages that are all free; refused where no journal may have the limits.
    pub fn new(heap: Global, limits: Limits) -> Result<PageBytes, Stop> {
        let sizes = sizes(limits);
        let pages = PageBytes {
            entries: vec![in heap; 0; sizes.entries]?,
            values: vec![in heap; 0; sizes.values]?,
            limits,
        };
        pages.check()?;
        Ok(pages)
    }

    /// The bytes of a file: what the entries take of its front, and the rest as the values. Nothing is checked yet.
    pub fn from_file(heap: Global, file: &[u8], limits: Limits) -> Result<PageBytes, Stop> {
        let at = sizes(limits).entries.min(file.len());
        Ok(PageBytes {
            entries: file[..at].to_vec(heap)?,
            values: file[at..].to_vec(heap)?,
            limits,
        })
    }

    pub fn copy(&self, heap: Global) -> Result<PageBytes, Stop> {
        Ok(PageBytes {
            entries: self.entries.as_slice().to_vec(heap)?,
            values: self.values.as_slice().to_vec(heap)?,
            limits: self.limits,
        })
    }

    /// Why these bytes cannot be mounted, if they cannot.
    pub fn check(&self) -> Result<(), JournalFault> {
        Pages::check(self.entries.as_slice(), self.values.as_slice(), self.limits)
    }
}

impl Store {
    /// Memory for a new journal of these limits; refused where no such journal can begin.
    pub fn new(heap: Global, on: Medium, limits: Limits) -> Result<Store, Stop> {
        match on {
            Medium::Memory => Ok(Store::Memory(Rows::new(heap, limits)?)),
            Medium::Pages => Ok(Store::Pages(PageBytes::new(heap, limits)?)),
        }
    }
}
