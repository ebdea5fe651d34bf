// What journals of the same limits lie in, on byte pages and in memory.

use journal::limits::Limits;
use memory::RowRecord;
use pages::Pages;
use pages::sizes::Sizes;
use std::alloc::{AllocError, Global};

#[derive(Drop)]
pub struct Stores {
    pub limits: Limits,
    pub entries: Vec<u8>,
    pub values: Vec<u8>,
    pub records: Vec<RowRecord>,
    pub bytes: Vec<u8>,
}

impl Stores {
    pub fn new(heap: Global, limits: Limits) -> Result<Stores, AllocError> {
        let Sizes { entries, values } = Pages::sizes(limits).unwrap_or(Sizes {
            entries: 0,
            values: 0,
        });
        let area = limits
            .rows
            .saturating_mul(limits.width)
            .saturating_add(limits.bytes);
        let records = limits.slots.saturating_mul(limits.rows) as usize;
        let bytes = limits.slots.saturating_mul(area) as usize;
        Ok(Stores {
            limits,
            entries: vec![in heap; 0; entries]?,
            values: vec![in heap; 0; values]?,
            records: vec![in heap; RowRecord::BLANK; records]?,
            bytes: vec![in heap; 0; bytes]?,
        })
    }
}
