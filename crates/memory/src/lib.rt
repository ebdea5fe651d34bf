// Memory rows: a journal whose rows lie as records and bytes in slices that it is lent.
#![tactic(auto)]

mod tables;

pub use memory_layout::record::RowRecord;
pub use tables::Memory;
