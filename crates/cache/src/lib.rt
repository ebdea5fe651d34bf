// The entry cache: a journal over any other, which answers repeated entry reads from a table of its own.
#![tactic(auto)]

mod row_copy;
mod table;

pub use table::cache::Cache;
