// The archive's inner index: what is kept of each section, by slot, and the handles that name a record in it.
// Tables of fixed size, none of them on a heap. docs/ARCHITECTURE.md says how a section keeps its chains.
#![tactic(auto)]

pub mod handle;
pub mod index;
pub mod key_code;
mod link;
mod marks;
mod row;
mod row_table;
pub mod section;
