// The layout of memory rows: what their tables mean, and what storing and pruning make of them.
#![tactic(auto)]

pub mod head;
pub mod record;
