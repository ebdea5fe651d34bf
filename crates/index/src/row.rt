// What a section keeps of a record. The methods are in row/ops.rt, since their contracts cite what rows stand for.

pub(crate) mod ops;

use crate::link::Link;

// Links name positions, since the tables are of fixed memory and none is on a heap.
/// By links a row is in two chains: that of its number, the oldest first, and that of its bucket, the newest first.
#[derive(Clone, Copy, Debug, Default, PartialEq, Eq)]
pub(crate) struct Row {
    pub(crate) code: u64,
    pub(crate) offset: u8,
    pub(crate) bucket: u8,
    pub(crate) next: Link,
    pub(crate) below: Link,
}

/// The first and the last row of a number, if it has any.
#[derive(Clone, Copy, Debug, PartialEq, Eq)]
pub(crate) struct Ends {
    pub(crate) first: Link,
    pub(crate) last: Link,
}
