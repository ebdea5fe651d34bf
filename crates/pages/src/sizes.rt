// How long the slices of byte pages are.

#[derive(Clone, Copy, Debug, PartialEq, Eq)]
pub struct Sizes {
    pub entries: usize,
    pub values: usize,
}
