// The slices that pages lie in, or are saved into.

/// Entries and values of byte pages.
#[repr(C)]
pub struct Slices<'a> {
    pub entries: &'a mut [u8],
    pub values: &'a mut [u8],
}
