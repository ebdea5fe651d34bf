// What memory rows know of a slot.

/// What is known of one slot. With no rows it is free: a kept section has a row at least, so an `Option` would say the
/// same twice.
#[derive(Clone, Copy, Debug, PartialEq, Eq)]
pub struct Head {
    pub start: u64,
    pub count: usize,
    /// What the rows cost. With their keys' bytes it tells where the next row goes.
    pub cost: usize,
}

impl Head {
    /// The head of a free slot.
    pub const FREE: Head = Head {
        start: 0,
        count: 0,
        cost: 0,
    };
}
