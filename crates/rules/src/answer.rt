// What the archive's calls answer where they do not refuse.

/// Where a kept record lies: its move number, and its position in the section of that number. Places are in order of both.
// As C lays it out, since callers in C lend slices of them too.
#[repr(C)]
#[derive(Clone, Copy, Debug, PartialEq, Eq, PartialOrd, Ord)]
pub struct Place {
    pub number: u64,
    pub position: u64,
}

/// What came of a put.
#[derive(Clone, Copy, Debug, PartialEq, Eq)]
pub enum Put {
    BelowFloor,
    AlreadyThere,
    Stored { section: u64, position: u64 },
}

/// A record whose value was read: its place, and how many bytes of the buffer are now the value.
#[derive(Clone, Copy, Debug, PartialEq, Eq)]
pub struct Found {
    pub place: Place,
    pub length: u64,
}

/// What came of a prune.
#[derive(Clone, Copy, Debug, PartialEq, Eq)]
pub enum Pruned {
    /// The floor was there already, or above.
    Unchanged,
    Struck { numbers: u64, records: u64 },
}

/// A listing by key: how many places were filled, and how many kept records share the translated key.
#[derive(Clone, Copy, Debug, PartialEq, Eq)]
pub struct Listed {
    pub count: u64,
    pub candidates: u64,
}

#[derive(Clone, Copy, Debug, PartialEq, Eq)]
pub struct Counts {
    pub records: u64,
    /// How many different move numbers the records bear.
    pub numbers: u64,
    /// None until the first prune, which is not the same as a floor of 0.
    pub floor: Option<u64>,
}

/// The answer of any call, as a turn keeps it.
#[derive(Clone, Copy, Debug, PartialEq, Eq)]
pub enum Reply {
    Loaded { records: u64 },
    Put(Put),
    Pruned(Pruned),
    /// Of a get or of a value by place; `None` is "absent".
    Found(Option<Found>),
    Has(bool),
    ListedByNumber { count: u64 },
    ListedByKey(Listed),
    Counted(Counts),
}
