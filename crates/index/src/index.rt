// The slots of the index. Their methods are in index/ops.rt, since their contracts cite what an index stands for.

ghost use Rattle.std.specs.Prelude.{◌≡◌, map, length};
ghost use Rattle.index_layout.specs.Views.{Apart};
ghost use Rattle.index_layout.specs.Marks.{Marked};
ghost use Rattle.index.specs.Viewed.{slot_view};

pub mod ops;

use crate::marks::Marks;
use crate::section::Section;

/// Sixteen slots, of which no two hold the same start.
#[derive(Drop)]
pub struct Index {
    slots: [Option<Section>; 16],
    /// By translated key, which slots a search has to look at. One is marked for nothing where its record shares the mark
    /// with another, or was struck; none is left out.
    marks: Marks,
    // Proofs of searches cite the lengths by name.
    ghost sized: { length slots ≡ 16 },
    ghost long: { length marks ≡ 1024 },
    ghost apart: { Apart (map slot_view slots) },
    ghost marked: { Marked marks (map slot_view slots) },
}

/// How many different numbers there are, and how many records.
#[derive(Clone, Copy, Debug, Default, PartialEq, Eq)]
pub struct Tally {
    pub numbers: u64,
    pub records: u64,
}
