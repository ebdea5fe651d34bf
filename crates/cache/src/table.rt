// What the cache does on its table, apart from any journal.

ghost use Rattle.std.specs.Prelude.{◌≡◌, map};
ghost use Rattle.cache.specs.Table.{find_slot, forgotten};

pub mod cache;

use crate::row_copy::RowCopy;

// The first copy of that row.
fn find(slots: &[Option<RowCopy>], start: u64, position: u64) -> Option<RowCopy>
    ensures { result ≡ find_slot slots.now start position }
{
    let at = slots.iter().position(|slot| slot
        .as_ref()
        .is_some_and(|copy| copy.is_of(start, position)))?;
    slots[at]
}

// Empties the places of rows whose section starts below `min`.
fn forget(slots: &mut [Option<RowCopy>], min: u64)
    ensures { slots.new ≡ map (forgotten min) slots.old }
{
    for slot in slots.iter_mut() {
        *slot = slot.filter(|copy| copy.start >= min);
    }
}
