// What a journal over slots asks of one slot after another: its rows, which a free one has none of, and where its section
// starts; and whether a section has room for a value.

ghost use Rattle.std.specs.Prelude.{◌≡◌, ◌+◌, nat_le};
ghost use Rattle.journal.specs.Meaning.{cost_of};
ghost use Rattle.journal.specs.Slots.{nearest, goes};

use crate::row::CHECK_SIZE;

/// The nearer to `from`, from above, of the best start so far and a slot's.
// The slots are looked at in any order, so neither `min` of all starts nor a sorted search serves.
pub fn nearer(best: Option<u64>, rows: u64, start: u64, from: u64) -> Option<u64>
    ensures { result ≡ nearest best rows start from }
{
    if rows == 0 || start < from {
        return best;
    }
    Some(best.map_or(start, |b| b.min(start)))
}

/// Whether a prune by `min` takes a slot's section.
pub fn below(rows: u64, start: u64, min: u64) -> bool
    ensures { result ≡ goes min rows start }
{
    rows > 0 && start < min
}

/// Whether a section whose rows cost `cost` so far takes a value of that length.
pub fn has_room(cost: u64, length: u64, limit: u64) -> bool
    ensures { result ≡ nat_le (cost + cost_of length) limit }
{
    // A sum that no `u64` holds is beyond every limit.
    cost.checked_add(length)
        .and_then(|sum| sum.checked_add(CHECK_SIZE))
        .is_some_and(|sum| sum <= limit)
}
