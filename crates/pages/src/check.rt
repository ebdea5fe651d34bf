// The mounting check, and what a mounting grants.

ghost use Rattle.std.specs.Prelude.{◌≡◌, ℕ, ◌<◌, true, false, length, slice_index, Some, None, MatchOption, MatchResult};
ghost use Rattle.format.specs.Mount as mount;
ghost use Rattle.format.specs.State as state;

use crate::entries::Entries;
use crate::layout::Layout;
use journal::fault::JournalFault;
use journal::limits::{Limits, NOTHING};

/// The entries, where limits and lengths go together. Entries, values and limits are what the public calls are handed.
fn sized<'a>(entries: &'a [u8], values: &[u8], limits: Limits) -> Option<Entries<'a>>
    ensures { MatchOption result (mount.sized limits (length entries.now) (length values.now) ≡ false) (λ e. (mount.sized limits (length entries.now) (length values.now) ≡ true) × (e.bytes.now ≡ entries.now) × (e.layout.limits ≡ limits)) }
{
    let layout = Layout::new(limits)?;
    if entries.len() != layout.entries_size() || values.len() != layout.values_size() {
        return None;
    }
    Some(Entries {
        bytes: entries,
        layout,
    })
}

/// The places in bytes that a mounting accepts; else why it is refused, the first reason in its order.
pub(crate) fn accepted(
    entries: &[u8],
    values: &[u8],
    limits: Limits,
) -> Result<Layout, JournalFault>
    ensures answer { MatchResult result (λ layout. (mount.mount_fault limits entries.now values.now ≡ None) × (layout.limits ≡ limits)) (λ f. mount.mount_fault limits entries.now values.now ≡ Some f) }
    ensures bytes { (i : ℕ) → slice_index entries.now i < 256 }
{
    let pages = sized(entries, values, limits).ok_or(JournalFault::WrongSizes)?;
    pages.check()?;
    Ok(pages.layout)
}

/// The places that a mounting grants: those of the limits asked for, or of limits 0 where it is refused.
pub(crate) fn granted(entries: &[u8], values: &[u8], limits: Limits) -> Layout
    ensures answer { result.limits ≡ state.granted limits entries.now values.now }
    ensures bytes { (i : ℕ) → slice_index entries.now i < 256 }
{
    match accepted(entries, values, limits) {
        Ok(layout) => layout,
        Err(_) => Layout { limits: NOTHING },
    }
}
