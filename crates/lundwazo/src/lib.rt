// The archive for programs in C: one export for each function that C calls. `c/lundwazo.h` declares them.
#![tactic(auto)]

ghost use Rattle.std.specs.Prelude.{◌≡◌, map};
ghost use Rattle.format.specs.Mount.{mount_fault};
ghost use Rattle.format.specs.State.{decoded};
ghost use Rattle.pages.specs.Lengths.{sizes_of};
ghost use Rattle.lent.specs.Seen.{seen};
ghost use Rattle.lent.specs.Runs.{Keeps, save_fault};
ghost use Rattle.lundwazo.specs.Lent.{bytes_in};
ghost use Rattle.lundwazo.specs.Exports.{entries_in, values_in, told_by, chosen, RunsBy, KeptUnlessDone};

mod outcome;
mod running;
mod slices;

use crate::outcome::Outcome;
use crate::running::run;
use crate::slices::Slices;
use journal::limits::Limits;
use lent::turn::Turn;
use pages::Pages;

/// How many bytes the slice of entries has, of pages with these limits; 0 where no journal may have them.
#[unsafe(no_mangle)]
pub extern "C" fn lundwazo_entries_size(limits: &Limits) -> usize
    ensures { result ≡ entries_in (sizes_of limits.now) }
{
    Pages::sizes(*limits).map_or(0, |sizes| sizes.entries)
}

/// The same of the slice of values.
#[unsafe(no_mangle)]
pub extern "C" fn lundwazo_values_size(limits: &Limits) -> usize
    ensures { result ≡ values_in (sizes_of limits.now) }
{
    Pages::sizes(*limits).map_or(0, |sizes| sizes.values)
}

/// Whether two slices can be mounted as pages with these limits, and if not, the first thing wrong with them.
#[unsafe(no_mangle)]
pub extern "C" fn lundwazo_check(entries: &[u8], values: &[u8], limits: &Limits) -> Outcome
    ensures { result ≡ told_by (mount_fault limits.now entries.now values.now) }
{
    Outcome::from(Pages::check(entries, values, *limits))
}

/// Mounts pages, makes an archive over them, with keys of a kind and a translator by their numbers, and takes it through the turns,
/// each answered where it lies. What the pages then hold is saved into other slices as long as theirs; what lies in their own is
/// left open. Where it is refused, nothing changes.
// Saved, since of slices that were lent to the pages no proof tells what lies in them afterwards.
#[unsafe(no_mangle)]
pub extern "C" fn lundwazo_run(
    pages: &mut Slices<'_>,
    saved: &mut Slices<'_>,
    limits: &Limits,
    kind: u64,
    translator: u64,
    turns: &mut [Turn<'_>],
) -> Outcome
    ensures answer { RunsBy (chosen kind translator) (save_fault limits.now (bytes_in pages.old) (bytes_in saved.old)) (decoded limits.now pages.old.entries.now pages.old.values.now) (map seen turns.old) (map seen turns.new) (Keeps limits.now saved.new.entries.now saved.new.values.now) result }
    ensures refused { KeptUnlessDone result (bytes_in pages.old) (bytes_in saved.old) (bytes_in pages.new) (bytes_in saved.new) }
{
    run(
        pages.entries,
        pages.values,
        saved.entries,
        saved.values,
        *limits,
        kind,
        translator,
        turns,
    )
}
