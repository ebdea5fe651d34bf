// Runs with keys and a translator that are chosen by numbers.

ghost use Rattle.std.specs.Prelude.{◌≡◌, map, Err};
ghost use Rattle.format.specs.State.{decoded};
ghost use Rattle.lent.specs.Seen.{seen};
ghost use Rattle.lent.specs.Runs.{Keeps, both, save_fault};
ghost use Rattle.lundwazo.specs.Exports.{translator_by, with_kind, chosen, RunsBy, KeptUnlessDone};

use crate::outcome::{NO_SUCH_KIND, NO_SUCH_TRANSLATOR, Outcome};
use journal::limits::Limits;
use keys::box_number::BoxNumber;
use keys::digest::Digest;
use keys::kind::Key;
use keys::translator::{AnyTranslator, Fnv, Leading};
use lent::run::serve_on_pages;
use lent::turn::Turn;

/// Keys are box numbers.
pub const BOX_NUMBERS: u64 = 1;

/// Keys are digests.
pub const DIGESTS: u64 = 2;

/// The translator FNV-1a 32; the others have as their number how many leading bytes they take.
pub const FNV: u64 = 0;

fn translator_of(number: u64) -> Option<AnyTranslator>
    ensures { result ≡ translator_by number }
{
    match number {
        FNV => Some(AnyTranslator::Fnv(Fnv)),
        1 => Some(AnyTranslator::Leading(Leading::One)),
        2 => Some(AnyTranslator::Leading(Leading::Two)),
        4 => Some(AnyTranslator::Leading(Leading::Four)),
        8 => Some(AnyTranslator::Leading(Leading::Eight)),
        _ => None,
    }
}

// With keys of a kind.
fn run_with<K: Key + Drop>(
    entries: &mut [u8],
    values: &mut [u8],
    saved_entries: &mut [u8],
    saved_values: &mut [u8],
    limits: Limits,
    translator: u64,
    turns: &mut [Turn<'_>],
) -> Outcome
    ensures answer { RunsBy (with_kind K.Key.W K.Key.flaw (translator_by translator)) (save_fault limits (both entries.old values.old) (both saved_entries.old saved_values.old)) (decoded limits entries.old values.old) (map seen turns.old) (map seen turns.new) (Keeps limits saved_entries.new saved_values.new) result }
    ensures refused { KeptUnlessDone result (both entries.old values.old) (both saved_entries.old saved_values.old) (both entries.new values.new) (both saved_entries.new saved_values.new) }
{
    let Some(translator) = translator_of(translator) else {
        return Outcome::bare(NO_SUCH_TRANSLATOR);
    };
    let answer = serve_on_pages::<AnyTranslator, K>(
        entries,
        values,
        saved_entries,
        saved_values,
        limits,
        translator,
        turns,
    );
    Outcome::from(answer)
}

/// With keys of the kind and the translator that these numbers name.
pub(crate) fn run(
    entries: &mut [u8],
    values: &mut [u8],
    saved_entries: &mut [u8],
    saved_values: &mut [u8],
    limits: Limits,
    kind: u64,
    translator: u64,
    turns: &mut [Turn<'_>],
) -> Outcome
    ensures answer { RunsBy (chosen kind translator) (save_fault limits (both entries.old values.old) (both saved_entries.old saved_values.old)) (decoded limits entries.old values.old) (map seen turns.old) (map seen turns.new) (Keeps limits saved_entries.new saved_values.new) result }
    ensures refused { KeptUnlessDone result (both entries.old values.old) (both saved_entries.old saved_values.old) (both entries.new values.new) (both saved_entries.new saved_values.new) }
{
    match kind {
        BOX_NUMBERS => run_with::<BoxNumber>(
            entries,
            values,
            saved_entries,
            saved_values,
            limits,
            translator,
            turns,
        ),
        DIGESTS => run_with::<Digest>(
            entries,
            values,
            saved_entries,
            saved_values,
            limits,
            translator,
            turns,
        ),
        _ => Outcome::bare(NO_SUCH_KIND),
    }
}
