// Whole runs on real journals: memory rows and byte pages, behind the cache, from lent slices and limits to the answers.
#![tactic(auto)]

ghost use Rattle.std.specs.Prelude.{◌≡◌, length, IfErr};
ghost use Rattle.std.specs.Vec.{vec_items};
ghost use Rattle.journal.specs.Making.{empty};
ghost use Rattle.memory.specs.Start.{start_fault};
ghost use Rattle.format.specs.Mount.{mount_fault};
ghost use Rattle.format.specs.State.{decoded};
ghost use Rattle.pages.specs.Journals.{means};
ghost use Rattle.archive.specs.Parts.{kind_of};
ghost use Rattle.voyage.specs.Voyages.{Sails, SailsIf};

use archive::run::run;
use cache::Cache;
use journal::Journal;
use journal::fault::JournalFault;
use journal::limits::Limits;
use keys::kind::Key;
use keys::translator::Translator;
use memory::{Memory, RowRecord};
use pages::Pages;
use rules::turn::Turn;

/// Takes any journal, behind a cache, through a run of an archive, and gives it back.
pub fn run_cached<J: Journal, T: Translator + Drop, K: Key + Drop>(
    journal: J,
    translator: T,
    turns: &mut Vec<Turn<K>>,
) -> J
    ensures law { (o : J.Journal.past) → J.Journal.fits o journal → Sails (kind_of T.Translator.translated K.Key.W K.Key.flaw translator) (J.Journal.meaning journal) K.Key.bytes (vec_items turns.old) (vec_items turns.new) (J.Journal.meaning result) }
    ensures fit { (o : J.Journal.past) → J.Journal.fits o journal → J.Journal.fits o result }
{
    run(Cache::over(journal), translator, turns)
        .into_journal()
        .into_below()
}

/// Takes mounted byte pages through a run, and gives them back: whoever saves their bytes saves what the run left.
pub fn run_mounted<'a, T: Translator + Drop, K: Key + Drop>(
    pages: Pages<'a>,
    translator: T,
    turns: &mut Vec<Turn<K>>,
) -> Pages<'a>
    ensures { Sails (kind_of T.Translator.translated K.Key.W K.Key.flaw translator) (means pages.entry) K.Key.bytes (vec_items turns.old) (vec_items turns.new) (means result) }
{
    run_cached(pages, translator, turns)
}

/// A run on the byte pages that lie in two slices. Where they cannot be mounted it is refused, and no turn is answered.
pub fn run_on_pages<T: Translator + Drop, K: Key + Drop>(
    entries: &mut [u8],
    values: &mut [u8],
    limits: Limits,
    translator: T,
    turns: &mut Vec<Turn<K>>,
) -> Result<(), JournalFault>
    ensures answer { SailsIf (mount_fault limits entries.old values.old) (kind_of T.Translator.translated K.Key.W K.Key.flaw translator) (decoded limits entries.old values.old) K.Key.bytes (vec_items turns.old) (vec_items turns.new) result }
    ensures refused { IfErr result (λ _. (entries.new ≡ entries.old) × (values.new ≡ values.old)) }
{
    Pages::check(entries, values, limits)?;
    let _ = run_cached(Pages::mount(entries, values, limits), translator, turns);
    Ok(())
}

/// A run on memory rows in two slices, which begin with no record. Where the slices do not suit it is refused, and no turn is
/// answered.
pub fn run_in_memory<T: Translator + Drop, K: Key + Drop>(
    records: &mut [RowRecord],
    bytes: &mut [u8],
    limits: Limits,
    translator: T,
    turns: &mut Vec<Turn<K>>,
) -> Result<(), JournalFault>
    ensures answer { SailsIf (start_fault limits (length records.old) (length bytes.old)) (kind_of T.Translator.translated K.Key.W K.Key.flaw translator) (empty limits) K.Key.bytes (vec_items turns.old) (vec_items turns.new) result }
    ensures refused { IfErr result (λ _. (records.new ≡ records.old) × (bytes.new ≡ bytes.old)) }
{
    Memory::check(records, bytes, limits)?;
    let _ = run_cached(Memory::start(records, bytes, limits), translator, turns);
    Ok(())
}
