// Whole runs over turns in lent buffers, each answered where it lies.

ghost use Rattle.std.specs.Prelude.{◌≡◌, map, Ok, IfErr};
ghost use Rattle.format.specs.Mount.{mount_fault};
ghost use Rattle.format.specs.State.{decoded};
ghost use Rattle.pages.specs.Journals.{means};
ghost use Rattle.archive.specs.Parts.{kind_of};
ghost use Rattle.archive.specs.Archives.{state_of, Fits, Does};
ghost use Rattle.rules.specs.Turns.{by_bytes};
ghost use Rattle.lent.specs.Seen.{seen};
ghost use Rattle.lent.specs.Runs.{Takes, TakesAs, after, after_as, Serves, ServesTo, ServesIf, Keeps, both, save_fault};

use crate::answer::Answer;
use crate::turn::Turn;
use archive::archive::Archive;
use cache::Cache;
use journal::Journal;
use journal::fault::JournalFault;
use journal::limits::Limits;
use keys::kind::Key;
use keys::translator::Translator;
use pages::Pages;
use rules::call::Call;

// Makes a call over the buffers of a turn, and notes the answer there.
fn make<J: Journal, T: Translator, K: Key>(
    archive: &mut Archive<J, T, K>,
    call: &Call<K>,
    turn: &mut Turn<'_>,
)
    ensures answers { Does J.Journal.fits J.Journal.meaning T.Translator.translated T.Translator.hashed K.Key.W archive.old archive.new (λ s. TakesAs (kind_of T.Translator.translated K.Key.W K.Key.flaw archive.old.translator) s (Ok (by_bytes K.Key.bytes call.now)) (seen turn.old)) (λ s. after_as (kind_of T.Translator.translated K.Key.W K.Key.flaw archive.old.translator) s (Ok (by_bytes K.Key.bytes call.now)) (seen turn.old)) (seen turn.new) }
    ensures bytes { turn.new.bytes.ghost_name ≡ turn.old.bytes.ghost_name }
    ensures places { turn.new.places.ghost_name ≡ turn.old.places.ghost_name }
{
    turn.answer = Answer::from(archive.reply(call, turn.bytes, turn.places));
}

/// Makes the call that a turn asks for, over its buffers, and notes the answer there. Where it asks for none, that is noted.
pub fn take<J: Journal, T: Translator, K: Key + Drop>(
    archive: &mut Archive<J, T, K>,
    turn: &mut Turn<'_>,
)
    ensures answers { Does J.Journal.fits J.Journal.meaning T.Translator.translated T.Translator.hashed K.Key.W archive.old archive.new (λ s. Takes (kind_of T.Translator.translated K.Key.W K.Key.flaw archive.old.translator) s (seen turn.old)) (λ s. after (kind_of T.Translator.translated K.Key.W K.Key.flaw archive.old.translator) s (seen turn.old)) (seen turn.new) }
    ensures bytes { turn.new.bytes.ghost_name ≡ turn.old.bytes.ghost_name }
    ensures places { turn.new.places.ghost_name ≡ turn.old.places.ghost_name }
{
    match turn.asked() {
        Ok(call) => make(archive, &call, turn),
        Err(misread) => turn.answer = Answer::from(misread),
    }
}

/// Makes an archive over a journal, takes it through the turns, and gives it back. Every turn is answered where it lies.
pub fn serve<J: Journal, T: Translator, K: Key + Drop>(
    journal: J,
    translator: T,
    turns: &mut [Turn<'_>],
) -> Archive<J, T, K>
    ensures law { (o : J.Journal.past) → J.Journal.fits o journal → Serves (kind_of T.Translator.translated K.Key.W K.Key.flaw translator) (J.Journal.meaning journal) (map seen turns.old) (map seen turns.new) (state_of J.Journal.meaning result) }
    ensures fit { (o : J.Journal.past) → J.Journal.fits o journal → Fits J.Journal.fits J.Journal.meaning T.Translator.translated T.Translator.hashed K.Key.W o result }
    ensures buffers { map (λ u. u.bytes.ghost_name) turns.new ≡ map (λ u. u.bytes.ghost_name) turns.old }
    ensures slices { map (λ u. u.places.ghost_name) turns.new ≡ map (λ u. u.places.ghost_name) turns.old }
    ensures translator { result.translator ≡ translator }
{
    let mut archive = Archive::new(journal, translator);
    for turn in turns.iter_mut() {
        take(&mut archive, turn);
    }
    archive
}

// Over any journal, behind a cache, and the journal given back.
fn serve_cached<J: Journal, T: Translator + Drop, K: Key + Drop>(
    journal: J,
    translator: T,
    turns: &mut [Turn<'_>],
) -> J
    ensures law { (o : J.Journal.past) → J.Journal.fits o journal → ServesTo (kind_of T.Translator.translated K.Key.W K.Key.flaw translator) (J.Journal.meaning journal) (map seen turns.old) (map seen turns.new) (J.Journal.meaning result) }
    ensures buffers { map (λ u. u.bytes.ghost_name) turns.new ≡ map (λ u. u.bytes.ghost_name) turns.old }
    ensures slices { map (λ u. u.places.ghost_name) turns.new ≡ map (λ u. u.places.ghost_name) turns.old }
{
    let archive: Archive<Cache<J>, T, K> = serve(Cache::over(journal), translator, turns);
    archive.into_journal().into_below()
}

// Mounted pages, taken through the turns and given back.
fn serve_mounted<'a, T: Translator + Drop, K: Key + Drop>(
    pages: Pages<'a>,
    translator: T,
    turns: &mut [Turn<'_>],
) -> Pages<'a>
    ensures law { ServesTo (kind_of T.Translator.translated K.Key.W K.Key.flaw translator) (means pages.entry) (map seen turns.old) (map seen turns.new) (means result) }
    ensures buffers { map (λ u. u.bytes.ghost_name) turns.new ≡ map (λ u. u.bytes.ghost_name) turns.old }
    ensures slices { map (λ u. u.places.ghost_name) turns.new ≡ map (λ u. u.places.ghost_name) turns.old }
{
    serve_cached::<Pages<'a>, T, K>(pages, translator, turns)
}

/// A run on byte pages that lie in two slices; what they hold after it goes into two others, as long as they are. Where the pages
/// cannot be mounted, or the others are of another length, it is refused, and nothing is answered or written.
pub fn serve_on_pages<T: Translator + Drop, K: Key + Drop>(
    entries: &mut [u8],
    values: &mut [u8],
    saved_entries: &mut [u8],
    saved_values: &mut [u8],
    limits: Limits,
    translator: T,
    turns: &mut [Turn<'_>],
) -> Result<(), JournalFault>
    ensures answer { ServesIf (save_fault limits (both entries.old values.old) (both saved_entries.old saved_values.old)) (kind_of T.Translator.translated K.Key.W K.Key.flaw translator) (decoded limits entries.old values.old) (map seen turns.old) (map seen turns.new) (Keeps limits saved_entries.new saved_values.new) result }
    ensures refused { IfErr result (λ _. (both entries.new values.new ≡ both entries.old values.old) × (both saved_entries.new saved_values.new ≡ both saved_entries.old saved_values.old)) }
    ensures buffers { map (λ u. u.bytes.ghost_name) turns.new ≡ map (λ u. u.bytes.ghost_name) turns.old }
    ensures slices { map (λ u. u.places.ghost_name) turns.new ≡ map (λ u. u.places.ghost_name) turns.old }
{
    if saved_entries.len() != entries.len() || saved_values.len() != values.len() {
        return Err(JournalFault::WrongSizes);
    }
    Pages::check(entries, values, limits)?;
    let pages = Pages::mount(entries, values, limits);
    let left = serve_mounted::<T, K>(pages, translator, turns);
    saved_entries.copy_from_slice(left.entries());
    saved_values.copy_from_slice(left.values());
    Ok(())
}
