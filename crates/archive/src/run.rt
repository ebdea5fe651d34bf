// Whole runs: an archive is made over a journal and taken through turns, each answered where it lies.

ghost use Rattle.std.specs.Prelude.{◌≡◌};
ghost use Rattle.std.specs.Vec.{vec_items};
ghost use Rattle.rules.specs.Law.{Law};
ghost use Rattle.archive.specs.Parts.{kind_of};
ghost use Rattle.archive.specs.Archives.{state_of, Fits};
ghost use Rattle.archive.specs.Runs.{history, SameCalls, RunsAlike};

use crate::archive::Archive;
use journal::Journal;
use keys::kind::Key;
use keys::translator::Translator;
use rules::turn::Turn;

/// Makes an archive over a journal, takes it through the turns, and gives it back. Every turn is answered where it lies, and
/// calls and keys stay as they are.
pub fn run<J: Journal, T: Translator, K: Key>(
    journal: J,
    translator: T,
    turns: &mut Vec<Turn<K>>,
) -> Archive<J, T, K>
    ensures law { (o : J.Journal.past) → J.Journal.fits o journal → Law (kind_of T.Translator.translated K.Key.W K.Key.flaw translator) (J.Journal.meaning journal) (history K.Key.bytes (vec_items turns.old) (vec_items turns.new)) (state_of J.Journal.meaning result) }
    ensures fit { (o : J.Journal.past) → J.Journal.fits o journal → Fits J.Journal.fits J.Journal.meaning T.Translator.translated T.Translator.hashed K.Key.W o result }
    ensures turns { SameCalls (vec_items turns.old) (vec_items turns.new) }
    ensures translator { result.translator ≡ translator }
{
    let mut archive = Archive::new(journal, translator);
    for turn in turns.iter_mut() {
        archive.take(turn);
    }
    archive
}

/// Two runs, over journals of any two types. Where these mean the same, the second run answers as the first: also where it
/// makes two neighbouring puts into different sections the other way round, both of which the first accepted.
pub fn run_both<J: Journal, I: Journal, T: Translator + Copy, K: Key>(
    journal: J,
    other: I,
    translator: T,
    turns: &mut Vec<Turn<K>>,
    others: &mut Vec<Turn<K>>,
) -> (Archive<J, T, K>, Archive<I, T, K>)
    ensures alike { (o : J.Journal.past) → J.Journal.fits o journal → (p : I.Journal.past) → I.Journal.fits p other → I.Journal.meaning other ≡ J.Journal.meaning journal → RunsAlike (J.Journal.meaning journal) (history K.Key.bytes (vec_items turns.old) (vec_items turns.new)) (history K.Key.bytes (vec_items others.old) (vec_items others.new)) }
    ensures law { (o : J.Journal.past) → J.Journal.fits o journal → Law (kind_of T.Translator.translated K.Key.W K.Key.flaw translator) (J.Journal.meaning journal) (history K.Key.bytes (vec_items turns.old) (vec_items turns.new)) (state_of J.Journal.meaning result.0) }
    ensures law_of_other { (p : I.Journal.past) → I.Journal.fits p other → Law (kind_of T.Translator.translated K.Key.W K.Key.flaw translator) (I.Journal.meaning other) (history K.Key.bytes (vec_items others.old) (vec_items others.new)) (state_of I.Journal.meaning result.1) }
    ensures fit { (o : J.Journal.past) → J.Journal.fits o journal → Fits J.Journal.fits J.Journal.meaning T.Translator.translated T.Translator.hashed K.Key.W o result.0 }
    ensures turns { SameCalls (vec_items turns.old) (vec_items turns.new) }
    ensures others { SameCalls (vec_items others.old) (vec_items others.new) }
    ensures translators { (result.0.translator ≡ translator) × (result.1.translator ≡ translator) }
    ensures fit_of_other { (p : I.Journal.past) → I.Journal.fits p other → Fits I.Journal.fits I.Journal.meaning T.Translator.translated T.Translator.hashed K.Key.W p result.1 }
{
    (
        run(journal, translator, turns),
        run(other, translator, others),
    )
}
