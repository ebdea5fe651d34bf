// The archive: a journal, and an index of what it keeps.

ghost use Rattle.std.specs.Prelude.{◌≡◌};
ghost use Rattle.rules.specs.State.{new};
ghost use Rattle.archive.specs.Archives.{state_of, Fits};

mod gets;
mod lists;
mod loads;
mod puts;
mod questions;
mod turns;

use index::index::Index;
use journal::Journal;
use keys::kind::Key;
use keys::translator::Translator;

/// Records by number and by key, over any journal, translator and kind of key.
#[derive(Drop)]
pub struct Archive<J, T, K> {
    /// What is kept; the index only tells where.
    journal: J,
    translator: T,
    /// The one key that the archive owns: a load reads each row's bytes into it, and lookups make none.
    key: K,
    /// Numbers to a section, once a load was accepted.
    size: Option<u64>,
    /// The start that the last accepted prune was rounded down to.
    floor: Option<u64>,
    index: Index,
}

impl<J: Journal, T: Translator, K: Key> Archive<J, T, K> {
    /// An archive that is not loaded, over a journal of any meaning.
    pub fn new(journal: J, translator: T) -> Archive<J, T, K>
        ensures state { state_of J.meaning result ≡ new (J.meaning journal) }
        ensures parts { (result.journal ≡ journal) × (result.translator ≡ translator) }
        ensures fit { (o : J.past) → J.fits o journal → Fits J.fits J.meaning T.translated T.hashed K.W o result }
    {
        // To ask a journal for its limits is to learn that it is lawful.
        let _ = journal.limits();
        Archive {
            journal,
            translator,
            key: K::first(),
            size: None,
            floor: None,
            index: Index::new(),
        }
    }
    /// The journal below, to look at.
    pub fn journal(&self) -> &J
        ensures { result.now ≡ self.now.journal }
    {
        &self.journal
    }
}

impl<J: Journal, T: Translator + Drop, K: Key + Drop> Archive<J, T, K> {
    /// The journal below, given back; the index goes.
    pub fn into_journal(self) -> J
        ensures { result ≡ self.journal }
    {
        let Archive { journal, .. } = self;
        journal
    }
}
