// A load: the rows of the journal go into an index that was empty, by start and position, and the first one that does not
// belong there refuses it.

ghost use Rattle.std.specs.Prelude.{◌≡◌, ℕ, ◌-◌, ◌≤◌, true, List, Some};
ghost use Rattle.journal.specs.Meaning.{Meaning, Section, Row, Lawful, rows_of, row_at};
ghost use Rattle.journal.specs.declared.fault.JournalFault.TheVariants as journal;
ghost use Rattle.rules.specs.declared.fault.ArchiveFault.TheVariants as archive;
ghost use Rattle.rules.specs.State.{section_of};
ghost use Rattle.index_layout.specs.Held.{has_room};
ghost use Rattle.index.specs.Slots.{views};
ghost use Rattle.archive_layout.specs.Loads.{IndexesRow, SectionReady, IndexesSection, IndexReady, IndexesAll};
ghost use Rattle.archive_layout.specs.Promises.{Reads};
ghost use Rattle.archive.specs.Parts.{kind_of, coding_of};

use crate::wanted::coded;
use index::index::Index;
use journal::Journal;
use journal::fault::JournalFault;
use journal::reading::start_from;
use keys::fault::KeyFault;
use keys::kind::Key;
use keys::translator::Translator;
use rules::fault::ArchiveFault;
use rules::rounding::section_of;

/// What a call answers where the index has no room for a row that the journal took. No archive comes to this.
pub(crate) fn no_room(start: u64) -> ArchiveFault
    ensures { result ≡ archive.Journal (journal.NoSlot start) }
{
    ArchiveFault::Journal(JournalFault::NoSlot { section: start })
}

/// A load under way, with `size` numbers to a section; each row's key bytes are read into `key`.
#[derive(Drop)]
pub(crate) struct Loader<'a, T, K> {
    pub(crate) translator: &'a T,
    pub(crate) key: &'a mut K,
    pub(crate) index: &'a mut Index,
    pub(crate) size: u64,
}

impl<T: Translator, K: Key> Loader<'_, T, K> {
    // One row: its key first, then its section, and then into the index.
    fn take_row<J: Journal>(
        &mut self,
        journal: &mut J,
        start: u64,
        position: u64,
    ) -> Result<(), ArchiveFault>
        ensures reads { Reads J.Journal.fits J.Journal.meaning journal.old journal.new (λ m. Lawful m → m.limits.width ≡ K.Key.W → (row : Row) → row_at m start position ≡ Some row → (section_of self.old.size row.label.number ≡ start → has_room (views self.old.index.now) start (row.label.number - start) ≡ true) → IndexesRow (kind_of T.Translator.translated K.Key.W K.Key.flaw self.old.translator.now) (coding_of T.Translator.translated T.Translator.hashed self.old.translator.now) self.old.size start position row (views self.old.index.now) (views self.new.index.now) result) }
        ensures same { (self.new.translator.now ≡ self.old.translator.now) × (self.new.size ≡ self.old.size) }
        ensures same_references { (self.new.key.ghost_name ≡ self.old.key.ghost_name) × (self.new.index.ghost_name ≡ self.old.index.ghost_name) }
    {
        let mut buffer = [0u8; 32];
        let entry = journal.read_entry(start, position, &mut buffer)?;
        let bytes = &buffer[..K::width()];
        self.key.read(bytes).map_err(|_| KeyFault::StoredKey {
            section: start,
            position,
        })?;
        let number = entry.label.number;
        if section_of(self.size, number) != start {
            return Err(ArchiveFault::WrongSection {
                section: start,
                position,
            });
        }
        let offset = number.saturating_sub(start);
        self.index
            .note(start, offset, coded(self.translator, bytes))
            .map_err(|_| no_room(start))?;
        Ok(())
    }

    // The rows of a section, where the sections before it are in the index.
    fn take_section<J: Journal>(&mut self, journal: &mut J, start: u64) -> Result<u64, ArchiveFault>
        ensures reads { Reads J.Journal.fits J.Journal.meaning journal.old journal.new (λ m. Lawful m → (ys : List Section) → SectionReady (coding_of T.Translator.translated T.Translator.hashed self.old.translator.now) m (views self.old.index.now) ys self.old.size K.Key.W start → IndexesSection (kind_of T.Translator.translated K.Key.W K.Key.flaw self.old.translator.now) (coding_of T.Translator.translated T.Translator.hashed self.old.translator.now) self.old.size start (rows_of m.sections start) ys (views self.new.index.now) result) }
        ensures same { (self.new.translator.now ≡ self.old.translator.now) × (self.new.size ≡ self.old.size) }
        ensures same_references { (self.new.key.ghost_name ≡ self.old.key.ghost_name) × (self.new.index.ghost_name ≡ self.old.index.ghost_name) }
    {
        let rows = journal.row_count(start);
        // Counted, since a journal is asked for a row by its position, and lends none of its rows.
        for position in 0..rows {
            self.take_row(journal, start, position)?;
        }
        Ok(rows)
    }

    /// All sections by rising start, into an index that is empty; the answer is how many rows there are.
    pub(crate) fn take_all<J: Journal>(&mut self, journal: &mut J) -> Result<u64, ArchiveFault>
        ensures reads { Reads J.Journal.fits J.Journal.meaning journal.old journal.new (λ m. Lawful m → IndexReady m (views self.old.index.now) self.old.size K.Key.W → IndexesAll (kind_of T.Translator.translated K.Key.W K.Key.flaw self.old.translator.now) (coding_of T.Translator.translated T.Translator.hashed self.old.translator.now) self.old.size m.sections (views self.new.index.now) result) }
        ensures same { (self.new.translator.now ≡ self.old.translator.now) × (self.new.size ≡ self.old.size) }
        ensures same_references { (self.new.key.ghost_name ≡ self.old.key.ghost_name) × (self.new.index.ghost_name ≡ self.old.index.ghost_name) }
    {
        let mut from = Some(0);
        let mut count = 0;
        // Counted, since the starts of a journal that does not fit need not come to an end.
        for turn in 0..16usize {
            let Some(start) = start_from(journal, from) else {
                return Ok(count);
            };
            let rows = self.take_section(journal, start)?;
            count = rows.saturating_add(count);
            from = start.checked_add(1);
        }
        Ok(count)
    }
}
