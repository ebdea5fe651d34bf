// Calls that change what is kept: put, put_multi and prune.

ghost use Rattle.std.specs.Prelude.{◌≡◌, ℕ, true, false, Some};
ghost use Rattle.journal.specs.Calls.{append_answer, appended};
ghost use Rattle.rules.specs.State.{section_of};
ghost use Rattle.rules.specs.Calls.{stored_by, with_journal, put_answer, put_after, floor_reaches, prune_answer, prune_after};
ghost use Rattle.archive.specs.Archives.{Does, home_of};

use crate::archive::Archive;
use crate::loading::no_room;
use crate::wanted::Wanted;
use journal::Journal;
use journal::row::Label;
use keys::kind::Key;
use keys::translator::Translator;
use rules::answer::{Pruned, Put};
use rules::fault::ArchiveFault;
use rules::rounding::section_of;

impl<J: Journal, T: Translator, K: Key> Archive<J, T, K> {
    // Where the section of a number that is to be stored starts; none where the number is below the floor.
    fn home_of(&self, number: u64) -> Result<Option<u64>, ArchiveFault>
        ensures { result ≡ home_of self.now.size self.now.floor number }
    {
        let Some(size) = self.size else {
            return Err(ArchiveFault::NotLoaded);
        };
        if number < self.floor.unwrap_or(0) {
            return Ok(None);
        }
        Ok(Some(section_of(size, number)))
    }

    // One record more in the section of its number. What the journal takes the index has room for.
    fn store(
        &mut self,
        start: u64,
        label: Label,
        key: &K,
        value: &[u8],
    ) -> Result<Put, ArchiveFault>
        ensures { (l : ℕ) → self.old.size ≡ Some l → start ≡ section_of l label.number → Does J.fits J.meaning T.translated T.hashed K.W self.old self.new (λ s x. x ≡ stored_by start (append_answer s.journal start (K.bytes key.now) value.now)) (λ s. with_journal s (appended s.journal start label (K.bytes key.now) value.now)) result }
    {
        let wanted = Wanted::new(&self.translator, key);
        let position = self.journal.append(start, label, wanted.key, value)?;
        let offset = label.number.saturating_sub(start);
        self.index
            .note(start, offset, wanted.coded)
            .map_err(|_| no_room(start))?;
        Ok(Put::Stored {
            section: start,
            position,
        })
    }

    /// Stores a record, unless its number is below the floor or a kept record has it.
    pub fn put(&mut self, label: Label, key: &K, value: &[u8]) -> Result<Put, ArchiveFault>
        ensures { Does J.fits J.meaning T.translated T.hashed K.W self.old self.new (λ s x. x ≡ put_answer s false label (K.bytes key.now) value.now) (λ s. put_after s false label (K.bytes key.now) value.now) result }
    {
        let Some(start) = self.home_of(label.number)? else {
            return Ok(Put::BelowFloor);
        };
        let offset = label.number.saturating_sub(start);
        if self.index.first_of(start, offset).is_some() {
            return Ok(Put::AlreadyThere);
        }
        self.store(start, label, key, value)
    }

    /// Stores a record, unless its number is below the floor; others may have the number too.
    pub fn put_multi(&mut self, label: Label, key: &K, value: &[u8]) -> Result<Put, ArchiveFault>
        ensures { Does J.fits J.meaning T.translated T.hashed K.W self.old self.new (λ s x. x ≡ put_answer s true label (K.bytes key.now) value.now) (λ s. put_after s true label (K.bytes key.now) value.now) result }
    {
        let Some(start) = self.home_of(label.number)? else {
            return Ok(Put::BelowFloor);
        };
        self.store(start, label, key, value)
    }

    /// Strikes the sections below a minimum, which is rounded down to a section's start.
    pub fn prune(&mut self, min: u64) -> Result<Pruned, ArchiveFault>
        ensures { Does J.fits J.meaning T.translated T.hashed K.W self.old self.new (λ s x. x ≡ prune_answer s min) (λ s. prune_after s min) result }
    {
        let Some(size) = self.size else {
            return Err(ArchiveFault::NotLoaded);
        };
        let start = section_of(size, min);
        if self.floor.is_some_and(|floor| start <= floor) {
            return Ok(Pruned::Unchanged);
        }
        let _ = self.journal.prune(start);
        let struck = self.index.strike(start);
        self.floor = Some(start);
        Ok(Pruned::Struck {
            numbers: struck.numbers,
            records: struck.records,
        })
    }
}
