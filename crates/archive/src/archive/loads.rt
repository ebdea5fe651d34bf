// The load, which opens an archive over what its journal keeps.

ghost use Rattle.std.specs.Prelude.{◌≡◌};
ghost use Rattle.journal.specs.Calls.{or_fault};
ghost use Rattle.rules.specs.Calls.{archive_limits, load_check, load_answer, load_after};
ghost use Rattle.archive.specs.Parts.{kind_of};
ghost use Rattle.archive.specs.Archives.{Does};

use crate::archive::Archive;
use crate::loading::Loader;
use journal::Journal;
use journal::limits::Limits;
use keys::kind::Key;
use keys::translator::Translator;
use rules::fault::ArchiveFault;

/// Whether an archive may lie over a journal of these limits.
fn suits(limits: &Limits) -> bool
    ensures { result ≡ archive_limits limits.now }
{
    (1..=16).contains(&limits.slots)
        && (1..=128).contains(&limits.rows)
        && (4..=4_096).contains(&limits.bytes)
}

// What refuses a load before any row is looked at.
fn check_load(size: u64, limits: &Limits, width: u64) -> Result<(), ArchiveFault>
    ensures { result ≡ or_fault (load_check size limits.now width) tt }
{
    if !(1..=64).contains(&size) {
        return Err(ArchiveFault::SectionSize);
    }
    if !suits(limits) {
        return Err(ArchiveFault::JournalLimits);
    }
    if width != limits.width {
        return Err(ArchiveFault::KeyWidth);
    }
    Ok(())
}

impl<J: Journal, T: Translator, K: Key> Archive<J, T, K> {
    /// The rows of the journal become the kept records, `size` numbers to a section; the answer is how many they are. A
    /// refused load leaves nothing behind.
    pub fn load(&mut self, size: u64) -> Result<u64, ArchiveFault>
        ensures { Does J.fits J.meaning T.translated T.hashed K.W self.old self.new (λ s x. x ≡ load_answer (kind_of T.translated K.W K.flaw self.old.translator) s size) (λ s. load_after (kind_of T.translated K.W K.flaw self.old.translator) s size) result }
    {
        if self.size.is_some() {
            return Err(ArchiveFault::AlreadyLoaded);
        }
        check_load(size, &self.journal.limits(), K::width() as u64)?;
        let mut loader = Loader {
            translator: &self.translator,
            key: &mut self.key,
            index: &mut self.index,
            size,
        };
        let loaded = loader.take_all(&mut self.journal);
        match loaded {
            Ok(_) => {
                self.size = Some(size);
                self.floor = None;
            }
            Err(_) => self.index.clear(),
        }
        loaded
    }
}
