// Turns: any call, over the buffers that it comes with.

ghost use Rattle.std.specs.Prelude.{◌≡◌, Some};
ghost use Rattle.rules.specs.Steps.{answer, AnswersTo, change_of, changed, Answers, next};
ghost use Rattle.rules.specs.Turns.{by_bytes, handed, answered};
ghost use Rattle.archive.specs.Parts.{kind_of};
ghost use Rattle.archive.specs.Archives.{Does};

use crate::archive::Archive;
use journal::Journal;
use keys::kind::Key;
use keys::translator::Translator;
use rules::answer::{Place, Reply};
use rules::call::Call;
use rules::fault::ArchiveFault;
use rules::turn::Turn;

impl<J: Journal, T: Translator, K: Key> Archive<J, T, K> {
    /// The answer to any call, over its buffers.
    pub fn reply(
        &mut self,
        call: &Call<K>,
        bytes: &mut [u8],
        places: &mut [Place],
    ) -> Result<Reply, ArchiveFault>
        ensures { Does J.fits J.meaning T.translated T.hashed K.W self.old self.new (λ s a. AnswersTo (kind_of T.translated K.W K.flaw self.old.translator) s (by_bytes K.bytes call.now) bytes.old places.old a) (λ s. changed (kind_of T.translated K.W K.flaw self.old.translator) s (change_of (by_bytes K.bytes call.now)) bytes.old) (answer (Some result) bytes.new places.new) }
    {
        match call {
            Call::Load { size } => self.load(*size).map(|records| Reply::Loaded { records }),
            Call::Put { label, key } => self.put(*label, key, bytes).map(Reply::Put),
            Call::PutMulti { label, key } => self.put_multi(*label, key, bytes).map(Reply::Put),
            Call::Prune { min } => self.prune(*min).map(Reply::Pruned),
            Call::GetNumber { number } => self.get_index(*number, bytes).map(Reply::Found),
            Call::GetKey { key } => self.get_key(key, bytes).map(Reply::Found),
            Call::GetPlace { place } => self.get_at(*place, bytes).map(Reply::Found),
            Call::HasNumber { number } => self.has_index(*number).map(Reply::Has),
            Call::HasKey { key } => self.has_key(key).map(Reply::Has),
            Call::HasBoth { number, key } => self.has_at(*number, key).map(Reply::Has),
            Call::ListNumber { number } => self
                .list_index(*number, places)
                .map(|count| Reply::ListedByNumber { count }),
            Call::ListKey { key } => self.list_key(key, places).map(Reply::ListedByKey),
            Call::Counts => self.counts().map(Reply::Counted),
        }
    }

    /// Makes the call of a turn, over its buffers, and notes the answer there.
    pub fn take(&mut self, turn: &mut Turn<K>)
        ensures answers { Does J.fits J.meaning T.translated T.hashed K.W self.old self.new (λ s. Answers (kind_of T.translated K.W K.flaw self.old.translator) s (handed K.bytes turn.old)) (λ s. next (kind_of T.translated K.W K.flaw self.old.translator) s (handed K.bytes turn.old)) (answered turn.new) }
        ensures call { turn.new.call ≡ turn.old.call }
    {
        let answer = self.reply(
            &turn.call,
            turn.bytes.as_mut_slice(),
            turn.places.as_mut_slice(),
        );
        turn.answer = Some(answer);
    }
}
