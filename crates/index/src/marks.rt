// Which slots may have a record with a translated key: a table by marks, so that a search passes over the others unread.

ghost use Rattle.std.specs.Prelude.{◌≡◌, ◌<◌, map};
ghost use Rattle.index_layout.specs.Marks.{mark_count, mark_of, marks_at, marked, unmarked};

use crate::key_code::SPREAD;

/// One bit for each slot, at each mark.
pub(crate) type Marks = [u16; 1_024];

// The mark of a translated key.
fn mark_of(code: u64) -> usize
    ensures is { result ≡ mark_of code }
    ensures below { result < 1024 }
{
    (code.wrapping_mul(SPREAD) >> 54) as usize
}

/// The slots that are marked for a translated key.
pub(crate) fn marks_at(marks: &Marks, code: u64) -> u16
    ensures { result ≡ marks_at marks.now code }
{
    marks[mark_of(code)]
}

/// Marks a slot for a translated key.
pub(crate) fn mark(marks: &mut Marks, code: u64, slot: usize)
    requires { slot < 16 }
    ensures { marks.new ≡ marked marks.old code slot }
{
    marks[mark_of(code)] |= 1 << slot;
}

/// Takes a slot out of marked ones.
pub(crate) fn without(marks: u16, slot: usize) -> u16
    requires { slot < 16 }
    ensures { result ≡ unmarked slot marks }
{
    marks & !(1 << slot)
}

/// Takes all marks of a slot away.
pub(crate) fn unmark(marks: &mut Marks, slot: usize)
    requires { slot < 16 }
    ensures { marks.new ≡ map (unmarked slot) marks.old }
{
    for one in marks.iter_mut() {
        *one = without(*one, slot);
    }
}
