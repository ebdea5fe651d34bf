// A row's value, with its check behind it.

ghost use Rattle.std.specs.Prelude.{◌≡◌, ◌-◌, ◌≤◌, length};
ghost use Rattle.journal.specs.Meaning.{check_size, cost_of};
ghost use Rattle.journal.specs.Calls.{content_answer, content_fill};
ghost use Rattle.format.specs.Layout as lay;
ghost use Rattle.format.specs.Decode as decode;
ghost use Rattle.pages.specs.Looks.{is_bytes};

use crate::numbers::{number_at, part, value_check, write, write_number};
use journal::fault::JournalFault;
use journal::row::CHECK_SIZE;

/// The bytes of a value's check.
pub(crate) const SEAL_SIZE: usize = CHECK_SIZE as usize;

pub(crate) fn write_value(stretch: &mut [u8], value: &[u8])
    requires { length stretch.old ≡ cost_of (length value.now) }
    ensures { stretch.new ≡ lay.value_bytes value.now }
{
    write(stretch, 0, value);
    write_number::<SEAL_SIZE>(stretch, value.len(), u64::from(value_check(value)));
}

/// Whether the check behind a stored value is its own.
pub(crate) fn is_value_checked(stored: &[u8]) -> bool
    requires { check_size ≤ length stored.now }
    ensures { result ≡ is_bytes (decode.content_of stored.now 0 (length stored.now - check_size)) }
{
    let size = stored.len() - SEAL_SIZE;
    number_at::<SEAL_SIZE>(stored, size) == u64::from(value_check(part(stored, 0, size)))
}

/// A stored value to the front of `value`, where the check behind it is its own.
pub(crate) fn copy_value(
    stored: &[u8],
    section: u64,
    position: u64,
    value: &mut [u8],
) -> Result<u64, JournalFault>
    requires { check_size ≤ length stored.now }
    ensures answer { result ≡ content_answer (decode.content_of stored.now 0 (length stored.now - check_size)) section position (length value.old) }
    ensures buffer { value.new ≡ content_fill (decode.content_of stored.now 0 (length stored.now - check_size)) value.old }
{
    let size = stored.len() - SEAL_SIZE;
    if value.len() < size {
        return Err(JournalFault::Short {
            section,
            position,
            amount: size as u64,
        });
    }
    if !is_value_checked(stored) {
        return Err(JournalFault::Damaged { section, position });
    }
    write(value, 0, part(stored, 0, size));
    Ok(size as u64)
}
