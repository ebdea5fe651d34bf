// Handles: a slot and a position in one number.

ghost use Rattle.std.specs.Prelude.{◌≡◌, IfOk, Ok};
ghost use Rattle.index.specs.Handles.{packed, unpacked};

use rules::fault::ArchiveFault;

/// One more than the largest slot of a handle.
const SLOTS: u64 = 16_777_216;
/// One more than the largest position of a handle.
pub(crate) const POSITIONS: u64 = 1_099_511_627_776;

// A handle is a number and not a type of its own, since callers keep it as one: packing and unpacking are each other's inverse.
/// The handle of a slot and a position.
pub fn handle(slot: u64, position: u64) -> Result<u64, ArchiveFault>
    ensures is { result ≡ packed slot position }
    ensures back { IfOk result (λ h. unpacked h ≡ (slot, position)) }
{
    if slot >= SLOTS {
        return Err(ArchiveFault::SlotTooLarge);
    }
    if position >= POSITIONS {
        return Err(ArchiveFault::PositionTooLarge);
    }
    Ok(slot * POSITIONS + position)
}

/// The slot and the position of a handle.
pub fn unpack(handle: u64) -> (u64, u64)
    ensures is { result ≡ unpacked handle }
    ensures back { packed result.0 result.1 ≡ Ok handle }
{
    (handle / POSITIONS, handle % POSITIONS)
}
