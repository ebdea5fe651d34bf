// Numbers and bytes at a place, and the checks that stand behind bytes. Numbers have their highest byte first.

ghost use Rattle.std.specs.Prelude.{◌≡◌, ◌+◌, ◌-◌, ◌^◌, ◌<◌, ◌≤◌, length, drop};
ghost use Rattle.journal.specs.Bytes.{chunk, put};
ghost use Rattle.format.specs.Numbers.{be, be_4, be_8};
ghost use Rattle.format.specs.Layout as lay;
ghost use Rattle.format.specs.Mount as mount;

use keys::fnv::fnv_1a_32;

/// The two checks. Kept as two: the byte format names each, so that one can change alone; today they are one function.
pub(crate) fn entry_check(bytes: &[u8]) -> u32
    ensures { result ≡ lay.entry_check bytes.now }
{
    fnv_1a_32(bytes)
}

pub(crate) fn value_check(value: &[u8]) -> u32
    ensures { result ≡ lay.value_check value.now }
{
    fnv_1a_32(value)
}

pub(crate) fn part(bytes: &[u8], at: usize, n: usize) -> &[u8]
    requires { at + n ≤ length bytes.now }
    ensures part { result.now ≡ chunk bytes.now at n }
    ensures long { length result.now ≡ n }
{
    &bytes[at..at + n]
}

// Memory rows have the same: it asks for room, which no public function does.
pub(crate) fn write(bytes: &mut [u8], at: usize, new: &[u8])
    requires { at + length new.now ≤ length bytes.old }
    ensures { bytes.new ≡ put bytes.old at new.now }
{
    bytes[at..at + new.len()].copy_from_slice(new);
}

/// The number in `N` bytes at a place, which are eight at most.
pub(crate) fn number_at<const N: usize>(bytes: &[u8], at: usize) -> u64
    requires size { N ≤ 8 }
    requires inside { at + N ≤ length bytes.now }
    ensures number { result ≡ be (chunk bytes.now at N) }
    ensures bound { result < 256 ^ N }
{
    let mut number = [0u8; 8];
    write(&mut number, 8 - N, part(bytes, at, N));
    u64::from_be_bytes(number)
}

/// Writes a number in `N` bytes, which hold it.
pub(crate) fn write_number<const N: usize>(bytes: &mut [u8], at: usize, number: u64)
    requires size { N ≤ 8 }
    requires holds { number < 256 ^ N }
    requires inside { at + N ≤ length bytes.old }
    ensures { bytes.new ≡ put bytes.old at (drop (8 - N) (be_8 number)) }
{
    write(bytes, at, &number.to_be_bytes()[8 - N..]);
}

/// Whether the check at the place `at` is that of all the bytes before it.
pub(crate) fn is_checked(bytes: &[u8], at: usize) -> bool
    requires { at + 4 ≤ length bytes.now }
    ensures { result ≡ mount.checked_at bytes.now at }
{
    number_at::<4>(bytes, at) == u64::from(entry_check(part(bytes, 0, at)))
}

/// Writes the check of the first `n` bytes behind them.
pub(crate) fn seal(bytes: &mut [u8], n: usize)
    requires { n + 4 ≤ length bytes.old }
    ensures { bytes.new ≡ put bytes.old n (be_4 (lay.entry_check (chunk bytes.old 0 n))) }
{
    let check = entry_check(part(bytes, 0, n));
    write_number::<4>(bytes, n, u64::from(check));
}
