// A box number: 11 bytes after ISO 6346.

ghost use Rattle.std.specs.Prelude.{◌≡◌, ◌%◌, ◌<◌, ◌≤◌, false, length, is_some, Some, codes, slice_index, refl};
ghost use Rattle.std.proofs.Common.{sym, ◌∙◌, rules, arith};
ghost use Rattle.keys.specs.Iso as iso;
ghost use Rattle.keys.specs.Flaws.{no_flaw, flawless, width_right, place_flaw};
ghost use Rattle.keys.specs.Iso.{first_bad};
ghost use Rattle.keys.specs.Places.{bad_within};

use crate::bytes::exactly;
use crate::fault::KeyFault;
use crate::kind::Key;

/// The rule is part of the type: no value has a wrong check digit, or any other flaw.
#[derive(Clone, Copy, Debug, PartialEq, Eq)]
pub struct BoxNumber {
    bytes: [u8; 11],
    ghost long: { length bytes ≡ 11 },
    ghost valid: { is_some (iso.flaw bytes) ≡ false },
}

// What A to Z count: the numbers from 10 on without the multiples of 11.
const LETTER_COUNTS: [u32; 26] = [
    10, 12, 13, 14, 15, 16, 17, 18, 19, 20, 21, 23, 24, 25, 26, 27, 28, 29, 30, 31, 32, 34, 35, 36,
    37, 38,
];

fn is_letter(b: u8) -> bool
    ensures { result ≡ iso.is_letter b }
{
    b.is_ascii_uppercase()
}

fn is_digit(b: u8) -> bool
    ensures { result ≡ iso.is_digit b }
{
    b.is_ascii_digit()
}

fn is_category(b: u8) -> bool
    ensures { result ≡ iso.is_category b }
{
    b == b'U'
}

fn letter_count(n: usize) -> u32
    requires { n < 26 }
    ensures { result ≡ slice_index iso.letter_counts n }
{
    LETTER_COUNTS[n]
}

fn count(b: u8) -> u32
    ensures { (result ≡ iso.count b) × (result ≤ 38) }
{
    if is_digit(b) {
        return u32::from(b - b'0');
    }
    if is_letter(b) {
        return letter_count((b - b'A') as usize);
    }
    0
}

// The sum over the ten places before the check digit, each count twice as heavy as the one before.
fn sum_of(bytes: &[u8; 11]) -> u32
    ensures { result ≡ iso.check_sum bytes.now }
{
    let mut sum = 0;
    for (place, b) in bytes[..10].iter().enumerate() {
        sum += count(*b) * (1 << place);
    }
    sum
}

// An `Option`, as the rule has it, so that a stricter rule may leave a sum without a digit.
fn digit_of(sum: u32) -> Option<u8>
    ensures { result ≡ iso.digit_of (sum % 11) }
{
    let remainder = sum % 11;
    if remainder == 10 {
        Some(0)
    } else {
        Some(remainder as u8)
    }
}

fn shows(digit: Option<u8>, b: u8) -> bool
    ensures { result ≡ iso.shows digit b }
{
    digit.is_some_and(|d| u32::from(b) == 48 + u32::from(d))
}

// The first place that does not hold what it may, kind by kind, so that no place is asked which kind it is of. The check digit
// comes last, after all that it is reckoned from.
fn first_bad(bytes: &[u8; 11]) -> Option<usize>
    ensures { result ≡ iso.first_bad bytes.now 0 11 }
{
    if let Some(place) = (0..3).find(|place| !is_letter(bytes[*place])) {
        return Some(place);
    }
    if !is_category(bytes[3]) {
        return Some(3);
    }
    if let Some(place) = (4..10).find(|place| !is_digit(bytes[*place])) {
        return Some(place);
    }
    if shows(digit_of(sum_of(bytes)), bytes[10]) {
        None
    } else {
        Some(10)
    }
}

impl BoxNumber {
    pub fn check_sum(&self) -> u32
        ensures { result ≡ iso.check_sum self.now.bytes }
    {
        sum_of(&self.bytes)
    }

    pub fn check_digit(&self) -> u8
        ensures { Some result ≡ iso.digit_of (iso.check_sum self.now.bytes % 11) }
    {
        self.bytes[10] - b'0'
    }
}

impl Key for BoxNumber {
    const W: usize = 11;

    ghost W = { 11 };

    ghost bytes = { λ k. k.bytes };

    ghost flaw = { iso.flaw };

    ghost first_bytes = { codes "AAAU0000007" };

    ghost some = { Prim.search rules };

    ghost narrow = { Prim.search rules };

    ghost long = { Prim.search rules };

    ghost apart = { Prim.grind (arith, Self.row.coded.inj) };

    ghost clean = { λ k. no_flaw _ k.valid };

    ghost given = { λ xs h. (record { bytes = xs; long = width_right 11 (first_bad xs 0 11) xs h; valid = flawless _ h }, refl) };

    ghost sized = { Prim.search rules };

    ghost inside = { λ xs p l h. bad_within xs 0 11 p (sym (place_flaw 11 (first_bad xs 0 11) xs l) ∙ h) };

    fn first() -> BoxNumber {
        BoxNumber {
            bytes: *b"AAAU0000007",
        }
    }

    fn as_bytes(&self) -> &[u8] {
        &self.bytes
    }

    fn read(&mut self, from: &[u8]) -> Result<(), KeyFault> {
        let bytes = exactly::<11>(from)?;
        if let Some(place) = first_bad(bytes) {
            return Err(KeyFault::NotAKey {
                amount: place as u64,
            });
        }
        *self = BoxNumber { bytes: *bytes };
        Ok(())
    }
}
