// Bytes as text: hexadecimal digits, and text with what cannot be printed written out.

ghost use Rattle.std.specs.Prelude.{◌≡◌};
ghost use Rattle.script.specs.Hex.{digit_of};
ghost use Rattle.script.specs.Lines.{is_plain};

use std::fmt;

/// The number that a hexadecimal digit of either case stands for.
pub fn hex_digit(b: u8) -> Option<u8>
    ensures { result ≡ digit_of b }
{
    char::from(b).to_digit(16).map(|digit| digit as u8)
}

/// Bytes, shown as lower-case hexadecimal digits.
#[derive(Drop)]
pub struct Hex<'a>(pub &'a [u8]);

impl fmt::Display for Hex<'_> {
    fn fmt<W: fmt::Write>(&self, f: &mut fmt::Formatter<W>) -> fmt::Result {
        for b in self.0 {
            let b = *b;
            write!(f, "{b:02x}")?;
        }
        Ok(())
    }
}

// Whether a byte is shown as it is.
fn is_plain(b: u8) -> bool
    ensures { result ≡ is_plain b }
{
    (32..=126).contains(&b) && b != b'\\'
}

/// Bytes, shown as text; a byte that is no printable ASCII, and the backslash, as `\xNN`.
#[derive(Drop)]
pub struct Escaped<'a>(pub &'a [u8]);

impl fmt::Display for Escaped<'_> {
    fn fmt<W: fmt::Write>(&self, f: &mut fmt::Formatter<W>) -> fmt::Result {
        for b in self.0 {
            let b = *b;
            if is_plain(b) {
                let c = char::from(b);
                write!(f, "{c}")?;
            } else {
                write!(f, "\\x{b:02x}")?;
            }
        }
        Ok(())
    }
}
