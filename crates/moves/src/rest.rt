// A line, word by word.

use crate::misread::Misread;
use journal::limits::Limits;

/// What is left of a line: words behind one space each.
#[derive(Clone, Copy)]
pub struct Rest<'a>(pub Option<&'a str>);

impl<'a> Rest<'a> {
    /// The text to the line's end; none is the empty one.
    pub fn text(self) -> &'a str {
        self.0.unwrap_or("")
    }

    /// Nothing may follow.
    pub fn end(self) -> Result<(), Misread> {
        match self.0 {
            Some(_) => Err(Misread::SurplusWord),
            None => Ok(()),
        }
    }

    /// The next word, where an empty one is a missing one.
    pub fn word(&mut self) -> Result<&'a str, Misread> {
        let (word, behind) = cut(self.0.ok_or(Misread::MissingWord)?);
        if word.is_empty() {
            return Err(Misread::MissingWord);
        }
        self.0 = behind;
        Ok(word)
    }

    pub fn number(&mut self) -> Result<u64, Misread> {
        number(self.word()?)
    }

    pub fn last_word(mut self) -> Result<&'a str, Misread> {
        let word = self.word()?;
        self.end()?;
        Ok(word)
    }

    pub fn last_number(self) -> Result<u64, Misread> {
        number(self.last_word()?)
    }

    /// The four limits, to the end of the line.
    pub fn limits(mut self) -> Result<Limits, Misread> {
        let width = self.number()?;
        let slots = self.number()?;
        let rows = self.number()?;
        let bytes = self.last_number()?;
        Ok(Limits {
            slots,
            rows,
            bytes,
            width,
        })
    }

    /// The last number, where anything follows.
    pub fn number_or_none(self) -> Result<Option<u64>, Misread> {
        match self.0 {
            Some(_) => Ok(Some(self.last_number()?)),
            None => Ok(None),
        }
    }
}

/// The first word, and what follows the one space behind it, if there is a space.
pub fn cut(line: &str) -> (&str, Option<&str>) {
    match line.split_once(' ') {
        Some((word, rest)) => (word, Some(rest)),
        None => (line, None),
    }
}

// Decimal digits and nothing else, not even a sign, which `parse` would take.
fn number(word: &str) -> Result<u64, Misread> {
    if !word.bytes().all(|b| b.is_ascii_digit()) {
        return Err(Misread::NotANumber);
    }
    word.parse().map_err(|_| Misread::NotANumber)
}
