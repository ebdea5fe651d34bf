// The answer line of a command.

use crate::dump::Dump;
use crate::sailed::Sailed;
use keys::digest::Digest;
use keys::kind::Key;
use script::text::{Escaped, Hex};
use std::fmt;
use summary::total::SectionTotal;

#[derive(Drop)]
pub enum Answer<'a> {
    Box {
        number: &'a str,
        sum: u32,
        digit: u8,
    },
    Digest(Digest),
    Translated {
        translated: u64,
        hash: u64,
    },
    Hash(u32),
    Row(u64),
    Entry {
        number: u64,
        length: u64,
        key: Vec<u8>,
    },
    Value(Vec<u8>),
    Cut {
        /// Whether a section went, as the journal answers it.
        gone: bool,
        floor: u64,
    },
    Sections(Vec<SectionTotal>),
    Ready,
    /// How many sections a file keeps.
    Opened(u64),
    /// How many bytes.
    Saved(usize),
    Dump(Dump),
    VoyageReady,
    Sailed(Sailed),
}

// Sections parted by commas.
fn show_sections<W: fmt::Write>(totals: &[SectionTotal], f: &mut fmt::Formatter<W>) -> fmt::Result {
    let count = totals.len();
    write!(f, "sections {count}:")?;
    for (i, total) in totals.iter().enumerate() {
        let SectionTotal { start, rows, cost } = *total;
        let comma = if i == 0 { "" } else { "," };
        write!(f, "{comma} {start} rows {rows} cost {cost}")?;
    }
    Ok(())
}

pub fn show_value<W: fmt::Write>(value: &[u8], f: &mut fmt::Formatter<W>) -> fmt::Result {
    let length = value.len();
    write!(f, "length {length}:")?;
    if length > 0 {
        let text = Escaped(value);
        write!(f, " {text}")?;
    }
    Ok(())
}

impl fmt::Display for Answer<'_> {
    fn fmt<W: fmt::Write>(&self, f: &mut fmt::Formatter<W>) -> fmt::Result {
        match self {
            Answer::Box { number, sum, digit } => write!(
                f,
                "{number} good, sum {sum}, digit {digit}"
            ),
            Answer::Digest(digest) => {
                let digits = Hex(digest.as_bytes());
                write!(f, "{digits} good")
            }
            Answer::Translated { translated, hash } => write!(
                f,
                "translated {translated} hash {hash}"
            ),
            Answer::Hash(hash) => {
                let hash = *hash;
                write!(f, "{hash:08X}")
            }
            Answer::Row(position) => write!(f, "row {position}"),
            Answer::Entry {
                number,
                length,
                key,
            } => {
                let digits = Hex(key.as_slice());
                write!(f, "number {number} length {length} key {digits}")
            }
            Answer::Value(value) => show_value(value.as_slice(), f),
            Answer::Cut { gone, floor } => {
                let gone = if *gone { "yes" } else { "no" };
                write!(f, "cut {gone} floor {floor}")
            }
            Answer::Sections(totals) => show_sections(totals.as_slice(), f),
            Answer::Ready => f.write_str("journal ready"),
            Answer::Opened(sections) => write!(f, "opened {sections} sections"),
            Answer::Saved(bytes) => write!(f, "saved {bytes} bytes"),
            Answer::Dump(dump) => write!(f, "{dump}"),
            Answer::VoyageReady => f.write_str("voyage ready"),
            Answer::Sailed(sailed) => write!(f, "{sailed}"),
        }
    }
}
