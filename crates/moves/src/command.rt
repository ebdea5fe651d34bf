// A line of the script as a command: words parted by one space, and for some commands a text to the line's end.

use crate::misread::Misread;
use crate::rest::{Rest, cut};
use crate::sailing::{ArchiveCall, archive_call};
use crate::store::Medium;
use journal::limits::Limits;
use keys::box_number::BoxNumber;
use keys::digest::Digest;
use keys::kind::Key;
use keys::translator::{AnyTranslator, Fnv, Leading};
use std::path::Path;

#[derive(Clone, Copy, Debug, PartialEq, Eq)]
pub enum Command<'a> {
    Ask(Question<'a>),
    /// Begins a new journal.
    Begin { on: Medium, limits: Limits },
    /// Begins the journal of a file that was saved.
    Open { file: &'a str, limits: Limits },
    /// Lays a file open.
    Dump { file: &'a str, limits: Limits },
    /// Begins a voyage.
    Voyage(Voyage),
    Call(JournalCall<'a>),
    Sail(ArchiveCall<'a>),
    /// Saves what was begun last.
    Save(&'a str),
    /// Begins the voyage anew over a file.
    Reopen(&'a str),
    Exchange,
}

/// A kind of key.
#[derive(Clone, Copy, Debug, PartialEq, Eq)]
pub enum Kind {
    Box,
    Digest,
}

/// What a voyage begins with: the width is that of its kind of key.
#[derive(Clone, Copy, Debug, PartialEq, Eq)]
pub struct Voyage {
    pub kind: Kind,
    pub translator: AnyTranslator,
    pub on: Medium,
    pub limits: Limits,
}

/// What is asked of the kinds of key, and of no journal.
#[derive(Clone, Copy, Debug, PartialEq, Eq)]
pub enum Question<'a> {
    Box(&'a str),
    Digest(&'a str),
    Translate { by: AnyTranslator, key: &'a str },
    Fnv(&'a str),
}

/// A call on the journal that was begun last.
#[derive(Clone, Copy, Debug, PartialEq, Eq)]
pub enum JournalCall<'a> {
    Append {
        start: u64,
        number: u64,
        key: &'a str,
        value: &'a str,
    },
    ReadEntry(Row),
    ReadValue(Row),
    Cut(u64),
    Sections,
}

/// A row to read, and the size of the buffer to read it into, where the line names one.
#[derive(Clone, Copy, Debug, PartialEq, Eq)]
pub struct Row {
    pub start: u64,
    pub position: u64,
    pub room: Option<u64>,
}

// No `FromStr`: the names are this script's, and the type is a library's.
fn translator(name: &str) -> Result<AnyTranslator, Misread> {
    match name {
        "leading1" => Ok(AnyTranslator::Leading(Leading::One)),
        "leading2" => Ok(AnyTranslator::Leading(Leading::Two)),
        "leading4" => Ok(AnyTranslator::Leading(Leading::Four)),
        "leading8" => Ok(AnyTranslator::Leading(Leading::Eight)),
        "fnv" => Ok(AnyTranslator::Fnv(Fnv)),
        _ => Err(Misread::UnknownTranslator),
    }
}

fn translate<'a>(mut rest: Rest<'a>) -> Result<Command<'a>, Misread> {
    let by = rest.word()?;
    let key = rest.last_word()?;
    Ok(Command::Ask(Question::Translate {
        by: translator(by)?,
        key,
    }))
}

fn medium(name: &str) -> Result<Medium, Misread> {
    match name {
        "memory" => Ok(Medium::Memory),
        "pages" => Ok(Medium::Pages),
        _ => Err(Misread::UnknownJournal),
    }
}

fn begin_journal<'a>(mut rest: Rest<'a>) -> Result<Command<'a>, Misread> {
    let on = medium(rest.word()?)?;
    Ok(Command::Begin {
        on,
        limits: rest.limits()?,
    })
}

fn begin_voyage<'a>(mut rest: Rest<'a>) -> Result<Command<'a>, Misread> {
    let kind = match rest.word()? {
        "box" => Kind::Box,
        "digest" => Kind::Digest,
        _ => return Err(Misread::UnknownKind),
    };
    let translator = translator(rest.word()?)?;
    let on = medium(rest.word()?)?;
    let width = match kind {
        Kind::Box => BoxNumber::W,
        Kind::Digest => Digest::W,
    };
    let limits = Limits {
        slots: rest.number()?,
        rows: rest.number()?,
        bytes: rest.last_number()?,
        width: width as u64,
    };
    Ok(Command::Voyage(Voyage {
        kind,
        translator,
        on,
        limits,
    }))
}

fn relative(path: &str) -> Result<&str, Misread> {
    if Path::new(path).is_absolute() {
        return Err(Misread::NotRelative);
    }
    Ok(path)
}

// A file, and the limits of the journal in it.
fn file_and_limits<'a>(mut rest: Rest<'a>) -> Result<(&'a str, Limits), Misread> {
    let file = rest.word()?;
    let limits = rest.limits()?;
    Ok((relative(file)?, limits))
}

fn append<'a>(mut rest: Rest<'a>) -> Result<Command<'a>, Misread> {
    Ok(Command::Call(JournalCall::Append {
        start: rest.number()?,
        number: rest.number()?,
        key: rest.word()?,
        value: rest.text(),
    }))
}

// A row's place, and the size of the buffer to read it into, where one is given.
fn row_to_read(mut rest: Rest<'_>) -> Result<Row, Misread> {
    Ok(Row {
        start: rest.number()?,
        position: rest.number()?,
        room: rest.number_or_none()?,
    })
}

impl<'a> TryFrom<&'a str> for Command<'a> {
    type Error = Misread;

    fn try_from(line: &'a str) -> Result<Command<'a>, Misread> {
        let (name, behind) = cut(line);
        let rest = Rest(behind);
        match name {
            "box" => Ok(Command::Ask(Question::Box(rest.text()))),
            "digest" => Ok(Command::Ask(Question::Digest(rest.last_word()?))),
            "translate" => translate(rest),
            "fnv" => Ok(Command::Ask(Question::Fnv(rest.text()))),
            "journal" => begin_journal(rest),
            "journal_open" => {
                let (file, limits) = file_and_limits(rest)?;
                Ok(Command::Open { file, limits })
            }
            "dump" => {
                let (file, limits) = file_and_limits(rest)?;
                Ok(Command::Dump { file, limits })
            }
            "voyage" => begin_voyage(rest),
            "save" => Ok(Command::Save(relative(rest.last_word()?)?)),
            "open" => Ok(Command::Reopen(relative(rest.last_word()?)?)),
            "exchange" => {
                rest.end()?;
                Ok(Command::Exchange)
            }
            "append" => append(rest),
            "read_entry" => Ok(Command::Call(JournalCall::ReadEntry(row_to_read(rest)?))),
            "read_value" => Ok(Command::Call(JournalCall::ReadValue(row_to_read(rest)?))),
            "cut" => Ok(Command::Call(JournalCall::Cut(rest.last_number()?))),
            "sections" => {
                rest.end()?;
                Ok(Command::Call(JournalCall::Sections))
            }
            _ => Ok(Command::Sail(archive_call(name, rest)?)),
        }
    }
}
