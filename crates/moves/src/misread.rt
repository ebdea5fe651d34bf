// Why a line is not understood, or cannot be obeyed.

use std::fmt;

/// What keeps a line from being understood, or from being obeyed.
#[derive(Clone, Copy, Debug, PartialEq, Eq)]
pub enum Misread {
    NotUtf8,
    UnknownCommand,
    MissingWord,
    SurplusWord,
    NotANumber,
    UnknownTranslator,
    UnknownJournal,
    NotHexadecimal,
    OddDigits,
    UnknownKind,
    NoJournal,
    NoVoyage,
    NoPages,
    RoomTooLarge,
    NotMade,
    Differ,
    NotRelative,
    NotRead,
    NotWritten,
}

impl fmt::Display for Misread {
    fn fmt<W: fmt::Write>(&self, f: &mut fmt::Formatter<W>) -> fmt::Result {
        f.write_str(match self {
            Misread::NotUtf8 => "not UTF-8",
            Misread::UnknownCommand => "unknown command",
            Misread::MissingWord => "a word is missing",
            Misread::SurplusWord => "a word too many",
            Misread::NotANumber => "not a number below 2^64",
            Misread::UnknownTranslator => "unknown translator",
            Misread::UnknownJournal => "unknown kind of journal",
            Misread::NotHexadecimal => "not hexadecimal",
            Misread::OddDigits => "an odd count of hexadecimal digits",
            Misread::UnknownKind => "unknown kind of key",
            Misread::NoJournal => "no journal is begun",
            Misread::NoVoyage => "no voyage is begun",
            Misread::RoomTooLarge => "a room above 65536",
            Misread::NotMade => "the call was not made",
            Misread::Differ => "the answers differ",
            Misread::NoPages => "the journal does not lie on pages",
            Misread::NotRelative => "not a relative path",
            Misread::NotRead => "the file cannot be read",
            Misread::NotWritten => "the file cannot be written",
        })
    }
}
