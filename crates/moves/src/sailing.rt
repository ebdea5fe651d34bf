// The lines that call the archive of a voyage.

ghost use Rattle.std.specs.Prelude.{◌≤◌, IfOk, IfSome};

use crate::misread::Misread;
use crate::rest::Rest;
use rules::answer::Place;

/// A call on the archive of the voyage that was begun last.
#[derive(Clone, Copy, Debug, PartialEq, Eq)]
pub enum ArchiveCall<'a> {
    Load(u64),
    Put(Written<'a>),
    PutMulti(Written<'a>),
    Prune(u64),
    Counts,
    Get { number: u64, room: Option<u64> },
    GetKey { key: &'a str, room: Option<u64> },
    Value { place: Place, room: Option<u64> },
    Has(u64),
    HasKey(&'a str),
    HasAt { number: u64, key: &'a str },
    List { number: u64, room: Option<u64> },
    ListKey { key: &'a str, room: Option<u64> },
}

/// What a put is to store.
#[derive(Clone, Copy, Debug, PartialEq, Eq)]
pub struct Written<'a> {
    pub number: u64,
    pub key: &'a str,
    pub text: &'a str,
}

fn to_write<'a>(mut rest: Rest<'a>) -> Result<Written<'a>, Misread> {
    Ok(Written {
        number: rest.number()?,
        key: rest.word()?,
        text: rest.text(),
    })
}

// The size of a buffer or of a slice, where the line names one.
fn room(rest: Rest<'_>) -> Result<Option<u64>, Misread>
    ensures { IfOk result (λ o. IfSome o (λ n. n ≤ 65_536)) }
{
    match rest.number_or_none()? {
        Some(room) if room > 65_536 => Err(Misread::RoomTooLarge),
        room => Ok(room),
    }
}

fn get<'a>(mut rest: Rest<'a>) -> Result<ArchiveCall<'a>, Misread> {
    Ok(ArchiveCall::Get {
        number: rest.number()?,
        room: room(rest)?,
    })
}

fn get_key<'a>(mut rest: Rest<'a>) -> Result<ArchiveCall<'a>, Misread> {
    Ok(ArchiveCall::GetKey {
        key: rest.word()?,
        room: room(rest)?,
    })
}

fn value<'a>(mut rest: Rest<'a>) -> Result<ArchiveCall<'a>, Misread> {
    let number = rest.number()?;
    let position = rest.number()?;
    Ok(ArchiveCall::Value {
        place: Place { number, position },
        room: room(rest)?,
    })
}

fn has_at<'a>(mut rest: Rest<'a>) -> Result<ArchiveCall<'a>, Misread> {
    Ok(ArchiveCall::HasAt {
        number: rest.number()?,
        key: rest.last_word()?,
    })
}

fn list<'a>(mut rest: Rest<'a>) -> Result<ArchiveCall<'a>, Misread> {
    Ok(ArchiveCall::List {
        number: rest.number()?,
        room: room(rest)?,
    })
}

fn list_key<'a>(mut rest: Rest<'a>) -> Result<ArchiveCall<'a>, Misread> {
    Ok(ArchiveCall::ListKey {
        key: rest.word()?,
        room: room(rest)?,
    })
}

/// The call on an archive that a line asks for.
pub fn archive_call<'a>(name: &str, rest: Rest<'a>) -> Result<ArchiveCall<'a>, Misread> {
    match name {
        "load" => Ok(ArchiveCall::Load(rest.last_number()?)),
        "put" => Ok(ArchiveCall::Put(to_write(rest)?)),
        "put_multi" => Ok(ArchiveCall::PutMulti(to_write(rest)?)),
        "prune" => Ok(ArchiveCall::Prune(rest.last_number()?)),
        "get" => get(rest),
        "get_key" => get_key(rest),
        "value" => value(rest),
        "has" => Ok(ArchiveCall::Has(rest.last_number()?)),
        "has_key" => Ok(ArchiveCall::HasKey(rest.last_word()?)),
        "has_at" => has_at(rest),
        "list" => list(rest),
        "list_key" => list_key(rest),
        "counts" => {
            rest.end()?;
            Ok(ArchiveCall::Counts)
        }
        _ => Err(Misread::UnknownCommand),
    }
}
