// The kinds of work: one call of the archive each, made for everything there is to call it with.

use crate::fleet::{Fleet, Move};
use archive::archive::Archive;
use journal::Journal;
use journal::row::Label;
use keys::box_number::BoxNumber;
use keys::kind::Key;
use keys::translator::AnyTranslator;
use rules::answer::{Place, Pruned, Put};

/// How many move numbers a section has.
pub const SIZE: u64 = 64;

const SECTIONS: u64 = 16;

const NOWHERE: Place = Place {
    number: 0,
    position: 0,
};

#[derive(Clone, Copy, PartialEq, Eq)]
pub enum Work {
    Put,
    PutMulti,
    GetNumber,
    GetKey,
    GetAbsent,
    ListNumber,
    ListKey,
    Load,
    Prune,
}

/// How many calls were made, and what they came to.
#[derive(Clone, Copy, Default)]
pub struct Done {
    pub calls: u64,
    /// Records that were stored, found, listed, loaded or struck.
    pub records: u64,
    /// Of listings by key the candidates, of prunes the numbers struck; else 0.
    pub beside: u64,
}

impl Done {
    fn note(&mut self, records: u64, beside: u64) {
        self.calls = self.calls.saturating_add(1);
        self.records = self.records.saturating_add(records);
        self.beside = self.beside.saturating_add(beside);
    }
}

fn put_all<J: Journal>(
    archive: &mut Archive<J, AnyTranslator, BoxNumber>,
    moves: &[Move],
    done: &mut Done,
) {
    for one in moves.iter() {
        let number = one.number;
        let put = archive.put(Label { number }, &one.key, &one.value);
        done.note(u64::from(matches!(put, Ok(Put::Stored { .. }))), 0);
    }
}

fn put_multi_all<J: Journal>(
    archive: &mut Archive<J, AnyTranslator, BoxNumber>,
    moves: &[Move],
    done: &mut Done,
) {
    for one in moves.iter() {
        let number = one.number;
        let put = archive.put_multi(Label { number }, &one.key, &one.value);
        done.note(u64::from(matches!(put, Ok(Put::Stored { .. }))), 0);
    }
}

// Each number has its first record, with its own value.
fn get_numbers<J: Journal>(
    archive: &mut Archive<J, AnyTranslator, BoxNumber>,
    moves: &[Move],
    done: &mut Done,
) {
    let mut value = [0; 16];
    for one in moves.iter() {
        let found = archive.get_index(one.number, &mut value);
        let right = matches!(found, Ok(Some(_))) && value == one.value;
        done.note(u64::from(right), 0);
    }
}

// A key's least bearer has it in its value.
fn get_keys<J: Journal>(
    archive: &mut Archive<J, AnyTranslator, BoxNumber>,
    moves: &[Move],
    done: &mut Done,
) {
    let mut value = [0; 16];
    for one in moves.iter() {
        let found = archive.get_key(&one.key, &mut value);
        let right = matches!(found, Ok(Some(_))) && value.starts_with(one.key.as_bytes());
        done.note(u64::from(right), 0);
    }
}

fn get_absent<J: Journal>(
    archive: &mut Archive<J, AnyTranslator, BoxNumber>,
    keys: &[BoxNumber],
    done: &mut Done,
) {
    let mut value = [0; 16];
    for key in keys.iter() {
        let found = archive.get_key(key, &mut value);
        done.note(u64::from(matches!(found, Ok(Some(_)))), 0);
    }
}

fn list_numbers<J: Journal>(
    archive: &mut Archive<J, AnyTranslator, BoxNumber>,
    moves: &[Move],
    done: &mut Done,
) {
    let mut places = [NOWHERE; 4];
    for one in moves.iter() {
        let count = archive.list_index(one.number, &mut places);
        done.note(count.unwrap_or(0), 0);
    }
}

fn list_keys<J: Journal>(
    archive: &mut Archive<J, AnyTranslator, BoxNumber>,
    moves: &[Move],
    done: &mut Done,
) {
    let mut places = [NOWHERE; 4];
    for one in moves.iter() {
        if let Ok(listed) = archive.list_key(&one.key, &mut places) {
            done.note(listed.count, listed.candidates);
        }
    }
}

fn load<J: Journal>(archive: &mut Archive<J, AnyTranslator, BoxNumber>, done: &mut Done) {
    done.note(archive.load(SIZE).unwrap_or(0), 0);
}

// Each prune strikes one section.
fn prune_all<J: Journal>(archive: &mut Archive<J, AnyTranslator, BoxNumber>, done: &mut Done) {
    for section in 1..=SECTIONS {
        let pruned = archive.prune(section.saturating_mul(SIZE));
        if let Ok(Pruned::Struck { numbers, records }) = pruned {
            done.note(records, numbers);
        }
    }
}

impl Work {
    /// What fills a new archive, and asks it for everything.
    pub const FROM_EMPTY: [Work; 7] = [
        Work::Put,
        Work::PutMulti,
        Work::GetNumber,
        Work::GetKey,
        Work::GetAbsent,
        Work::ListNumber,
        Work::ListKey,
    ];

    /// What opens a new archive over a full journal, and empties it.
    pub const FROM_FULL: [Work; 2] = [Work::Load, Work::Prune];

    pub fn name(self) -> &'static str {
        match self {
            Work::Put => "stored by put",
            Work::PutMulti => "stored by put_multi",
            Work::GetNumber => "found by number",
            Work::GetKey => "found by key",
            Work::GetAbsent => "found by a key that none bears",
            Work::ListNumber => "listed by number",
            Work::ListKey => "listed by key",
            Work::Load => "loaded",
            Work::Prune => "pruned",
        }
    }

    pub fn run<J: Journal>(
        self,
        archive: &mut Archive<J, AnyTranslator, BoxNumber>,
        fleet: &Fleet,
    ) -> Done {
        let mut done = Done::default();
        match self {
            Work::Put => put_all(archive, fleet.first.as_slice(), &mut done),
            Work::PutMulti => put_multi_all(archive, fleet.further.as_slice(), &mut done),
            Work::GetNumber => get_numbers(archive, fleet.first.as_slice(), &mut done),
            Work::GetKey => get_keys(archive, fleet.further.as_slice(), &mut done),
            Work::GetAbsent => get_absent(archive, fleet.absent.as_slice(), &mut done),
            Work::ListNumber => list_numbers(archive, fleet.first.as_slice(), &mut done),
            Work::ListKey => list_keys(archive, fleet.first.as_slice(), &mut done),
            Work::Load => load(archive, &mut done),
            Work::Prune => prune_all(archive, &mut done),
        }
        done
    }
}
