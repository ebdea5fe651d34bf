// One pair of slices: what the library answers, whether the plain decoder says the same, and whether it lasts.

use crate::meaning::{Row, Section, is_sound};
use crate::pair::Pair;
use crate::plain::Plain;
use crate::reading::read_all;
use crate::tally::{Answer, Outcome};
use journal::Journal;
use journal::fault::JournalFault;
use journal::limits::NOTHING;
use journal::row::Label;
use pages::Pages;
use std::alloc::{AllocError, Global};

// A row that no pair has yet, which a key of the journal's width names.
fn new_row(heap: Global, width: u64, value: &[u8]) -> Result<Row, AllocError> {
    Ok(Row {
        number: 4_711,
        key: vec![in heap; 90; width as usize]?,
        length: value.len() as u64,
        value: Some(value.to_vec(heap)?),
    })
}

// Appends a row where the journal takes it, and gives it then.
fn append_one<J: Journal>(
    heap: Global,
    journal: &mut J,
    start: u64,
    value: &[u8],
) -> Result<Option<Row>, AllocError> {
    let row = new_row(heap, journal.limits().width, value)?;
    let label = Label { number: row.number };
    let appended = journal.append(start, label, row.key.as_slice(), value);
    Ok(if appended.is_ok() { Some(row) } else { None })
}

// A row more in the first section, as far as there is room.
fn grow_first<J: Journal>(
    heap: Global,
    journal: &mut J,
    sections: &mut Vec<Section>,
) -> Result<(), AllocError> {
    if let Some(section) = sections.as_mut_slice().first_mut() {
        if let Some(row) = append_one(heap, journal, section.start, b"more")? {
            section.rows.push(row)?;
        }
    }
    Ok(())
}

// A new section behind the last, as far as there is room.
fn open_last<J: Journal>(
    heap: Global,
    journal: &mut J,
    sections: &mut Vec<Section>,
) -> Result<(), AllocError> {
    let start = match sections.as_slice().last() {
        Some(section) => section.start.checked_add(1),
        None => Some(0),
    };
    let Some(start) = start else {
        return Ok(());
    };
    if let Some(row) = append_one(heap, journal, start, b"")? {
        let rows = vec![in heap; row]?;
        sections.push(Section { start, rows })?;
    }
    Ok(())
}

// A prune that takes the first of several sections, and of one none.
fn cut_first<J: Journal>(journal: &mut J, sections: &mut Vec<Section>) -> bool {
    let second = sections.as_slice().get(1).map(|section| section.start);
    match second {
        Some(min) => {
            if !sections.is_empty() {
                let _ = sections.remove(0);
            }
            journal.prune(min) && journal.floor() == min
        }
        None => !journal.prune(0) && journal.floor() == 0,
    }
}

// Whether these bytes are mounted again, and mean that.
fn means(heap: Global, plain: Plain<'_>, sections: &[Section]) -> Result<bool, AllocError> {
    let checked = Pages::check(plain.entries, plain.values, plain.limits).is_ok();
    let meaning = plain.meaning(heap)?;
    Ok(checked && plain.refusal().is_none() && meaning.as_slice() == sections)
}

// Mounts a copy, appends, prunes and mounts again; whether each step left what it has to, by the calls and by the plain
// decoder.
fn lasts(heap: Global, pair: &Pair, seen: Vec<Section>) -> Result<bool, AllocError> {
    let mut sections = seen;
    let Pair {
        limits,
        mut entries,
        mut values,
    } = pair.clone()?;
    let mut pages = Pages::mount(entries.as_mut_slice(), values.as_mut_slice(), limits);
    grow_first(heap, &mut pages, &mut sections)?;
    open_last(heap, &mut pages, &mut sections)?;
    let cut = cut_first(&mut pages, &mut sections);
    let before = read_all(heap, &mut pages)?;
    let mut again = pages.remount();
    let after = read_all(heap, &mut again)?;
    let left = Plain {
        limits,
        entries: again.entries(),
        values: again.values(),
    };
    let means = means(heap, left, sections.as_slice())?;
    let same = before == sections && after == sections;
    Ok(cut && means && same && again.floor() == 0 && again.limits() == limits)
}

fn answer_of(seen: &[Section], known: &[Section]) -> Answer {
    if seen == known {
        return Answer::AsBefore;
    }
    if is_sound(seen) {
        Answer::Other
    } else {
        Answer::Damaged
    }
}

fn is_unchanged(pages: &Pages<'_>, pair: &Pair) -> bool {
    pages.entries() == pair.entries.as_slice() && pages.values() == pair.values.as_slice()
}

fn probe_accepted(heap: Global, pair: &Pair, known: &[Section]) -> Result<Outcome, AllocError> {
    let expected = pair.plain().meaning(heap)?;
    let Pair {
        limits,
        mut entries,
        mut values,
    } = pair.clone()?;
    let mut pages = Pages::mount(entries.as_mut_slice(), values.as_mut_slice(), limits);
    let seen = read_all(heap, &mut pages)?;
    let begins = pages.limits() == limits && pages.floor() == 0 && is_unchanged(&pages, pair);
    let answer = answer_of(seen.as_slice(), known);
    let agrees = pair.plain().refusal().is_none() && seen == expected;
    let lasts = lasts(heap, pair, seen)?;
    Ok(Outcome {
        answer,
        flaw: None,
        agrees,
        holds: begins && lasts,
    })
}

// A mounting that was refused keeps nothing, and touches no byte.
fn probe_refused(pair: &Pair, fault: JournalFault) -> Result<Outcome, AllocError> {
    let Pair {
        limits,
        mut entries,
        mut values,
    } = pair.clone()?;
    let pages = Pages::mount(entries.as_mut_slice(), values.as_mut_slice(), limits);
    let due = pair.plain().refusal();
    let is_empty = pages.limits() == NOTHING && pages.first_start(0).is_none();
    Ok(Outcome {
        answer: Answer::Refused(fault.parts().number),
        flaw: due.map(|due| due.flaw),
        agrees: due.map(|due| due.fault) == Some(fault),
        holds: is_empty && is_unchanged(&pages, pair),
    })
}

/// What comes of a pair; `known` is the meaning of the pair that it was made of.
pub fn probe(heap: Global, pair: &Pair, known: &[Section]) -> Result<Outcome, AllocError> {
    match Pages::check(pair.entries.as_slice(), pair.values.as_slice(), pair.limits) {
        Ok(()) => probe_accepted(heap, pair, known),
        Err(fault) => probe_refused(pair, fault),
    }
}
