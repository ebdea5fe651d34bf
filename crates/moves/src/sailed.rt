// The answer line of a call to the archive of a voyage.

use crate::answer::show_value;
use rules::answer::{Counts, Place, Pruned, Put};
use std::fmt;

#[derive(Drop)]
pub enum Sailed {
    Loaded(u64),
    Put(Put),
    Absent,
    Found {
        place: Place,
        value: Vec<u8>,
    },
    Has(bool),
    Listed {
        places: Vec<Place>,
        /// Of a listing by key.
        candidates: Option<u64>,
    },
    Pruned {
        pruned: Pruned,
        floor: u64,
    },
    Counted(Counts),
    NoExchange,
    Alike {
        answers: u64,
        /// Of gets by a key that several records bore.
        open: u64,
    },
}

fn show_put<W: fmt::Write>(put: Put, f: &mut fmt::Formatter<W>) -> fmt::Result {
    match put {
        Put::BelowFloor => f.write_str("below the floor"),
        Put::AlreadyThere => f.write_str("already there"),
        Put::Stored { section, position } => write!(f, "stored {section} {position}"),
    }
}

fn show_found<W: fmt::Write>(place: Place, value: &[u8], f: &mut fmt::Formatter<W>) -> fmt::Result {
    let Place { number, position } = place;
    write!(f, "found {number} {position} ")?;
    show_value(value, f)
}

fn show_places<W: fmt::Write>(places: &[Place], f: &mut fmt::Formatter<W>) -> fmt::Result {
    for place in places {
        let Place { number, position } = *place;
        write!(f, " {number}/{position}")?;
    }
    Ok(())
}

fn show_listed<W: fmt::Write>(
    places: &[Place],
    candidates: Option<u64>,
    f: &mut fmt::Formatter<W>,
) -> fmt::Result {
    let count = places.len();
    match candidates {
        Some(all) => write!(f, "listed {count} of {all}:")?,
        None => write!(f, "listed {count}:")?,
    }
    show_places(places, f)
}

fn show_pruned<W: fmt::Write>(
    pruned: Pruned,
    floor: u64,
    f: &mut fmt::Formatter<W>,
) -> fmt::Result {
    match pruned {
        Pruned::Unchanged => f.write_str("unchanged"),
        Pruned::Struck { numbers, records } => write!(
            f,
            "pruned floor {floor} numbers {numbers} records {records}"
        ),
    }
}

fn show_counts<W: fmt::Write>(counts: Counts, f: &mut fmt::Formatter<W>) -> fmt::Result {
    let Counts {
        records,
        numbers,
        floor,
    } = counts;
    write!(f, "counts records {records} numbers {numbers} floor ")?;
    match floor {
        Some(floor) => write!(f, "{floor}"),
        None => f.write_str("none"),
    }
}

impl fmt::Display for Sailed {
    fn fmt<W: fmt::Write>(&self, f: &mut fmt::Formatter<W>) -> fmt::Result {
        match self {
            Sailed::Loaded(records) => write!(f, "loaded {records}"),
            Sailed::Put(put) => show_put(*put, f),
            Sailed::Absent => f.write_str("absent"),
            Sailed::Found { place, value } => show_found(*place, value.as_slice(), f),
            Sailed::Has(has) => f.write_str(if *has { "yes" } else { "no" }),
            Sailed::Listed { places, candidates } => {
                show_listed(places.as_slice(), *candidates, f)
            }
            Sailed::Pruned { pruned, floor } => show_pruned(*pruned, *floor, f),
            Sailed::Counted(counts) => show_counts(*counts, f),
            Sailed::NoExchange => f.write_str("no two puts to exchange"),
            Sailed::Alike { answers, open } => write!(f, "alike {answers} answers, {open} open"),
        }
    }
}
