// What came of many pairs, counted.

use crate::plain::Flaw;
use std::fmt;

/// What the library answered for a pair.
#[derive(Clone, Copy)]
pub enum Answer {
    /// Accepted, with the meaning of the pair that was altered.
    AsBefore,
    /// Accepted with another meaning, no row damaged.
    Other,
    /// Accepted, and some row is damaged.
    Damaged,
    /// Refused, by the refusal's number.
    Refused(u64),
}

/// What came of one pair.
#[derive(Clone, Copy)]
pub struct Outcome {
    pub answer: Answer,
    /// Why it is refused, if it is.
    pub flaw: Option<Flaw>,
    /// Whether the plain decoder says the same.
    pub agrees: bool,
    /// Whether all that has to hold afterwards held.
    pub holds: bool,
}

#[derive(Clone, Copy)]
pub struct Tally {
    pub tried: u64,
    pub as_before: u64,
    pub other: u64,
    pub damaged: u64,
    pub lengths: u64,
    pub headers: u64,
    pub rows: u64,
    pub disagreements: u64,
    pub broken: u64,
}

fn more(count: &mut u64) {
    *count = count.saturating_add(1);
}

impl Tally {
    pub const NONE: Tally = Tally {
        tried: 0,
        as_before: 0,
        other: 0,
        damaged: 0,
        lengths: 0,
        headers: 0,
        rows: 0,
        disagreements: 0,
        broken: 0,
    };

    fn count(&mut self, answer: Answer) {
        match answer {
            Answer::AsBefore => more(&mut self.as_before),
            Answer::Other => more(&mut self.other),
            Answer::Damaged => more(&mut self.damaged),
            Answer::Refused(4) => more(&mut self.lengths),
            Answer::Refused(5) => more(&mut self.headers),
            Answer::Refused(6) => more(&mut self.rows),
            // No mounting is refused with another number.
            Answer::Refused(_) => more(&mut self.broken),
        }
    }

    pub fn add(&mut self, outcome: Outcome) {
        more(&mut self.tried);
        self.count(outcome.answer);
        if !outcome.agrees {
            more(&mut self.disagreements);
        }
        if !outcome.holds {
            more(&mut self.broken);
        }
    }

    /// How many pairs came out otherwise than they have to.
    pub fn wrong(&self) -> u64 {
        self.disagreements.saturating_add(self.broken)
    }
}

impl fmt::Display for Tally {
    fn fmt<W: fmt::Write>(&self, f: &mut fmt::Formatter<W>) -> fmt::Result {
        let tried = self.tried;
        write!(f, "{tried}")?;
        for (name, count) in [
            (": as before", self.as_before),
            (", other meaning", self.other),
            (", damaged", self.damaged),
            (", refused with 4", self.lengths),
            (", refused with 5", self.headers),
            (", refused with 6", self.rows),
            ("; disagreements", self.disagreements),
            (", broken", self.broken),
        ] {
            write!(f, "{name} {count}")?;
        }
        Ok(())
    }
}

/// How often each flaw was the reason of a refusal, in the order of `Flaw`.
#[derive(Clone, Copy)]
pub struct Flaws(pub [u64; 9]);

// The names of the flaws, in their order.
const NAMES: [&str; 9] = [
    "lengths or limits",
    ", a header's check",
    ", no rows",
    ", too many rows",
    ", a start twice",
    ", a row's check",
    ", an offset",
    ", a small size",
    ", a value beyond its page",
];

impl Flaws {
    pub fn add(&mut self, flaw: Option<Flaw>) {
        if let Some(flaw) = flaw {
            if let Some(count) = self.0.get_mut(flaw as usize) {
                more(count);
            }
        }
    }
}

impl fmt::Display for Flaws {
    fn fmt<W: fmt::Write>(&self, f: &mut fmt::Formatter<W>) -> fmt::Result {
        for (name, count) in NAMES.iter().zip(self.0.iter()) {
            let name = *name;
            let count = *count;
            write!(f, "{name} {count}")?;
        }
        Ok(())
    }
}
