// What was called, answered and compared.

use rules::answer::{Pruned, Put, Reply};
use rules::call::Call;
use rules::fault::ArchiveFault;
use rules::turn::Turn;
use std::fmt;

pub fn bump(count: &mut u64) {
    *count = count.saturating_add(1);
}

fn bump_at(counts: &mut [u64], place: usize) {
    if let Some(count) = counts.get_mut(place) {
        bump(count);
    }
}

fn add_to(count: &mut u64, more: u64) {
    *count = count.saturating_add(more);
}

fn add_all(counts: &mut [u64], more: &[u64]) {
    for (count, n) in counts.iter_mut().zip(more.iter()) {
        add_to(count, *n);
    }
}

const CALLS: [&str; 13] = [
    "load",
    ", put",
    ", put_multi",
    ", prune",
    ", get_index",
    ", get_key",
    ", get_at",
    ", has_index",
    ", has_key",
    ", has_at",
    ", list_index",
    ", list_key",
    ", counts",
];

fn place_of_call<K>(call: &Call<K>) -> usize {
    match call {
        Call::Load { .. } => 0,
        Call::Put { .. } => 1,
        Call::PutMulti { .. } => 2,
        Call::Prune { .. } => 3,
        Call::GetNumber { .. } => 4,
        Call::GetKey { .. } => 5,
        Call::GetPlace { .. } => 6,
        Call::HasNumber { .. } => 7,
        Call::HasKey { .. } => 8,
        Call::HasBoth { .. } => 9,
        Call::ListNumber { .. } => 10,
        Call::ListKey { .. } => 11,
        Call::Counts => 12,
    }
}

const REPLIES: [&str; 12] = [
    "loaded",
    ", stored",
    ", below the floor",
    ", already there",
    ", unchanged",
    ", struck",
    ", found",
    ", absent",
    ", yes",
    ", no",
    ", listed",
    ", counted",
];

fn place_of_reply(reply: Reply) -> usize {
    match reply {
        Reply::Loaded { .. } => 0,
        Reply::Put(Put::Stored { .. }) => 1,
        Reply::Put(Put::BelowFloor) => 2,
        Reply::Put(Put::AlreadyThere) => 3,
        Reply::Pruned(Pruned::Unchanged) => 4,
        Reply::Pruned(Pruned::Struck { .. }) => 5,
        Reply::Found(Some(_)) => 6,
        Reply::Found(None) => 7,
        Reply::Has(true) => 8,
        Reply::Has(false) => 9,
        Reply::ListedByNumber { .. } | Reply::ListedByKey(_) => 10,
        Reply::Counted(_) => 11,
    }
}

const REFUSALS: [&str; 12] = [
    "with 1",
    ", 2",
    ", 3",
    ", 6",
    ", 8",
    ", 9",
    ", 10",
    ", 11",
    ", 12",
    ", 13",
    ", 14",
    ", 15 of a get",
];

fn place_of_refusal(fault: ArchiveFault) -> usize {
    match fault.parts().number {
        1 => 0,
        2 => 1,
        3 => 2,
        6 => 3,
        8 => 4,
        9 => 5,
        10 => 6,
        11 => 7,
        12 => 8,
        13 => 9,
        14 => 10,
        15 => 11,
        // The run expects no other.
        _ => 12,
    }
}

#[derive(Clone, Copy)]
pub struct Tally {
    calls: [u64; 13],
    replies: [u64; 12],
    refusals: [u64; 12],
    short_listings: u64,
    /// Sections that a put opened, and how many of these at least in a slot that had held another.
    pub opened: u64,
    pub taken_again: u64,
    pub renewed: u64,
    pub remounted: u64,
    compared: u64,
    wrong: u64,
}

impl Tally {
    pub const NONE: Tally = Tally {
        calls: [0; 13],
        replies: [0; 12],
        refusals: [0; 12],
        short_listings: 0,
        opened: 0,
        taken_again: 0,
        renewed: 0,
        remounted: 0,
        compared: 0,
        wrong: 0,
    };

    fn note_answer(&mut self, answer: Result<Reply, ArchiveFault>) {
        match answer {
            Ok(reply) => bump_at(&mut self.replies, place_of_reply(reply)),
            Err(ArchiveFault::ShortListing { .. }) => bump(&mut self.short_listings),
            Err(fault) => bump_at(&mut self.refusals, place_of_refusal(fault)),
        }
    }

    /// A turn that was answered.
    pub fn note<K>(&mut self, turn: &Turn<K>) {
        bump_at(&mut self.calls, place_of_call(&turn.call));
        if let Some(answer) = turn.answer {
            self.note_answer(answer);
        }
    }

    pub fn judge(&mut self, right: bool) {
        bump(&mut self.compared);
        if !right {
            bump(&mut self.wrong);
        }
    }

    pub fn compared(&self) -> u64 {
        self.compared
    }

    pub fn wrong(&self) -> u64 {
        self.wrong
    }

    pub fn add(&mut self, more: &Tally) {
        add_all(&mut self.calls, &more.calls);
        add_all(&mut self.replies, &more.replies);
        add_all(&mut self.refusals, &more.refusals);
        add_to(&mut self.short_listings, more.short_listings);
        add_to(&mut self.opened, more.opened);
        add_to(&mut self.taken_again, more.taken_again);
        add_to(&mut self.renewed, more.renewed);
        add_to(&mut self.remounted, more.remounted);
        add_to(&mut self.compared, more.compared);
        add_to(&mut self.wrong, more.wrong);
    }
}

fn write_all<W: fmt::Write>(
    f: &mut fmt::Formatter<W>,
    names: &[&str],
    counts: &[u64],
) -> fmt::Result {
    for (name, count) in names.iter().zip(counts.iter()) {
        let name = *name;
        let count = *count;
        write!(f, "{name} {count}")?;
    }
    Ok(())
}

impl fmt::Display for Tally {
    fn fmt<W: fmt::Write>(&self, f: &mut fmt::Formatter<W>) -> fmt::Result {
        f.write_str("calls: ")?;
        write_all(f, &CALLS, &self.calls)?;
        f.write_str("\nanswers: ")?;
        write_all(f, &REPLIES, &self.replies)?;
        f.write_str("\nrefused: ")?;
        write_all(f, &REFUSALS, &self.refusals)?;
        let short = self.short_listings;
        writeln!(f, ", 15 of a listing {short}")
    }
}
