// The archive over byte pages and over memory rows, side by side and beside a plain model, from fixed seeds.
#![tactic(auto)]

mod answers;
mod coders;
mod desk;
mod draw;
mod kinds;
mod model;
mod orders;
mod owners;
mod random;
mod record;
mod rows;
mod stores;
mod tally;
mod voyage;

use coders::{Halved, OneHash};
use keys::box_number::BoxNumber;
use keys::digest::Digest;
use keys::kind::Key;
use keys::translator::{Fnv, Leading, Translator};
use kinds::{Tag, Triple};
use orders::ALL;
use owners::{box_keys, plain_keys};
use random::Random;
use std::io;
use tally::Tally;
use voyage::{Plan, sail};

// The limits are small, so that sections fill and slots are taken again.
fn small(size: u64, seed: u64) -> Plan {
    Plan {
        slots: 4,
        rows: 6,
        bytes: 64,
        size,
        seed,
    }
}

// Sections long enough for long chains.
const LONG: Plan = Plan {
    slots: 3,
    rows: 40,
    bytes: 512,
    size: 8,
    seed: 9,
};

// As many slots as an archive takes.
const WIDE: Plan = Plan {
    slots: 16,
    rows: 3,
    bytes: 40,
    size: 2,
    seed: 10,
};

/// What standard input asks for.
#[derive(Clone, Copy)]
struct Wish {
    seed: u64,
    /// How many voyages of each kind.
    rounds: u64,
}

fn read_wish(rt: &HostRuntime) -> io::Result<Wish> {
    let mut wish = Wish { seed: 1, rounds: 1 };
    for line in rt.lines(rt.alloc()) {
        let line = line?;
        let (name, number) = line.as_str().split_once(' ').unwrap_or(("", ""));
        match (name, number.parse::<u64>()) {
            ("seed", Ok(seed)) => wish.seed = seed,
            ("rounds", Ok(rounds)) => wish.rounds = rounds,
            _ => {}
        }
    }
    Ok(wish)
}

/// The voyages that were made, and those to be made.
#[derive(Drop)]
struct Log<'a> {
    rt: &'a HostRuntime,
    wish: Wish,
    all: Tally,
}

impl Log<'_> {
    // Voyages of a kind, and a line of what came of them.
    fn tell<T: Translator + Copy + Drop, K: Key + Copy + Drop>(
        &mut self,
        name: &str,
        plan: Plan,
        translator: T,
        keys: Vec<K>,
    ) -> io::Result<()> {
        let mut tally = Tally::NONE;
        let mut seeds = Random::new(plan.seed.saturating_add(self.wish.seed));
        for _ in 0..self.wish.rounds {
            let seed = seeds.below(u64::MAX);
            let plan = Plan { seed, ..plan };
            tally.add(&sail(self.rt.alloc(), plan, translator, keys.clone()?)?);
        }
        let count = keys.len();
        let opened = tally.opened;
        let again = tally.taken_again;
        let compared = tally.compared();
        let wrong = tally.wrong();
        println!(self.rt;
            "{name}: {count} keys, {opened} sections opened, {again} in a slot taken again, {compared} compared, disagreements {wrong}"
        )?;
        self.all.add(&tally);
        Ok(())
    }
}

// Kinds of key of this program.
fn own_kinds(log: &mut Log<'_>) -> io::Result<()> {
    let heap = log.rt.alloc();
    let tags: Vec<Tag> = plain_keys(heap)?;
    let one = OneHash(Leading::Eight);
    log.tell("tags, one hash", small(10, 1), one, tags)?;
    let tags: Vec<Tag> = plain_keys(heap)?;
    log.tell("tags, halved", small(3, 2), Halved, tags)?;
    let triples: Vec<Triple> = plain_keys(heap)?;
    let few = OneHash(Leading::One);
    log.tell("triples, one hash", small(1, 3), few, triples)?;
    let triples: Vec<Triple> = plain_keys(heap)?;
    log.tell("triples, halved", small(7, 4), Halved, triples)?;
    let triples: Vec<Triple> = plain_keys(heap)?;
    log.tell("triples, long sections", LONG, few, triples)?;
    Ok(())
}

// The library's kinds of key.
fn known_kinds(log: &mut Log<'_>) -> io::Result<()> {
    let heap = log.rt.alloc();
    let boxes: Vec<BoxNumber> = box_keys(heap)?;
    log.tell("boxes, leading 2", small(10, 5), Leading::Two, boxes)?;
    let boxes: Vec<BoxNumber> = box_keys(heap)?;
    log.tell("boxes, FNV", small(5, 6), Fnv, boxes)?;
    let digests: Vec<Digest> = plain_keys(heap)?;
    log.tell("digests, FNV", small(2, 7), Fnv, digests)?;
    let digests: Vec<Digest> = plain_keys(heap)?;
    log.tell("digests, leading 8", WIDE, Leading::Eight, digests)?;
    Ok(())
}

// A line for each history; answers how many came out otherwise than they have to.
fn tell_orders(rt: &HostRuntime) -> io::Result<u64> {
    let mut wrong = 0u64;
    for history in ALL {
        let name = history.name();
        let outcome = history.on_pages(rt.alloc())?;
        // Memory rows have no damaged value.
        let other = if history.is_damaged() {
            outcome
        } else {
            history.in_memory(rt.alloc())?
        };
        println!(rt; "{name}: {outcome}")?;
        if outcome != history.due() || other != history.due() {
            wrong = wrong.saturating_add(1);
        }
    }
    Ok(wrong)
}

fn main(rt: HostRuntime) -> io::Result<()> {
    let mut log = Log {
        rt: &rt,
        wish: read_wish(&rt)?,
        all: Tally::NONE,
    };
    own_kinds(&mut log)?;
    known_kinds(&mut log)?;
    let all = log.all;
    print!(rt; "{all}")?;
    let renewed = all.renewed;
    let remounted = all.remounted;
    let opened = all.opened;
    let again = all.taken_again;
    println!(rt;
        "archives made anew {renewed}, remounted {remounted}; sections opened {opened}, in a slot taken again {again}"
    )?;
    let wrong = tell_orders(&rt)?.saturating_add(all.wrong());
    if wrong == 0 {
        rt.println("all as expected")
    } else {
        println!(rt; "{wrong} wrong")
    }
}
