// Runs the index beside a plain model of it, from a fixed seed, and prints what was compared and how often they disagreed.
#![tactic(auto)]

mod desk;
mod model;
mod random;
mod score;

use desk::Desk;
use index::index::Index;
use index::key_code::KeyCode;
use random::SplitMix;
use score::Score;
use std::alloc::AllocError;
use std::io;

/// One stretch of the run.
#[derive(Clone, Copy)]
struct Stretch {
    /// Records are noted in that many sections from the lowest on.
    width: u64,
    /// After how many records, about, the lowest sections are struck.
    lasts: u64,
    /// Into how many values the hash spreads.
    spread: u64,
}

/// Many sections that change often, and few that fill up; each with hashes that differ, and with one for all.
const STRETCHES: [Stretch; 4] = [
    Stretch {
        width: 24,
        lasts: 8,
        spread: 6,
    },
    Stretch {
        width: 3,
        lasts: 250,
        spread: 6,
    },
    Stretch {
        width: 24,
        lasts: 8,
        spread: 1,
    },
    Stretch {
        width: 3,
        lasts: 250,
        spread: 1,
    },
];

/// A translated key and a hash; the hashes fall into two buckets, 0 into the first and the others into the last.
fn key(random: &mut SplitMix, spread: u64) -> KeyCode {
    KeyCode {
        code: random.below(4),
        hash: random.below(spread).saturating_mul(377),
    }
}

/// One record noted, and then every question once.
fn step(
    desk: &mut Desk<'_>,
    random: &mut SplitMix,
    stretch: Stretch,
    lowest: u64,
) -> Result<(), AllocError> {
    let start = lowest
        .saturating_add(random.below(stretch.width))
        .saturating_mul(64);
    let offset = random.below(66);
    desk.note(start, offset, key(random, stretch.spread))?;
    desk.number(start, random.below(66));
    desk.number(start, offset);
    let from = lowest
        .saturating_mul(64)
        .saturating_add(random.below(1_600));
    desk.starts();
    let slot = random.below(18) as usize;
    let sought = key(random, stretch.spread);
    desk.first_with(from, sought);
    desk.candidates(slot, sought);
    desk.after(slot, random.below(130), key(random, stretch.spread));
    desk.counts();
    Ok(())
}

/// A stretch of the run, from a lowest section on; answers the lowest one at its end.
fn run(
    desk: &mut Desk<'_>,
    random: &mut SplitMix,
    stretch: Stretch,
    from: u64,
) -> Result<u64, AllocError> {
    let mut lowest = from;
    for _ in 0..700 {
        step(desk, random, stretch, lowest)?;
        if random.below(stretch.lasts) == 0 {
            lowest = lowest.saturating_add(random.below(3));
            desk.strike(lowest.saturating_mul(64));
        }
        if random.below(4) == 0 {
            let slot = random.below(18) as usize;
            desk.add(slot, random.below(66), key(random, stretch.spread))?;
        }
        if random.below(40) == 0 {
            desk.open(lowest.saturating_add(random.below(24)).saturating_mul(64))?;
        }
    }
    Ok(lowest)
}

fn compare(desk: &mut Desk<'_>) -> Result<(), AllocError> {
    let mut random = SplitMix::new(2_024);
    let mut lowest = 0;
    for _ in 0..3 {
        for stretch in STRETCHES {
            lowest = run(desk, &mut random, stretch, lowest)?;
        }
        desk.clear();
    }
    Ok(())
}

fn main(rt: HostRuntime) -> io::Result<()> {
    let mut index = Index::new();
    let mut desk = Desk::new(rt.alloc(), &mut index);
    compare(&mut desk)?;
    let Score {
        added,
        refused,
        opened,
        taken,
        taken_again,
        strikes,
        struck,
        clears,
        positions,
        candidates,
        answers,
        wrong,
    } = desk.score;
    println!(rt; "records added: {added}, refused: {refused}")?;
    println!(rt;
        "slots taken: {taken}, of these again: {taken_again}, by opening alone: {opened}"
    )?;
    println!(rt; "strikes: {strikes}, records struck: {struck}, clears: {clears}")?;
    println!(rt; "positions compared: {positions}, candidates: {candidates}")?;
    println!(rt; "answers compared: {answers}, wrong: {wrong}")?;
    println!(rt; "bytes of an index: {}", size_of::<Index>())?;
    Ok(())
}
