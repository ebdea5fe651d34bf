// The kinds of random pairs.

use crate::forge::{forged, small_limits};
use crate::pair::Pair;
use crate::random::Random;
use pages::Pages;
use pages::sizes::Sizes;
use std::alloc::{AllocError, Global};

/// How random pairs are made.
#[derive(Clone, Copy)]
pub enum Kind {
    /// Of random bytes, under small limits.
    Noise,
    /// Of the good pair, some of whose bytes are replaced.
    Scattered,
    /// With right checks and random fields.
    Forged,
    /// Of the good pair, whose slices or limits no longer go together.
    Stretched,
}

fn noise(heap: Global, random: &mut Random) -> Result<Pair, AllocError> {
    let limits = small_limits(random);
    let Sizes { entries, values } = Pages::sizes(limits).unwrap_or(Sizes {
        entries: 0,
        values: 0,
    });
    Ok(Pair {
        limits,
        entries: random.bytes(heap, entries as u64)?,
        values: random.bytes(heap, values as u64)?,
    })
}

fn scattered(random: &mut Random, good: &Pair) -> Result<Pair, AllocError> {
    let mut pair = good.clone()?;
    for _ in 0..=random.below(8) {
        let place = random.below(pair.size());
        pair.turn(place, random.byte());
    }
    Ok(pair)
}

// One to four bytes more or fewer.
fn stretch(random: &mut Random, bytes: &mut Vec<u8>) -> Result<(), AllocError> {
    let by = random.below(4).saturating_add(1);
    if random.one_in(2) {
        bytes.truncate(bytes.len().saturating_sub(by as usize));
        return Ok(());
    }
    for _ in 0..by {
        bytes.push(0)?;
    }
    Ok(())
}

fn stretched(random: &mut Random, good: &Pair) -> Result<Pair, AllocError> {
    let mut pair = good.clone()?;
    let limit = match random.below(4) {
        0 => random.number(),
        1 => u64::MAX,
        _ => random.below(70),
    };
    match random.below(6) {
        0 => stretch(random, &mut pair.entries)?,
        1 => stretch(random, &mut pair.values)?,
        2 => pair.limits.slots = limit,
        3 => pair.limits.rows = limit,
        4 => pair.limits.bytes = limit,
        _ => pair.limits.width = limit,
    }
    Ok(pair)
}

impl Kind {
    pub fn make(self, heap: Global, random: &mut Random, good: &Pair) -> Result<Pair, AllocError> {
        match self {
            Kind::Noise => noise(heap, random),
            Kind::Scattered => scattered(random, good),
            Kind::Forged => forged(heap, random),
            Kind::Stretched => stretched(random, good),
        }
    }
}
