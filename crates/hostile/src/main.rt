// Byte pages made of hostile bytes, mounted: what the library answers is counted, and held against a plain decoder.
// Lines of standard input name the seed of the random pairs, and how many of each kind there are to be.
#![tactic(auto)]

mod bytes;
mod forge;
mod good;
mod kind;
mod meaning;
mod pair;
mod plain;
mod probe;
mod random;
mod reading;
mod stretch;
mod tally;

use good::good_pair;
use kind::Kind;
use meaning::Section;
use pages::Pages;
use pair::Pair;
use probe::probe;
use random::Random;
use reading::read_all;
use std::alloc::{AllocError, Global};
use std::io;
use stretch::Stretch;
use tally::{Flaws, Tally};

// The good pair and what it means.
#[derive(Drop)]
struct Known {
    pair: Pair,
    sections: Vec<Section>,
}

fn make_known(heap: Global) -> Result<Known, AllocError> {
    let pair = good_pair(heap)?;
    let Pair {
        limits,
        mut entries,
        mut values,
    } = pair.clone()?;
    let mut pages = Pages::mount(entries.as_mut_slice(), values.as_mut_slice(), limits);
    let sections = read_all(heap, &mut pages)?;
    Ok(Known { pair, sections })
}

// Each byte of the good pair, with each mask of `masks`.
fn sweep(
    heap: Global,
    known: &Known,
    masks: &[u8],
    flaws: &mut Flaws,
) -> Result<Tally, AllocError> {
    let mut tally = Tally::NONE;
    let mut pair = known.pair.clone()?;
    for place in 0..pair.size() {
        for mask in masks {
            pair.turn(place, *mask);
            let outcome = probe(heap, &pair, known.sections.as_slice())?;
            tally.add(outcome);
            flaws.add(outcome.flaw);
            pair.turn(place, *mask);
        }
    }
    Ok(tally)
}

fn misplace_all(
    heap: Global,
    known: &Known,
    stretch: Stretch,
    flaws: &mut Flaws,
) -> Result<Tally, AllocError> {
    let mut tally = Tally::NONE;
    let count = stretch.count(known.pair.limits);
    for from in 0..count {
        for to in 0..count {
            let pair = stretch.misplaced(heap, &known.pair, from, to)?;
            let outcome = probe(heap, &pair, known.sections.as_slice())?;
            tally.add(outcome);
            flaws.add(outcome.flaw);
        }
    }
    Ok(tally)
}

fn try_random(
    heap: Global,
    known: &Known,
    kind: Kind,
    random: &mut Random,
    count: u64,
    flaws: &mut Flaws,
) -> Result<Tally, AllocError> {
    let mut tally = Tally::NONE;
    for _ in 0..count {
        let pair = kind.make(heap, random, &known.pair)?;
        let outcome = probe(heap, &pair, known.sections.as_slice())?;
        tally.add(outcome);
        flaws.add(outcome.flaw);
    }
    Ok(tally)
}

// The masks that flip one bit, or the 255 that change a byte into every other.
fn masks(heap: Global, bits: bool) -> Result<Vec<u8>, AllocError> {
    if bits {
        return [1, 2, 4, 8, 16, 32, 64, 128].to_vec(heap);
    }
    let mut masks = Vec::new(heap);
    for mask in 1..=255 {
        masks.push(mask)?;
    }
    Ok(masks)
}

/// What standard input asks for.
#[derive(Clone, Copy)]
struct Wish {
    seed: u64,
    count: u64,
}

fn read_wish(rt: &HostRuntime) -> io::Result<Wish> {
    let mut wish = Wish {
        seed: 1,
        count: 100,
    };
    for line in rt.lines(rt.alloc()) {
        let line = line?;
        let (name, number) = line.as_str().split_once(' ').unwrap_or(("", ""));
        match (name, number.parse::<u64>()) {
            ("seed", Ok(seed)) => wish.seed = seed,
            ("random", Ok(count)) => wish.count = count,
            _ => {}
        }
    }
    Ok(wish)
}

fn report(rt: &HostRuntime, name: &str, tally: Tally) -> io::Result<()> {
    println!(rt; "{name} {tally}")
}

// The good pair as it is.
fn unaltered(rt: &HostRuntime, known: &Known) -> io::Result<u64> {
    let mut tally = Tally::NONE;
    tally.add(probe(rt.alloc(), &known.pair, known.sections.as_slice())?);
    report(rt, "good pairs", tally)?;
    Ok(tally.wrong())
}

fn sweeps(rt: &HostRuntime, known: &Known, flaws: &mut Flaws) -> io::Result<u64> {
    let mut wrong = 0u64;
    for (name, bits) in [("bits flipped", true), ("bytes replaced", false)] {
        let masks = masks(rt.alloc(), bits)?;
        let tally = sweep(rt.alloc(), known, masks.as_slice(), flaws)?;
        report(rt, name, tally)?;
        // FNV-1a shows each change of a single byte, so no altered pair may pass with another meaning.
        wrong = wrong
            .saturating_add(tally.wrong())
            .saturating_add(tally.other);
    }
    Ok(wrong)
}

// Headers, rows and pages of the good pair, each at the place of each.
fn misplacements(rt: &HostRuntime, known: &Known, flaws: &mut Flaws) -> io::Result<u64> {
    let mut wrong = 0u64;
    for (name, stretch) in [
        ("headers copied", Stretch::Header),
        ("rows copied", Stretch::Row),
        ("pages copied", Stretch::Page),
        ("pages exchanged", Stretch::ExchangedPages),
        (
            "pages exchanged with values",
            Stretch::ExchangedPagesAndValues,
        ),
    ] {
        let tally = misplace_all(rt.alloc(), known, stretch, flaws)?;
        report(rt, name, tally)?;
        wrong = wrong.saturating_add(tally.wrong());
    }
    Ok(wrong)
}

fn random_pairs(rt: &HostRuntime, known: &Known, flaws: &mut Flaws) -> io::Result<u64> {
    let Wish { seed, count } = read_wish(rt)?;
    let mut random = Random { state: seed };
    let mut wrong = 0u64;
    for (name, kind) in [
        ("random bytes", Kind::Noise),
        ("up to eight bytes replaced", Kind::Scattered),
        ("random fields under right checks", Kind::Forged),
        ("other lengths or limits", Kind::Stretched),
    ] {
        let tally = try_random(rt.alloc(), known, kind, &mut random, count, flaws)?;
        report(rt, name, tally)?;
        wrong = wrong.saturating_add(tally.wrong());
    }
    Ok(wrong)
}

fn main(rt: HostRuntime) -> io::Result<()> {
    let known = make_known(rt.alloc())?;
    let mut flaws = Flaws([0; 9]);
    let wrong = unaltered(&rt, &known)?
        .saturating_add(sweeps(&rt, &known, &mut flaws)?)
        .saturating_add(misplacements(&rt, &known, &mut flaws)?)
        .saturating_add(random_pairs(&rt, &known, &mut flaws)?);
    println!(rt; "refused for {flaws}")?;
    if wrong == 0 {
        rt.println("all as expected")
    } else {
        println!(rt; "{wrong} broken")
    }
}
