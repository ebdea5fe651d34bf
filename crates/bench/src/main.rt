// The archive at its full size, over byte pages behind the cache: what its calls come to, and with the argument `time` what they cost.
#![tactic(auto)]

mod fleet;
mod lap;
mod round;
mod work;

use archive::archive::Archive;
use cache::Cache;
use fleet::Fleet;
use keys::box_number::BoxNumber;
use keys::translator::{AnyTranslator, Fnv, Leading};
use lap::Lap;
use pages::Pages;
use round::round;
use std::{env, io};

/// How many rounds a run with times makes.
const ROUNDS: u64 = 100;

/// Translators with their names. The first four bytes of a box number are its owner and a letter that all have, so by them all
/// boxes of an owner have one translated key.
const TRANSLATORS: [(&str, AnyTranslator); 3] = [
    (
        "the first four bytes",
        AnyTranslator::Leading(Leading::Four),
    ),
    (
        "the first eight bytes",
        AnyTranslator::Leading(Leading::Eight),
    ),
    ("FNV-1a", AnyTranslator::Fnv(Fnv)),
];

fn wants_times(rt: &HostRuntime) -> io::Result<bool> {
    for word in env::args(rt)?.skip(1) {
        if word.as_str() == "time" {
            return Ok(true);
        }
    }
    Ok(false)
}

fn report(rt: &HostRuntime, laps: &[Lap], times: bool) -> io::Result<()> {
    for lap in laps.iter() {
        if times {
            let (name, mean, best) = (lap.work.name(), lap.mean(), lap.best);
            println!(rt; "  {name}: {mean} ns a call, {best} in the best round")?;
        } else {
            println!(rt; "  {lap}")?;
        }
    }
    Ok(())
}

fn report_sizes(rt: &HostRuntime) -> io::Result<()> {
    let archive = size_of::<Archive<Cache<Pages<'static>>, AnyTranslator, BoxNumber>>();
    let journal = size_of::<Cache<Pages<'static>>>();
    println!(rt;
        "bytes of an archive: {archive}, of these of the cache and what it lies over: {journal}"
    )
}

fn main(rt: HostRuntime) -> io::Result<()> {
    let times = wants_times(&rt)?;
    let rounds = if times { ROUNDS } else { 1 };
    let fleet = Fleet::new(rt.alloc())?;
    for (name, translator) in TRANSLATORS {
        let mut laps = Vec::new(rt.alloc());
        for _ in 0..rounds {
            round(&rt, &fleet, translator, &mut laps)?;
        }
        println!(rt; "by {name}:")?;
        report(&rt, laps.as_slice(), times)?;
    }
    report_sizes(&rt)
}
