// A round: every kind of work once, on new pages.

use crate::fleet::Fleet;
use crate::lap::Lap;
use crate::work::{SIZE, Work};
use archive::archive::Archive;
use cache::Cache;
use journal::Journal;
use journal::limits::Limits;
use keys::box_number::BoxNumber;
use keys::translator::AnyTranslator;
use pages::Pages;
use std::io;
use std::time::Instant;

/// The largest that an archive may lie over, with the width of box numbers.
const LIMITS: Limits = Limits {
    slots: 16,
    rows: 128,
    bytes: 4_096,
    width: 11,
};

// Notes a lap of some work, beside those of earlier rounds.
fn note(laps: &mut Vec<Lap>, further: Lap) -> io::Result<()> {
    for lap in laps.iter_mut() {
        if lap.work == further.work {
            lap.add(further);
            return Ok(());
        }
    }
    laps.push(further)?;
    Ok(())
}

fn clock<J: Journal>(
    rt: &HostRuntime,
    archive: &mut Archive<J, AnyTranslator, BoxNumber>,
    fleet: &Fleet,
    work: Work,
    laps: &mut Vec<Lap>,
) -> io::Result<()> {
    let start = Instant::now(rt)?;
    let done = work.run(archive, fleet);
    let time = start.elapsed(rt)?;
    note(laps, Lap::new(work, done, time))
}

// Over any journal, since concrete code may not keep a cache over pages.
fn sail<J: Journal + Drop>(
    rt: &HostRuntime,
    journal: J,
    translator: AnyTranslator,
    fleet: &Fleet,
    laps: &mut Vec<Lap>,
) -> io::Result<()> {
    let mut archive = Archive::new(Cache::over(journal), translator);
    let _ = archive.load(SIZE);
    for work in Work::FROM_EMPTY {
        clock(rt, &mut archive, fleet, work, laps)?;
    }
    let mut archive = Archive::new(archive.into_journal(), translator);
    for work in Work::FROM_FULL {
        clock(rt, &mut archive, fleet, work, laps)?;
    }
    Ok(())
}

/// A round from empty pages to empty pages.
pub fn round(
    rt: &HostRuntime,
    fleet: &Fleet,
    translator: AnyTranslator,
    laps: &mut Vec<Lap>,
) -> io::Result<()> {
    let Some(sizes) = Pages::sizes(LIMITS) else {
        return Ok(());
    };
    let mut entries = vec![in rt.alloc(); 0; sizes.entries]?;
    let mut values = vec![in rt.alloc(); 0; sizes.values]?;
    let pages = Pages::mount(entries.as_mut_slice(), values.as_mut_slice(), LIMITS);
    sail(rt, pages, translator, fleet, laps)
}
