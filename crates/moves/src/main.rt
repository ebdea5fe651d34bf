// Answers a script of commands, a line each, from standard input.
#![tactic(auto)]

mod answer;
mod ask;
mod command;
mod desk;
mod dump;
mod exchange;
mod files;
mod journal_desk;
mod misread;
mod refusal;
mod rest;
mod sailed;
mod sailing;
mod stop;
mod store;
mod turns;
mod voyage_desk;

use answer::Answer;
use archive::archive::Archive;
use ask::ask;
use cache::Cache;
use command::{Command, Kind, Voyage};
use desk::{Begun, Desk, NoDesk, Saved};
use exchange::Log;
use files::{lay_open, open};
use journal::Journal;
use journal_desk::JournalDesk;
use keys::box_number::BoxNumber;
use keys::digest::Digest;
use memory::Memory;
use misread::Misread;
use pages::Pages;
use refusal::Refusal;
use script::input::{Counts, Line, Script};
use std::io;
use std::io::BufReader;
use stop::Stop;
use store::{PageBytes, Store};
use turns::KeyText;
use voyage_desk::VoyageDesk;

// What a line comes to: an answer, and what it begins, if it begins anything.
struct Outcome<'a> {
    answer: Answer<'a>,
    begun: Option<Begun>,
}

impl<'a> From<Answer<'a>> for Outcome<'a> {
    fn from(answer: Answer<'a>) -> Outcome<'a> {
        Outcome {
            answer,
            begun: None,
        }
    }
}

fn obey<'a, D: Desk>(rt: &HostRuntime, desk: &mut D, line: &'a Line) -> Result<Outcome<'a>, Stop> {
    let text = std::str::from_utf8(line.bytes.as_slice()).map_err(|_| Stop::Misread(
        Misread::NotUtf8,
    ))?;
    match Command::try_from(text)? {
        Command::Ask(question) => Ok(ask(rt.alloc(), question)?.into()),
        Command::Begin { on, limits } => Ok(Outcome {
            answer: Answer::Ready,
            begun: Some(Begun::Journal(Store::new(rt.alloc(), on, limits)?)),
        }),
        Command::Open { file, limits } => {
            let (sections, store) = open(rt, file, limits)?;
            Ok(Outcome {
                answer: Answer::Opened(sections),
                begun: Some(Begun::Journal(store)),
            })
        }
        Command::Dump { file, limits } => Ok(Answer::Dump(lay_open(rt, file, limits)?).into()),
        Command::Voyage(voyage) => Ok(Outcome {
            answer: Answer::VoyageReady,
            begun: Some(Begun::Voyage {
                voyage,
                store: Store::new(rt.alloc(), voyage.on, voyage.limits)?,
                from_file: false,
            }),
        }),
        Command::Reopen(file) => {
            let (sections, begun) = desk.reopen(file)?;
            Ok(Outcome {
                answer: Answer::Opened(sections),
                begun: Some(begun),
            })
        }
        Command::Call(asked) => Ok(desk.call(asked)?.into()),
        Command::Sail(asked) => Ok(desk.sail(asked)?.into()),
        Command::Save(file) => Ok(Answer::Saved(desk.save(file)?).into()),
        Command::Exchange => Ok(desk.exchange()?.into()),
    }
}

// Answers one line; gives what it begins, if it begins anything.
fn respond<D: Desk>(
    rt: &HostRuntime,
    counts: &mut Counts,
    desk: &mut D,
    line: &Line,
) -> io::Result<Option<Begun>> {
    match obey(rt, desk, line) {
        Ok(Outcome { answer, begun }) => {
            counts.commands = counts.commands.saturating_add(1);
            rt.println(answer)?;
            Ok(begun)
        }
        Err(Stop::Refused(fault)) => {
            counts.commands = counts.commands.saturating_add(1);
            counts.refused = counts.refused.saturating_add(1);
            rt.println(Refusal(fault))?;
            Ok(None)
        }
        Err(Stop::Misread(misread)) => {
            counts.misread = counts.misread.saturating_add(1);
            let number = line.number;
            println!(rt; "? line {number}: {misread}")?;
            Ok(None)
        }
        Err(Stop::NoMemory) => Err(std::alloc::AllocError.into()),
    }
}

// Answers lines over one desk, until the script ends or begins another.
fn serve<D: Desk + Drop>(
    rt: &HostRuntime,
    script: &mut Script,
    mut desk: D,
) -> io::Result<Option<Begun>> {
    // Counted, since a loop has to be seen to end, and how much input there is nobody knows.
    for _ in 0..u64::MAX {
        let Some(line) = script.next_line()? else {
            return Ok(None);
        };
        if let Some(begun) = respond(rt, &mut script.counts, &mut desk, &line)? {
            return Ok(Some(begun));
        }
    }
    Ok(None)
}

fn serve_journal<J: Journal + Saved + Drop>(
    rt: &HostRuntime,
    script: &mut Script,
    below: J,
) -> io::Result<Option<Begun>> {
    let journal = Cache::over(below);
    serve(rt, script, JournalDesk { rt, journal })
}

// Sails a voyage over any journal and kind of key.
fn sail<J: Journal + Saved + Drop, K: KeyText + Drop>(
    rt: &HostRuntime,
    script: &mut Script,
    voyage: Voyage,
    log: Log<K>,
    below: J,
) -> io::Result<Option<Begun>> {
    let archive = Archive::new(Cache::over(below), voyage.translator);
    serve(
        rt,
        script,
        VoyageDesk {
            rt,
            voyage,
            archive,
            log,
        },
    )
}

// The pages that a voyage begins with, where it does not begin empty.
fn kept_pages(
    rt: &HostRuntime,
    pages: &PageBytes,
    from_file: bool,
) -> io::Result<Option<PageBytes>> {
    if !from_file {
        return Ok(None);
    }
    match pages.copy(rt.alloc()) {
        Ok(pages) => Ok(Some(pages)),
        Err(_) => Err(std::alloc::AllocError.into()),
    }
}

fn sail_store<K: KeyText + Drop>(
    rt: &HostRuntime,
    script: &mut Script,
    voyage: Voyage,
    store: Store,
    from_file: bool,
) -> io::Result<Option<Begun>> {
    match store {
        Store::Memory(mut rows) => {
            let log: Log<K> = Log::new(rt.alloc(), None);
            let (records, bytes) = (rows.records.as_mut_slice(), rows.bytes.as_mut_slice());
            sail(
                rt,
                script,
                voyage,
                log,
                Memory::start(records, bytes, rows.limits),
            )
        }
        Store::Pages(mut pages) => {
            let log: Log<K> = Log::new(rt.alloc(), kept_pages(rt, &pages, from_file)?);
            let (entries, values) = (pages.entries.as_mut_slice(), pages.values.as_mut_slice());
            sail(
                rt,
                script,
                voyage,
                log,
                Pages::mount(entries, values, pages.limits),
            )
        }
    }
}

// Answers lines over the journal that lies in a store.
fn serve_store(rt: &HostRuntime, script: &mut Script, store: Store) -> io::Result<Option<Begun>> {
    match store {
        Store::Memory(mut rows) => {
            let (records, bytes) = (rows.records.as_mut_slice(), rows.bytes.as_mut_slice());
            serve_journal(rt, script, Memory::start(records, bytes, rows.limits))
        }
        Store::Pages(mut pages) => {
            let (entries, values) = (pages.entries.as_mut_slice(), pages.values.as_mut_slice());
            serve_journal(rt, script, Pages::mount(entries, values, pages.limits))
        }
    }
}

fn serve_begun(rt: &HostRuntime, script: &mut Script, begun: Begun) -> io::Result<Option<Begun>> {
    match begun {
        Begun::Journal(store) => serve_store(rt, script, store),
        Begun::Voyage {
            voyage,
            store,
            from_file,
        } => match voyage.kind {
            Kind::Box => sail_store::<BoxNumber>(rt, script, voyage, store, from_file),
            Kind::Digest => sail_store::<Digest>(rt, script, voyage, store, from_file),
        },
    }
}

fn main(rt: HostRuntime) -> io::Result<()> {
    let heap = rt.alloc();
    let mut script = Script {
        input: BufReader::new(heap, rt.stdin())?,
        heap,
        read: 0,
        counts: Counts {
            commands: 0,
            refused: 0,
            misread: 0,
        },
    };
    let mut next = serve(&rt, &mut script, NoDesk)?;
    // Counted, as above.
    for _ in 0..u64::MAX {
        let Some(begun) = next else {
            break;
        };
        next = serve_begun(&rt, &mut script, begun)?;
    }
    let Counts {
        commands,
        refused,
        misread,
    } = script.counts;
    println!(rt; "done: {commands} commands, {refused} refused, {misread} not understood")
}
