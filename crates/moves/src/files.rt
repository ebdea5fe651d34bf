// Files of byte pages: the entries, and behind them the values.

use crate::dump::Dump;
use crate::misread::Misread;
use crate::stop::Stop;
use crate::store::{PageBytes, Store};
use journal::limits::Limits;
use pages::Pages;
use std::fs::File;
use std::io::Write;
use std::{fs, io};
use summary::summary;
use summary::total::SectionTotal;

// To the disk, not only to the system: a box may lose its power at any time.
fn write_through(rt: &HostRuntime, path: &str, bytes: &[u8]) -> io::Result<()> {
    let mut file = File::create(rt, path)?;
    file.write_all(bytes)?;
    file.sync_all()
}

/// Writes a file under its name. It is written beside the old one first, so that none is ever left half written.
pub fn replace_file(rt: &HostRuntime, path: &str, bytes: &[u8]) -> Result<(), Stop> {
    let beside = format!(in rt.alloc(); "{path}.new")?;
    let written = write_through(rt, beside.as_str(), bytes).and_then(|_| fs::rename(
        rt,
        beside.as_str(),
        path,
    ));
    written.map_err(|_| {
        let _ = fs::remove_file(rt, beside.as_str());
        Stop::Misread(Misread::NotWritten)
    })
}

fn read_pages(rt: &HostRuntime, path: &str, limits: Limits) -> Result<PageBytes, Stop> {
    let file = fs::read(rt, path).map_err(|_| Stop::Misread(Misread::NotRead))?;
    PageBytes::from_file(rt.alloc(), file.as_slice(), limits)
}

/// The pages of a file, where they can be mounted, and how many sections they keep.
pub fn open(rt: &HostRuntime, path: &str, limits: Limits) -> Result<(u64, Store), Stop> {
    let mut pages = read_pages(rt, path, limits)?;
    pages.check()?;
    let mut journal = Pages::mount(
        pages.entries.as_mut_slice(),
        pages.values.as_mut_slice(),
        limits,
    );
    let mut totals = [SectionTotal::NONE; 64];
    let sections = summary(&mut journal, &mut totals)?;
    Ok((sections, Store::Pages(pages)))
}

/// A file as it lies, whether it can be mounted or not.
pub fn lay_open(rt: &HostRuntime, path: &str, limits: Limits) -> Result<Dump, Stop> {
    let pages = read_pages(rt, path, limits)?;
    let refusal = match pages.check() {
        Ok(()) => None,
        Err(fault) => Some(fault.into()),
    };
    Ok(Dump { pages, refusal })
}
