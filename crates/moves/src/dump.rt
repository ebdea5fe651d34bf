// A file of pages, laid open: what lies in each slot and row, right or wrong.

use crate::refusal::Refusal;
use crate::store::PageBytes;
use pages::look::{Look, RowSeen, SlotSeen};
use rules::fault::ArchiveFault;
use std::fmt;

#[derive(Drop)]
pub struct Dump {
    pub pages: PageBytes,
    /// Why a mounting refuses them, if it does.
    pub refusal: Option<ArchiveFault>,
}

fn right_or_wrong(right: bool) -> &'static str {
    if right { "right" } else { "wrong" }
}

fn show_slot<W: fmt::Write>(slot: u64, seen: SlotSeen, f: &mut fmt::Formatter<W>) -> fmt::Result {
    match seen {
        SlotSeen::Free => write!(f, "\n  slot {slot}: free"),
        SlotSeen::Used {
            start,
            rows,
            is_right,
        } => {
            let check = right_or_wrong(is_right);
            write!(
                f,
                "\n  slot {slot}: start {start} rows {rows} check {check}"
            )
        }
    }
}

fn show_row<W: fmt::Write>(
    slot: u64,
    row: u64,
    seen: RowSeen,
    f: &mut fmt::Formatter<W>,
) -> fmt::Result {
    let RowSeen {
        number,
        offset,
        length,
        is_right,
        is_sound,
    } = seen;
    let check = right_or_wrong(is_right);
    let value = if is_sound { "sound" } else { "damaged" };
    write!(
        f,
        "\n  slot {slot} row {row}: number {number} offset {offset} length {length} check {check} value {value}"
    )
}

// The rows of a slot, as far as its page has them.
fn show_rows<W: fmt::Write>(
    look: &Look,
    slot: u64,
    rows: u64,
    f: &mut fmt::Formatter<W>,
) -> fmt::Result {
    for row in 0..rows {
        let Some(seen) = look.row(slot, row) else {
            return Ok(());
        };
        show_row(slot, row, seen, f)?;
    }
    Ok(())
}

impl Dump {
    // The slots, as far as their pages lie in the file.
    fn show_slots<W: fmt::Write>(&self, f: &mut fmt::Formatter<W>) -> fmt::Result {
        let PageBytes {
            entries,
            values,
            limits,
        } = &self.pages;
        let Some(look) = Look::new(entries.as_slice(), values.as_slice(), *limits) else {
            return Ok(());
        };
        for slot in 0..limits.slots {
            let Some(seen) = look.slot(slot) else {
                return Ok(());
            };
            show_slot(slot, seen, f)?;
            show_rows(&look, slot, limits.rows, f)?;
        }
        Ok(())
    }
}

impl fmt::Display for Dump {
    fn fmt<W: fmt::Write>(&self, f: &mut fmt::Formatter<W>) -> fmt::Result {
        let size = self
            .pages
            .entries
            .len()
            .saturating_add(self.pages.values.len());
        write!(f, "dump {size} bytes: ")?;
        match self.refusal {
            Some(fault) => {
                let refusal = Refusal(fault);
                write!(f, "{refusal}")?;
            }
            None => f.write_str("can be mounted")?,
        }
        self.show_slots(f)
    }
}
