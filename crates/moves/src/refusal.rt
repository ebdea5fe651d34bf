// A refusal of the library, as the script shows it.

use journal::fault::JournalFault;
use keys::fault::{FaultParts, KeyFault};
use rules::fault::ArchiveFault;
use std::fmt;

/// The five parts, and the words.
#[derive(Drop)]
pub struct Refusal(pub ArchiveFault);

fn journal_words(fault: JournalFault) -> &'static str {
    match fault {
        JournalFault::WrongWidth => "the key's width is not the journal's",
        JournalFault::WrongSizes => "limits out of range, or a slice of another length",
        JournalFault::BadHeader { .. } => "a page's header is wrong",
        JournalFault::BadRow { .. } => "a stored row is wrong",
        JournalFault::Damaged { .. } => "the stored value is damaged",
        JournalFault::BelowFloor { .. } => "the section lies below the journal's floor",
        JournalFault::NoSlot { .. } => "no slot is free for a new section",
        JournalFault::RowsFull { .. } => "the section has all its rows",
        JournalFault::BytesFull { .. } => "the section's bytes are used up",
        JournalFault::Short { .. } => "the buffer is too short",
        JournalFault::NoRow { .. } => "no such row",
    }
}

fn words(fault: ArchiveFault) -> &'static str {
    match fault {
        ArchiveFault::SectionSize => "numbers a section outside 1 to 64",
        ArchiveFault::JournalLimits => "the journal's limits do not suit an archive",
        ArchiveFault::KeyWidth => "the key's width is not the journal's",
        ArchiveFault::WrongSection { .. } => "a row's move number is another section's",
        ArchiveFault::NotLoaded => "not loaded",
        ArchiveFault::AlreadyLoaded => "loaded already",
        ArchiveFault::ShortListing { .. } => "the buffer is too short",
        ArchiveFault::SlotTooLarge => "the slot does not fit a handle",
        ArchiveFault::PositionTooLarge => "the position does not fit a handle",
        ArchiveFault::Key(KeyFault::NotAKey { .. }) => "not a key",
        ArchiveFault::Key(KeyFault::StoredKey { .. }) => "a stored row is wrong",
        ArchiveFault::Journal(fault) => journal_words(fault),
    }
}

impl fmt::Display for Refusal {
    fn fmt<W: fmt::Write>(&self, f: &mut fmt::Formatter<W>) -> fmt::Result {
        let FaultParts {
            number,
            layer,
            section,
            position,
            amount,
        } = self.0.parts();
        let words = words(self.0);
        write!(
            f,
            "refused {number} layer {layer} section {section} position {position} amount {amount}: {words}"
        )
    }
}
