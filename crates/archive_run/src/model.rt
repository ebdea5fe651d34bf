// The archive as a list of records in the order of their arrival, written from docs/RULES.md: every answer walks over all of
// it. It shares the types of calls and answers with the library, and the translators, which say who is a candidate.

use crate::record::{Record, Wanted};
use crate::rows::Row;
use journal::fault::JournalFault;
use journal::limits::Limits;
use journal::row::Label;
use keys::kind::Key;
use rules::answer::{Counts, Found, Place, Pruned, Put, Reply};
use rules::fault::ArchiveFault;
use std::alloc::{AllocError, Global};

pub type Answer = Result<Reply, ArchiveFault>;

/// A kept section, and how much of it is taken.
#[derive(Clone, Copy)]
struct Extent {
    rows: u64,
    cost: u64,
}

/// What the model keeps; nothing is indexed, and sections are where their records are.
#[derive(Drop)]
pub struct Model {
    pub heap: Global,
    pub limits: Limits,
    /// How many bytes each key of the kind gives.
    pub width: u64,
    pub size: Option<u64>,
    pub floor: Option<u64>,
    pub journal_floor: u64,
    pub records: Vec<Record>,
    /// How many sections were opened by a put.
    pub opened: u64,
}

// What a get answers where its buffer is too short for a record's value.
fn short(record: &Record) -> ArchiveFault {
    ArchiveFault::Journal(JournalFault::Short {
        section: record.start,
        position: record.position,
        amount: record.value.len() as u64,
    })
}

/// Lays values over the front of a slice.
pub fn lay<T: Copy>(to: &mut [T], from: &[T]) {
    for (old, new) in to.iter_mut().zip(from.iter()) {
        *old = *new;
    }
}

impl Model {
    pub fn new(heap: Global, limits: Limits, width: u64) -> Model {
        Model {
            heap,
            limits,
            width,
            size: None,
            floor: None,
            journal_floor: 0,
            records: Vec::new(heap),
            opened: 0,
        }
    }

    /// An archive made anew over the same journal.
    pub fn renew(&mut self) {
        self.size = None;
        self.floor = None;
    }

    /// A journal made anew, which has forgotten its floor.
    pub fn remount(&mut self) {
        self.renew();
        self.journal_floor = 0;
    }

    fn size(&self) -> Result<u64, ArchiveFault> {
        self.size.ok_or(ArchiveFault::NotLoaded)
    }

    /// Where the section of a number starts.
    pub fn round(&self, size: u64, number: u64) -> u64 {
        number.saturating_sub(number % size.max(1))
    }

    fn suits(&self) -> bool {
        let Limits {
            slots,
            rows,
            bytes,
            ..
        } = self.limits;
        0 < slots && slots < 17 && 0 < rows && rows < 129 && 3 < bytes && bytes < 4_097
    }

    // The first row that lies in another section than its number, by start and position.
    fn stray(&self, size: u64) -> Option<(u64, u64)> {
        let mut stray = None;
        for record in self.records.iter() {
            let place = (record.start, record.position);
            if self.round(size, record.number) != record.start
                && stray.is_none_or(|best| place < best)
            {
                stray = Some(place);
            }
        }
        stray
    }

    pub fn load(&mut self, size: u64) -> Answer {
        if self.size.is_some() {
            return Err(ArchiveFault::AlreadyLoaded);
        }
        if size == 0 || size > 64 {
            return Err(ArchiveFault::SectionSize);
        }
        if !self.suits() {
            return Err(ArchiveFault::JournalLimits);
        }
        if self.width != self.limits.width {
            return Err(ArchiveFault::KeyWidth);
        }
        if let Some((section, position)) = self.stray(size) {
            return Err(ArchiveFault::WrongSection { section, position });
        }
        self.size = Some(size);
        self.floor = None;
        Ok(Reply::Loaded {
            records: self.records.len() as u64,
        })
    }

    fn extent(&self, start: u64) -> Extent {
        let mut extent = Extent { rows: 0, cost: 0 };
        for record in self.records.iter().filter(|record| record.start == start) {
            extent.rows = extent.rows.saturating_add(1);
            extent.cost = extent.cost.saturating_add(record.cost());
        }
        extent
    }

    /// How many sections are kept: each has one row at the position 0.
    pub fn sections(&self) -> u64 {
        let mut count = 0u64;
        for record in self.records.iter() {
            count = count.saturating_add(u64::from(record.position == 0));
        }
        count
    }

    // Why the journal takes no such value in a section, if it does not.
    fn journal_fault(&self, section: u64, extent: Extent, length: u64) -> Option<JournalFault> {
        if section < self.journal_floor {
            return Some(JournalFault::BelowFloor { section });
        }
        if extent.rows == 0 && self.sections() >= self.limits.slots {
            return Some(JournalFault::NoSlot { section });
        }
        if extent.rows >= self.limits.rows {
            return Some(JournalFault::RowsFull { section });
        }
        let cost = extent.cost.saturating_add(length).saturating_add(4);
        if cost > self.limits.bytes {
            return Some(JournalFault::BytesFull { section });
        }
        None
    }

    fn store(
        &mut self,
        section: u64,
        number: u64,
        key: &[u8],
        code: u64,
        value: &[u8],
    ) -> Result<Answer, AllocError> {
        let extent = self.extent(section);
        if let Some(fault) = self.journal_fault(section, extent, value.len() as u64) {
            return Ok(Err(ArchiveFault::Journal(fault)));
        }
        let position = extent.rows;
        if position == 0 {
            self.opened = self.opened.saturating_add(1);
        }
        self.records.push(Record {
            start: section,
            position,
            number,
            key: key.to_vec(self.heap)?,
            code,
            value: value.to_vec(self.heap)?,
        })?;
        Ok(Ok(Reply::Put(Put::Stored { section, position })))
    }

    /// A put, which of several of a number takes none or `many`.
    pub fn put<K: Key>(
        &mut self,
        label: Label,
        key: &K,
        code: u64,
        value: &[u8],
        many: bool,
    ) -> Result<Answer, AllocError> {
        let Some(size) = self.size else {
            return Ok(Err(ArchiveFault::NotLoaded));
        };
        let number = label.number;
        if self.floor.is_some_and(|floor| number < floor) {
            return Ok(Ok(Reply::Put(Put::BelowFloor)));
        }
        if !many && self.has(Wanted::Number(number)) {
            return Ok(Ok(Reply::Put(Put::AlreadyThere)));
        }
        let section = self.round(size, number);
        self.store(section, number, key.as_bytes(), code, value)
    }

    // How many different numbers there are below a minimum, or in all: a number counts at its first record.
    fn numbers_below(&self, min: Option<u64>) -> u64 {
        let mut count = 0u64;
        for record in self.records.iter() {
            let first = self.first(Wanted::Number(record.number));
            let is_first = first.is_some_and(|first| first.place() == record.place());
            if is_first && min.is_none_or(|min| record.start < min) {
                count = count.saturating_add(1);
            }
        }
        count
    }

    pub fn prune(&mut self, min: u64) -> Answer {
        let start = self.round(self.size()?, min);
        if self.floor.is_some_and(|floor| floor >= start) {
            return Ok(Reply::Pruned(Pruned::Unchanged));
        }
        let numbers = self.numbers_below(Some(start));
        let before = self.records.len() as u64;
        self.records.retain(|record| record.start >= start);
        self.floor = Some(start);
        self.journal_floor = self.journal_floor.max(start);
        Ok(Reply::Pruned(Pruned::Struck {
            numbers,
            records: before.saturating_sub(self.records.len() as u64),
        }))
    }

    // The record that arrived first of those that are wanted.
    fn first(&self, wanted: Wanted<'_>) -> Option<&Record> {
        self.records.iter().find(|record| record.bears(wanted))
    }

    pub fn has(&self, wanted: Wanted<'_>) -> bool {
        self.first(wanted).is_some()
    }

    // Of those that are wanted the one at a start and a position, or else the first: which one is open, where several bear a key.
    fn pick(&self, wanted: Wanted<'_>, hint: Option<(u64, u64)>) -> Option<&Record> {
        let hinted = self.records.iter().find(|record| {
            record.bears(wanted) && hint == Some((record.start, record.position))
        });
        match hinted {
            Some(record) => Some(record),
            None => self.first(wanted),
        }
    }

    pub fn get(&self, wanted: Wanted<'_>, hint: Option<(u64, u64)>, bytes: &mut [u8]) -> Answer {
        self.size()?;
        let Some(record) = self.pick(wanted, hint) else {
            return Ok(Reply::Found(None));
        };
        if bytes.len() < record.value.len() {
            return Err(short(record));
        }
        lay(bytes, record.value.as_slice());
        Ok(Reply::Found(Some(Found {
            place: record.place(),
            length: record.value.len() as u64,
        })))
    }

    pub fn ask(&self, wanted: Wanted<'_>) -> Answer {
        self.size()?;
        Ok(Reply::Has(self.has(wanted)))
    }

    pub fn counts(&self) -> Answer {
        self.size()?;
        Ok(Reply::Counted(Counts {
            records: self.records.len() as u64,
            numbers: self.numbers_below(None),
            floor: self.floor,
        }))
    }

    /// Whether rows, by rising start and position, are just the records.
    pub fn keeps(&self, rows: &[Row]) -> bool {
        rows.len() == self.records.len()
            && self.records.iter().all(|record| {
                let mut section = rows.iter().filter(|row| row.start == record.start);
                section
                    .nth(record.position as usize)
                    .is_some_and(|row| record.equals(row))
            })
    }

    /// The places of the records that are wanted, by number and then by position.
    pub fn places(&self, wanted: Wanted<'_>) -> Result<Vec<Place>, AllocError> {
        let mut places = Vec::new(self.heap);
        for record in self.records.iter() {
            if record.bears(wanted) {
                places.push(record.place())?;
            }
        }
        places.sort_unstable();
        Ok(places)
    }
}
