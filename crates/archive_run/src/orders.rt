// Short histories in which a call has several reasons to be refused: which one it names.

use crate::stores::Stores;
use archive::archive::Archive;
use cache::Cache;
use journal::Journal;
use journal::limits::Limits;
use journal::row::Label;
use keys::box_number::BoxNumber;
use keys::kind::Key;
use keys::translator::Leading;
use memory::Memory;
use pages::Pages;
use rules::answer::{Place, Put};
use rules::fault::ArchiveFault;
use std::alloc::{AllocError, Global};
use std::fmt;

/// What came of the last call of a history.
#[derive(Clone, Copy, PartialEq, Eq)]
pub enum Outcome {
    Accepted,
    BelowFloor,
    AlreadyThere,
    Refused(u64),
}

impl fmt::Display for Outcome {
    fn fmt<W: fmt::Write>(&self, f: &mut fmt::Formatter<W>) -> fmt::Result {
        match *self {
            Outcome::Accepted => f.write_str("accepted"),
            Outcome::BelowFloor => f.write_str("below the floor"),
            Outcome::AlreadyThere => f.write_str("already there"),
            Outcome::Refused(number) => write!(f, "refused with {number}"),
        }
    }
}

#[derive(Clone, Copy, PartialEq, Eq)]
pub enum History {
    LoadTwice,
    LoadOfNoneOverManySlots,
    LoadOverManySlotsAndOtherWidth,
    LoadOverOtherWidthAndNoKey,
    LoadOfNoKeyAstray,
    LoadOfStrayBeforeNoKey,
    GetBeforeLoad,
    ListBeforeLoad,
    PutBelowFloorOfNumberThatWent,
    PutOfNumberThereInFullSection,
    PutBelowJournalFloorWithoutSlot,
    PutOfLongValueWithoutSlot,
    PutOfLongValueInFullSection,
    LoadOverDamaged,
    GetOfDamaged,
    ShortGetOfDamaged,
    ShortGetByKeyOfDamaged,
    ShortGetByPlaceOfDamaged,
}

pub const ALL: [History; 18] = [
    History::LoadTwice,
    History::LoadOfNoneOverManySlots,
    History::LoadOverManySlotsAndOtherWidth,
    History::LoadOverOtherWidthAndNoKey,
    History::LoadOfNoKeyAstray,
    History::LoadOfStrayBeforeNoKey,
    History::GetBeforeLoad,
    History::ListBeforeLoad,
    History::PutBelowFloorOfNumberThatWent,
    History::PutOfNumberThereInFullSection,
    History::PutBelowJournalFloorWithoutSlot,
    History::PutOfLongValueWithoutSlot,
    History::PutOfLongValueInFullSection,
    History::LoadOverDamaged,
    History::GetOfDamaged,
    History::ShortGetOfDamaged,
    History::ShortGetByKeyOfDamaged,
    History::ShortGetByPlaceOfDamaged,
];

const GOOD: &[u8; 11] = b"AAAU0000007";

const BAD: &[u8; 11] = b"AAAU0000008";

fn come_of<T: Drop>(answer: Result<T, ArchiveFault>) -> Outcome {
    match answer {
        Ok(_) => Outcome::Accepted,
        Err(fault) => Outcome::Refused(fault.parts().number),
    }
}

fn put_outcome(answer: Result<Put, ArchiveFault>) -> Outcome {
    match answer {
        Ok(Put::BelowFloor) => Outcome::BelowFloor,
        Ok(Put::AlreadyThere) => Outcome::AlreadyThere,
        answer => come_of(answer),
    }
}

type Boxes<J> = Archive<Cache<J>, Leading, BoxNumber>;

fn put<J: Journal>(archive: &mut Boxes<J>, number: u64, value: &[u8]) -> Outcome {
    put_outcome(archive.put(Label { number }, &BoxNumber::first(), value))
}

fn put_multi<J: Journal>(archive: &mut Boxes<J>, number: u64, value: &[u8]) -> Outcome {
    put_outcome(archive.put_multi(Label { number }, &BoxNumber::first(), value))
}

// Takes every slot, from section 20 on, by tens.
fn fill_slots<J: Journal>(archive: &mut Boxes<J>) {
    for number in [20, 30, 40, 50] {
        let _ = put(archive, number, b"");
    }
}

fn append<J: Journal>(journal: &mut J, start: u64, number: u64, key: &[u8]) {
    let _ = journal.append(start, Label { number }, key, b"abc");
}

impl History {
    pub fn name(self) -> &'static str {
        match self {
            History::LoadTwice => "a second load, of 0 numbers a section",
            History::LoadOfNoneOverManySlots => "a load of 0 numbers over 17 slots",
            History::LoadOverManySlotsAndOtherWidth => "a load over 17 slots of another width",
            History::LoadOverOtherWidthAndNoKey => "a load over another width, a row no key",
            History::LoadOfNoKeyAstray => "a load of a row that is no key and astray",
            History::LoadOfStrayBeforeNoKey => "a load of a row astray, a later one no key",
            History::GetBeforeLoad => "a short get before a load",
            History::ListBeforeLoad => "a short listing before a load",
            History::PutBelowFloorOfNumberThatWent => {
                "a put below the floor, of a number that went, all slots taken"
            }
            History::PutOfNumberThereInFullSection => {
                "a put of a number that is there, its section full"
            }
            History::PutBelowJournalFloorWithoutSlot => {
                "a put below the journal's floor alone, all slots taken"
            }
            History::PutOfLongValueWithoutSlot => "a put of a long value, all slots taken",
            History::PutOfLongValueInFullSection => "a put of a long value, its section full",
            History::LoadOverDamaged => "a load over a damaged value",
            History::GetOfDamaged => "a get of a damaged value",
            History::ShortGetOfDamaged => "a short get of a damaged value, by number",
            History::ShortGetByKeyOfDamaged => "a short get of a damaged value, by key",
            History::ShortGetByPlaceOfDamaged => "a short get of a damaged value, by place",
        }
    }

    /// What has to come of it.
    pub fn due(self) -> Outcome {
        match self {
            History::LoadTwice => Outcome::Refused(10),
            History::LoadOfNoneOverManySlots => Outcome::Refused(1),
            History::LoadOverManySlotsAndOtherWidth => Outcome::Refused(2),
            History::LoadOverOtherWidthAndNoKey => Outcome::Refused(3),
            History::LoadOfNoKeyAstray => Outcome::Refused(6),
            History::LoadOfStrayBeforeNoKey => Outcome::Refused(8),
            History::GetBeforeLoad | History::ListBeforeLoad => Outcome::Refused(9),
            History::PutBelowFloorOfNumberThatWent => Outcome::BelowFloor,
            History::PutOfNumberThereInFullSection => Outcome::AlreadyThere,
            History::PutBelowJournalFloorWithoutSlot => Outcome::Refused(11),
            History::PutOfLongValueWithoutSlot => Outcome::Refused(12),
            History::PutOfLongValueInFullSection => Outcome::Refused(13),
            History::LoadOverDamaged => Outcome::Accepted,
            History::GetOfDamaged => Outcome::Refused(7),
            History::ShortGetOfDamaged
            | History::ShortGetByKeyOfDamaged
            | History::ShortGetByPlaceOfDamaged => Outcome::Refused(15),
        }
    }

    fn limits(self) -> Limits {
        let many = self == History::LoadOfNoneOverManySlots
            || self == History::LoadOverManySlotsAndOtherWidth;
        let other = self == History::LoadOverManySlotsAndOtherWidth
            || self == History::LoadOverOtherWidthAndNoKey;
        Limits {
            slots: if many { 17 } else { 4 },
            rows: 3,
            bytes: 24,
            width: if other { 10 } else { 11 },
        }
    }

    /// Whether it needs a value that was damaged where it lies, which memory rows never have.
    pub fn is_damaged(self) -> bool {
        matches!(
            self,
            History::LoadOverDamaged
                | History::GetOfDamaged
                | History::ShortGetOfDamaged
                | History::ShortGetByKeyOfDamaged
                | History::ShortGetByPlaceOfDamaged
        )
    }

    // The rows that the journal has before there is an archive.
    fn fill<J: Journal>(self, journal: &mut J) {
        match self {
            History::LoadOverOtherWidthAndNoKey => append(journal, 0, 3, b"0123456789"),
            History::LoadOfNoKeyAstray => append(journal, 10, 3, BAD),
            History::LoadOfStrayBeforeNoKey => {
                append(journal, 0, 13, GOOD);
                append(journal, 10, 13, BAD);
            }
            History::PutBelowJournalFloorWithoutSlot => {
                for start in [20, 30, 40, 50] {
                    append(journal, start, start, GOOD);
                }
            }
            _ => append(journal, 0, 3, GOOD),
        }
    }

    fn load<J: Journal>(self, archive: &mut Boxes<J>) -> Outcome {
        match self {
            History::LoadTwice => {
                let _ = archive.load(10);
                come_of(archive.load(0))
            }
            History::LoadOfNoneOverManySlots => come_of(archive.load(0)),
            _ => come_of(archive.load(10)),
        }
    }

    fn put<J: Journal>(self, archive: &mut Boxes<J>) -> Outcome {
        let _ = archive.load(10);
        let long = [7; 24];
        match self {
            History::PutBelowFloorOfNumberThatWent => {
                let _ = archive.prune(25);
                fill_slots(archive);
                put(archive, 3, b"")
            }
            History::PutOfNumberThereInFullSection => {
                let _ = put_multi(archive, 4, b"");
                let _ = put_multi(archive, 4, b"");
                put(archive, 3, b"")
            }
            History::PutBelowJournalFloorWithoutSlot => put(archive, 5, b""),
            History::PutOfLongValueWithoutSlot => {
                fill_slots(archive);
                put(archive, 60, &long)
            }
            _ => {
                let _ = put_multi(archive, 4, b"");
                let _ = put_multi(archive, 4, b"");
                put(archive, 5, &long)
            }
        }
    }

    fn get<J: Journal>(self, archive: &mut Boxes<J>) -> Outcome {
        if self != History::GetBeforeLoad && self != History::ListBeforeLoad {
            let _ = archive.load(10);
        }
        let mut buffer = [0; 3];
        let place = Place {
            number: 3,
            position: 0,
        };
        match self {
            History::ListBeforeLoad => come_of(archive.list_index(3, &mut [])),
            History::GetOfDamaged => come_of(archive.get_index(3, &mut buffer)),
            History::ShortGetByKeyOfDamaged => {
                come_of(archive.get_key(&BoxNumber::first(), &mut buffer[..2]))
            }
            History::ShortGetByPlaceOfDamaged => come_of(archive.get_at(place, &mut buffer[..2])),
            _ => come_of(archive.get_index(3, &mut buffer[..2])),
        }
    }

    // Whether its last call is a load, a put, or one that reads.
    fn play<J: Journal + Drop>(self, mut journal: J) -> Outcome {
        if self == History::PutBelowJournalFloorWithoutSlot {
            journal.prune(20);
        }
        let mut archive: Boxes<J> = Archive::new(Cache::over(journal), Leading::Four);
        match self {
            History::LoadTwice
            | History::LoadOfNoneOverManySlots
            | History::LoadOverManySlotsAndOtherWidth
            | History::LoadOverOtherWidthAndNoKey
            | History::LoadOfNoKeyAstray
            | History::LoadOfStrayBeforeNoKey
            | History::LoadOverDamaged => self.load(&mut archive),
            History::PutBelowFloorOfNumberThatWent
            | History::PutOfNumberThereInFullSection
            | History::PutBelowJournalFloorWithoutSlot
            | History::PutOfLongValueWithoutSlot
            | History::PutOfLongValueInFullSection => self.put(&mut archive),
            _ => self.get(&mut archive),
        }
    }

    /// Over byte pages. The first byte of the values is one of the first row's value.
    pub fn on_pages(self, heap: Global) -> Result<Outcome, AllocError> {
        let limits = self.limits();
        let mut stores = Stores::new(heap, limits)?;
        let mut pages = Pages::mount(
            stores.entries.as_mut_slice(),
            stores.values.as_mut_slice(),
            limits,
        );
        self.fill(&mut pages);
        if self.is_damaged() {
            if let Some(byte) = stores.values.get_mut(0) {
                *byte ^= 1;
            }
        }
        let pages = Pages::mount(
            stores.entries.as_mut_slice(),
            stores.values.as_mut_slice(),
            limits,
        );
        Ok(self.play(pages))
    }

    /// Over memory rows.
    pub fn in_memory(self, heap: Global) -> Result<Outcome, AllocError> {
        let limits = self.limits();
        let mut stores = Stores::new(heap, limits)?;
        let mut memory = Memory::start(
            stores.records.as_mut_slice(),
            stores.bytes.as_mut_slice(),
            limits,
        );
        self.fill(&mut memory);
        Ok(self.play(memory))
    }
}
