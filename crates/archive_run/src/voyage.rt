// A voyage: legs of turns over byte pages and memory rows of the same limits.

use crate::desk::Desk;
use crate::draw::Source;
use crate::model::Model;
use crate::random::Random;
use crate::rows::{Row, refill, rows_of, same_rows};
use crate::stores::Stores;
use crate::tally::{Tally, bump};
use archive::archive::Archive;
use cache::Cache;
use journal::Journal;
use journal::limits::Limits;
use keys::kind::Key;
use keys::translator::Translator;
use memory::Memory;
use pages::Pages;
use std::alloc::{AllocError, Global};

/// A journal that can be made anew over what it leaves.
pub trait Remount: Journal + Sized {
    fn remounted(self) -> Self;
}

impl Remount for Pages<'_> {
    fn remounted(self) -> Self {
        self.remount()
    }
}

/// Over which limits, with how many numbers to a section, and from which seed.
#[derive(Clone, Copy)]
pub struct Plan {
    pub slots: u64,
    pub rows: u64,
    pub bytes: u64,
    pub size: u64,
    pub seed: u64,
}

// Where the numbers of each leg begin.
const LOWS: [u64; 6] = [0, 30, 5_000, 1 << 63, u64::MAX - 300, u64::MAX - 60];

impl<T: Translator + Copy + Drop, K: Key + Copy + Drop> Desk<T, K> {
    // A leg over two journals that keep the same; answers the rows that both keep at its end.
    fn leg<J: Remount + Drop, I: Journal + Drop>(
        &mut self,
        journal: J,
        other: I,
    ) -> Result<Vec<Row>, AllocError> {
        let translator = self.translator;
        let mut archive = Archive::new(Cache::over(journal), translator);
        let mut second = Archive::new(Cache::over(other), translator);
        self.model.remount();
        self.stretch(&mut archive, &mut second, 300)?;
        // Archives made anew over the same journals, whose floors stay.
        let mut archive = Archive::new(archive.into_journal(), translator);
        let mut second = Archive::new(second.into_journal(), translator);
        self.model.renew();
        bump(&mut self.tally.renewed);
        self.stretch(&mut archive, &mut second, 150)?;
        let journal = archive.into_journal().into_below();
        let other = second.into_journal().into_below();
        self.look_back(journal.remounted(), other)
    }

    // Memory rows cannot be remounted, and remember their floor, so what follows are questions and prunes alone.
    fn look_back<J: Journal + Drop, I: Journal + Drop>(
        &mut self,
        journal: J,
        other: I,
    ) -> Result<Vec<Row>, AllocError> {
        let translator = self.translator;
        self.tally.judge(journal.floor() == 0);
        self.tally.judge(other.floor() == self.model.journal_floor);
        let mut archive = Archive::new(Cache::over(journal), translator);
        let mut second = Archive::new(Cache::over(other), translator);
        self.model.remount();
        bump(&mut self.tally.remounted);
        self.source.puts = false;
        self.stretch(&mut archive, &mut second, 60)?;
        self.source.puts = true;
        let mut journal = archive.into_journal();
        let mut other = second.into_journal();
        let rows = rows_of(self.source.heap, &mut journal)?;
        let others = rows_of(self.source.heap, &mut other)?;
        self.tally
            .judge(same_rows(rows.as_slice(), others.as_slice()));
        self.tally.judge(self.model.keeps(rows.as_slice()));
        Ok(rows)
    }

    // The bytes of the pages are those that the leg before left; memory rows begin empty, and are filled again.
    fn leg_on_both(&mut self, stores: &mut Stores, rows: Vec<Row>) -> Result<Vec<Row>, AllocError> {
        let limits = stores.limits;
        let kept = self.model.sections();
        let before = self.model.opened;
        let mut memory = Memory::start(
            stores.records.as_mut_slice(),
            stores.bytes.as_mut_slice(),
            limits,
        );
        self.tally.judge(refill(&mut memory, rows.as_slice()));
        let pages = Pages::mount(
            stores.entries.as_mut_slice(),
            stores.values.as_mut_slice(),
            limits,
        );
        let rows = self.leg(pages, memory)?;
        let opened = self.model.opened.saturating_sub(before);
        let again = kept.saturating_add(opened).saturating_sub(limits.slots);
        self.tally.opened = self.tally.opened.saturating_add(opened);
        self.tally.taken_again = self.tally.taken_again.saturating_add(again);
        Ok(rows)
    }
}

/// All legs, with a translator and keys; answers what was counted.
pub fn sail<T: Translator + Copy + Drop, K: Key + Copy + Drop>(
    heap: Global,
    plan: Plan,
    translator: T,
    keys: Vec<K>,
) -> Result<Tally, AllocError> {
    let width = K::width() as u64;
    let limits = Limits {
        slots: plan.slots,
        rows: plan.rows,
        bytes: plan.bytes,
        width,
    };
    let mut stores = Stores::new(heap, limits)?;
    let mut desk = Desk {
        source: Source {
            heap,
            random: Random::new(plan.seed),
            keys,
            size: plan.size,
            low: 0,
            recent: 0,
            puts: true,
        },
        translator,
        model: Model::new(heap, limits, width),
        tally: Tally::NONE,
    };
    let mut rows = Vec::new(heap);
    for low in LOWS {
        desk.source.low = desk.source.low.max(low);
        rows = desk.leg_on_both(&mut stores, rows)?;
    }
    Ok(desk.tally)
}
