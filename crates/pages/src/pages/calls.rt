// How byte pages are mounted, what they answer, and which bytes they leave.

ghost use Rattle.std.specs.Prelude.{◌≡◌};
ghost use Rattle.journal.specs.Making.{checked, made};
ghost use Rattle.journal.specs.Promises.{Appends, ReadsEntry, ReadsValue, Prunes};
ghost use Rattle.format.specs.Mount.{mount_fault};
ghost use Rattle.format.specs.State.{decoded, mounted, remounted, unfloored, Lasts, Leaves, pruned_by};
ghost use Rattle.pages.specs.Journals.{bytes_of, means, Fits};
ghost use Rattle.pages.specs.Lengths.{sizes_of};

use super::Pages;
use crate::check::{accepted, granted};
use crate::layout::Layout;
use crate::numbers::write;
use crate::raw::Raw;
use crate::sizes::Sizes;
use crate::value::copy_value;
use journal::Journal;
use journal::fault::JournalFault;
use journal::limits::Limits;
use journal::row::{CHECK_SIZE, Entry, Label};

impl<'a> Pages<'a> {
    /// How long the slices are that byte pages of these limits lie in; none where no journal may have them.
    pub fn sizes(limits: Limits) -> Option<Sizes>
        ensures { result ≡ sizes_of limits }
    {
        let layout = Layout::new(limits)?;
        Some(Sizes {
            entries: layout.entries_size(),
            values: layout.values_size(),
        })
    }

    /// Whether these bytes can be mounted, and if not, the first thing wrong with them.
    pub fn check(entries: &[u8], values: &[u8], limits: Limits) -> Result<(), JournalFault>
        ensures { result ≡ checked (mount_fault limits entries.now values.now) }
    {
        accepted(entries, values, limits).map(|_| ())
    }

    /// The journal that these bytes hold, its floor 0; of limits 0 where the check refuses. No byte is touched.
    // No `Result`, by rule: what was checked is not refused. A making beside it that answers one was tried, and Rattle covers no
    // type argument with a `&mut` and a ghost field.
    pub fn mount(entries: &'a mut [u8], values: &'a mut [u8], limits: Limits) -> Pages<'a>
        ensures fit { Fits tt result }
        ensures meaning { means result ≡ made (mount_fault limits entries.old values.old) (decoded limits entries.old values.old) }
        ensures bytes { bytes_of result ≡ mounted limits entries.old values.old }
    {
        let layout = granted(entries, values, limits);
        Pages {
            raw: Raw {
                entries,
                values,
                layout,
                floor: 0,
            },
        }
    }

    /// The journal made anew over the bytes that this one leaves. They are accepted, and nothing but the floor changes.
    pub fn remount(self) -> Pages<'a>
        ensures fit { Fits tt result }
        ensures meaning { means result ≡ unfloored (means self.entry) }
        ensures bytes { bytes_of result ≡ remounted (bytes_of self.entry) }
    {
        let Pages { raw } = self;
        let Raw {
            entries,
            values,
            layout,
            ..
        } = raw;
        Pages::mount(entries, values, layout.limits)
    }

    /// The bytes of the entries, for whoever saves them: with those of the values they mount again, in any slices, to this
    /// journal with its floor 0.
    pub fn entries(&self) -> &[u8]
        ensures bytes { result.now ≡ (bytes_of self.now).entries }
        ensures lasts { Lasts (bytes_of self.now) }
    {
        self.raw.entries
    }

    /// The bytes of the values, for whoever saves them.
    pub fn values(&self) -> &[u8]
        ensures { result.now ≡ (bytes_of self.now).values }
    {
        self.raw.values
    }
}

impl<'a> Journal for Pages<'a> {
    ghost meaning = { means };

    ghost past = { Unit {0} };

    ghost fits = { Fits };

    fn limits(&self) -> Limits {
        self.raw.layout.limits
    }

    fn floor(&self) -> u64 {
        self.raw.floor
    }

    fn first_start(&self, from: u64) -> Option<u64> {
        self.raw.pages().first_from(from)
    }

    // A `match`, for the reason at `slot_for`: `map_or` was tried.
    fn row_count(&self, start: u64) -> u64 {
        match self.slot_of(start) {
            Some(slot) => self.count_at(slot),
            None => 0,
        }
    }

    fn append(
        &mut self,
        start: u64,
        label: Label,
        key: &[u8],
        value: &[u8],
    ) -> Result<u64, JournalFault>
        ensures promise { Appends Fits means self.old self.new start label key.now value.now result }
        ensures bytes { Leaves (bytes_of self.old) (bytes_of self.new) start label key.now value.now result }
    {
        if key.len() != self.raw.layout.width() {
            return Err(JournalFault::WrongWidth);
        }
        if start < self.raw.floor {
            return Err(JournalFault::BelowFloor { section: start });
        }
        let slot = self.slot_for(start)?;
        self.push(slot, start, label, key, value)
    }

    fn read_entry(
        &mut self,
        start: u64,
        position: u64,
        key: &mut [u8],
    ) -> Result<Entry, JournalFault>
        ensures promise { ReadsEntry Fits means self.old self.new start position key.old key.new result }
        ensures bytes { bytes_of self.new ≡ bytes_of self.old }
    {
        let slot = self.locate(start, position)?;
        let width = self.raw.layout.width();
        if key.len() < width {
            return Err(JournalFault::Short {
                section: start,
                position,
                amount: width as u64,
            });
        }
        let row = self.row(slot, position);
        write(key, 0, row.key());
        Ok(Entry {
            label: row.label(),
            length: row.size() - CHECK_SIZE,
        })
    }

    fn read_value(
        &mut self,
        start: u64,
        position: u64,
        value: &mut [u8],
    ) -> Result<u64, JournalFault>
        ensures promise { ReadsValue Fits means self.old self.new start position value.old value.new result }
        ensures bytes { bytes_of self.new ≡ bytes_of self.old }
    {
        let slot = self.locate(start, position)?;
        let row = self.row(slot, position);
        let offset = row.offset();
        let size = row.size();
        copy_value(self.raw.stored(slot, offset, size), start, position, value)
    }

    fn prune(&mut self, min: u64) -> bool
        ensures promise { Prunes Fits means self.old self.new min result }
        ensures bytes { bytes_of self.new ≡ pruned_by (bytes_of self.old) min }
    {
        self.raw.prune(min)
    }
}
