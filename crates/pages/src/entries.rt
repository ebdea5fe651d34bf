// The entries: a page for each slot. What is read here may be any bytes: no stored number is trusted before it is compared.

ghost use Rattle.std.specs.Prelude.{◌≡◌, ◌*◌, ◌<◌, ◌≤◌, length, IfSome};
ghost use Rattle.journal.specs.Making.{checked};
ghost use Rattle.format.specs.Layout as lay;
ghost use Rattle.format.specs.Decode as decode;
ghost use Rattle.format.specs.Mount as mount;
ghost use Rattle.format.specs.State as state;

use crate::layout::Layout;
use crate::numbers::part;
use crate::page::Page;
use journal::fault::JournalFault;
use journal::slots::nearer;

/// The bytes of the entries.
#[derive(Clone, Copy)]
pub(crate) struct Entries<'a> {
    pub(crate) bytes: &'a [u8],
    pub(crate) layout: Layout,
    pub(crate) ghost long: { layout.limits.slots * lay.page_size layout.limits.rows layout.limits.width ≤ length bytes.now },
}

impl<'a> Entries<'a> {
    pub(crate) fn page(&self, slot: u64) -> Page<'a>
        requires { slot < self.now.layout.limits.slots }
        ensures page { result.bytes.now ≡ decode.page self.now.layout.limits self.now.bytes.now slot }
        ensures limits { result.layout.limits ≡ self.now.layout.limits }
    {
        let layout = self.layout;
        Page {
            bytes: part(self.bytes, layout.page_place(slot), layout.page_size()),
            layout,
        }
    }

    /// The first of the first `n` slots that a section lies in.
    pub(crate) fn find(&self, start: u64, n: u64) -> Option<u64>
        requires { n ≤ self.now.layout.limits.slots }
        ensures slot { result ≡ mount.found (mount.bears self.now.layout.limits self.now.bytes.now start) n }
        ensures within { IfSome result (λ slot. slot < n) }
    {
        (0..n).find(|slot| self.page(*slot).bears(start))
    }

    /// The first slot with no rows.
    pub(crate) fn vacant(&self) -> Option<u64>
        ensures slot { result ≡ mount.found (mount.empty_at self.now.layout.limits self.now.bytes.now) self.now.layout.limits.slots }
        ensures within { IfSome result (λ slot. slot < self.now.layout.limits.slots) }
    {
        (0..self.layout.limits.slots).find(|slot| self.page(*slot).count() == 0)
    }

    /// The first start at or above `from`, from slot to slot.
    pub(crate) fn first_from(&self, from: u64) -> Option<u64>
        ensures { result ≡ state.first_from self.now.layout.limits self.now.bytes.now from self.now.layout.limits.slots }
    {
        (0..self.layout.limits.slots).fold(None, |best, slot| {
            let page = self.page(slot);
            nearer(best, page.count(), page.start(), from)
        })
    }

    /// Whether a slot's header is right, and no lower slot has its start.
    fn is_head_good(&self, slot: u64) -> bool
        requires { slot < self.now.layout.limits.slots }
        ensures { result ≡ mount.head_good self.now.layout.limits self.now.bytes.now slot }
    {
        let page = self.page(slot);
        page.is_head_right() && self.find(page.start(), slot).is_none()
    }

    fn check_slot(&self, slot: u64) -> Result<(), JournalFault>
        requires { slot < self.now.layout.limits.slots }
        ensures { result ≡ checked (mount.slot_fault self.now.layout.limits self.now.bytes.now slot) }
    {
        let page = self.page(slot);
        if page.is_free() {
            return Ok(());
        }
        if !self.is_head_good(slot) {
            return Err(JournalFault::BadHeader { slot });
        }
        match page.bad_row() {
            Some(row) => Err(JournalFault::BadRow { slot, row }),
            None => Ok(()),
        }
    }

    /// Slot by slot, the first thing wrong with them.
    // A `for` and `?`: `try_for_each` is no plainer, and std has no lemma on what it answers.
    pub(crate) fn check(&self) -> Result<(), JournalFault>
        ensures { result ≡ checked (mount.earliest (mount.slot_fault self.now.layout.limits self.now.bytes.now) self.now.layout.limits.slots) }
    {
        for slot in 0..self.layout.limits.slots {
            self.check_slot(slot)?;
        }
        Ok(())
    }
}
