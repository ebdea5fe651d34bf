// Byte pages as they lie, and what is written to them.

ghost use Rattle.std.specs.Prelude.{◌≡◌, ◌+◌, ◌*◌, ◌^◌, ◌<◌, ◌≤◌, length};
ghost use Rattle.journal.specs.Bytes.{chunk, put};
ghost use Rattle.journal.specs.Meaning.{cost_of};
ghost use Rattle.format.specs.Layout as lay;
ghost use Rattle.format.specs.Decode as decode;
ghost use Rattle.format.specs.State.{stored, count_in, used_in, freed, gone_below, pruned_by};
ghost use Rattle.format.specs.State as state;

use crate::entries::Entries;
use crate::layout::{HEAD_SIZE, Layout};
use crate::numbers::{part, write};
use crate::page::write_head;
use crate::row::write_row;
use crate::value::{SEAL_SIZE, write_value};
use journal::row::{CHECK_SIZE, Label};
use journal::slots::below;

/// Two slices of bytes, as the format has them, long enough for all slots: all that a write keeps, whatever it writes.
#[derive(Drop)]
pub(crate) struct Raw<'a> {
    pub(crate) entries: &'a mut [u8],
    pub(crate) values: &'a mut [u8],
    pub(crate) layout: Layout,
    /// Not stored in the bytes: a mounting begins with 0.
    pub(crate) floor: u64,
    pub(crate) ghost pages_fit: { layout.limits.slots * lay.page_size layout.limits.rows layout.limits.width ≤ length entries.now },
    pub(crate) ghost values_fit: { layout.limits.slots * layout.limits.bytes ≤ length values.now },
}

impl<'a> Raw<'a> {
    ghost use Rattle.pages.specs.Raws.{view};

    pub(crate) fn pages(&self) -> Entries<'_>
        ensures bytes { result.bytes.now ≡ self.now.entries.now }
        ensures limits { result.layout.limits ≡ self.now.layout.limits }
    {
        Entries {
            bytes: self.entries,
            layout: self.layout,
        }
    }

    /// The bytes at an offset of a slot's values.
    pub(crate) fn stored(&self, slot: u64, offset: u64, size: u64) -> &[u8]
        requires slot { slot < self.now.layout.limits.slots }
        requires room { offset + size ≤ self.now.layout.limits.bytes }
        ensures stored { result.now ≡ chunk (decode.vals self.now.layout.limits self.now.values.now slot) offset size }
        ensures long { length result.now ≡ size }
    {
        let at = self.layout.values_place(slot) + offset as usize;
        part(self.values, at, size as usize)
    }

    fn set_value(&mut self, slot: u64, offset: u64, value: &[u8])
        requires slot { slot < self.old.layout.limits.slots }
        requires room { offset + cost_of (length value.now) ≤ self.old.layout.limits.bytes }
        ensures { view self.new ≡ record (view self.old) { values = put self.old.values.now (decode.vals_place self.old.layout.limits slot + offset) (lay.value_bytes value.now) } }
    {
        let at = self.layout.values_place(slot) + offset as usize;
        let size = value.len() + SEAL_SIZE;
        write_value(&mut self.values[at..at + size], value);
    }

    fn set_row(&mut self, slot: u64, row: u64, label: Label, key: &[u8], offset: u64, size: u64)
        requires slot { slot < self.old.layout.limits.slots }
        requires row { row < self.old.layout.limits.rows }
        requires key { length key.now ≡ self.old.layout.limits.width }
        requires size { size < 2 ^ 32 }
        ensures { view self.new ≡ record (view self.old) { entries = put self.old.entries.now (decode.page_place self.old.layout.limits slot + lay.row_place self.old.layout.limits.width row) (lay.row_bytes label key.now offset size) } }
    {
        let layout = self.layout;
        let at = layout.page_place(slot) + layout.row_place(row);
        let place = &mut self.entries[at..at + layout.row_size()];
        write_row(place, layout, label, key, offset, size);
    }

    pub(crate) fn set_head(&mut self, slot: u64, start: u64, count: u64)
        requires slot { slot < self.old.layout.limits.slots }
        requires count { count < 2 ^ 32 }
        ensures { view self.new ≡ record (view self.old) { entries = put self.old.entries.now (decode.page_place self.old.layout.limits slot) (lay.head_bytes start count) } }
    {
        let at = self.layout.page_place(slot);
        write_head(&mut self.entries[at..at + HEAD_SIZE], start, count);
    }

    fn free_page(&mut self, slot: u64)
        requires { slot < self.old.layout.limits.slots }
        ensures { view self.new ≡ record (view self.old) { entries = put self.old.entries.now (decode.page_place self.old.layout.limits slot) lay.free_head } }
    {
        let at = self.layout.page_place(slot);
        write(self.entries, at, &[0; HEAD_SIZE]);
    }

    /// One row more in a slot that has room: its row, its header and its value, and no other byte.
    pub(crate) fn store(
        &mut self,
        slot: u64,
        count: u64,
        used: u64,
        start: u64,
        label: Label,
        key: &[u8],
        value: &[u8],
    )
        requires slot { slot < self.old.layout.limits.slots }
        requires count { count ≡ count_in (view self.old) slot }
        requires used { used ≡ used_in (view self.old) slot }
        requires row { count < self.old.layout.limits.rows }
        requires room { used + cost_of (length value.now) ≤ self.old.layout.limits.bytes }
        requires key { length key.now ≡ self.old.layout.limits.width }
        ensures { view self.new ≡ stored (view self.old) slot start label key.now value.now }
    {
        let size = value.len() as u64 + CHECK_SIZE;
        self.set_value(slot, used, value);
        self.set_row(slot, count, label, key, used, size);
        self.set_head(slot, start, count + 1);
    }

    /// Frees a slot whose section starts below `min`, and tells whether it did, which is the answer and no refusal.
    fn free_below(&mut self, slot: u64, min: u64) -> bool
        requires { slot < self.old.layout.limits.slots }
        ensures answer { result ≡ state.below self.old.layout.limits self.old.entries.now min slot }
        ensures after { view self.new ≡ record (view self.old) { entries = freed (state.below self.old.layout.limits self.old.entries.now min slot) self.old.layout.limits self.old.entries.now slot } }
    {
        let page = self.pages().page(slot);
        let goes = below(page.count(), page.start(), min);
        if goes {
            self.free_page(slot);
        }
        goes
    }

    /// Frees each slot whose section starts below `min`, raises the floor to it, and tells whether one went.
    // A `for`, since each step writes: no chain is proved through a closure that changes what it captures.
    pub(crate) fn prune(&mut self, min: u64) -> bool
        ensures answer { result ≡ gone_below self.old.layout.limits self.old.entries.now min self.old.layout.limits.slots }
        ensures after { view self.new ≡ pruned_by (view self.old) min }
    {
        let mut gone = false;
        for slot in 0..self.layout.limits.slots {
            gone |= self.free_below(slot, min);
        }
        self.floor = self.floor.max(min);
        gone
    }
}
