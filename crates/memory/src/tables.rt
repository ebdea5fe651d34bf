// Memory rows: the tables as they lie, and what is done on them.

ghost use Rattle.std.specs.Prelude.{◌≡◌, ◌+◌, ◌*◌, ◌≤◌, ◌++◌, map, drop, length, None, MatchOption, MatchResult, nat_le};
ghost use Rattle.std.specs.List.{list_any};
ghost use Rattle.journal.specs.Bytes.{chunk, put};
ghost use Rattle.journal.specs.Meaning.{cost_of, row_at};
ghost use Rattle.journal.specs.Calls.{entry_read, entry_buffer, value_read, value_buffer};
ghost use Rattle.journal.specs.Making.{checked, empty};
ghost use Rattle.journal.specs.Slots.{goes};
ghost use Rattle.memory_layout.specs.View.{Small, Stores, Holds, Nowhere, Vacant, AllTaken, Lies, Goes, room_fault, meaning_of, pruned_head};

mod calls;

use journal::fault::JournalFault;
use journal::limits::Limits;
use journal::row::{CHECK_SIZE, Entry, Label};
use journal::slots::{below, has_room};
use memory_layout::head::Head;
use memory_layout::record::RowRecord;
use std::marker::Model;

/// A journal in two lent slices, one of records and one of the bytes that they tell of. Which row lies where is its own affair.
#[derive(Drop)]
pub struct Memory<'a> {
    records: &'a mut [RowRecord],
    bytes: &'a mut [u8],
    /// The first `slots` are in use: a limit that is set once and no length that grows, so an array in fixed memory.
    heads: [Head; 64],
    slots: usize,
    rows: usize,
    limit: usize,
    width: usize,
    /// The bytes of one slot. Kept, so that no place is reckoned by a product of three.
    area: usize,
    floor: u64,
}

impl<'a> Model for Memory<'a> {
    ghost use Rattle.memory_layout.specs.View.{View, Well};

    ghost Value = { View };

    ghost use Rattle.memory.specs.Tables.{tables_of};

    ghost view = { tables_of };

    ghost invariant = { λ m. Well (tables_of m) };
}

impl<'a> Memory<'a> {
    // Empty tables over slices of the right lengths.
    fn fresh(records: &'a mut [RowRecord], bytes: &'a mut [u8], limits: Limits) -> Memory<'a>
        requires small { Small limits }
        requires places { length records.old ≡ limits.slots * limits.rows }
        requires room { length bytes.old ≡ limits.slots * (limits.rows * limits.width + limits.bytes) }
        ensures { meaning_of result ≡ empty limits }
    {
        let slots = limits.slots as usize;
        let rows = limits.rows as usize;
        let limit = limits.bytes as usize;
        let width = limits.width as usize;
        Memory {
            records,
            bytes,
            heads: [Head::FREE; 64],
            slots,
            rows,
            limit,
            width,
            area: rows * width + limit,
            floor: 0,
        }
    }

    // The slot that a section lies in.
    fn find(&self, start: u64) -> Option<usize>
        ensures { MatchOption result (Nowhere self.now start) (λ t. Holds self.now t start) }
    {
        self.heads[..self.slots]
            .iter()
            .position(|head| head.count > 0 && head.start == start)
    }

    // A free slot.
    fn vacant(&self) -> Option<usize>
        ensures { MatchOption result (AllTaken self.now) (λ t. Vacant self.now t) }
    {
        self.heads[..self.slots]
            .iter()
            .position(|head| head.count == 0)
    }

    // A row of the section `start` to the slot where it goes, where there is room. Label, key and value are handed on as the
    // journal's own call has them.
    fn push(
        &mut self,
        slot: usize,
        start: u64,
        label: Label,
        key: &[u8],
        value: &[u8],
    ) -> Result<u64, JournalFault>
        requires { Goes self.old slot start key.now }
        ensures { Stores self.old self.new start label key.now value.now result }
    {
        let (rows, limit, length) = (self.rows, self.limit, value.len());
        let head = self.heads[slot];
        check_room(head, length, rows, limit, start)?;
        let Head { count, cost, .. } = head;
        let at = slot * self.area + count * self.width + cost;
        write(self.bytes, at, key);
        write(self.bytes, at + self.width, value);
        self.records[slot * rows + count] = RowRecord { label, at, length };
        self.heads[slot] = Head {
            start,
            count: count + 1,
            cost: cost + (length + CHECK_SIZE as usize),
        };
        Ok(count as u64)
    }

    // The record of the row at a place.
    fn row_at(&self, start: u64, position: u64) -> Result<RowRecord, JournalFault>
        ensures { MatchResult result (λ k. Lies self.now start position k) (λ e. (row_at (meaning_of self.now) start position ≡ None) × (e ≡ JournalFault.NoRow start position)) }
    {
        let rows = self.rows;
        let no_row = JournalFault::NoRow {
            section: start,
            position,
        };
        let Some(slot) = self.find(start) else {
            return Err(no_row);
        };
        if position >= self.heads[slot].count as u64 {
            return Err(no_row);
        }
        Ok(self.records[slot * rows + position as usize])
    }

    // The journal's reads. They take `self` by `&`, under which the bytes are lent and nothing has to be shown kept.
    fn entry_at(&self, start: u64, position: u64, key: &mut [u8]) -> Result<Entry, JournalFault>
        ensures answer { result ≡ entry_read (meaning_of self.now) start position (length key.old) }
        ensures buffer { key.new ≡ entry_buffer (meaning_of self.now) start position key.old }
    {
        let row = self.row_at(start, position)?;
        if key.len() < self.width {
            return Err(JournalFault::Short {
                section: start,
                position,
                amount: self.width as u64,
            });
        }
        fill(key, self.bytes, row.at, self.width);
        Ok(Entry {
            label: row.label,
            length: row.length as u64,
        })
    }

    fn value_at(&self, start: u64, position: u64, value: &mut [u8]) -> Result<u64, JournalFault>
        ensures answer { result ≡ value_read (meaning_of self.now) start position (length value.old) }
        ensures buffer { value.new ≡ value_buffer (meaning_of self.now) start position value.old }
    {
        let row = self.row_at(start, position)?;
        if value.len() < row.length {
            return Err(JournalFault::Short {
                section: start,
                position,
                amount: row.length as u64,
            });
        }
        fill(value, self.bytes, row.at + self.width, row.length);
        Ok(row.length as u64)
    }
}

// Prunes the slots by `min`; answers whether a section goes.
fn prune_heads(heads: &mut [Head], min: u64) -> bool
    ensures gone { result ≡ list_any (λ h. goes min h.count h.start) heads.old }
    ensures left { heads.new ≡ map (pruned_head min) heads.old }
{
    let gone = heads
        .iter()
        .any(|head| below(head.count as u64, head.start, min));
    for head in heads.iter_mut() {
        *head = left(*head, min);
    }
    gone
}

// What a prune by `min` leaves of a slot: a rule, and no conversion.
fn left(head: Head, min: u64) -> Head
    ensures { result ≡ pruned_head min head }
{
    if head.start < min { Head::FREE } else { head }
}

// Bytes laid over others from the place `at` on. Byte pages have the same: it asks for room, which no public function does.
fn write(to: &mut [u8], at: usize, from: &[u8])
    requires { at + length from.now ≤ length to.old }
    ensures { to.new ≡ put to.old at from.now }
{
    to[at..at + from.len()].copy_from_slice(from);
}

// `n` bytes from the place `at` on to the front of a buffer.
fn fill(to: &mut [u8], from: &[u8], at: usize, n: usize)
    requires { (at + n ≤ length from.now) × (n ≤ length to.old) }
    ensures { to.new ≡ chunk from.now at n ++ drop n to.old }
{
    to[..n].copy_from_slice(&from[at..at + n]);
}

// Why a slot takes no further row of the section `start`, if it does not.
fn check_room(
    head: Head,
    length: usize,
    rows: usize,
    limit: usize,
    start: u64,
) -> Result<(), JournalFault>
    ensures { result ≡ checked (room_fault head length rows limit start) }
{
    if head.count >= rows {
        return Err(JournalFault::RowsFull { section: start });
    }
    if !has_room(head.cost as u64, length as u64, limit as u64) {
        return Err(JournalFault::BytesFull { section: start });
    }
    Ok(())
}
