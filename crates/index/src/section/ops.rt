// What a section of the index does.

ghost use Rattle.std.specs.Prelude.{◌≡◌, ℕ, ◌+◌, ◌-◌, ◌%◌, ◌<◌, ◌≤◌, true, false, ◌&&◌, length, IfSome, is_ok, if◌then◌else◌, ◌==◌, nat_lt, slice_index};
ghost use Rattle.index_layout.specs.Links.{latest, link, linked, matching};
ghost use Rattle.index_layout.specs.Views.{open_view, grown, takes, goes, bucket_of, first_in, next_in, newest_in, older_in};
ghost use Rattle.index_layout.specs.Held.{holds, numbers, records};
ghost use Rattle.index.specs.Rows.{held, named, buckets_of, codes_of, Leads};
ghost use Rattle.index_layout.specs.Candidates.{has_candidate, reaches};
ghost use Rattle.index.specs.Viewed.{viewed};

use crate::key_code::KeyCode;
use crate::link::Link;
use crate::row::{Ends, Row};
use crate::row_table::RowTable;
use crate::section::{NoRoom, Section};

impl Section {
    /// A section that begins at a start, with no record.
    pub fn open(start: u64) -> Section
        ensures { viewed result ≡ open_view start }
    {
        let none = Link::none();
        Section {
            start,
            distinct: 0,
            rows: RowTable::new(),
            numbers: [Ends {
                first: none,
                last: none,
            }; 64],
            heads: [none; 128],
        }
    }

    pub fn start(&self) -> u64
        ensures { result ≡ (viewed self.now).start }
    {
        self.start
    }

    /// Whether it begins at a start.
    pub fn holds(&self, start: u64) -> bool
        ensures { result ≡ holds start (viewed self.now) }
    {
        self.start == start
    }

    /// Whether it begins at a number or above.
    pub fn reaches(&self, from: u64) -> bool
        ensures { result ≡ reaches from (viewed self.now) }
    {
        self.start >= from
    }

    /// Whether a strike by a minimum takes it.
    pub fn is_below(&self, min: u64) -> bool
        ensures { result ≡ goes min (viewed self.now) }
    {
        self.start < min
    }

    /// How many records it has.
    pub fn len(&self) -> u64
        ensures is { result ≡ records (viewed self.now) }
        ensures few { result ≤ 128 }
    {
        self.rows.len() as u64
    }

    /// How many different numbers it has.
    pub fn distinct(&self) -> u64
        ensures is { result ≡ numbers (viewed self.now) }
        ensures few { result ≤ 128 }
    {
        self.distinct as u64
    }

    /// One more record at the end, where it goes in.
    pub fn add(&mut self, offset: u64, key: KeyCode) -> Result<(), NoRoom>
        ensures result { is_ok result ≡ takes (viewed self.old) offset }
        ensures view { viewed self.new ≡ (if is_ok result then grown (viewed self.old) offset key.code (bucket_of key.hash) else viewed self.old) }
    {
        if offset >= 64 || self.rows.is_full() {
            return Err(NoRoom);
        }
        let last = Link::to(self.rows.len() as u8);
        let number = offset as usize;
        let bucket = key.bucket();
        self.rows.push(Row {
            code: key.code,
            offset: offset as u8,
            bucket,
            next: Link::none(),
            below: self.heads[bucket as usize],
        });
        self.heads[bucket as usize] = last;
        let ends = self.numbers[number];
        self.rows.follow(ends, last);
        self.numbers[number] = ends.extended(last);
        self.distinct += usize::from(ends.first.is_none());
        Ok(())
    }

    /// The first position of an offset.
    pub fn first_of(&self, offset: u64) -> Option<u64>
        ensures is { result ≡ first_in (viewed self.now) offset }
        ensures within { IfSome result (λ p. p < 128) }
    {
        let ends = self.numbers.get(offset as usize)?;
        let first = ends.first.position()?;
        Some(u64::from(first))
    }

    /// The next position with the offset of one.
    pub fn next_of(&self, position: u64) -> Option<u64>
        ensures is { result ≡ next_in (viewed self.now) position }
        ensures within { IfSome result (λ p. (position < p) × (p < 128)) }
    {
        self.rows.get(position)?.next.position().map(u64::from)
    }

    /// The newest record with this translated key in the chain of a bucket, from a link on.
    fn matched(&self, from: Link, bucket: u8, code: u64) -> Option<u64>
        requires { Leads (held self.now.rows) bucket (named from) }
        ensures is { result ≡ linked (matching (buckets_of (held self.now.rows)) (codes_of (held self.now.rows)) bucket code (link (named from))) }
        ensures before { IfSome result (λ p. p < link (named from)) }
    {
        let mut at = from.position()?;
        // Along links, each to a lower position: nothing is counted to. A turn carries the position and not the link, which would
        // cost a few instructions more.
        loop {
            let row = self.rows.row(at);
            if row.code == code {
                return Some(u64::from(at));
            }
            at = row.below.position()?;
        }
    }

    /// The newest record with this translated key and hash.
    pub fn newest(&self, key: KeyCode) -> Option<u64>
        ensures is { result ≡ newest_in (viewed self.now) key.code (bucket_of key.hash) }
        ensures few { IfSome result (λ p. p < 128) }
    {
        let bucket = key.bucket();
        self.matched(self.heads[bucket as usize], bucket, key.code)
    }

    /// Whether there is a record with this translated key and hash.
    pub fn has(&self, key: KeyCode) -> bool
        ensures { result ≡ has_candidate (viewed self.now) key.code (bucket_of key.hash) }
    {
        self.newest(key).is_some()
    }

    /// The next older record with this translated key and hash, after one with the hash.
    pub fn older(&self, position: u64, key: KeyCode) -> Option<u64>
        ensures is { result ≡ older_in (viewed self.now) key.code (bucket_of key.hash) position }
        ensures few { IfSome result (λ p. p < 128) }
        ensures before { IfSome result (λ p. p < position) }
    {
        let row = self.rows.get(position)?;
        if row.bucket != key.bucket() {
            return None;
        }
        self.matched(row.below, row.bucket, key.code)
    }
}
