// A copy of one row's entry and key.

ghost use Rattle.std.specs.Prelude.{◌≡◌, ◌≤◌, length};
ghost use Rattle.cache.specs.Row.{is_of, copy_of, copy_answer, copy_fill};

use journal::fault::JournalFault;
use journal::row::Entry;

/// A row's entry and key, by the row's place.
#[derive(Clone, Copy, Debug, PartialEq, Eq)]
pub struct RowCopy {
    pub(crate) start: u64,
    position: u64,
    entry: Entry,
    /// The key is the front of it, as long as the journal's width.
    key: [u8; 32],
}

impl RowCopy {
    pub(crate) fn new(start: u64, position: u64, entry: Entry, key: &[u8]) -> RowCopy
        requires { length key.now ≤ 32 }
        ensures { result ≡ copy_of start position entry key.now }
    {
        let mut front = [0; 32];
        front[..key.len()].copy_from_slice(key);
        RowCopy {
            start,
            position,
            entry,
            key: front,
        }
    }

    pub(crate) fn is_of(&self, start: u64, position: u64) -> bool
        ensures { result ≡ is_of self.now start position }
    {
        self.start == start && self.position == position
    }

    // Answers a read of the row, whose key has `width` bytes.
    pub(crate) fn read(&self, width: usize, key: &mut [u8]) -> Result<Entry, JournalFault>
        requires { width ≤ 32 }
        ensures answer { result ≡ copy_answer self.now width (length key.old) }
        ensures buffer { key.new ≡ copy_fill self.now width key.old }
    {
        if key.len() < width {
            return Err(JournalFault::Short {
                section: self.start,
                position: self.position,
                amount: width as u64,
            });
        }
        key[..width].copy_from_slice(&self.key[..width]);
        Ok(self.entry)
    }
}
