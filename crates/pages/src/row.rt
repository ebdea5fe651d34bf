// A row of a page, and the bytes of a new one.

ghost use Rattle.std.specs.Prelude.{◌≡◌, ◌^◌, ◌<◌, ◌≤◌, length};
ghost use Rattle.journal.specs.Bytes.{put};
ghost use Rattle.format.specs.Layout as lay;
ghost use Rattle.format.specs.Decode as decode;
ghost use Rattle.format.specs.Mount as mount;

use crate::layout::{KEY_AT, Layout};
use crate::numbers::{is_checked, number_at, part, seal, write, write_number};
use journal::row::{CHECK_SIZE, Label};

/// A row's bytes.
#[derive(Clone, Copy)]
pub(crate) struct Row<'a> {
    pub(crate) bytes: &'a [u8],
    pub(crate) layout: Layout,
    pub(crate) ghost long: { length bytes.now ≡ lay.row_size layout.limits.width },
}

impl<'a> Row<'a> {
    pub(crate) fn label(&self) -> Label
        ensures { result ≡ decode.label_of self.now.layout.limits.width self.now.bytes.now }
    {
        Label {
            number: number_at::<8>(self.bytes, 0),
        }
    }

    pub(crate) fn key(&self) -> &'a [u8]
        ensures key { result.now ≡ decode.key_of self.now.layout.limits.width self.now.bytes.now }
        ensures long { length result.now ≡ self.now.layout.limits.width }
    {
        part(self.bytes, KEY_AT, self.layout.width())
    }

    /// Where the row's value lies among those of its page.
    pub(crate) fn offset(&self) -> u64
        ensures { result ≡ decode.offset_of self.now.layout.limits.width self.now.bytes.now }
    {
        number_at::<8>(self.bytes, self.layout.offset_at())
    }

    /// What the value takes with its check.
    pub(crate) fn size(&self) -> u64
        ensures size { result ≡ decode.size_of self.now.layout.limits.width self.now.bytes.now }
        ensures bound { result < 2 ^ 32 }
    {
        number_at::<4>(self.bytes, self.layout.size_at())
    }

    /// Whether the row's check is its own.
    pub(crate) fn is_checked(&self) -> bool
        ensures { result ≡ mount.checked_at self.now.bytes.now (lay.row_check_at self.now.layout.limits.width) }
    {
        is_checked(self.bytes, self.layout.row_check_at())
    }

    /// Whether the row is right, its value lying at `used`.
    pub(crate) fn fits(&self, used: u64) -> bool
        requires { used ≤ self.now.layout.limits.bytes }
        ensures { result ≡ mount.row_fits self.now.layout.limits.width self.now.layout.limits.bytes used self.now.bytes.now }
    {
        let size = self.size();
        self.is_checked()
            && self.offset() == used
            && CHECK_SIZE <= size
            && used + size <= self.layout.limits.bytes
    }
}

/// The label and the key.
fn write_front(row: &mut [u8], label: Label, key: &[u8])
    requires { lay.front_size (length key.now) ≤ length row.old }
    ensures { row.new ≡ put row.old 0 (lay.label_front label key.now) }
{
    write_number::<8>(row, 0, label.number);
    write(row, KEY_AT, key);
}

pub(crate) fn write_row(
    row: &mut [u8],
    layout: Layout,
    label: Label,
    key: &[u8],
    offset: u64,
    size: u64,
)
    requires long { length row.old ≡ lay.row_size layout.limits.width }
    requires key { length key.now ≡ layout.limits.width }
    requires size { size < 2 ^ 32 }
    ensures { row.new ≡ lay.row_bytes label key.now offset size }
{
    write_front(row, label, key);
    write_number::<8>(row, layout.offset_at(), offset);
    write_number::<4>(row, layout.size_at(), size);
    seal(row, layout.row_check_at());
}
