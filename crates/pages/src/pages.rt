// What byte pages are between calls.

ghost use Rattle.std.specs.Prelude.{◌≡◌, true};
ghost use Rattle.format.specs.State.{is_sound};
ghost use Rattle.pages.specs.Raws.{view};

mod calls;
mod slots;

use crate::raw::Raw;

/// A journal in two slices of bytes. They hold what a mounting accepts, with no start below the floor; or the limits are 0.
#[derive(Drop)]
pub struct Pages<'a> {
    raw: Raw<'a>,
    ghost sound: { is_sound (view raw) ≡ true },
}
