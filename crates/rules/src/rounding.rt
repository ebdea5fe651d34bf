// Which section a move number belongs to.

ghost use Rattle.std.specs.Prelude.{◌≡◌};
ghost use Rattle.rules.specs.State.{section_of};

// A rule, and no conversion from one type to another.
/// Where the section of a number starts, with `size` numbers to a section; 0 where there are none.
pub fn section_of(size: u64, number: u64) -> u64
    ensures { result ≡ section_of size number }
{
    if size == 0 {
        return 0;
    }
    number / size * size
}
