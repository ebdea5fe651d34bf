// How the ends of a number go on.

ghost use Rattle.std.specs.Prelude.{◌≡◌, is_some, if◌then◌else◌};
ghost use Rattle.index.specs.Rows.{first_in};

use crate::link::Link;
use crate::row::Ends;

impl Ends {
    /// The ends of a number after a row more, which a link leads to.
    pub(crate) fn extended(self, last: Link) -> Ends
        ensures { result ≡ record { first = if is_some (first_in self) then self.first else last; last = last } }
    {
        Ends {
            first: self.first.or(last),
            last,
        }
    }
}
