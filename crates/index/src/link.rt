// Links between the rows of a section.

ghost use Rattle.std.specs.Prelude.{◌≡◌, ◌+◌, ◌<◌, not, is_some, if◌then◌else◌};
ghost use Rattle.index_layout.specs.Links.{linked};

/// A link in one byte, where an `Option` would take two: 0 where it leads to no row, else one more than the row's position.
#[derive(Clone, Copy, Debug, Default, PartialEq, Eq)]
pub(crate) struct Link {
    byte: u8,
}

impl Link {
    /// A link to no row.
    pub(crate) fn none() -> Link
        ensures { result.byte ≡ 0 }
    {
        Link { byte: 0 }
    }

    /// A link to the row at a position, of the 128 that a section has at most.
    pub(crate) fn to(position: u8) -> Link
        requires { position < 128 }
        ensures { result.byte ≡ position + 1 }
    {
        Link { byte: position + 1 }
    }

    /// The position of the row that it leads to.
    pub(crate) fn position(self) -> Option<u8>
        ensures { result ≡ linked self.byte }
    {
        self.byte.checked_sub(1)
    }

    /// Whether it leads to none.
    pub(crate) fn is_none(self) -> bool
        ensures { is_some (linked self.byte) ≡ not result }
    {
        self.byte == 0
    }

    /// The link, or another where it leads to none.
    pub(crate) fn or(self, other: Link) -> Link
        ensures { result ≡ (if is_some (linked self.byte) then self else other) }
    {
        match self.position() {
            Some(_) => self,
            None => other,
        }
    }
}
