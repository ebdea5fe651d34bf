// Where a record lies, with its section.

use rules::answer::Place;

/// A record's place with the start of its section, which the place tells only together with the section size.
#[derive(Clone, Copy, Debug, PartialEq, Eq)]
pub struct Spot {
    pub start: u64,
    pub place: Place,
}
