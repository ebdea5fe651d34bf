// What one kind of work came to and cost, over all rounds.

use crate::work::{Done, Work};
use std::fmt;
use std::time::Duration;

#[derive(Clone, Copy)]
pub struct Lap {
    pub work: Work,
    /// What a round came to; the same in each.
    done: Done,
    calls: u64,
    nanos: u64,
    /// Nanoseconds a call in the round that took the least.
    pub best: u64,
}

// Nanoseconds as a number; a run is far shorter than the 584 years that it holds.
fn nanos_of(time: Duration) -> u64 {
    time.as_secs()
        .saturating_mul(1_000_000_000)
        .saturating_add(u64::from(time.subsec_nanos()))
}

impl Lap {
    pub fn new(work: Work, done: Done, time: Duration) -> Lap {
        let nanos = nanos_of(time);
        Lap {
            work,
            done,
            calls: done.calls,
            nanos,
            best: nanos / done.calls.max(1),
        }
    }

    /// The same work in a further round.
    pub fn add(&mut self, further: Lap) {
        self.calls = self.calls.saturating_add(further.calls);
        self.nanos = self.nanos.saturating_add(further.nanos);
        self.best = self.best.min(further.best);
    }

    /// Nanoseconds a call.
    pub fn mean(&self) -> u64 {
        self.nanos / self.calls.max(1)
    }
}

/// What a round came to, without times.
impl fmt::Display for Lap {
    fn fmt<W: fmt::Write>(&self, f: &mut fmt::Formatter<W>) -> fmt::Result {
        let name = self.work.name();
        let Done {
            calls,
            records,
            beside,
        } = self.done;
        write!(f, "{name}: calls {calls}, records {records}")?;
        match self.work {
            Work::ListKey => write!(f, ", candidates {beside}"),
            Work::Prune => write!(f, ", numbers {beside}"),
            _ => Ok(()),
        }
    }
}
