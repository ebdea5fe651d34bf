// The turns of a voyage made once more, and beside them the same with two puts exchanged.

ghost use Rattle.std.specs.Prelude.{◌≡◌, ◌+◌, ◌^◌, ◌<◌};
ghost use Rattle.moves.specs.Sizes.{exchanged};

use crate::command::Voyage;
use crate::misread::Misread;
use crate::sailed::Sailed;
use crate::stop::Stop;
use crate::store::{PageBytes, Rows};
use crate::turns::{NOWHERE, key_of};
use keys::kind::Key;
use keys::translator::AnyTranslator;
use rules::answer::Reply;
use rules::call::Call;
use rules::rounding::section_of;
use rules::turn::Turn;
use std::alloc::Global;
use voyage::{run_in_memory, run_on_pages};

/// A call that was made: what making it anew takes, and how it was answered.
#[derive(Drop)]
struct Logged<K> {
    call: Call<K>,
    /// What a put stored; no other call is handed bytes that matter.
    value: Vec<u8>,
    /// The sizes of its buffer and of its slice.
    room: usize,
    slots: usize,
    /// Whether it was a put, and accepted.
    stored: bool,
    /// Whether the rules leave its answer open.
    open: bool,
}

/// The turns of a voyage since it began, or since its last file was opened.
#[derive(Drop)]
pub struct Log<K> {
    /// The pages as they were then; none where the voyage began empty.
    began: Option<PageBytes>,
    made: Vec<Logged<K>>,
    /// Numbers to a section, once a load was accepted.
    size: Option<u64>,
}

// A call once more, with the same key.
fn again<K: Key + Drop>(call: &Call<K>) -> Result<Call<K>, Stop> {
    match call {
        Call::Load { size } => Ok(Call::Load { size: *size }),
        Call::Put { label, key } => Ok(Call::Put {
            label: *label,
            key: key_of(key.as_bytes())?,
        }),
        Call::PutMulti { label, key } => Ok(Call::PutMulti {
            label: *label,
            key: key_of(key.as_bytes())?,
        }),
        Call::Prune { min } => Ok(Call::Prune { min: *min }),
        Call::GetNumber { number } => Ok(Call::GetNumber { number: *number }),
        Call::GetKey { key } => Ok(Call::GetKey {
            key: key_of(key.as_bytes())?,
        }),
        Call::GetPlace { place } => Ok(Call::GetPlace { place: *place }),
        Call::HasNumber { number } => Ok(Call::HasNumber { number: *number }),
        Call::HasKey { key } => Ok(Call::HasKey {
            key: key_of(key.as_bytes())?,
        }),
        Call::HasBoth { number, key } => Ok(Call::HasBoth {
            number: *number,
            key: key_of(key.as_bytes())?,
        }),
        Call::ListNumber { number } => Ok(Call::ListNumber { number: *number }),
        Call::ListKey { key } => Ok(Call::ListKey {
            key: key_of(key.as_bytes())?,
        }),
        Call::Counts => Ok(Call::Counts),
    }
}

impl<K: Key + Drop> Logged<K> {
    fn new(heap: Global, turn: Turn<K>, open: bool) -> Logged<K> {
        let Turn {
            call,
            bytes,
            places,
            answer,
        } = turn;
        let room = bytes.len();
        let value = match call {
            Call::Put { .. } | Call::PutMulti { .. } => bytes,
            _ => Vec::new(heap),
        };
        Logged {
            call,
            value,
            room,
            slots: places.len(),
            stored: matches!(answer, Some(Ok(Reply::Put(_)))),
            open,
        }
    }

    // The turn once more, yet to be made: a put has its value, and every other buffer is blank.
    fn turn(&self, heap: Global) -> Result<Turn<K>, Stop> {
        let bytes = match self.call {
            Call::Put { .. } | Call::PutMulti { .. } => self.value.as_slice().to_vec(heap)?,
            _ => vec![in heap; 0; self.room]?,
        };
        let places = vec![in heap; NOWHERE; self.slots]?;
        Ok(Turn::new(again(&self.call)?, bytes, places))
    }

    // The number of a put that was accepted.
    fn accepted_number(&self) -> Option<u64> {
        match &self.call {
            Call::Put { label, .. } | Call::PutMulti { label, .. } if self.stored => {
                Some(label.number)
            }
            _ => None,
        }
    }
}

fn run_pages<K: Key + Drop>(
    mut pages: PageBytes,
    by: AnyTranslator,
    turns: &mut Vec<Turn<K>>,
) -> Result<(), Stop> {
    let (entries, values) = (pages.entries.as_mut_slice(), pages.values.as_mut_slice());
    Ok(run_on_pages(entries, values, pages.limits, by, turns)?)
}

fn run_rows<K: Key + Drop>(
    mut rows: Rows,
    by: AnyTranslator,
    turns: &mut Vec<Turn<K>>,
) -> Result<(), Stop> {
    let (records, bytes) = (rows.records.as_mut_slice(), rows.bytes.as_mut_slice());
    Ok(run_in_memory(records, bytes, rows.limits, by, turns)?)
}

fn is_alike<K>(turn: &Turn<K>, other: &Turn<K>) -> bool {
    turn.answer == other.answer
        && turn.bytes.as_slice() == other.bytes.as_slice()
        && turn.places.as_slice() == other.places.as_slice()
}

// Where the turn at a place stands once those at `at` and behind it are exchanged.
fn moved(i: usize, at: usize) -> usize
    ensures { at + 1 < 2 ^ 64 → result ≡ exchanged i at }
{
    if i == at {
        i.saturating_add(1)
    } else if i == at.saturating_add(1) {
        at
    } else {
        i
    }
}

impl<K: Key + Drop> Log<K> {
    pub fn new(heap: Global, began: Option<PageBytes>) -> Log<K> {
        Log {
            began,
            made: Vec::new(heap),
            size: None,
        }
    }

    pub fn note(&mut self, heap: Global, turn: Turn<K>, open: bool) -> Result<(), Stop> {
        if let (Call::Load { size }, Some(Ok(_))) = (&turn.call, turn.answer) {
            self.size = Some(*size);
        }
        self.made.push(Logged::new(heap, turn, open))?;
        Ok(())
    }

    // The place of the last two neighbouring puts that were accepted, into different sections.
    fn last_puts(&self) -> Option<usize> {
        let size = self.size?;
        let mut found = None;
        let mut before: Option<u64> = None;
        for (i, logged) in self.made.iter().enumerate() {
            let put = logged.accepted_number();
            if let (Some(first), Some(second)) = (before, put) {
                if section_of(size, first) != section_of(size, second) {
                    found = i.checked_sub(1);
                }
            }
            before = put;
        }
        found
    }

    // The turns yet to be made; with those at `at` and behind it exchanged, where a place is given.
    fn turns(&self, heap: Global, at: Option<usize>) -> Result<Vec<Turn<K>>, Stop> {
        let mut turns = Vec::new(heap);
        for i in 0..self.made.len() {
            let from = at.map_or(i, |at| moved(i, at));
            if let Some(logged) = self.made.get(from) {
                turns.push(logged.turn(heap)?)?;
            }
        }
        Ok(turns)
    }

    // Both runs: the second on memory rows where the voyage began empty.
    fn run(
        &self,
        heap: Global,
        voyage: &Voyage,
        turns: &mut Vec<Turn<K>>,
        others: &mut Vec<Turn<K>>,
    ) -> Result<(), Stop> {
        let by = voyage.translator;
        match &self.began {
            Some(pages) => {
                run_pages(pages.copy(heap)?, by, turns)?;
                run_pages(pages.copy(heap)?, by, others)
            }
            None => {
                run_pages(PageBytes::new(heap, voyage.limits)?, by, turns)?;
                run_rows(Rows::new(heap, voyage.limits)?, by, others)
            }
        }
    }

    // How many answers are alike, and how many were left open.
    fn compare(&self, at: usize, turns: &[Turn<K>], others: &[Turn<K>]) -> Result<Sailed, Stop> {
        let mut answers: u64 = 0;
        let mut open: u64 = 0;
        for (i, logged) in self.made.iter().enumerate() {
            let (Some(turn), Some(other)) = (turns.get(i), others.get(moved(i, at))) else {
                return Err(Stop::Misread(Misread::NotMade));
            };
            if logged.open {
                open = open.saturating_add(1);
            } else if is_alike(turn, other) {
                answers = answers.saturating_add(1);
            } else {
                return Err(Stop::Misread(Misread::Differ));
            }
        }
        Ok(Sailed::Alike { answers, open })
    }

    /// The turns so far made anew on pages, and beside them with the last two such puts exchanged: on memory rows if the
    /// voyage began empty.
    pub fn exchange(&self, heap: Global, voyage: &Voyage) -> Result<Sailed, Stop> {
        let Some(at) = self.last_puts() else {
            return Ok(Sailed::NoExchange);
        };
        let mut turns = self.turns(heap, None)?;
        let mut others = self.turns(heap, Some(at))?;
        self.run(heap, voyage, &mut turns, &mut others)?;
        self.compare(at, turns.as_slice(), others.as_slice())
    }
}
