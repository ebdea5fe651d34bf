// The script: its lines with their numbers, and what the last line of the output counts.

ghost use Rattle.std.specs.Prelude.{◌≡◌, false, IfOk, IfSome};
ghost use Rattle.script.specs.Lines.{without, content, is_silent};

use std::alloc::Global;
use std::io;
use std::io::{BufRead, BufReader, Stdin};

/// A line that is to be answered, by its number in the whole input.
#[derive(Drop)]
pub struct Line {
    pub number: u64,
    pub bytes: Vec<u8>,
}

/// What the last line of the output counts.
#[derive(Clone, Copy, Debug, PartialEq, Eq)]
pub struct Counts {
    /// The lines that were understood, refused ones among them.
    pub commands: u64,
    pub refused: u64,
    pub misread: u64,
}

#[derive(Drop)]
pub struct Script {
    pub input: BufReader<Stdin>,
    pub heap: Global,
    /// How many lines were read.
    pub read: u64,
    pub counts: Counts,
}

// The bytes without the last one, where that is `end`.
fn without(bytes: &[u8], end: u8) -> &[u8]
    ensures { result.now ≡ without end bytes.now }
{
    if bytes.last() == Some(&end) {
        &bytes[..bytes.len() - 1]
    } else {
        bytes
    }
}

// A line without what ends it: a line feed, and a carriage return before that.
fn without_end(line: &[u8]) -> &[u8]
    ensures { result.now ≡ content line.now }
{
    without(without(line, b'\n'), b'\r')
}

// Whether a line is passed over: a comment, or spaces only.
fn is_silent(line: &[u8]) -> bool
    ensures { result ≡ is_silent line.now }
{
    line.first() == Some(&b'#') || line.iter().all(|b| *b == b' ')
}

impl Script {
    /// The next line that is to be answered, or none where the input ends; what was counted stays.
    pub fn next_line(&mut self) -> io::Result<Option<Line>>
        ensures counts { self.new.counts ≡ self.old.counts }
        ensures line { IfOk result (λ o. IfSome o (λ line. (line.number ≡ self.new.read) × (is_silent line.bytes.items ≡ false))) }
    {
        // Counted, since a loop has to be seen to end, and how much input there is nobody knows.
        for _ in 0..u64::MAX {
            let mut bytes = Vec::new(self.heap);
            if self.input.read_until(b'\n', &mut bytes)? == 0 {
                return Ok(None);
            }
            self.read = self.read.saturating_add(1);
            let line = without_end(bytes.as_slice());
            if !is_silent(line) {
                return Ok(Some(Line {
                    number: self.read,
                    bytes: line.to_vec(self.heap)?,
                }));
            }
        }
        Ok(None)
    }
}
