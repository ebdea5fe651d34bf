// Vectors from outside, run through the library: published FNV-1a 32 values of short texts, and container numbers
// under owner codes in use, whose check digits a separate program reckoned (the first is the example commonly given).
// Each line of standard input is a kind and a text, and the expected output has the answers from outside.
#![tactic(auto)]

use keys::box_number::BoxNumber;
use keys::fault::KeyFault;
use keys::fnv::fnv_1a_32;
use keys::kind::Key;
use std::io;

fn main(rt: HostRuntime) -> io::Result<()> {
    let mut number = BoxNumber::first();
    for line in rt.lines(rt.alloc()) {
        let line = line?;
        let (kind, text) = line.as_str().split_once(' ').unwrap_or(("", ""));
        if kind == "fnv" {
            let hash = fnv_1a_32(text.as_bytes());
            println!(rt; "{hash:08x} {text}")?;
            continue;
        }
        match number.read(text.as_bytes()) {
            Ok(()) => println!(rt; "good {text}")?,
            Err(KeyFault::NotAKey { amount }) => println!(rt; "bad at {amount} {text}")?,
            Err(KeyFault::StoredKey { .. }) => println!(rt; "not a reading {text}")?,
        }
    }
    Ok(())
}
