// Pages whose checks are mostly right and whose fields are often near what is allowed, so that the later reasons for a
// refusal come up, and acceptance too.

use crate::bytes::put;
use crate::pair::Pair;
use crate::random::Random;
use journal::limits::Limits;
use keys::fnv::fnv_1a_32;
use std::alloc::{AllocError, Global};

/// Small limits that a journal may have.
pub fn small_limits(random: &mut Random) -> Limits {
    Limits {
        slots: random.below(4).saturating_add(1),
        rows: random.below(4).saturating_add(1),
        bytes: random.below(37).saturating_add(4),
        width: random.below(32).saturating_add(1),
    }
}

fn forged_start(random: &mut Random) -> u64 {
    match random.below(8) {
        0 => random.number(),
        1 => u64::MAX,
        _ => random.below(12),
    }
}

fn forged_count(random: &mut Random, rows: u64) -> u32 {
    match random.below(24) {
        0 => 0,
        1 => rows.saturating_add(1).min(2_000) as u32,
        2 => random.word(),
        _ => random.below(rows).saturating_add(1).min(2_000) as u32,
    }
}

// Where the value should begin, or near it, also where a sum with the size would wrap.
fn forged_offset(random: &mut Random, used: u64) -> u64 {
    match random.below(48) {
        0 => used.wrapping_add(1),
        1 => used.wrapping_sub(1),
        2 => used.wrapping_add(4_294_967_296),
        3 => random.number(),
        _ => used,
    }
}

fn forged_size(random: &mut Random, room: u64) -> u32 {
    match random.below(24) {
        0 => (random.below(7) & 7) as u32,
        1 => room
            .saturating_add(random.below(3))
            .saturating_sub(1)
            .min(70_000) as u32,
        2 => random.word(),
        3 => u32::MAX.saturating_sub((random.below(8) & 7) as u32),
        4 => room.min(70_000) as u32,
        _ => (random.below(6) & 7).saturating_add(4) as u32,
    }
}

// Puts the check of all bytes so far behind them, or now and then another.
fn seal(random: &mut Random, bytes: &mut Vec<u8>) -> Result<(), AllocError> {
    let check = fnv_1a_32(bytes.as_slice());
    let slip = if random.one_in(48) { random.word() } else { 0 };
    bytes.extend_from_slice(&(check ^ slip).to_be_bytes())
}

// A value's check behind the value, or now and then not.
fn seal_value(random: &mut Random, values: &mut [u8], used: u64, size: u64) {
    let end = used.saturating_add(size.saturating_sub(4));
    let check = match values.get(used as usize..end as usize) {
        Some(value) => fnv_1a_32(value),
        None => return,
    };
    if !random.one_in(6) {
        put(values, end, &check.to_be_bytes());
    }
}

fn header(heap: Global, random: &mut Random, count: u32) -> Result<Vec<u8>, AllocError> {
    if random.one_in(5) {
        return vec![in heap; 0; 16];
    }
    let mut header = Vec::new(heap);
    header.extend_from_slice(&forged_start(random).to_be_bytes())?;
    header.extend_from_slice(&count.to_be_bytes())?;
    seal(random, &mut header)?;
    Ok(header)
}

// A row whose value lies at `used`, with its value; the answer is where the next one lies.
fn forge_row(
    heap: Global,
    random: &mut Random,
    pair: &mut Pair,
    values: &mut [u8],
    used: u64,
) -> Result<u64, AllocError> {
    let Limits { bytes, width, .. } = pair.limits;
    let mut row = random.bytes(heap, width.saturating_add(8))?;
    let size = forged_size(random, bytes.saturating_sub(used));
    row.extend_from_slice(&forged_offset(random, used).to_be_bytes())?;
    row.extend_from_slice(&size.to_be_bytes())?;
    seal(random, &mut row)?;
    pair.entries.extend_from_slice(row.as_slice())?;
    seal_value(random, values, used, u64::from(size));
    Ok(used.saturating_add(u64::from(size)))
}

fn forge_slot(heap: Global, random: &mut Random, pair: &mut Pair) -> Result<(), AllocError> {
    let Limits {
        rows,
        bytes,
        width,
        ..
    } = pair.limits;
    let mut values = random.bytes(heap, bytes)?;
    let count = forged_count(random, rows);
    let header = header(heap, random, count)?;
    pair.entries.extend_from_slice(header.as_slice())?;
    let mut used = 0;
    for row in 0..rows {
        if row < u64::from(count) {
            used = forge_row(heap, random, pair, values.as_mut_slice(), used)?;
        } else {
            let room = random.bytes(heap, width.saturating_add(24))?;
            pair.entries.extend_from_slice(room.as_slice())?;
        }
    }
    pair.values.extend_from_slice(values.as_slice())
}

pub fn forged(heap: Global, random: &mut Random) -> Result<Pair, AllocError> {
    let limits = small_limits(random);
    let mut pair = Pair {
        limits,
        entries: Vec::new(heap),
        values: Vec::new(heap),
    };
    for _ in 0..limits.slots {
        forge_slot(heap, random, &mut pair)?;
    }
    Ok(pair)
}
