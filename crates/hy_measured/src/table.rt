//! Chunks of a table: a sum under a condition, look-ups by key, and updates beside an old reader.

ghost use Rattle.std.specs.Prelude.{◌≡◌, ◌*◌, ◌+◌, ◌<◌, ◌≤◌, ◌^◌};

use crate::ready::{OLD_START, Ready, compared, sum};
use hy_bound::Pred;
use hy_plan::Gathered;
use hy_stamp::Viewer;
use hy_value::Cmp;
use std::alloc::{AllocError, Global};

/// How many chunks the table has.
const CHUNKS: u32 = 64;

/// How many rows a chunk has.
const ROWS: u32 = 1024;

/// How many rows the chunk has in which one is updated.
const FEW: u32 = 4;

/// The table: its chunks are full.
fn table(alloc: Global) -> Result<Vec<Ready>, AllocError> {
    let mut chunks = Vec::new(alloc);
    for chunk in 0..CHUNKS {
        chunks.push(Ready::full(alloc, chunk * ROWS, ROWS)?)?;
    }
    Ok(chunks)
}

/// The sum of the balances of the rows that a condition selects.
fn total(alloc: Global, chunks: &mut [Ready], pred: &Pred) -> Result<i64, AllocError> {
    let viewer = Viewer {
        id: 1 << 63,
        start: OLD_START,
    };
    let mut gathered = Gathered::new(alloc, 1)?;
    for chunk in chunks.iter_mut() {
        chunk.balances(alloc, &viewer, pred, &mut gathered)?;
    }
    Ok(sum(&gathered))
}

/// So many times the sum of the balances above 504; an error is for want of memory.
pub fn scans(alloc: Global, rounds: u32) -> Result<i64, AllocError> {
    let mut chunks = table(alloc)?;
    let pred = compared(alloc, 1, Cmp::Gt, 504)?;
    let mut sum = 0i64;
    for _round in 0..rounds {
        sum = sum.wrapping_add(total(alloc, chunks.as_mut_slice(), &pred)?);
    }
    Ok(sum)
}

/// The sum of the balances of so many rows that are looked up by their key; an error is for want of memory.
pub fn finds(alloc: Global, rounds: u32) -> Result<i64, AllocError> {
    let mut chunks = table(alloc)?;
    let mut sum = 0i64;
    for round in 0..rounds {
        let key = round.wrapping_mul(7919) % (CHUNKS * ROWS);
        let pred = compared(alloc, 0, Cmp::Eq, i64::from(key))?;
        sum = sum.wrapping_add(total(alloc, chunks.as_mut_slice(), &pred)?);
    }
    Ok(sum)
}

/// What the old reader sees of a row that is updated so many times, times 2^32, and what a new one sees of it; an
/// error is for want of memory or of times.
pub fn updates(alloc: Global, rounds: u32) -> Result<i64, AllocError> {
    let mut ready = Ready::full(alloc, 0, FEW)?;
    let pred = compared(alloc, 0, Cmp::Eq, 1)?;
    for round in 0..rounds {
        ready.update(alloc, round, &pred)?;
    }
    let first = ready.balance(alloc, OLD_START, &pred)?;
    let newest = ready.balance(alloc, u64::MAX, &pred)?;
    Ok(first.wrapping_mul(1 << 32).wrapping_add(newest))
}
