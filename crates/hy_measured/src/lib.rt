//! Calls of the engine's leaves that a C program can time: numbers and slices of numbers cross, and nothing else.
#![tactic(auto)]

ghost use Rattle.std.specs.Prelude.{◌≡◌, ◌*◌, ◌<◌, ◌≤◌, length};

mod hits;
mod ready;
mod table;

use hits::{missed_by_list, missed_by_tree};
use hy_chain::Chains;
use hy_kernel::compare;
use hy_stamp::{Label, Stamp, Viewer};
use hy_undo::{Delta, Version};
use hy_value::{Cmp, Seq, Value};
use std::alloc::{AllocError, Global};

/// Which of these numbers are below another one: bit i of the words stands for number i.
#[unsafe(no_mangle)]
pub extern "C" fn hy_compare_below(values: &[i64], right: i64, into: &mut [u64])
    requires { length values.now ≤ 64 * length into.old }
{
    compare(values, Cmp::Lt, right, into);
}

/// A version of a row of a number and a balance.
fn version(alloc: Global) -> Result<Version, AllocError> {
    let mut row = Seq::new(alloc);
    row.push(Value::Int(1))?;
    row.push(Value::Int(50))?;
    Ok(Version { row, live: true })
}

/// Pushes an undo record of a balance in front of the only chain.
fn push(
    alloc: Global,
    chains: &mut Chains<Delta>,
    mark: u64,
    balance: i64,
) -> Result<(), AllocError>
    requires { 0 < length chains.old.chains }
    ensures { length chains.new.chains ≡ length chains.old.chains }
{
    let mut delta = Delta::blank(alloc, 2)?;
    delta.note_number(1, balance);
    delta.set_live(true);
    chains.reserve(1)?;
    let owner = Label { session: 0, txn: 1 };
    chains.push_reserved(0, Stamp { owner, mark }, delta);
    Ok(())
}

/// Pushes four records, looks past them, and takes them back.
fn round(alloc: Global, chains: &mut Chains<Delta>, base: &mut Version) -> Result<(), AllocError>
    requires { 0 < length chains.old.chains }
    ensures { length chains.new.chains ≡ length chains.old.chains }
{
    push(alloc, chains, 10, 10)?;
    push(alloc, chains, 20, 20)?;
    push(alloc, chains, 30, 30)?;
    push(alloc, chains, 40, 40)?;
    let viewer = Viewer {
        id: 1 << 63,
        start: 5,
    };
    chains.see(0, &viewer, base);
    let _newest = chains.pop_own(0, 40);
    let _third = chains.pop_own(0, 30);
    let _second = chains.pop_own(0, 20);
    let _first = chains.pop_own(0, 10);
    Ok(())
}

/// So many rounds; an error is for want of memory.
fn rounds_of(alloc: Global, rounds: u32) -> Result<i64, AllocError> {
    let mut chains: Chains<Delta> = Chains::new(alloc, 1)?;
    let mut base = version(alloc)?;
    for _round in 0..rounds {
        round(alloc, &mut chains, &mut base)?;
    }
    match base.row.as_slice() {
        [_, Value::Int(balance)] => Ok(*balance),
        _ => Ok(0),
    }
}

/// So many times: four undo records are pushed on a chain, a viewer looks past them, and they are taken back. The
/// answer is the balance that the viewer saw, and -1 where memory ran out.
#[unsafe(no_mangle)]
pub extern "C" fn hy_chain_rounds(alloc: Global, rounds: u32) -> i64 {
    match rounds_of(alloc, rounds) {
        Ok(balance) => balance,
        Err(_) => -1,
    }
}

/// How many times out of so many the predicate tree of 100 records that share their first condition finds none that a
/// change hits, which makes this condition true neither before nor after. The answer is -1 where memory ran out.
#[unsafe(no_mangle)]
pub extern "C" fn hy_first_hits(alloc: Global, rounds: u32) -> i64 {
    missed_by_tree(alloc, rounds).map_or(-1, i64::from)
}

/// The same of a plain list of the same records.
#[unsafe(no_mangle)]
pub extern "C" fn hy_plain_hits(alloc: Global, rounds: u32) -> i64 {
    missed_by_list(alloc, rounds).map_or(-1, i64::from)
}

/// So many times: of a table of 64 chunks of 1,024 rows the balances above 504, about half of them, are gathered and
/// summed. The answer is the sum of these sums, and -1 where memory ran out.
#[unsafe(no_mangle)]
pub extern "C" fn hy_chunk_scans(alloc: Global, rounds: u32) -> i64 {
    table::scans(alloc, rounds).unwrap_or(-1)
}

/// So many times: a row of the same table is looked up by its key. The answer is the sum of the balances, and -1 where
/// memory ran out.
#[unsafe(no_mangle)]
pub extern "C" fn hy_chunk_finds(alloc: Global, rounds: u32) -> i64 {
    table::finds(alloc, rounds).unwrap_or(-1)
}

/// So many transactions, one after another, update a row beside a reader that stays open; each prunes the chunk before
/// and after. The answer is the balance that the old reader sees, times 2^32, and the newest balance, and -1 where
/// memory ran out.
#[unsafe(no_mangle)]
pub extern "C" fn hy_chunk_updates(alloc: Global, rounds: u32) -> i64 {
    table::updates(alloc, rounds).unwrap_or(-1)
}
