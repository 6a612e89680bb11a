//! The text of `hy explain`: of each transaction that was refused, what the refusal stands for, in words.
#![tactic(auto)]

ghost use Rattle.std.specs.Prelude.{◌≡◌, ◌++◌, List, OnOk, IfOk};
ghost use Rattle.std.specs.List.{flat_map};
ghost use Rattle.hy_explain.specs.Explained.{named, row_text, refused_text, rank_text, refusal_text, txn_explained, explained_text};

mod behind;
mod behind_words;
mod choosing;
mod conditions;
mod conflict;
mod found;
mod full;
mod invalid;
mod laws;
mod range;
mod reads;
mod words;

use conflict::put_conflict;
use full::put_full;
use hy_bound::Ending;
use hy_render::{Outcome, Place, TxnOutcome};
use hy_script::Script;
use hy_stamp::Label;
use invalid::put_invalid;
pub use laws::explanations_are_true;
use range::put_range;
use std::alloc::{AllocError, Global};
use words::{put, put_number, put_txn, table_name};

/// A script and its outcome.
#[derive(Clone, Copy)]
struct Told<'a> {
    alloc: Global,
    script: &'a Script,
    outcome: &'a Outcome,
}

/// Appends the name of a transaction of a script.
fn put_label(script: &Script, label: Label, out: &mut Vec<u8>) -> Result<(), AllocError>
    ensures { OnOk result (out.new.items ≡ out.old.items ++ named script.now label) }
{
    put_txn(script.sessions.as_slice(), label, out)
}

/// Appends a position of a table.
#[tactic(auto, unfolding(crate::specs::Explained::row_text))]
fn put_row(script: &Script, table: u32, pos: u32, out: &mut Vec<u8>) -> Result<(), AllocError>
    ensures { OnOk result (out.new.items ≡ out.old.items ++ row_text script.now table pos) }
{
    put(b" row ", out)?;
    put_number(u64::from(pos), out)?;
    put(b" of ", out)?;
    put(table_name(script.catalog.tables(), table), out)
}

/// Appends what is said first where a statement was refused, and its number. One past 64 bits would be want of memory.
#[tactic(auto, unfolding(crate::specs::Explained::refused_text))]
fn put_refused(script: &Script, txn: &TxnOutcome, out: &mut Vec<u8>) -> Result<(), AllocError>
    ensures { OnOk result (out.new.items ≡ out.old.items ++ refused_text script.now txn.now) }
{
    put_label(script, txn.label, out)?;
    put(b" was refused. Its statement ", out)?;
    match (txn.replies.len() as u64).checked_add(1) {
        Some(number) => put_number(number, out),
        None => Err(AllocError),
    }
}

/// Appends where a transaction stands in the order.
#[tactic(auto, unfolding(crate::specs::Explained::rank_text))]
fn put_rank(script: &Script, label: Label, rank: u32, out: &mut Vec<u8>) -> Result<(), AllocError>
    ensures { OnOk result (out.new.items ≡ out.old.items ++ rank_text script.now label rank) }
{
    put(b" committed at rank ", out)?;
    put_number(u64::from(rank), out)?;
    put(b" since the start of ", out)?;
    put_label(script, label, out)
}

/// Appends what a refusal stands for, and an empty line; nothing where a transaction was not refused.
#[tactic(auto, unfolding(crate::specs::Explained::refusal_text))]
fn put_refusal(told: &Told, txn: &TxnOutcome, out: &mut Vec<u8>) -> Result<(), AllocError>
    ensures { OnOk result (out.new.items ≡ out.old.items ++ txn_explained told.now.script.now told.now.outcome.now txn.now) }
{
    match txn.ending {
        Ending::Conflict { table, pos, other } => {
            put_conflict(told, txn, Place { table, pos }, other, out)?;
        }
        Ending::Invalid {
            table,
            pos,
            other,
            statement,
        } => {
            let place = Place { table, pos };
            put_invalid(told, txn.label, place, other, statement, out)?;
        }
        Ending::Range { table, pos } => {
            put_range(told, txn, Place { table, pos }, out)?;
        }
        Ending::Full { table } => {
            put_full(told, txn, table, out)?;
        }
        Ending::Committed { .. } | Ending::Read | Ending::RolledBack => {
            return Ok(());
        }
    }
    put(b"\n", out)
}

/// What `hy explain` writes of an outcome of a script: for each transaction that was refused some lines that say what the
/// refusal stands for, and an empty one; and the line `end`.
///
/// Err is for want of memory.
pub fn explain(alloc: Global, script: &Script, outcome: &Outcome) -> Result<Vec<u8>, AllocError>
    ensures { IfOk result (λ text. text.items ≡ explained_text script.now outcome.now) }
{
    let told = Told {
        alloc,
        script,
        outcome,
    };
    let mut out = Vec::new(alloc);
    for txn in outcome.txns.as_slice() {
        put_refusal(&told, txn, &mut out)?;
    }
    put(b"end\n", &mut out)?;
    Ok(out)
}
