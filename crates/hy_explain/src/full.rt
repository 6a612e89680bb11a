//! Why a statement was refused for want of room.

ghost use Rattle.std.specs.Prelude.{◌≡◌, ◌++◌, [], OnOk, flat_map, slice_index_or, length};
ghost use Rattle.std.specs.Option.{option_copied};
ghost use Rattle.hy_lawful.specs.Outcomes.{is_later};
ghost use Rattle.hy_lawful.specs.Overlaps.{reaches, may_overlap, may_take_room, stands_before};
ghost use Rattle.hy_explain.specs.Explained.{inserted_text, insert_line, places_line, taken_line, taken_by, full_text};

use crate::found::{committed_at, is_label, refused_statement};
use crate::words::{put, put_number, table_name};
use crate::{Told, put_label, put_refused};
use hy_bound::Bound;
use hy_render::{Outcome, TxnOutcome};
use hy_script::Script;
use hy_stamp::Label;
use hy_value::print_stored_row;
use std::alloc::AllocError;

/// Appends the row that a statement was to insert.
#[tactic(auto, unfolding(crate::specs::Explained::inserted_text))]
fn put_inserted(statement: Option<&Bound>, out: &mut Vec<u8>) -> Result<(), AllocError>
    ensures { OnOk result (out.new.items ≡ out.old.items ++ inserted_text (option_copied statement.entry)) }
{
    match statement {
        Some(Bound::Insert { row, .. }) => {
            put(b" ", out)?;
            print_stored_row(row, out)
        }
        _ => Ok(()),
    }
}

/// Appends which row found no place.
#[tactic(auto, unfolding(crate::specs::Explained::insert_line))]
fn put_insert(
    script: &Script,
    txn: &TxnOutcome,
    table: u32,
    out: &mut Vec<u8>,
) -> Result<(), AllocError>
    ensures { OnOk result (out.new.items ≡ out.old.items ++ insert_line script.now txn.now table) }
{
    put_refused(script, txn, out)?;
    put(b" was to insert", out)?;
    put_inserted(refused_statement(script, txn), out)?;
    put(b" into ", out)?;
    put(table_name(script.catalog.tables(), table), out)?;
    put(b", which has no place for it.\n", out)
}

/// How many rows a table had at first.
fn first_count(script: &Script, table: u32) -> usize
    ensures { result ≡ length (slice_index_or script.now.rows table []) }
{
    match script.rows.as_slice().get(table as usize) {
        Some(rows) => rows.len(),
        None => 0,
    }
}

/// Appends how many places a table has, and how many rows it had at first.
#[tactic(auto, unfolding(crate::specs::Explained::places_line))]
fn put_places(script: &Script, table: u32, out: &mut Vec<u8>) -> Result<(), AllocError>
    ensures { OnOk result (out.new.items ≡ out.old.items ++ places_line script.now table) }
{
    put(b"It has ", out)?;
    put_number(u64::from(script.options.chunks), out)?;
    put(b" chunks of ", out)?;
    put_number(u64::from(script.options.rows), out)?;
    put(b" rows, and its first rows are ", out)?;
    put_number(first_count(script, table) as u64, out)?;
    put(b".\n", out)
}

/// Whether a transaction is a later one of the session of this label.
fn is_later(label: Label, txn: &TxnOutcome) -> bool
    ensures { result ≡ is_later label txn.now }
{
    txn.label.session == label.session && label.txn < txn.label.txn
}

/// Whether all later transactions of a transaction's session start at this rank or behind it.
fn reaches(outcome: &Outcome, txn: &TxnOutcome, rank: u32) -> bool
    ensures { result ≡ reaches outcome.now txn.now rank }
{
    outcome
        .txns
        .as_slice()
        .iter()
        .all(|later| !is_later(txn.label, later) || rank <= later.start)
}

/// Whether two transactions may have been open at a time.
fn may_overlap(outcome: &Outcome, txn: &TxnOutcome, other: &TxnOutcome) -> bool
    ensures { result ≡ may_overlap outcome.now txn.now other.now }
{
    txn.label.session != other.label.session
        && reaches(outcome, txn, other.start)
        && reaches(outcome, other, txn.start)
}

/// Whether a transaction stands in the order before a rank.
fn stands_before(rank: u32, txn: &TxnOutcome) -> bool
    ensures { result ≡ stands_before rank txn.now }
{
    match committed_at(&txn.ending) {
        Some(own) => own < rank,
        None => false,
    }
}

/// Whether the inserts of a transaction may have been in the way of another's.
fn may_take_room(outcome: &Outcome, other: &TxnOutcome, txn: &TxnOutcome) -> bool
    ensures { result ≡ may_take_room outcome.now other.now txn.now }
{
    is_label(txn.label, other.label)
        || stands_before(other.start, txn)
        || may_overlap(outcome, txn, other)
}

/// Appends how many places one took, if it took some and may have been in the way.
#[tactic(auto, unfolding(crate::specs::Explained::taken_line))]
fn put_taken(
    script: &Script,
    label: Label,
    count: u64,
    in_the_way: bool,
    out: &mut Vec<u8>,
) -> Result<(), AllocError>
    ensures { OnOk result (out.new.items ≡ out.old.items ++ taken_line script.now label count in_the_way) }
{
    if count == 0 || !in_the_way {
        return Ok(());
    }
    put_label(script, label, out)?;
    put(b" took ", out)?;
    put_number(count, out)?;
    put(b".\n", out)
}

/// How many inserts a transaction placed in a table.
fn placed_in(txn: &TxnOutcome, table: u32) -> u64
    ensures { result ≡ slice_index_or txn.now.placed table 0 }
{
    match txn.placed.as_slice().get(table as usize) {
        Some(count) => *count,
        None => 0,
    }
}

/// Appends how many places another one took of those that a transaction looked for.
#[tactic(auto, unfolding(crate::specs::Explained::taken_line))]
fn put_taken_by(
    told: &Told,
    txn: &TxnOutcome,
    table: u32,
    other: &TxnOutcome,
    out: &mut Vec<u8>,
) -> Result<(), AllocError>
    ensures { OnOk result (out.new.items ≡ out.old.items ++ taken_by told.now.script.now told.now.outcome.now txn.now table other.now) }
{
    let count = placed_in(other, table);
    if count == 0 {
        return Ok(());
    }
    let in_the_way = may_take_room(told.outcome, txn, other);
    put_taken(told.script, other.label, count, in_the_way, out)
}

/// Appends how many places each of these took of those that a transaction looked for.
fn put_all_taken(
    told: &Told,
    txn: &TxnOutcome,
    table: u32,
    others: &[TxnOutcome],
    out: &mut Vec<u8>,
) -> Result<(), AllocError>
    ensures { OnOk result (out.new.items
        ≡ out.old.items ++ flat_map (taken_by told.now.script.now told.now.outcome.now txn.now table) others.now) }
{
    for other in others {
        put_taken_by(told, txn, table, other, out)?;
    }
    Ok(())
}

/// Appends why there was no room for a row in a table.
pub fn put_full(
    told: &Told,
    txn: &TxnOutcome,
    table: u32,
    out: &mut Vec<u8>,
) -> Result<(), AllocError>
    ensures { OnOk result (out.new.items ≡ out.old.items ++ full_text told.now.script.now told.now.outcome.now txn.now table) }
{
    put_insert(told.script, txn, table, out)?;
    put_places(told.script, table, out)?;
    put_all_taken(told, txn, table, told.outcome.txns.as_slice(), out)
}
