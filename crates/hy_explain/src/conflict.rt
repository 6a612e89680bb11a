//! Why a statement was refused where another transaction had written.

ghost use Rattle.std.specs.Prelude.{◌≡◌, ◌++◌, OnOk};
ghost use Rattle.std.specs.Option.{option_copied};
ghost use Rattle.hy_explain.specs.Explained.{write_words, selects_text, write_line, stood_line, open_words, ended_text, rival_text, rival_line, conflict_text};

use crate::conditions::put_where;
use crate::found::{cell_before, committed_at, outcome_at, refused_statement};
use crate::invalid::put_version;
use crate::words::{columns_at, put};
use crate::{Told, put_label, put_rank, put_refused, put_row};
use hy_bound::{Bound, Ending};
use hy_render::{Place, TxnOutcome};
use hy_schema::Column;
use hy_script::Script;
use hy_stamp::Label;
use hy_value::StoredRow;
use std::alloc::AllocError;

/// What a statement was to do with a row that it selects.
fn write_words(statement: Option<&Bound>) -> &'static [u8]
    ensures { result.now ≡ write_words (option_copied statement.entry) }
{
    match statement {
        Some(Bound::Update { .. }) => b" was to update",
        Some(Bound::Delete { .. }) => b" was to delete",
        _ => b" was to write",
    }
}

/// Appends which rows a statement selects.
#[tactic(auto, unfolding(crate::specs::Explained::selects_text))]
fn put_selects(
    columns: &[Column],
    statement: Option<&Bound>,
    out: &mut Vec<u8>,
) -> Result<(), AllocError>
    ensures { OnOk result (out.new.items ≡ out.old.items ++ selects_text columns.now (option_copied statement.entry)) }
{
    match statement {
        Some(Bound::Update { pred, .. }) => put_where(columns, pred, out),
        Some(Bound::Delete { pred, .. }) => put_where(columns, pred, out),
        _ => Ok(()),
    }
}

/// Appends which statement was to write what.
#[tactic(auto, unfolding(crate::specs::Explained::write_line))]
fn put_write(
    script: &Script,
    txn: &TxnOutcome,
    place: Place,
    out: &mut Vec<u8>,
) -> Result<(), AllocError>
    ensures { OnOk result (out.new.items ≡ out.old.items ++ write_line script.now txn.now place.table place.pos) }
{
    let statement = refused_statement(script, txn);
    put_refused(script, txn, out)?;
    put(write_words(statement), out)?;
    put_row(script, place.table, place.pos, out)?;
    put_selects(
        columns_at(script.catalog.tables(), place.table),
        statement,
        out,
    )?;
    put(b".\n", out)
}

/// Appends what stood at a position at the start of a transaction.
fn put_stood(
    script: &Script,
    label: Label,
    cell: Option<&StoredRow>,
    out: &mut Vec<u8>,
) -> Result<(), AllocError>
    ensures { OnOk result (out.new.items ≡ out.old.items ++ stood_line script.now label (option_copied cell.entry)) }
{
    put(b"There stood ", out)?;
    put_version(cell, out)?;
    put(b" at the start of ", out)?;
    put_label(script, label, out)?;
    put(b".\n", out)
}

/// How a transaction ended that has not committed.
fn open_words(ending: &Ending) -> &'static [u8]
    ensures { result.now ≡ open_words ending.now }
{
    match ending {
        Ending::Committed { .. } => b" committed",
        Ending::Read => b" was still open; it wrote nothing",
        Ending::RolledBack => b" was still open; it rolled back later",
        Ending::Conflict { .. }
        | Ending::Invalid { .. }
        | Ending::Range { .. }
        | Ending::Full { .. } => b" was still open; it was refused later",
    }
}

/// Appends what became of the one that had written there.
#[tactic(auto, unfolding(crate::specs::Explained::rival_text, crate::specs::Explained::ended_text))]
fn put_rival(
    script: &Script,
    label: Label,
    rival: Option<&TxnOutcome>,
    out: &mut Vec<u8>,
) -> Result<(), AllocError>
    ensures { OnOk result (out.new.items ≡ out.old.items ++ rival_text script.now label (option_copied rival.entry)) }
{
    let Some(rival) = rival else {
        return put(b" is not told of", out);
    };
    match committed_at(&rival.ending) {
        Some(rank) => put_rank(script, label, rank, out),
        None => put(open_words(&rival.ending), out),
    }
}

/// Appends who had written there, and what became of it.
fn put_rival_line(
    script: &Script,
    label: Label,
    other: Label,
    rival: Option<&TxnOutcome>,
    out: &mut Vec<u8>,
) -> Result<(), AllocError>
    ensures { OnOk result (out.new.items ≡ out.old.items ++ rival_line script.now label other (option_copied rival.entry)) }
{
    put_label(script, other, out)?;
    put(b" had written there, and", out)?;
    put_rival(script, label, rival, out)?;
    put(b".\n", out)
}

/// Appends why a statement was refused at a position that another transaction had written.
pub fn put_conflict(
    told: &Told,
    txn: &TxnOutcome,
    place: Place,
    other: Label,
    out: &mut Vec<u8>,
) -> Result<(), AllocError>
    ensures { OnOk result (out.new.items
        ≡ out.old.items ++ conflict_text told.now.script.now told.now.outcome.now txn.now place.table place.pos other) }
{
    let rows = told.script.rows.as_slice();
    let order = told.outcome.order.as_slice();
    let cell = cell_before(rows, order, txn.start, place.table, place.pos);
    put_write(told.script, txn, place, out)?;
    put_stood(told.script, txn.label, cell, out)?;
    put_rival_line(
        told.script,
        txn.label,
        other,
        outcome_at(told.outcome, other),
        out,
    )
}
