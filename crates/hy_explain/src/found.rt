//! What an outcome has of those that are named in a refusal.

ghost use Rattle.std.specs.Prelude.{◌≡◌, ◌++◌, [], find, slice_get, slice_index_or, take};
ghost use Rattle.std.specs.Option.{option_copied};
ghost use Rattle.hy_lawful.specs.Outcomes.{is_label, outcome_at, committed_at};
ghost use Rattle.hy_lawful.specs.Cells.{after_changes};
ghost use Rattle.hy_explain.specs.Found.{txns_in, statements_at, statement_at, refused_statement, rank_of, changes_at, is_at, change_of, cell_before};

use hy_bound::{Bound, Ending, StoredRows};
use hy_render::{Committed, Outcome, TxnOutcome};
use hy_script::Script;
use hy_stamp::Label;
use hy_value::{Change, StoredRow};

/// The statements of a transaction of a script.
pub fn statements_at(script: &Script, label: Label) -> &[Bound]
    ensures { result.now ≡ statements_at script.now label }
{
    let Some(session) = script.sessions.as_slice().get(label.session as usize) else {
        return &[];
    };
    if label.txn == 0 {
        return &[];
    }
    match session.txns.as_slice().get(label.txn as usize - 1) {
        Some(txn) => txn.statements.as_slice(),
        None => &[],
    }
}

/// One of them, by its number from 1.
pub fn statement_at(script: &Script, label: Label, number: u32) -> Option<&Bound>
    ensures { option_copied result ≡ statement_at script.now label number }
{
    if number == 0 {
        return None;
    }
    statements_at(script, label).get(number as usize - 1)
}

/// The statement that was refused, if one was.
pub fn refused_statement<'a>(script: &'a Script, txn: &TxnOutcome) -> Option<&'a Bound>
    ensures { option_copied result ≡ refused_statement script.now txn.now }
{
    statements_at(script, txn.label).get(txn.replies.len())
}

/// Whether two labels are the same.
pub fn is_label(label: Label, other: Label) -> bool
    ensures { result ≡ is_label label other }
{
    label.session == other.session && label.txn == other.txn
}

/// What the transaction of this label came to.
pub fn outcome_at(outcome: &Outcome, label: Label) -> Option<&TxnOutcome>
    ensures { option_copied result ≡ outcome_at outcome.now label }
{
    outcome
        .txns
        .as_slice()
        .iter()
        .find(|txn| is_label(txn.label, label))
}

/// The rank of the commit order at which a transaction ended, if it did at one.
pub fn committed_at(ending: &Ending) -> Option<u32>
    ensures { result ≡ committed_at ending.now }
{
    match ending {
        Ending::Committed { rank } => Some(*rank),
        _ => None,
    }
}

/// The rank at which the transaction of this label has committed, if it has.
pub fn rank_of(outcome: &Outcome, label: Label) -> Option<u32>
    ensures { result ≡ rank_of outcome.now label }
{
    match outcome_at(outcome, label) {
        Some(txn) => committed_at(&txn.ending),
        None => None,
    }
}

/// The changes of the entry at a rank.
fn changes_at(order: &[Committed], rank: Option<u32>) -> &[Change]
    ensures { result.now ≡ changes_at order.now rank }
{
    let Some(rank) = rank else {
        return &[];
    };
    match order.get(rank as usize) {
        Some(entry) => entry.changes.as_slice(),
        None => &[],
    }
}

/// Whether a change is at a position.
fn is_at(table: u32, pos: u32, change: &Change) -> bool
    ensures { result ≡ is_at table pos change.now }
{
    change.table == table && change.pos == pos
}

/// The change of a position by a transaction that has committed.
pub fn change_of(outcome: &Outcome, label: Label, table: u32, pos: u32) -> Option<&Change>
    ensures { option_copied result ≡ change_of outcome.now label table pos }
{
    let rank = rank_of(outcome, label);
    changes_at(outcome.order.as_slice(), rank)
        .iter()
        .find(|change| is_at(table, pos, change))
}

/// What stands at a position after these changes.
fn after_changes<'a>(
    table: u32,
    pos: u32,
    cell: Option<&'a StoredRow>,
    changes: &'a [Change],
) -> Option<&'a StoredRow>
    ensures { option_copied result ≡ after_changes table pos (option_copied cell.entry) changes.now }
{
    let mut now = cell;
    for change in changes {
        if is_at(table, pos, change) {
            now = change.after.as_ref();
        }
    }
    now
}

/// The row that stood first at a position of a table.
fn first_at(rows: &[StoredRows], table: u32, pos: u32) -> Option<&StoredRow>
    ensures { option_copied result ≡ slice_get (slice_index_or rows.now table []) pos }
{
    match rows.get(table as usize) {
        Some(rows) => rows.as_slice().get(pos as usize),
        None => None,
    }
}

/// What stands at a position after the entries before a rank, of which there may be fewer.
pub fn cell_before<'a>(
    rows: &'a [StoredRows],
    order: &'a [Committed],
    rank: u32,
    table: u32,
    pos: u32,
) -> Option<&'a StoredRow>
    ensures { option_copied result ≡ cell_before rows.now order.now rank table pos }
{
    let mut cell = first_at(rows, table, pos);
    let entries = front(order, rank as usize);
    for entry in entries {
        cell = after_changes(table, pos, cell, entry.changes.as_slice());
    }
    cell
}

/// The first entries, so many or all.
pub fn front(order: &[Committed], count: usize) -> &[Committed]
    ensures { result.now ≡ take count order.now }
{
    if count >= order.len() {
        return order;
    }
    &order[..count]
}
