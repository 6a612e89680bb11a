//! Why a statement was refused whose value goes out of range.

ghost use Rattle.std.specs.Prelude.{◌≡◌, ◌++◌, OnOk};
ghost use Rattle.std.specs.Option.{option_copied};
ghost use Rattle.hy_explain.specs.Choosing.{is_chosen};
ghost use Rattle.hy_explain.specs.Words.{columns_at};
ghost use Rattle.hy_explain.specs.Explained.{going_out_text, sets_of, out_line, out_text, origin_line, range_text, stood_text};

use crate::choosing::{Choice, some_is_out};
use crate::found::{cell_before, refused_statement};
use crate::words::{columns_at, put, put_names};
use crate::{Told, put_label, put_refused, put_row};
use hy_bound::{Assign, Bound};
use hy_render::{Place, TxnOutcome};
use hy_schema::Column;
use hy_script::Script;
use hy_stamp::Label;
use hy_value::{StoredRow, print_stored_row};
use std::alloc::AllocError;

/// What a statement sets.
fn sets_of(statement: Option<&Bound>) -> &[Assign]
    ensures { result.now ≡ sets_of (option_copied statement.entry) }
{
    match statement {
        Some(Bound::Update { sets, .. }) => sets.as_slice(),
        _ => &[],
    }
}

/// Appends of which row a value went out of range.
#[tactic(auto, unfolding(crate::specs::Explained::out_line))]
fn put_out_line(
    script: &Script,
    txn: &TxnOutcome,
    place: Place,
    out: &mut Vec<u8>,
) -> Result<(), AllocError>
    ensures { OnOk result (out.new.items ≡ out.old.items ++ out_line script.now txn.now place.table place.pos) }
{
    put_refused(script, txn, out)?;
    put(b" takes a value of", out)?;
    put_row(script, place.table, place.pos, out)?;
    put(b" out of 64 bits.\n", out)
}

/// Appends which columns of a row are taken out of 64 bits.
#[tactic(auto, unfolding(crate::specs::Explained::out_text))]
fn put_out(
    columns: &[Column],
    sets: &[Assign],
    row: &StoredRow,
    out: &mut Vec<u8>,
) -> Result<(), AllocError>
    ensures { OnOk result (out.new.items ≡ out.old.items ++ out_text columns.now sets.now row.now) }
{
    let row = row.to_row()?;
    if !some_is_out(sets, &row) {
        return put(b", and the transaction had changed it.\n", out);
    }
    put_going_out(columns, Choice::OutOf(sets, &row), out)
}

/// Appends the chosen columns as those that go out of 64 bits.
fn put_going_out(columns: &[Column], choice: Choice, out: &mut Vec<u8>) -> Result<(), AllocError>
    ensures { OnOk result (out.new.items ≡ out.old.items ++ going_out_text columns.now (is_chosen choice.entry)) }
{
    put(b": by its values ", out)?;
    put_names(columns, choice, out)?;
    put(b" goes out.\n", out)
}

/// Appends a row that stood at the start of a transaction.
fn put_row_of_start(
    script: &Script,
    label: Label,
    row: &StoredRow,
    out: &mut Vec<u8>,
) -> Result<(), AllocError>
    ensures { OnOk result (out.new.items ≡ out.old.items ++ stood_text script.now label row.now) }
{
    put(b"There stood ", out)?;
    print_stored_row(row, out)?;
    put(b" at the start of ", out)?;
    put_label(script, label, out)
}

/// Appends what stood there at the start of the transaction.
#[tactic(auto, unfolding(crate::specs::Explained::origin_line))]
fn put_origin(
    script: &Script,
    label: Label,
    table: u32,
    sets: &[Assign],
    cell: Option<&StoredRow>,
    out: &mut Vec<u8>,
) -> Result<(), AllocError>
    ensures { OnOk result (out.new.items
        ≡ out.old.items ++ origin_line script.now label (columns_at script.now.catalog table) sets.now (option_copied cell.entry)) }
{
    let Some(row) = cell else {
        put(b"No row stood there at the start of ", out)?;
        put_label(script, label, out)?;
        return put(b", which had inserted it.\n", out);
    };
    put_row_of_start(script, label, row, out)?;
    put_out(columns_at(script.catalog.tables(), table), sets, row, out)
}

/// Appends why a statement was refused that takes a value at a position out of 64 bits.
pub fn put_range(
    told: &Told,
    txn: &TxnOutcome,
    place: Place,
    out: &mut Vec<u8>,
) -> Result<(), AllocError>
    ensures { OnOk result (out.new.items
        ≡ out.old.items ++ range_text told.now.script.now told.now.outcome.now txn.now place.table place.pos) }
{
    let rows = told.script.rows.as_slice();
    let order = told.outcome.order.as_slice();
    let cell = cell_before(rows, order, txn.start, place.table, place.pos);
    let sets = sets_of(refused_statement(told.script, txn));
    put_out_line(told.script, txn, place, out)?;
    put_origin(told.script, txn.label, place.table, sets, cell, out)
}
