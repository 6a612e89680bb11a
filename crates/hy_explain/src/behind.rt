//! The tables behind the first entries of the commit order, and a transaction alone on them.

ghost use Rattle.std.specs.Prelude.{◌≡◌, ℕ, [], IfOk, OnOk, slice_get, slice_index_or, slice_set};
ghost use Rattle.std.specs.Option.{option_copied, option_map};
ghost use Rattle.hy_value.specs.Sorted.{sorted};
ghost use Rattle.hy_bound.specs.Changes.{present};
ghost use Rattle.hy_lawful.specs.Cells.{after_changes};
ghost use Rattle.hy_machine.specs.Tables.{laid_out};
ghost use Rattle.hy_explain.specs.Behind.{alone_behind, cells_after, positions_of, rows_behind, tables_behind};

use crate::Told;
use crate::found::{front, statements_at};
use crate::reads::shapes_of;
use hy_alone::{Database, GivenAlone, run_alone};
use hy_bound::Rows;
use hy_render::Committed;
use hy_script::Script;
use hy_stamp::Label;
use hy_value::{Change, Seq, StoredRow, sort_rows};
use std::alloc::{AllocError, Global};

/// The cells of a table, by position.
type Cells = Seq<Option<StoredRow>>;

/// A copy of a row, where there is one. Err is for want of memory.
fn copy_cell(alloc: Global, row: Option<&StoredRow>) -> Result<Option<StoredRow>, AllocError>
    ensures { IfOk result (λ cell. cell ≡ option_copied row.entry) }
{
    match row {
        Some(row) => Ok(Some(row.copy(alloc)?)),
        None => Ok(None),
    }
}

/// A copy of the row of a number, where there is one. Err is for want of memory.
fn cell_of(
    alloc: Global,
    rows: &[StoredRow],
    number: usize,
) -> Result<Option<StoredRow>, AllocError>
    ensures { IfOk result (λ cell. cell ≡ slice_get rows.now number) }
{
    match rows.get(number) {
        Some(row) => Ok(Some(row.copy(alloc)?)),
        None => Ok(None),
    }
}

/// Rows at the first of so many positions. Err is for want of memory.
fn lay_out(alloc: Global, rows: &[StoredRow], positions: usize) -> Result<Cells, AllocError>
    ensures { IfOk result (λ cells. cells ≡ laid_out positions rows.now) }
{
    let mut cells = Seq::new(alloc);
    for pos in 0..positions {
        cells.push(cell_of(alloc, rows, pos)?)?;
    }
    Ok(cells)
}

/// Makes a cell what a change leaves there; a position that isn't there is left. Err is for want of memory.
fn lay_change(alloc: Global, change: &Change, cells: &mut Cells) -> Result<(), AllocError>
    ensures { OnOk result (cells.new ≡ slice_set cells.old change.now.pos change.now.after) }
{
    let pos = change.pos as usize;
    if pos < cells.len() {
        let after = copy_cell(alloc, change.after.as_ref())?;
        cells.replace(pos, after);
    }
    Ok(())
}

/// Makes the cells of a table what changes leave there. Err is for want of memory.
fn lay_changes(
    alloc: Global,
    table: u32,
    changes: &[Change],
    cells: &mut Cells,
) -> Result<(), AllocError>
    ensures { OnOk result ((pos : ℕ) → slice_get cells.new pos
        ≡ option_map (λ cell. after_changes table pos cell changes.now) (slice_get cells.old pos)) }
{
    for change in changes {
        if change.table == table {
            lay_change(alloc, change, cells)?;
        }
    }
    Ok(())
}

/// What stands at each of so many positions of a table with these first rows, after entries. Err is for want of memory.
fn lay_entries(
    alloc: Global,
    rows: &[StoredRow],
    positions: usize,
    entries: &[Committed],
    table: u32,
) -> Result<Cells, AllocError>
    ensures { IfOk result (λ cells. cells ≡ cells_after rows.now table entries.now positions) }
{
    let mut cells = lay_out(alloc, rows, positions)?;
    for entry in entries {
        lay_changes(alloc, table, entry.changes.as_slice(), &mut cells)?;
    }
    Ok(cells)
}

/// The rows that are there, ascending. Err is for want of memory.
fn ascending_rows(alloc: Global, cells: &[Option<StoredRow>]) -> Result<Rows, AllocError>
    ensures { IfOk result (λ rows. rows ≡ sorted (present cells.now)) }
{
    let mut rows = Vec::new(alloc);
    for cell in cells {
        if let Some(row) = cell {
            rows.push(row.to_row()?)?;
        }
    }
    sort_rows(&mut rows)?;
    Ok(Seq::from_vec(rows))
}

/// How many positions each table has.
fn count_positions(script: &Script) -> usize
    ensures { result ≡ positions_of script.now }
{
    script.options.chunks as usize * script.options.rows as usize
}

/// The first rows of a table; one that isn't there has none.
fn first_rows(script: &Script, table: u32) -> &[StoredRow]
    ensures { result.now ≡ slice_index_or script.now.rows table [] }
{
    match script.rows.as_slice().get(table as usize) {
        Some(rows) => rows.as_slice(),
        None => &[],
    }
}

/// The rows of a table after the entries before a rank. Err is for want of memory.
fn rows_after(
    alloc: Global,
    script: &Script,
    order: &[Committed],
    rank: u32,
    table: u32,
) -> Result<Rows, AllocError>
    ensures { IfOk result (λ rows. rows ≡ rows_behind script.now order.now rank table) }
{
    let positions = count_positions(script);
    let entries = front(order, rank as usize);
    let cells = lay_entries(alloc, first_rows(script, table), positions, entries, table)?;
    ascending_rows(alloc, cells.as_slice())
}

/// The rows of all tables after the entries before a rank. Err is for want of memory.
fn tables_after(
    alloc: Global,
    script: &Script,
    order: &[Committed],
    rank: u32,
) -> Result<Database, AllocError>
    ensures { IfOk result (λ tables. tables ≡ tables_behind script.now order.now rank) }
{
    let count = u32::try_from(script.rows.len()).map_err(|_| AllocError)?;
    let mut tables = Seq::new(alloc);
    for table in 0..count {
        tables.push(rows_after(alloc, script, order, rank, table)?)?;
    }
    Ok(tables)
}

/// What a transaction is told, alone on the tables after the entries before a rank. Err is for want of memory.
pub fn run_behind(told: &Told, label: Label, rank: u32) -> Result<GivenAlone, AllocError>
    ensures replies { IfOk result (λ given. given.replies ≡ (alone_behind told.now.script.now told.now.outcome.now.order label rank).replies) }
    ensures stop { IfOk result (λ given. given.stop ≡ (alone_behind told.now.script.now told.now.outcome.now.order label rank).stop) }
{
    let script = told.script;
    let shapes = shapes_of(told.alloc, script.catalog.tables())?;
    let tables = tables_after(told.alloc, script, told.outcome.order.as_slice(), rank)?;
    run_alone(
        told.alloc,
        shapes.as_slice(),
        statements_at(script, label),
        tables,
    )
}
