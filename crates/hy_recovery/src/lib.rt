//! The tables that a setting begins with, as a redo log takes them, and their rows after it.
#![tactic(auto)]

ghost use Rattle.std.specs.Prelude.{◌≡◌, ℕ, ◌≤◌, List, Some, IfOk, IfErr, IsErrOf, slice_get};
ghost use Rattle.hy_outside.specs.Faults.{Rose};
ghost use Rattle.hy_disk.specs.Bytes.{IsOwn};
ghost use Rattle.hy_disk.specs.Calls.{IsDurable, Syncs};
ghost use Rattle.hy_bound.specs.Changes.{present};
ghost use Rattle.hy_machine.specs.Tables.{capacity, laid_out};
ghost use Rattle.hy_machine.specs.Outcomes.{rows_sorted};
ghost use Rattle.hy_redo.specs.Recovery.{DamagedIn};
ghost use Rattle.hy_recovery.specs.Recovered.{held, first_tables, rows_of, AreRecovered};

use hy_bound::StoredRows;
use hy_disk::Disk;
use hy_log_record::{HeldRows, HeldTable, HeldTables};
use hy_machine::Setting;
use hy_redo::{RecoverError, recover};
use hy_value::{Kinds, Seq, StoredRow, sort_stored_rows};
use std::alloc::{AllocError, Global};

/// How many positions a table has.
fn positions_of(setting: &Setting) -> usize
    ensures { result ≡ capacity setting.now }
{
    setting.chunks as usize * setting.rows as usize
}

/// A copy of the row with this number, where there is one.
fn cell_at(
    alloc: Global,
    rows: &[StoredRow],
    number: usize,
) -> Result<Option<StoredRow>, AllocError>
    ensures { IfOk result (λ cell. cell ≡ slice_get rows.now number) }
{
    match rows.get(number) {
        None => Ok(None),
        Some(row) => Ok(Some(row.copy(alloc)?)),
    }
}

/// Copies of the rows at the first of so many positions, and no rows behind them.
fn cells_of(alloc: Global, rows: &[StoredRow], positions: usize) -> Result<HeldRows, AllocError>
    ensures { IfOk result (λ cells. cells ≡ laid_out positions rows.now) }
{
    let mut cells = Seq::new(alloc);
    for pos in 0..positions {
        cells.push(cell_at(alloc, rows, pos)?)?;
    }
    Ok(cells)
}

/// A table of these kinds, with its first rows at the first of so many positions.
fn table_of(
    alloc: Global,
    kinds: &Kinds,
    rows: &StoredRows,
    positions: usize,
) -> Result<HeldTable, AllocError>
    ensures { IfOk result (λ table. table ≡ held kinds.now (laid_out positions rows.now)) }
{
    Ok(HeldTable {
        kinds: Seq::from_slice(alloc, kinds.as_slice())?,
        rows: cells_of(alloc, rows.as_slice(), positions)?,
    })
}

/// The tables that a setting begins with.
fn tables_of(alloc: Global, setting: &Setting, kinds: &[Kinds]) -> Result<HeldTables, AllocError>
    ensures { IfOk result (λ tables. tables ≡ first_tables kinds.now setting.now) }
{
    let positions = positions_of(setting);
    let mut tables = Seq::new(alloc);
    for (columns, rows) in kinds.iter().zip(setting.first.as_slice()) {
        tables.push(table_of(alloc, columns, rows, positions)?)?;
    }
    Ok(tables)
}

/// The rows that are there.
fn present_rows(alloc: Global, cells: HeldRows) -> Result<Vec<StoredRow>, AllocError>
    ensures { IfOk result (λ rows. rows.items ≡ present cells) }
{
    let mut rows = Vec::new(alloc);
    for cell in cells.into_vec() {
        if let Some(row) = cell {
            rows.push(row)?;
        }
    }
    Ok(rows)
}

/// The rows that are there, ascending.
fn ascending_rows(alloc: Global, cells: HeldRows) -> Result<StoredRows, AllocError>
    ensures { IfOk result (λ rows. rows ≡ rows_sorted cells) }
{
    let mut rows = present_rows(alloc, cells)?;
    sort_stored_rows(&mut rows)?;
    Ok(Seq::from_vec(rows))
}

/// The rows of each table, ascending.
fn all_rows(alloc: Global, tables: HeldTables) -> Result<Seq<StoredRows>, AllocError>
    ensures { IfOk result (λ rows. rows ≡ rows_of tables) }
{
    let mut all = Seq::new(alloc);
    for table in tables.into_vec() {
        let HeldTable { kinds: _, rows } = table;
        all.push(ascending_rows(alloc, rows)?)?;
    }
    Ok(all)
}

/// What a disk's redo log makes of the first tables of a setting, whose columns have these kinds: the rows of each table
/// after the log, ascending. Where there are more tables than kinds or fewer, the longer list is cut. What the bytes
/// recover to is sure before they are read, and the disk is sure too where memory runs out.
///
/// Err tells where the log is damaged, that a call of the disk failed, or that memory ran out.
pub fn recover_rows<D: Disk>(
    alloc: Global,
    setting: &Setting,
    kinds: &[Kinds],
    disk: &mut D,
) -> Result<Seq<StoredRows>, RecoverError>
    ensures found { IfOk result (λ rows. (bytes : List ℕ) × IsOwn (D.held disk.old) bytes
        × AreRecovered (first_tables kinds.now setting.now) bytes rows) }
    ensures damaged { IfErr result (DamagedIn (first_tables kinds.now setting.now) (D.held disk.old)) }
    ensures sure { ¬ IsErrOf result RecoverError.DiskFault → IsDurable (D.held disk.new) (D.image disk.new) }
    ensures held { D.held disk.new ≡ D.held disk.old }
    ensures syncs { Syncs D.held D.clock D.image D.image_since disk.old disk.new }
    ensures fault { IsErrOf result RecoverError.DiskFault → Rose (D.faults disk.old) (D.faults disk.new) }
    ensures steady { ¬ IsErrOf result RecoverError.DiskFault → D.faults disk.new ≡ D.faults disk.old }
    ensures never_fell { D.faults disk.old ≤ D.faults disk.new }
{
    let Ok(tables) = tables_of(alloc, setting, kinds) else {
        // What the disk has is made sure all the same.
        disk.sync()?;
        return Err(RecoverError::OutOfMemory);
    };
    let found = recover(alloc, disk, tables)?;
    Ok(all_rows(alloc, found)?)
}
