//! The rows of tables, by number.

ghost use Rattle.std.specs.Prelude.{◌≡◌, IfOk, not, slice_set, filter, map, count_by};
ghost use Rattle.hy_bound.specs.Predicate.{truth_of};
ghost use Rattle.hy_meaning.specs.Statement.{rows_in};

use hy_bound::{Pred, Rows, truth};
use hy_value::{Row, Seq, copy_row};
use std::alloc::{AllocError, Global};

/// The rows of each table, by number.
pub type Database = Seq<Rows>;

/// The rows of a table; one that isn't there has none.
pub fn rows_of(db: &Database, table: u32) -> &[Row]
    ensures { result.now ≡ rows_in db.now table }
{
    match db.as_slice().get(table as usize) {
        Some(rows) => rows.as_slice(),
        None => &[],
    }
}

/// Copies of rows. Err is for want of memory.
pub fn copy_rows(alloc: Global, rows: &[Row]) -> Result<Rows, AllocError>
    ensures { IfOk result (λ copies. copies ≡ rows.now) }
{
    let mut copies = Seq::new(alloc);
    for row in rows {
        copies.push(copy_row(alloc, row)?)?;
    }
    Ok(copies)
}

/// Copies of the rows of tables, one after another. Err is for want of memory.
pub fn gather(alloc: Global, db: &Database, tables: &[u32]) -> Result<Vec<Rows>, AllocError>
    ensures { IfOk result (λ gathered. gathered.items ≡ map (rows_in db.now) tables.now) }
{
    let mut gathered = Vec::new(alloc);
    for table in tables {
        gathered.push(copy_rows(alloc, rows_of(db, *table))?)?;
    }
    Ok(gathered)
}

/// Copies of the rows of all tables. Err is for want of memory.
pub fn copy_database(alloc: Global, db: &Database) -> Result<Database, AllocError>
    ensures { IfOk result (λ copies. copies ≡ db.now) }
{
    let mut copies = Seq::new(alloc);
    for rows in db.as_slice() {
        copies.push(copy_rows(alloc, rows.as_slice())?)?;
    }
    Ok(copies)
}

/// Puts rows in place of a table's; a table that isn't there gets none.
pub fn put_rows(db: &mut Database, table: u32, rows: Rows)
    ensures { db.new ≡ slice_set db.old table rows }
{
    if (table as usize) < db.len() {
        db.replace(table as usize, rows);
    }
}

/// Copies of the rows of which a condition is true. Err is for want of memory.
pub fn rows_where(alloc: Global, pred: &Pred, rows: &[Row]) -> Result<Rows, AllocError>
    ensures { IfOk result (λ found. found ≡ filter (truth_of pred.now) rows.now) }
{
    let mut found = Seq::new(alloc);
    for row in rows {
        if truth(pred, row) {
            found.push(copy_row(alloc, row)?)?;
        }
    }
    Ok(found)
}

/// Copies of the rows of which a condition is not true. Err is for want of memory.
pub fn rows_beside(alloc: Global, pred: &Pred, rows: &[Row]) -> Result<Rows, AllocError>
    ensures { IfOk result (λ left. left ≡ filter (λ row. not (truth_of pred.now row)) rows.now) }
{
    let mut left = Seq::new(alloc);
    for row in rows {
        if !truth(pred, row) {
            left.push(copy_row(alloc, row)?)?;
        }
    }
    Ok(left)
}

/// Of how many rows a condition is true.
pub fn count_where(pred: &Pred, rows: &[Row]) -> u64
    ensures { result ≡ count_by (truth_of pred.now) rows.now }
{
    let mut count = 0u64;
    for row in rows {
        if truth(pred, row) {
            count += 1;
        }
    }
    count
}
