//! INSERT, UPDATE and DELETE over the rows of a table.

ghost use Rattle.std.specs.Prelude.{◌≡◌, IfOk, MatchOption, None, Some};
ghost use Rattle.std.specs.List.{list_any};
ghost use Rattle.hy_bound.specs.Records.{shape_of};
ghost use Rattle.hy_meaning.specs.Statement.{deleted, has_key_of, inserted, rows_in, updated_row, updated_rows, with_table};

use crate::tables::{Database, copy_rows, count_where, put_rows, rows_beside, rows_of};
use hy_bound::{Pred, Reply, Rows, Sets, Shape, Side, column_value, set_row, table_shape, truth};
use hy_value::{Cmp, Row, Seq, StoredRow, copy_row, sort_rows};
use std::alloc::{AllocError, Global};

/// Whether one of some rows has the key that a new one brings. Err is for want of memory.
fn finds_key(alloc: Global, new: &Row, key: Option<u32>, rows: &[Row]) -> Result<bool, AllocError>
    ensures { IfOk result (λ found. found ≡ list_any (has_key_of new.now key) rows.now) }
{
    match key {
        None => Ok(false),
        Some(key) => {
            let same = Pred::compare(alloc, key, Cmp::Eq, Side::Literal(column_value(new, key)))?;
            Ok(rows.iter().any(|row| truth(&same, row)))
        }
    }
}

/// An INSERT: the row comes unless one with its key is there. Err is for want of memory.
pub fn insert(
    alloc: Global,
    shapes: &[Shape],
    table: u32,
    row: &StoredRow,
    db: &mut Database,
) -> Result<Reply, AllocError>
    ensures { IfOk result (λ reply. (reply, db.new) ≡ inserted (shape_of shapes.now table).key table row.now db.old) }
{
    let row = row.to_row()?;
    let key = table_shape(shapes, table).key;
    if finds_key(alloc, &row, key, rows_of(db, table))? {
        return Ok(Reply::Duplicate);
    }
    let mut rows = copy_rows(alloc, rows_of(db, table))?.into_vec();
    rows.push(row)?;
    sort_rows(&mut rows)?;
    put_rows(db, table, Seq::from_vec(rows));
    Ok(Reply::Inserted)
}

/// A row after an UPDATE, or none where a value is out of range. Err is for want of memory.
fn set_where(alloc: Global, sets: &Sets, pred: &Pred, row: &Row) -> Result<Option<Row>, AllocError>
    ensures { IfOk result (λ new. new ≡ updated_row sets.now pred.now row.now) }
{
    if truth(pred, row) {
        set_row(alloc, sets, row)
    } else {
        Ok(Some(copy_row(alloc, row)?))
    }
}

/// The rows after an UPDATE, unless a value of one that it selects is out of range. Err is for want of memory.
fn set_all(
    alloc: Global,
    sets: &Sets,
    pred: &Pred,
    rows: &[Row],
) -> Result<Option<Rows>, AllocError>
    ensures { IfOk result (λ new. new ≡ updated_rows sets.now pred.now rows.now) }
{
    let mut all = Seq::new(alloc);
    for row in rows {
        let Some(new) = set_where(alloc, sets, pred, row)? else {
            return Ok(None);
        };
        all.push(new)?;
    }
    Ok(Some(all))
}

/// An UPDATE: nothing is told, and nothing changes, where a value is out of range. Err is for want of memory.
pub fn update(
    alloc: Global,
    table: u32,
    sets: &Sets,
    pred: &Pred,
    db: &mut Database,
) -> Result<Option<Reply>, AllocError>
    ensures { IfOk result (λ told. MatchOption told
        (with_table pred.now table db.old (updated_rows sets.now pred.now (rows_in db.old table)) ≡ None)
        (λ reply. with_table pred.now table db.old (updated_rows sets.now pred.now (rows_in db.old table)) ≡ Some (reply, db.new))) }
{
    let selected = count_where(pred, rows_of(db, table));
    let Some(rows) = set_all(alloc, sets, pred, rows_of(db, table))? else {
        return Ok(None);
    };
    let mut rows = rows.into_vec();
    sort_rows(&mut rows)?;
    put_rows(db, table, Seq::from_vec(rows));
    Ok(Some(Reply::Updated(selected)))
}

/// A DELETE: the rows that it selects go. Err is for want of memory.
pub fn delete(
    alloc: Global,
    table: u32,
    pred: &Pred,
    db: &mut Database,
) -> Result<Reply, AllocError>
    ensures { IfOk result (λ reply. (reply, db.new) ≡ deleted pred.now table db.old) }
{
    let selected = count_where(pred, rows_of(db, table));
    let left = rows_beside(alloc, pred, rows_of(db, table))?;
    put_rows(db, table, left);
    Ok(Reply::Deleted(selected))
}
