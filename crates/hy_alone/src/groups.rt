//! The answer to a SELECT with GROUP BY, from the rows of its table.

ghost use Rattle.std.specs.Prelude.{◌≡◌, IfOk, filter, map};
ghost use Rattle.hy_value.specs.Sorted.{distinct};
ghost use Rattle.hy_bound.specs.Predicate.{column_of};
ghost use Rattle.hy_meaning.specs.Statement.{grouped};
ghost use Rattle.hy_meaning.specs.Totals.{added_of, group_at, groups_of, is_at_of, sum_of, total_of, values_of};

use crate::tables::rows_where;
use hy_bound::{Aggregate, Grouped, Groups, Pred, Reply, Rows, column_ref, column_value};
use hy_value::{Row, Seq, Value, ValueSet, compare_refs, copy_row};
use std::alloc::{AllocError, Global};

/// What a value adds to a sum.
fn amount(value: &Value) -> i128
    ensures { result ≡ added_of value.now }
{
    match value {
        Value::Int(number) => i128::from(*number),
        Value::Null | Value::Text(_) => 0,
    }
}

/// The sum of a column over rows. One past 128 bits would be want of memory: it takes 2^64 rows.
fn sum(column: u32, rows: &[Row]) -> Result<i128, AllocError>
    ensures { IfOk result (λ sum. sum ≡ sum_of column rows.now) }
{
    let mut sum = 0i128;
    for row in rows {
        let more = amount(&column_value(row, column));
        sum = sum.checked_add(more).ok_or(AllocError)?;
    }
    Ok(sum)
}

/// How many rows there are, or a sum over them. Err is for want of memory.
fn total(aggregate: Aggregate, rows: &[Row]) -> Result<i128, AllocError>
    ensures { IfOk result (λ total. total ≡ total_of aggregate rows.now) }
{
    match aggregate {
        Aggregate::Count => Ok(rows.len() as i128),
        Aggregate::Sum(column) => sum(column, rows),
    }
}

/// Whether a row has a value in a column; NULL is NULL.
fn is_at(column: u32, value: &Value, row: &Row) -> bool
    ensures { result ≡ is_at_of column value.now row.now }
{
    compare_refs(column_ref(row, column), value.refer()).is_eq()
}

/// Copies of the rows that have a value in a column. Err is for want of memory.
fn rows_at(alloc: Global, column: u32, value: &Value, rows: &[Row]) -> Result<Rows, AllocError>
    ensures { IfOk result (λ found. found ≡ filter (is_at_of column value.now) rows.now) }
{
    let mut found = Seq::new(alloc);
    for row in rows {
        if is_at(column, value, row) {
            found.push(copy_row(alloc, row)?)?;
        }
    }
    Ok(found)
}

/// The group of the rows that have a value in a column. Err is for want of memory.
fn group(
    alloc: Global,
    key: u32,
    aggregate: Aggregate,
    rows: &[Row],
    value: &Value,
) -> Result<Grouped, AllocError>
    ensures { IfOk result (λ group. group ≡ group_at key aggregate rows.now value.now) }
{
    let members = rows_at(alloc, key, value, rows)?;
    let total = total(aggregate, members.as_slice())?;
    Ok(Grouped {
        value: value.copy(),
        total,
    })
}

/// The different values of a column over rows, ascending. Err is for want of memory.
fn values(alloc: Global, column: u32, rows: &[Row]) -> Result<Vec<Value>, AllocError>
    ensures { IfOk result (λ values. values.items ≡ values_of column rows.now) }
{
    let mut found = ValueSet::new(alloc);
    for passed in 0..rows.len() {
        let row = &rows[rows.len() - 1 - passed];
        found.insert(column_value(row, column))?;
    }
    found.into_vec(alloc)
}

/// The groups of rows by their values in a column. Err is for want of memory.
fn groups(alloc: Global, key: u32, aggregate: Aggregate, rows: &[Row]) -> Result<Groups, AllocError>
    ensures { IfOk result (λ groups. groups ≡ groups_of key aggregate rows.now) }
{
    let values = values(alloc, key, rows)?;
    let mut groups = Seq::new(alloc);
    for value in &values {
        groups.push(group(alloc, key, aggregate, rows, value)?)?;
    }
    Ok(groups)
}

/// The answer to a SELECT with GROUP BY over the rows of its table. Err is for want of memory.
pub fn answer_grouped(
    alloc: Global,
    pred: &Pred,
    key: u32,
    aggregate: Aggregate,
    rows: &[Row],
) -> Result<Reply, AllocError>
    ensures { IfOk result (λ reply. reply ≡ grouped pred.now key aggregate rows.now) }
{
    let selected = rows_where(alloc, pred, rows)?;
    let groups = groups(alloc, key, aggregate, selected.as_slice())?;
    Ok(Reply::Groups(groups))
}
