//! The predicate tree beside a plain list of records.

use hy_bound::{Pred, Record, Side, hits};
use hy_validate::Tree;
use hy_value::{Change, Cmp, ColMask, StoredRow, Value};
use std::alloc::{AllocError, Global};

/// How many records there are.
const RECORDS: u32 = 100;

/// The record of a read of the rows whose first column is 1 and whose second one is above a number.
fn record(alloc: Global, above: u32) -> Result<Record, AllocError> {
    let shared = Pred::compare(alloc, 0, Cmp::Eq, Side::Literal(Value::Int(1)))?;
    let number = Value::Int(i64::from(above));
    let own = Pred::compare(alloc, 1, Cmp::Gt, Side::Literal(number))?;
    Ok(Record {
        statement: 1,
        table: 0,
        pred: Pred::and(alloc, shared, own)?,
        columns: ColMask::none().with(0).with(1),
    })
}

/// Records that share their first condition.
pub fn records(alloc: Global) -> Result<Vec<Record>, AllocError> {
    let mut records = Vec::new(alloc);
    for above in 0..RECORDS {
        records.push(record(alloc, above)?)?;
    }
    Ok(records)
}

/// A row of two numbers.
fn row(alloc: Global, first: i64, second: i64) -> Result<StoredRow, AllocError> {
    StoredRow::from_values(alloc, &[Value::Int(first), Value::Int(second)])
}

/// A change that makes the shared condition true neither before nor after it.
pub fn change(alloc: Global) -> Result<Change, AllocError> {
    Ok(Change {
        table: 0,
        pos: 0,
        before: Some(row(alloc, 2, 50)?),
        after: Some(row(alloc, 2, 60)?),
    })
}

/// How many times out of so many the tree finds no record that is hit.
pub fn missed_by_tree(alloc: Global, rounds: u32) -> Result<u32, AllocError> {
    let records = records(alloc)?;
    let tree = Tree::build(alloc, &records)?;
    let change = change(alloc)?;
    let mut missed = 0u32;
    for _round in 0..rounds {
        missed = missed.wrapping_add(u32::from(tree.first_hit(&change).is_none()));
    }
    Ok(missed)
}

/// The same, each record being asked in turn.
pub fn missed_by_list(alloc: Global, rounds: u32) -> Result<u32, AllocError> {
    let records = records(alloc)?;
    let change = change(alloc)?;
    let mut missed = 0u32;
    for _round in 0..rounds {
        missed = missed.wrapping_add(u32::from(is_missed(&records, &change)));
    }
    Ok(missed)
}

/// Whether a change hits none of these records.
fn is_missed(records: &[Record], change: &Change) -> bool {
    let hit = records.iter().position(|record| hits(
        record,
        change.before.as_ref(),
        change.after.as_ref(),
    ));
    hit.is_none()
}
