//! What an engine gathers of tables for a plan.

use hy_bound::{Rows, column_value, is_null, project_row, truth};
use hy_plan::{Gathered, Lookup, PlanPart};
use hy_value::{Row, Seq, ValueSet};
use std::alloc::{AllocError, Global};

/// Over so many different values a table isn't looked up by its key.
const MOST_KEYS: usize = 1024;

/// The rows of a table; one that isn't there has none.
pub fn rows_of(tables: &[Rows], table: u32) -> &[Row] {
    match tables.get(table as usize) {
        Some(rows) => rows.as_slice(),
        None => &[],
    }
}

/// What is gathered for each part of a plan.
pub fn gather(
    alloc: Global,
    parts: &[PlanPart],
    tables: &[Rows],
) -> Result<Vec<Gathered>, AllocError> {
    let mut all = Vec::new(alloc);
    for part in parts {
        let keys = match part.lookup {
            Some(by) => known_values(alloc, parts, all.as_slice(), by)?,
            None => None,
        };
        all.push(gather_part(alloc, part, keys, rows_of(tables, part.table))?)?;
    }
    Ok(all)
}

/// The values by which a table is looked up.
#[derive(Drop)]
pub struct KeyValues {
    /// Its key.
    key: u32,
    /// The values.
    values: ValueSet,
}

/// The rows of a table of which a part's condition is true and that have one of the keys, by the part's columns.
fn gather_part(
    alloc: Global,
    part: &PlanPart,
    keys: Option<KeyValues>,
    rows: &[Row],
) -> Result<Gathered, AllocError> {
    let mut gathered = Gathered::new(alloc, count(part))?;
    for row in rows {
        if truth(&part.pred, row) && has_key(&keys, row) {
            let kept = project_row(alloc, part.columns, row)?;
            if kept.len() == gathered.width() {
                gathered.push(kept.as_slice())?;
            }
        }
    }
    Ok(gathered)
}

/// How many columns are gathered of a part.
fn count(part: &PlanPart) -> usize {
    (0..part.width)
        .filter(|column| part.columns.has(*column))
        .count()
}

/// Whether a row has one of the keys, if there are keys.
fn has_key(keys: &Option<KeyValues>, row: &Row) -> bool {
    match keys {
        Some(keys) => keys.values.has(&column_value(row, keys.key)),
        None => true,
    }
}

/// The different values other than NULL that were gathered of the column by which a table is looked up, unless
/// they are many.
fn known_values(
    alloc: Global,
    parts: &[PlanPart],
    gathered: &[Gathered],
    by: Lookup,
) -> Result<Option<KeyValues>, AllocError> {
    let mut values = ValueSet::new(alloc);
    for value in values_of(alloc, parts, gathered, by.source)?.as_slice() {
        if !is_null(value) {
            values.insert(value.copy())?;
        }
    }
    if values.len() > MOST_KEYS {
        return Ok(None);
    }
    Ok(Some(KeyValues {
        key: by.key,
        values,
    }))
}

/// The values that were gathered of a column of the joined row.
fn values_of(
    alloc: Global,
    parts: &[PlanPart],
    gathered: &[Gathered],
    source: u32,
) -> Result<Row, AllocError> {
    let mut column = source;
    for (part, gathered) in parts.iter().zip(gathered) {
        if column < part.width {
            return column_of(alloc, spread(alloc, part, gathered)?.as_slice(), column);
        }
        column -= part.width;
    }
    Ok(Seq::new(alloc))
}

/// A column of rows.
fn column_of(alloc: Global, rows: &[Row], column: u32) -> Result<Row, AllocError> {
    let mut values = Seq::new(alloc);
    for row in rows {
        values.push(column_value(row, column))?;
    }
    Ok(values)
}

/// What was gathered for a part, as rows of its table: NULL in the other columns.
fn spread(alloc: Global, part: &PlanPart, gathered: &Gathered) -> Result<Rows, AllocError> {
    let mut rows = Seq::new(alloc);
    for index in 0..gathered.len() {
        let mut row = Seq::new(alloc);
        gathered.push_spread(index, part.columns, part.width, &mut row)?;
        rows.push(row)?;
    }
    Ok(rows)
}
