//! What is kept of rows.

ghost use Rattle.std.specs.Prelude.{◌≡◌, ◌++◌, IfOk, OnOk};
ghost use Rattle.hy_value.specs.Columns.{has_column};
ghost use Rattle.hy_bound.specs.Projection.{masked, masked_from, projected, projected_from};

use hy_value::{ColMask, Row, Seq, Value};
use std::alloc::{AllocError, Global};

/// The row with NULL in each column outside a set.
pub fn mask_row(alloc: Global, columns: ColMask, row: &Row) -> Result<Row, AllocError>
    ensures { IfOk result (λ kept. kept ≡ masked columns row.now) }
{
    let mut kept = Vec::with_capacity(alloc, row.len())?;
    for (column, value) in row.as_slice().iter().enumerate() {
        let value = if has(columns, column) {
            value.copy()
        } else {
            Value::Null
        };
        kept.push(value)?;
    }
    Ok(Seq::from_vec(kept))
}

/// The values of a row that are in columns of a set, in column order.
pub fn project_row(alloc: Global, columns: ColMask, row: &Row) -> Result<Row, AllocError>
    ensures { IfOk result (λ kept. kept ≡ projected columns row.now) }
{
    let most = row.len().min(columns.0.count_ones() as usize);
    let mut kept = Vec::with_capacity(alloc, most)?;
    for (column, value) in row.as_slice().iter().enumerate() {
        if has(columns, column) {
            kept.push(value.copy())?;
        }
    }
    Ok(Seq::from_vec(kept))
}

/// Whether a set has the column of this number.
fn has(columns: ColMask, column: usize) -> bool
    ensures { result ≡ has_column columns column }
{
    column < 32 && columns.has(column as u32)
}
