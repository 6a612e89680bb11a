//! Rows that a condition is asked of, as they are worked on and as they are kept.

ghost use Rattle.std.specs.Prelude.{◌≡◌, IfSome, IfNone};
ghost use Rattle.hy_value.specs.declared.Value.TheVariants.{Null};
ghost use Rattle.hy_value.specs.Refs.{referred};
ghost use Rattle.hy_bound.specs.Predicate.{column_of};

use crate::predicate::cell;
use hy_value::{Row, StoredRow, ValueRef};

/// Values by column.
pub trait Cells {
    ghost use Rattle.std.specs.Prelude.{List};
    ghost use Rattle.hy_value.specs.declared.Value.{Value};

    ghost values: { Self → List Value };

    /// The value in a column where it stands, where there is one.
    fn cell_at(&self, column: u32) -> Option<ValueRef<'_>>
        ensures value { IfSome result (λ value. referred value ≡ column_of (values self.now) column) }
        ensures none { IfNone result (column_of (values self.now) column ≡ Null) };
}

impl Cells for Row {
    ghost values = { λ row. row };

    fn cell_at(&self, column: u32) -> Option<ValueRef<'_>> {
        let value = cell(self, column)?;
        Some(value.refer())
    }
}

impl Cells for StoredRow {
    ghost values = { λ row. row };

    fn cell_at(&self, column: u32) -> Option<ValueRef<'_>> {
        if (column as usize) < self.len() {
            Some(self.refer(column as usize))
        } else {
            None
        }
    }
}
