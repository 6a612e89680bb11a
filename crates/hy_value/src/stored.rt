//! A row that is kept: contracts see the list of its values, and never its room.

ghost use Rattle.std.specs.Prelude.{◌≡◌, ◌<◌, [], length, slice_index_or, IfOk, OnOk, OnErr};
ghost use Rattle.hy_value.specs.Refs.{referred};
ghost use Rattle.hy_value.specs.Order.{row_cmp};
ghost use Rattle.hy_value.specs.Sorted.{sorted};
ghost use Rattle.hy_value.specs.declared.Value.{Value};

use crate::{Row, RowBuffer, Value, ValueRef};
use std::alloc::{AllocError, Global};
use std::cmp::Ordering;
use std::marker::Model;

/// The values of a row, by column, in little room.
#[derive(Drop)]
pub struct StoredRow {
    buffer: RowBuffer,
}

impl Model for StoredRow {
    ghost use Rattle.hy_value.specs.Values.{Values};

    ghost Value = { Values };

    ghost view = { λ r. r.buffer.values };
}

impl StoredRow {
    /// No values. It takes no memory.
    pub fn new(alloc: Global) -> StoredRow
        ensures { result ≡ [] }
    {
        StoredRow {
            buffer: RowBuffer::new(alloc),
        }
    }

    /// The row of a buffer, without taking memory.
    pub fn from_buffer(buffer: RowBuffer) -> StoredRow
        ensures { result ≡ buffer.values }
    {
        StoredRow { buffer }
    }

    /// The buffer of the row, without taking memory.
    pub fn into_buffer(self) -> RowBuffer
        ensures { result.values ≡ self }
    {
        let StoredRow { buffer } = self;
        buffer
    }

    /// The row of these values, which has no more room than that. Err is for want of memory.
    pub fn from_values(alloc: Global, values: &[Value]) -> Result<StoredRow, AllocError>
        ensures { IfOk result (λ row. row ≡ values.now) }
    {
        Ok(StoredRow {
            buffer: RowBuffer::from_values(alloc, values)?,
        })
    }

    /// The same values, as a row to work on. Err is for want of memory.
    pub fn to_row(&self) -> Result<Row, AllocError>
        ensures { IfOk result (λ row. row ≡ self.now) }
    {
        self.buffer.to_row()
    }

    /// How many values there are.
    pub fn len(&self) -> usize
        ensures { result ≡ length self.now }
    {
        self.buffer.len()
    }

    /// The value of a column where it stands.
    pub fn refer(&self, column: usize) -> ValueRef<'_>
        requires { column < length self.now }
        ensures { (d : Value) → referred result ≡ slice_index_or self.now column d }
    {
        self.buffer.refer(column)
    }

    /// A copy, which has no more room than that. Err is for want of memory.
    pub fn copy(&self, alloc: Global) -> Result<StoredRow, AllocError>
        ensures { IfOk result (λ copy. copy ≡ self.now) }
    {
        Ok(StoredRow {
            buffer: self.buffer.copy(alloc)?,
        })
    }

    /// How the row stands to another: by the first column in which they differ.
    pub fn compare(&self, other: &StoredRow) -> Ordering
        ensures { result ≡ row_cmp self.now other.now }
    {
        self.buffer.compare(&other.buffer)
    }
}

/// How a row stands to another: by the first column in which they differ.
fn compare_stored_rows(left: &StoredRow, right: &StoredRow) -> Ordering
    ensures { result ≡ row_cmp left.now right.now }
{
    left.compare(right)
}

/// Puts rows into ascending order. Without memory they stay as they are.
pub fn sort_stored_rows(rows: &mut Vec<StoredRow>) -> Result<(), AllocError>
    ensures ok { OnOk result (rows.new.items ≡ sorted rows.old.items) }
    ensures err { OnErr result (rows.new.items ≡ rows.old.items) }
{
    rows.sort_by(compare_stored_rows)
}
