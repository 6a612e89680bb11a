//! What tests are given: rows of numbers and NULL, conditions, and numbers drawn by a generator.
#![tactic(auto)]

ghost use Rattle.std.specs.Prelude.{◌≡◌, ◌<◌, [], ◌∷◌, ◌++◌, map, IfOk};
ghost use Rattle.hy_bound.specs.Condition.{Compare};
ghost use Rattle.hy_bound.specs.declared.predicate.Side.{Side};
ghost use Rattle.hy_given.specs.Cells.{cell_value};
ghost use Rattle.hy_value.specs.declared.Cmp.{Cmp};
ghost use Rattle.hy_value.specs.declared.Value.{Value};

mod random;

use hy_bound::{Pred, Rows, Side};
use hy_value::{Cmp, Row, Seq, StoredRow, Value};
pub use random::Random;
use std::alloc::{AllocError, Global};

/// A number, or NULL where there is none.
fn cell(number: Option<i64>) -> Value
    ensures { result ≡ cell_value number }
{
    match number {
        Some(number) => Value::Int(number),
        None => Value::Null,
    }
}

/// A row of numbers, with NULL where there is none. Err is for want of memory.
pub fn row(alloc: Global, cells: &[Option<i64>]) -> Result<Row, AllocError>
    ensures { IfOk result (λ row. row ≡ map cell_value cells.now) }
{
    let mut values = Seq::new(alloc);
    for number in cells {
        values.push(cell(*number))?;
    }
    Ok(values)
}

/// A row of two numbers. Err is for want of memory.
pub fn pair(alloc: Global, first: i64, second: i64) -> Result<Row, AllocError>
    ensures { IfOk result (λ row. row ≡ Value.Int first ∷ Value.Int second ∷ []) }
{
    let mut values = Seq::new(alloc);
    values.push(Value::Int(first))?;
    values.push(Value::Int(second))?;
    Ok(values)
}

/// A row of two numbers as it is kept. Err is for want of memory.
pub fn stored_pair(alloc: Global, first: i64, second: i64) -> Result<StoredRow, AllocError>
    ensures { IfOk result (λ row. row ≡ Value.Int first ∷ Value.Int second ∷ []) }
{
    StoredRow::from_values(alloc, &[Value::Int(first), Value::Int(second)])
}

/// Rows of two cells. Err is for want of memory.
pub fn pairs(alloc: Global, cells: &[[Option<i64>; 2]]) -> Result<Rows, AllocError>
    ensures { IfOk result (λ rows. rows ≡ map (map cell_value) cells.now) }
{
    let mut rows = Seq::new(alloc);
    for two in cells {
        rows.push(row(alloc, two)?)?;
    }
    Ok(rows)
}

/// A column compared with a number. Err is for want of memory.
pub fn compare(alloc: Global, column: u32, op: Cmp, number: i64) -> Result<Pred, AllocError>
    ensures { IfOk result (λ pred. pred ≡ Compare column op (Side.Literal (Value.Int number))) }
{
    Pred::compare(alloc, column, op, Side::Literal(Value::Int(number)))
}

/// A column equal to a number. Err is for want of memory.
pub fn equal(alloc: Global, column: u32, number: i64) -> Result<Pred, AllocError>
    ensures { IfOk result (λ pred. pred ≡ Compare column Cmp.Eq (Side.Literal (Value.Int number))) }
{
    compare(alloc, column, Cmp::Eq, number)
}
