//! Which columns are told of.

ghost use Rattle.std.specs.Prelude.{◌≡◌};
ghost use Rattle.std.specs.List.{list_any};
ghost use Rattle.hy_value.specs.Columns.{has_column};
ghost use Rattle.hy_explain.specs.Choosing.{is_chosen};
ghost use Rattle.hy_explain.specs.Found.{differs_at, goes_out_in, is_out, is_out_of};

use hy_bound::{Assign, value};
use hy_value::{ColMask, Row, StoredRow, compare_refs};

/// Which columns are told of.
#[derive(Clone, Copy)]
pub enum Choice<'a> {
    /// Those of a set.
    Of(ColMask),
    /// Those of a set in which two rows differ.
    Differing(ColMask, &'a StoredRow, &'a StoredRow),
    /// Those that SET takes out of 64 bits, in a row.
    OutOf(&'a [Assign], &'a Row),
}

impl Choice<'_> {
    /// Whether the column of this number is told of.
    pub fn has(self, column: usize) -> bool
        ensures { result ≡ is_chosen self.entry column }
    {
        match self {
            Choice::Of(mask) => has_column(mask, column),
            Choice::Differing(mask, before, after) => {
                has_column(mask, column) && differs_at(before, after, column)
            }
            Choice::OutOf(sets, row) => goes_out_in(sets, row, column),
        }
    }
}

/// Whether a set has the column of this number.
fn has_column(mask: ColMask, column: usize) -> bool
    ensures { result ≡ has_column mask column }
{
    column < 32 && mask.has(column as u32)
}

/// Whether two rows differ in a column that both have.
fn differs_at(before: &StoredRow, after: &StoredRow, column: usize) -> bool
    ensures { result ≡ differs_at before.now after.now column }
{
    column < before.len()
        && column < after.len()
        && compare_refs(before.refer(column), after.refer(column)).is_ne()
}

/// Whether what an assignment sets is out of 64 bits for a row.
pub fn is_out(row: &Row, set: &Assign) -> bool
    ensures { result ≡ is_out row.now set.now }
{
    value(&set.value, row).is_err()
}

/// Whether SET takes some value of a row out of 64 bits.
pub fn some_is_out(sets: &[Assign], row: &Row) -> bool
    ensures { result ≡ list_any (is_out row.now) sets.now }
{
    sets.iter().any(|set| is_out(row, set))
}

/// Whether SET takes a column of a row out of 64 bits.
fn goes_out_in(sets: &[Assign], row: &Row, column: usize) -> bool
    ensures { result ≡ goes_out_in sets.now row.now column }
{
    sets.iter().any(|set| is_out_of(row, column, set))
}

/// Whether an assignment takes a column of a row out of 64 bits.
fn is_out_of(row: &Row, column: usize, set: &Assign) -> bool
    ensures { result ≡ is_out_of row.now column set.now }
{
    set.column as usize == column && is_out(row, set)
}
