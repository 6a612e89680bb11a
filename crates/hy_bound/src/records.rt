//! Whether what changed meets what was read.

ghost use Rattle.std.specs.Prelude.{◌≡◌, ◌&&◌, not};
ghost use Rattle.std.specs.Option.{option_copied};
ghost use Rattle.std.specs.Ordering.{is_eq};
ghost use Rattle.hy_value.specs.Order.{value_cmp};
ghost use Rattle.hy_value.specs.Refs.{referred};
ghost use Rattle.hy_value.specs.Columns.{has_column};
ghost use Rattle.hy_bound.specs.Predicate.{truth_at, differ_from, changes_on};
ghost use Rattle.hy_bound.specs.Records.{is_hit};

use crate::Record;
use crate::predicate::{Pred, stored_truth};
use hy_value::{ColMask, StoredRow, ValueRef, compare_refs};

/// Whether a change of a row hits a record: the record's predicate is true of the row before or after,
/// and the row comes, goes or changes on a column of the record.
pub fn hits(logged: &Record, before: Option<&StoredRow>, after: Option<&StoredRow>) -> bool
    ensures { result ≡ is_hit logged.now (option_copied before.entry) (option_copied after.entry) }
{
    let seen = selects(&logged.pred, before) || selects(&logged.pred, after);
    seen && changes(logged.columns, before, after)
}

/// Whether a predicate is true of a row that is there or not.
fn selects(pred: &Pred, row: Option<&StoredRow>) -> bool
    ensures { result ≡ truth_at pred.now (option_copied row.entry) }
{
    match row {
        Some(row) => stored_truth(pred, row),
        None => false,
    }
}

/// Whether a row comes, goes or changes on a column of the set.
fn changes(columns: ColMask, before: Option<&StoredRow>, after: Option<&StoredRow>) -> bool
    ensures { result ≡ changes_on columns (option_copied before.entry) (option_copied after.entry) }
{
    match (before, after) {
        (Some(before), Some(after)) => differ(columns, before, after),
        _ => true,
    }
}

/// Whether two rows differ on a column of the set.
fn differ(columns: ColMask, before: &StoredRow, after: &StoredRow) -> bool
    ensures { result ≡ differ_from columns 0 before.now after.now }
{
    for column in 0..before.len() {
        if column >= after.len() {
            return false;
        }
        if differ_at(columns, column, before.refer(column), after.refer(column)) {
            return true;
        }
    }
    false
}

/// Whether the column of this number is of the set and its value differs.
fn differ_at(columns: ColMask, column: usize, old: ValueRef<'_>, new: ValueRef<'_>) -> bool
    ensures { result ≡ (has_column columns column && not (is_eq (value_cmp (referred old.entry) (referred new.entry)))) }
{
    column < 32 && columns.has(column as u32) && compare_refs(old, new).is_ne()
}
