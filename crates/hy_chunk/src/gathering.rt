//! Which rows are gathered, and what of them.

ghost use Rattle.std.specs.Prelude.{◌≡◌, ◌<◌, ◌++◌, List, [], ◌∷◌, All, IfOk, IfSome, OnOk, OnErr, ◌==◌, ◌&&◌, nat_le, length, map};
ghost use Rattle.std.specs.List.{list_any};
ghost use Rattle.hy_bound.specs.Condition.{Condition};
ghost use Rattle.hy_bound.specs.PredView.{viewed_side};
ghost use Rattle.hy_bound.specs.Predicate.{column_of, truth_of};
ghost use Rattle.hy_bound.specs.Records.{conjuncts};
ghost use Rattle.hy_bound.specs.declared.predicate.Side.{Side};
ghost use Rattle.hy_bound.specs.Projection.{projected};
ghost use Rattle.hy_plan.specs.Reads.{by_key_of, is_read_of, key_is_value, most_keys};
ghost use Rattle.hy_undo.specs.Places.{cell_of};
ghost use Rattle.hy_value.specs.Columns.{has_column};
ghost use Rattle.hy_value.specs.Refs.{referred};
ghost use Rattle.hy_value.specs.declared.Value.{Value};
ghost use Rattle.hy_chunk.specs.Gathering.{Asks, AsksOneOf, GathersOne, GathersRead, conditions_of, kept_by};

use hy_bound::{Pred, Root, SideView, cell, compare, truth};
use hy_plan::Gathered;
use hy_undo::Version;
use hy_value::{Cmp, ColMask, Row, Value, ValueRef};
use std::alloc::{AllocError, Global};

/// How many values of a key are looked up one by one, as they are recorded for validation.
const MOST_KEYS: usize = 1024;

/// Values of a column by which rows are looked up.
#[derive(Clone, Copy)]
pub struct Keys<'a> {
    /// The column.
    pub column: u32,
    /// The values.
    pub values: &'a [Value],
}

/// What is sought by keys: of the rows of which a condition is true, and that one of the keys finds, the values in a
/// set of columns.
#[derive(Clone, Copy)]
pub struct Sought<'a> {
    /// The condition.
    pub pred: &'a Pred,
    /// The keys.
    pub keys: Keys<'a>,
    /// The columns.
    pub columns: ColMask,
}

/// What is gathered: of the rows of which a condition is true, and which are looked up where there are keys, the
/// values in a set of columns.
#[derive(Clone, Copy)]
pub struct Wanted<'a> {
    /// The condition.
    pub pred: &'a Pred,
    /// The keys.
    pub keys: Option<Keys<'a>>,
    /// The columns.
    pub columns: ColMask,
}

/// Whether a row has this value in a column. NULL is no value here.
pub fn has_in(row: &Row, column: u32, value: &Value) -> bool
    ensures { result ≡ truth_of (key_is_value column value.now) row.now }
{
    match cell(row, column) {
        Some(held) => matches!(compare(Cmp::Eq, held, value), Some(true)),
        None => false,
    }
}

/// Whether a row has one of these values in a column.
fn has_one(row: &Row, column: u32, values: &[Value]) -> bool
    ensures { result ≡ list_any (λ value. truth_of (key_is_value column value) row.now) values.now }
{
    values.iter().any(|value| has_in(row, column, value))
}

/// Whether a condition is true of a row, and the row is looked up: it has one of the values, or they are too many
/// to be looked up.
fn is_looked_up(pred: &Pred, keys: Keys, row: &Row) -> bool
    ensures { result ≡ is_read_of (by_key_of pred.now keys.entry.column keys.entry.values.now) row.now }
{
    if !truth(pred, row) {
        return false;
    }
    keys.values.len() > MOST_KEYS || has_one(row, keys.column, keys.values)
}

/// Whether a row is one of those that are wanted.
fn is_wanted(wanted: &Wanted, row: &Row) -> bool
    ensures { result ≡ is_read_of (conditions_of wanted.now.pred.now wanted.now.keys) row.now }
{
    match wanted.keys {
        None => truth(wanted.pred, row),
        Some(keys) => is_looked_up(wanted.pred, keys, row),
    }
}

/// Whether keys are of this column, and so few that they are looked up one by one.
fn are_few(keys: Keys, column: u32) -> bool
    ensures { result ≡ ((keys.entry.column == column) && nat_le (length keys.entry.values.now) most_keys) }
{
    keys.column == column && keys.values.len() <= MOST_KEYS
}

/// The keys by which rows are looked up one by one, where they are those of this column.
pub fn keys_of<'a>(wanted: &Wanted<'a>, column: u32) -> Option<&'a [Value]>
    ensures { IfSome result (λ values. AsksOneOf (conditions_of wanted.now.pred.now wanted.now.keys) column values.now) }
{
    match wanted.keys {
        Some(keys) if are_few(keys, column) => Some(keys.values),
        _ => None,
    }
}

/// The value of a side of a comparison, where it is one other than NULL.
fn literal_of(side: SideView<'_>) -> Option<ValueRef<'_>>
    ensures { IfSome result (λ value. viewed_side side.entry ≡ Side.Literal (referred value)) }
{
    match side {
        SideView::Int(number) => Some(ValueRef::Int(number)),
        SideView::Text(text) => Some(ValueRef::Text(text)),
        _ => None,
    }
}

/// The value that a condition asks of a column by `=`: it is such a comparison, or AND joins one in it.
pub fn value_asked(pred: &Pred, column: u32) -> Option<ValueRef<'_>>
    ensures { IfSome result (λ value. Asks pred.now column (referred value)) }
{
    match pred.root() {
        Root::Compare {
            column: left,
            op: Cmp::Eq,
            side,
        } if left == column => literal_of(side),
        Root::And(left, right) => match value_asked(left, column) {
            Some(value) => Some(value),
            None => value_asked(right, column),
        },
        _ => None,
    }
}

/// Whether a set has the column of this number.
fn is_of_set(columns: ColMask, column: usize) -> bool
    ensures { result ≡ has_column columns column }
{
    column < 32 && columns.has(column as u32)
}

/// The columns of a set that are among the first so many, ascending. Err is for want of memory.
pub fn columns_in(alloc: Global, columns: ColMask, width: usize) -> Result<Vec<u32>, AllocError>
    ensures within { IfOk result (λ found. All (λ column. column < width) found.items) }
    ensures values { IfOk result (λ found. (row : List Value) → length row ≡ width → map (column_of row) found.items ≡ projected columns row) }
{
    let mut found = Vec::new(alloc);
    for column in 0..width {
        if is_of_set(columns, column) {
            found.push(column as u32)?;
        }
    }
    Ok(found)
}

/// Adds the wanted values of a version, where it is a row that is wanted. Without memory nothing changes.
pub fn keep(version: &Version, wanted: &Wanted, gathered: &mut Gathered) -> Result<(), AllocError>
    requires { length (projected wanted.now.columns version.now.row) ≡ gathered.old.width }
    ensures rows { OnOk result (gathered.new.rows ≡ gathered.old.rows
        ++ kept_by wanted.now.columns (conditions_of wanted.now.pred.now wanted.now.keys) (cell_of version.now)) }
    ensures err { OnErr result (gathered.new.rows ≡ gathered.old.rows) }
    ensures width { gathered.new.width ≡ gathered.old.width }
{
    if version.live && is_wanted(wanted, &version.row) {
        gathered.push_projected(wanted.columns, version.row.as_slice())?;
    }
    Ok(())
}

/// What is gathered by conditions are the projected rows of which one of the conditions is true; by one condition
/// they are those that it selects.
pub fn conditions_gather_rows()
    ensures one { GathersOne }
    ensures read { GathersRead }
{}
