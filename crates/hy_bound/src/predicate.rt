//! Conditions on rows.

ghost use Rattle.std.specs.Prelude.{◌≡◌, ◌++◌, map, IfOk, OnOk, IfSome, IfNone};
ghost use Rattle.hy_bound.specs.Condition.{True, Compare, IsNull, Not, And, Or};
ghost use Rattle.hy_bound.specs.Predicate.{truth_of, sense_of, opposite_of, both_of, either_of, compared, side_of, column_of, is_null_value};
ghost use Rattle.hy_bound.specs.Records.{conjuncts, conjoined};
ghost use Rattle.hy_bound.specs.PredView.{operand_side, rooted, viewed_side};
ghost use Rattle.hy_bound.specs.declared.predicate.Side.TheVariants.{Literal};
ghost use Rattle.hy_value.specs.Refs.{referred};
ghost use Rattle.hy_value.specs.declared.Value.{Value};
ghost use Rattle.hy_value.specs.declared.Value.TheVariants.{Null, Int};

use crate::cells::Cells;
use hy_value::{Cmp, Row, StoredRow, Text, Value, ValueRef};
use std::alloc::{AllocError, Global};
use std::cmp::Ordering;
use std::marker::Model;

/// The right side of a comparison.
#[derive(Drop)]
pub enum Side {
    /// A column.
    Column(u32),
    /// A value.
    Literal(Value),
}

/// The right side of a comparison as a condition keeps it: a text stands behind a pointer, so that a
/// condition takes no more room than a number.
#[derive(Drop)]
enum Operand {
    Column(u32),
    Null,
    Int(i64),
    Text(Box<Text>),
}

/// A condition on a row. A column's number counts in the row that is asked about: one table's row, or in
/// a SELECT the rows of its tables in FROM order, one after another.
#[cycle(predicates)]
#[derive(Drop)]
pub struct Pred {
    node: PredNode,
}

/// A condition, and those that it is made of.
#[cycle(predicates)]
#[derive(Drop)]
enum PredNode {
    True,
    Compare { column: u32, op: Cmp, side: Operand },
    IsNull(u32),
    Not(Box<Pred>),
    And(Box<Pred>, Box<Pred>),
    Or(Box<Pred>, Box<Pred>),
}

/// The right side of a comparison, looked at from outside.
#[derive(Clone, Copy)]
pub enum SideView<'a> {
    /// A column.
    Column(u32),
    /// NULL.
    Null,
    /// A number.
    Int(i64),
    /// A text.
    Text(&'a Text),
}

impl<'a> SideView<'a> {
    /// A value.
    pub fn literal(value: ValueRef<'a>) -> SideView<'a>
        ensures { viewed_side result ≡ Literal (referred value.entry) }
    {
        match value {
            ValueRef::Null => SideView::Null,
            ValueRef::Int(number) => SideView::Int(number),
            ValueRef::Text(text) => SideView::Text(text),
        }
    }
}

/// What a condition is at its root, with the conditions that it is made of.
#[derive(Clone, Copy)]
pub enum Root<'a> {
    /// No condition.
    True,
    /// A comparison of a column.
    Compare {
        /// The column on the left.
        column: u32,
        /// The operator.
        op: Cmp,
        /// What stands on the right.
        side: SideView<'a>,
    },
    /// That a column is NULL.
    IsNull(u32),
    /// NOT.
    Not(&'a Pred),
    /// AND.
    And(&'a Pred, &'a Pred),
    /// OR.
    Or(&'a Pred, &'a Pred),
}

impl Model for Pred {
    ghost use Rattle.hy_bound.specs.Condition.{Condition, condition_code, parts};

    ghost Value = { Condition };

    ghost coded = { condition_code };

    ghost use Rattle.hy_bound.specs.PredView.{condition};

    ghost view = { λ a. condition a.node };

    ghost size = { parts };

    ghost use Rattle.hy_bound.specs.PredFalls.{depth_le-parts};

    ghost size_decreases = { λ a h. depth_le-parts a.node };
}

impl Operand {
    ghost use Rattle.hy_bound.specs.PredView.{operand_side, viewed_side};

    /// What it is, from outside.
    fn view(&self) -> SideView<'_>
        ensures { viewed_side result ≡ operand_side self.now }
    {
        match self {
            Operand::Column(column) => SideView::Column(*column),
            Operand::Null => SideView::Null,
            Operand::Int(number) => SideView::Int(*number),
            Operand::Text(text) => SideView::Text(text),
        }
    }

    /// The right side of a comparison, as it is kept.
    fn new(alloc: Global, side: Side) -> Result<Operand, AllocError>
        ensures { IfOk result (λ operand. operand_side operand ≡ side) }
    {
        match side {
            Side::Column(column) => Ok(Operand::Column(column)),
            Side::Literal(Value::Null) => Ok(Operand::Null),
            Side::Literal(Value::Int(number)) => Ok(Operand::Int(number)),
            Side::Literal(Value::Text(text)) => Ok(Operand::Text(Box::new(alloc, text)?)),
        }
    }

    /// The right side of a comparison, as it is kept: a copy where it is a text.
    fn of_view(alloc: Global, side: SideView<'_>) -> Result<Operand, AllocError>
        ensures { IfOk result (λ operand. operand_side operand ≡ viewed_side side.entry) }
    {
        match side {
            SideView::Column(column) => Ok(Operand::Column(column)),
            SideView::Null => Ok(Operand::Null),
            SideView::Int(number) => Ok(Operand::Int(number)),
            SideView::Text(text) => Ok(Operand::Text(Box::new(alloc, text.copy())?)),
        }
    }

    /// A copy.
    fn copy(&self, alloc: Global) -> Result<Operand, AllocError>
        ensures { IfOk result (λ operand. operand_side operand ≡ operand_side self.now) }
    {
        Operand::of_view(alloc, self.view())
    }
}

impl Pred {
    /// No condition.
    pub fn always() -> Pred
        ensures { result ≡ True }
    {
        Pred {
            node: PredNode::True,
        }
    }

    /// A comparison of a column.
    pub fn compare(alloc: Global, column: u32, op: Cmp, side: Side) -> Result<Pred, AllocError>
        ensures { IfOk result (λ p. p ≡ Compare column op side) }
    {
        let side = Operand::new(alloc, side)?;
        Ok(Pred {
            node: PredNode::Compare { column, op, side },
        })
    }

    /// A comparison of a column with a side that is looked at where it stands.
    pub fn compare_view(
        alloc: Global,
        column: u32,
        op: Cmp,
        side: SideView<'_>,
    ) -> Result<Pred, AllocError>
        ensures { IfOk result (λ p. p ≡ Compare column op (viewed_side side.entry)) }
    {
        let side = Operand::of_view(alloc, side)?;
        Ok(Pred {
            node: PredNode::Compare { column, op, side },
        })
    }

    /// That a column is NULL.
    pub fn is_null(column: u32) -> Pred
        ensures { result ≡ IsNull column }
    {
        Pred {
            node: PredNode::IsNull(column),
        }
    }

    /// NOT.
    pub fn not(alloc: Global, inner: Pred) -> Result<Pred, AllocError>
        ensures { IfOk result (λ p. p ≡ Not inner) }
    {
        let inner = Box::new(alloc, inner)?;
        Ok(Pred {
            node: PredNode::Not(inner),
        })
    }

    /// AND.
    pub fn and(alloc: Global, left: Pred, right: Pred) -> Result<Pred, AllocError>
        ensures { IfOk result (λ p. p ≡ And left right) }
    {
        let left = Box::new(alloc, left)?;
        let right = Box::new(alloc, right)?;
        Ok(Pred {
            node: PredNode::And(left, right),
        })
    }

    /// OR.
    pub fn or(alloc: Global, left: Pred, right: Pred) -> Result<Pred, AllocError>
        ensures { IfOk result (λ p. p ≡ Or left right) }
    {
        let left = Box::new(alloc, left)?;
        let right = Box::new(alloc, right)?;
        Ok(Pred {
            node: PredNode::Or(left, right),
        })
    }

    /// What the condition is at its root.
    pub fn root(&self) -> Root<'_>
        ensures { rooted result ≡ self.now }
    {
        match &self.node {
            PredNode::True => Root::True,
            PredNode::Compare { column, op, side } => Root::Compare {
                column: *column,
                op: *op,
                side: side.view(),
            },
            PredNode::IsNull(column) => Root::IsNull(*column),
            PredNode::Not(inner) => Root::Not(inner),
            PredNode::And(left, right) => Root::And(left, right),
            PredNode::Or(left, right) => Root::Or(left, right),
        }
    }

    /// A copy of the condition.
    pub fn copy(&self, alloc: Global) -> Result<Pred, AllocError>
        ensures { IfOk result (λ p. p ≡ self.now) }
    {
        match &self.node {
            PredNode::True => Ok(Pred::always()),
            PredNode::Compare { column, op, side } => copy_comparison(alloc, *column, *op, side),
            PredNode::IsNull(column) => Ok(Pred::is_null(*column)),
            PredNode::Not(inner) => Pred::not(alloc, inner.copy(alloc)?),
            PredNode::And(left, right) => Pred::and(alloc, left.copy(alloc)?, right.copy(alloc)?),
            PredNode::Or(left, right) => Pred::or(alloc, left.copy(alloc)?, right.copy(alloc)?),
        }
    }

    /// Adds the conditions that AND joins in it, one by one.
    pub fn add_conjuncts<'a>(&'a self, all: &mut Vec<&'a Pred>) -> Result<(), AllocError>
        ensures { OnOk result (map (λ p. p.now) all.new.items
            ≡ map (λ p. p.now) all.old.items ++ conjuncts self.now) }
    {
        match &self.node {
            PredNode::True => Ok(()),
            PredNode::And(left, right) => {
                left.add_conjuncts(all)?;
                right.add_conjuncts(all)
            }
            _ => {
                all.push(self)?;
                Ok(())
            }
        }
    }

    /// This condition and one more; a condition beside none stands for itself.
    pub fn and_also(self, alloc: Global, other: Pred) -> Result<Pred, AllocError>
        ensures { IfOk result (λ p. p ≡ conjoined self other) }
    {
        match self.node {
            PredNode::True => Ok(other),
            node => Pred::and(alloc, Pred { node }, other),
        }
    }
}

/// A copy of a comparison. It stands by itself, so that copying a chain of conditions takes little room for
/// each.
#[inline(never)]
fn copy_comparison(alloc: Global, column: u32, op: Cmp, side: &Operand) -> Result<Pred, AllocError>
    ensures { IfOk result (λ p. p ≡ Compare column op (operand_side side.now)) }
{
    let side = side.copy(alloc)?;
    Ok(Pred {
        node: PredNode::Compare { column, op, side },
    })
}

/// Whether a condition is true of a row. What is unknown because of a NULL is not true.
pub fn truth(pred: &Pred, row: &Row) -> bool
    ensures { result ≡ truth_of pred.now row.now }
{
    matches!(sense(pred, row), Some(true))
}

/// Whether a condition is true of a row that is kept.
pub fn stored_truth(pred: &Pred, row: &StoredRow) -> bool
    ensures { result ≡ truth_of pred.now row.now }
{
    matches!(sense(pred, row), Some(true))
}

/// Whether a condition is true or false of a row, or unknown.
fn sense<R: Cells>(pred: &Pred, row: &R) -> Option<bool>
    ensures { result ≡ sense_of pred.now (R.values row.now) }
{
    match &pred.node {
        PredNode::True => Some(true),
        PredNode::Compare { column, op, side } => compare_cell(row, *column, *op, side),
        PredNode::IsNull(column) => Some(is_null_at(row, *column)),
        PredNode::Not(inner) => opposite(sense(inner, row)),
        PredNode::And(left, right) => both(sense(left, row), sense(right, row)),
        PredNode::Or(left, right) => either(sense(left, row), sense(right, row)),
    }
}

/// A row's value in a column, where it has one.
pub fn cell(row: &Row, column: u32) -> Option<&Value>
    ensures value { IfSome result (λ value. value.now ≡ column_of row.now column) }
    ensures none { IfNone result (column_of row.now column ≡ Null) }
{
    row.as_slice().get(column as usize)
}

/// A row's value in a column, NULL beyond its last.
pub fn column_value(row: &Row, column: u32) -> Value
    ensures { result ≡ column_of row.now column }
{
    column_ref(row, column).to_value()
}

/// A row's value in a column, NULL beyond its last, where it stands.
pub fn column_ref<R: Cells>(row: &R, column: u32) -> ValueRef<'_>
    ensures { referred result ≡ column_of (R.values row.now) column }
{
    match row.cell_at(column) {
        Some(value) => value,
        None => ValueRef::Null,
    }
}

/// Whether a row has NULL in a column, as it has beyond its last.
fn is_null_at<R: Cells>(row: &R, column: u32) -> bool
    ensures { result ≡ is_null_value (column_of (R.values row.now) column) }
{
    !matches!(
        row.cell_at(column),
        Some(ValueRef::Int(_) | ValueRef::Text(_))
    )
}

/// What a comparison says of a row.
#[inline(never)]
fn compare_cell<R: Cells>(row: &R, column: u32, op: Cmp, side: &Operand) -> Option<bool>
    ensures { result ≡ compared op (column_of (R.values row.now) column) (side_of (operand_side side.now) (R.values row.now)) }
{
    let left = row.cell_at(column)?;
    match side {
        Operand::Column(column) => compare_values(op, left, row.cell_at(*column)?),
        Operand::Null => None,
        Operand::Int(number) => compare_number(op, left, *number),
        Operand::Text(text) => compare_text(op, left, text),
    }
}

/// What a comparison says of two values: nothing where one of them is NULL.
pub fn compare(op: Cmp, left: &Value, right: &Value) -> Option<bool>
    ensures { result ≡ compared op left.now right.now }
{
    compare_values(op, left.refer(), right.refer())
}

/// What a comparison says of two values, both where they stand.
fn compare_values(op: Cmp, left: ValueRef<'_>, right: ValueRef<'_>) -> Option<bool>
    ensures { result ≡ compared op (referred left.entry) (referred right.entry) }
{
    match right {
        ValueRef::Null => None,
        ValueRef::Int(number) => compare_number(op, left, number),
        ValueRef::Text(text) => compare_text(op, left, text),
    }
}

/// What a comparison says of a value and a number.
fn compare_number(op: Cmp, left: ValueRef<'_>, right: i64) -> Option<bool>
    ensures { result ≡ compared op (referred left.entry) (Int right) }
{
    match left {
        ValueRef::Null => None,
        ValueRef::Int(left) => Some(op.holds(left.cmp(&right))),
        ValueRef::Text(_) => Some(op.holds(Ordering::Greater)),
    }
}

/// What a comparison says of a value and a text.
fn compare_text(op: Cmp, left: ValueRef<'_>, right: &Text) -> Option<bool>
    ensures { result ≡ compared op (referred left.entry) (Value.Text right.now) }
{
    match left {
        ValueRef::Null => None,
        ValueRef::Int(_) => Some(op.holds(Ordering::Less)),
        ValueRef::Text(left) => Some(op.holds(left.as_bytes().cmp(right.as_bytes()))),
    }
}

/// Whether a value is NULL.
pub fn is_null(value: &Value) -> bool
    ensures { result ≡ is_null_value value.now }
{
    matches!(value, Value::Null)
}

/// NOT: of what is unknown it is unknown.
fn opposite(sense: Option<bool>) -> Option<bool>
    ensures { result ≡ opposite_of sense }
{
    sense.map(|b| !b)
}

/// AND: false where a side is false, else unknown where a side is unknown.
fn both(left: Option<bool>, right: Option<bool>) -> Option<bool>
    ensures { result ≡ both_of left right }
{
    match (left, right) {
        (Some(false), _) | (_, Some(false)) => Some(false),
        (None, _) | (_, None) => None,
        _ => Some(true),
    }
}

/// OR: true where a side is true, else unknown where a side is unknown.
fn either(left: Option<bool>, right: Option<bool>) -> Option<bool>
    ensures { result ≡ either_of left right }
{
    match (left, right) {
        (Some(true), _) | (_, Some(true)) => Some(true),
        (None, _) | (_, None) => None,
        _ => Some(false),
    }
}
