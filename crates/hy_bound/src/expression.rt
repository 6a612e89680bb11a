//! The right sides of assignments.

ghost use Rattle.std.specs.Prelude.{◌≡◌, Ok, IfOk, slice_set};
ghost use Rattle.hy_bound.specs.Predicate.{column_of};
ghost use Rattle.hy_bound.specs.Expression.{Literal, Column, Add, Sub, Mul};
ghost use Rattle.hy_bound.specs.Assignment.{value_of, exact, number_of, number_in, combined_numbers, assigned};
ghost use Rattle.hy_bound.specs.ExprView.{leaf_expression, operation, rooted};
ghost use Rattle.hy_bound.specs.ValueRefs.{value_referred};
ghost use Rattle.hy_value.specs.declared.Value.{Value};

use crate::predicate::{cell, column_ref};
use crate::{Range, Sets};
use hy_value::{Row, Seq, Text, Value, ValueRef, copy_values};
use std::alloc::{AllocError, Global};
use std::marker::Model;

/// The right side of an assignment, over the row as it was before the statement.
#[cycle(expressions)]
#[derive(Drop)]
pub struct SetExpr {
    node: ExprNode,
}

/// An expression, and those that it is made of.
#[cycle(expressions)]
#[derive(Drop)]
enum ExprNode {
    Leaf(Leaf),
    Text(Box<Text>),
    Pair(Operator, Leaf, Leaf),
    Binary(Operator, Box<SetExpr>, Box<SetExpr>),
}

/// A value or a column that is kept without a block. Nearly every operator stands between two of them, and
/// so they stand in its node.
#[derive(Clone, Copy)]
pub enum Leaf {
    /// NULL.
    Null,
    /// A number.
    Int(i64),
    /// A column.
    Column(u32),
}

/// An operator between two expressions.
#[derive(Clone, Copy)]
pub enum Operator {
    /// A sum.
    Add,
    /// A difference.
    Sub,
    /// A product.
    Mul,
}

impl Model for SetExpr {
    ghost use Rattle.hy_bound.specs.Expression.{Expression, expression_code, parts};

    ghost Value = { Expression };

    ghost coded = { expression_code };

    ghost use Rattle.hy_bound.specs.ExprView.{expression};

    ghost view = { λ a. expression a.node };

    ghost size = { parts };

    ghost use Rattle.hy_bound.specs.ExprFalls.{depth_le-parts};

    ghost size_decreases = { λ a h. depth_le-parts a.node };
}

impl SetExpr {
    /// A value.
    pub fn literal(alloc: Global, value: Value) -> Result<SetExpr, AllocError>
        ensures { IfOk result (λ e. e ≡ Literal value) }
    {
        let node = match value {
            Value::Null => ExprNode::Leaf(Leaf::Null),
            Value::Int(number) => ExprNode::Leaf(Leaf::Int(number)),
            Value::Text(text) => ExprNode::Text(Box::new(alloc, text)?),
        };
        Ok(SetExpr { node })
    }

    /// A number.
    pub fn number(number: i64) -> SetExpr
        ensures { result ≡ Literal (Value.Int number) }
    {
        SetExpr::leaf(Leaf::Int(number))
    }

    /// A column.
    pub fn column(column: u32) -> SetExpr
        ensures { result ≡ Column column }
    {
        SetExpr::leaf(Leaf::Column(column))
    }

    /// A value or a column.
    fn leaf(leaf: Leaf) -> SetExpr
        ensures { result ≡ leaf_expression leaf }
    {
        SetExpr {
            node: ExprNode::Leaf(leaf),
        }
    }

    /// An operator between two values or columns.
    fn pair(op: Operator, left: Leaf, right: Leaf) -> SetExpr
        ensures { result ≡ operation op (leaf_expression left) (leaf_expression right) }
    {
        SetExpr {
            node: ExprNode::Pair(op, left, right),
        }
    }

    /// A sum.
    pub fn add(alloc: Global, left: SetExpr, right: SetExpr) -> Result<SetExpr, AllocError>
        ensures { IfOk result (λ e. e ≡ Add left right) }
    {
        SetExpr::combined(alloc, Operator::Add, left, right)
    }

    /// A difference.
    pub fn sub(alloc: Global, left: SetExpr, right: SetExpr) -> Result<SetExpr, AllocError>
        ensures { IfOk result (λ e. e ≡ Sub left right) }
    {
        SetExpr::combined(alloc, Operator::Sub, left, right)
    }

    /// A product.
    pub fn mul(alloc: Global, left: SetExpr, right: SetExpr) -> Result<SetExpr, AllocError>
        ensures { IfOk result (λ e. e ≡ Mul left right) }
    {
        SetExpr::combined(alloc, Operator::Mul, left, right)
    }

    /// An operator between two expressions.
    fn combined(
        alloc: Global,
        op: Operator,
        left: SetExpr,
        right: SetExpr,
    ) -> Result<SetExpr, AllocError>
        ensures { IfOk result (λ e. e ≡ operation op left right) }
    {
        if let (ExprNode::Leaf(left), ExprNode::Leaf(right)) = (&left.node, &right.node) {
            return Ok(SetExpr::pair(op, *left, *right));
        }
        let left = Box::new(alloc, left)?;
        let right = Box::new(alloc, right)?;
        Ok(SetExpr {
            node: ExprNode::Binary(op, left, right),
        })
    }

    /// What the expression is at its root.
    pub fn root(&self) -> ExprRoot<'_>
        ensures { rooted result ≡ self.now }
    {
        match &self.node {
            ExprNode::Leaf(leaf) => ExprRoot::Leaf(*leaf),
            ExprNode::Text(text) => ExprRoot::Text(text),
            ExprNode::Pair(op, left, right) => ExprRoot::Pair(*op, *left, *right),
            ExprNode::Binary(op, left, right) => ExprRoot::Binary(*op, left, right),
        }
    }
}

/// What an expression is at its root, with the expressions that it is made of.
#[derive(Clone, Copy)]
pub enum ExprRoot<'a> {
    /// NULL, a number or a column.
    Leaf(Leaf),
    /// A text.
    Text(&'a Text),
    /// An operator between two values or columns.
    Pair(Operator, Leaf, Leaf),
    /// An operator between two expressions.
    Binary(Operator, &'a SetExpr, &'a SetExpr),
}

/// What a right side of SET is in a row, unless a number leaves 64 bits. What reads a NULL is NULL.
pub fn value(expression: &SetExpr, row: &Row) -> Result<Value, Range>
    ensures { result ≡ value_of expression.now row.now }
{
    Ok(value_ref(expression, row)?.to_value())
}

/// What a right side of SET is in a row, where it stands, unless a number leaves 64 bits.
pub fn value_ref<'a>(expression: &'a SetExpr, row: &'a Row) -> Result<ValueRef<'a>, Range>
    ensures { value_referred result ≡ value_of expression.now row.now }
{
    match &expression.node {
        ExprNode::Text(text) => Ok(ValueRef::Text(text)),
        ExprNode::Leaf(Leaf::Column(column)) => Ok(column_ref(row, *column)),
        _ => match number(expression, row)? {
            Some(number) => Ok(ValueRef::Int(number)),
            None => Ok(ValueRef::Null),
        },
    }
}

/// The number that a right side of SET is in a row, none where it is a text or NULL. It takes little room
/// for each operator, so that long chains of them are walked.
#[tactic(auto, using(crate::proofs::Operations::number_of_operation))]
fn number(expression: &SetExpr, row: &Row) -> Result<Option<i64>, Range>
    ensures { result ≡ number_in (value_of expression.now row.now) }
{
    match &expression.node {
        ExprNode::Leaf(leaf) => leaf_number(*leaf, row),
        ExprNode::Text(_) => Ok(None),
        ExprNode::Pair(op, left, right) => combine(
            *op,
            leaf_number(*left, row),
            leaf_number(*right, row),
        ),
        ExprNode::Binary(op, left, right) => combine(*op, number(left, row), number(right, row)),
    }
}

/// The number that a value or a column is in a row, if it is one.
fn leaf_number(leaf: Leaf, row: &Row) -> Result<Option<i64>, Range>
    ensures { result ≡ number_in (value_of (leaf_expression leaf) row.now) }
{
    match leaf {
        Leaf::Null => Ok(None),
        Leaf::Int(number) => Ok(Some(number)),
        Leaf::Column(column) => Ok(number_at(row, column)),
    }
}

/// The number in a column of a row, if there is one.
fn number_at(row: &Row, column: u32) -> Option<i64>
    ensures { Ok result ≡ number_in (Ok (column_of row.now column)) }
{
    match cell(row, column) {
        Some(Value::Int(number)) => Some(*number),
        _ => None,
    }
}

/// An operator on two sides: out of range where a side is, and none where a side is none.
fn combine(
    op: Operator,
    left: Result<Option<i64>, Range>,
    right: Result<Option<i64>, Range>,
) -> Result<Option<i64>, Range>
    ensures { result ≡ combined_numbers op left right }
{
    match (left?, right?) {
        (Some(left), Some(right)) => calculate(op, left, right),
        _ => Ok(None),
    }
}

/// An operator on two numbers, unless the result leaves 64 bits.
fn calculate(op: Operator, left: i64, right: i64) -> Result<Option<i64>, Range>
    ensures { result ≡ number_in (number_of (exact op left right)) }
{
    let number = match op {
        Operator::Add => left.checked_add(right),
        Operator::Sub => left.checked_sub(right),
        Operator::Mul => left.checked_mul(right),
    };
    match number {
        Some(number) => Ok(Some(number)),
        None => Err(Range),
    }
}

/// The row after the assignments, or none where a value is out of range.
pub fn set_row(alloc: Global, sets: &Sets, row: &Row) -> Result<Option<Row>, AllocError>
    ensures { IfOk result (λ new. new ≡ assigned sets.now row.now) }
{
    let mut new = copy_values(alloc, row.as_slice())?;
    for set in sets.as_slice() {
        let Ok(value) = value(&set.value, row) else {
            return Ok(None);
        };
        set_column(&mut new, set.column, value);
    }
    Ok(Some(Seq::from_vec(new)))
}

/// Sets a column; beyond the last there is none.
fn set_column(row: &mut Vec<Value>, column: u32, value: Value)
    ensures { row.new.items ≡ slice_set row.old.items column value }
{
    if let Some(old) = row.get_mut(column as usize) {
        *old = value;
    }
}
