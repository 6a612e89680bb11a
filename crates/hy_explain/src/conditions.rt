//! Conditions as the grammar spells them.

ghost use Rattle.std.specs.Prelude.{◌≡◌, ◌++◌, OnOk};
ghost use Rattle.hy_bound.specs.PredView.{viewed_side};
ghost use Rattle.hy_bound.specs.Condition.{Compare, Not, And, Or};
ghost use Rattle.hy_explain.specs.Conditions.{operator_text, side_text, level_of, nested, condition_text, takes_all, where_text};

use crate::words::{column_name, put};
use hy_bound::{Pred, Root, SideView};
use hy_schema::Column;
use hy_value::{Cmp, Value, print};
use std::alloc::AllocError;

/// The operator of a comparison, between spaces.
fn operator_text(op: Cmp) -> &'static [u8]
    ensures { result.now ≡ operator_text op }
{
    match op {
        Cmp::Eq => b" = ",
        Cmp::Ne => b" <> ",
        Cmp::Lt => b" < ",
        Cmp::Le => b" <= ",
        Cmp::Gt => b" > ",
        Cmp::Ge => b" >= ",
    }
}

/// Appends the right side of a comparison.
fn put_side(columns: &[Column], side: SideView, out: &mut Vec<u8>) -> Result<(), AllocError>
    ensures { OnOk result (out.new.items ≡ out.old.items ++ side_text columns.now (viewed_side side.entry)) }
{
    match side {
        SideView::Column(column) => put(column_name(columns, column), out),
        SideView::Null => print(&Value::Null, out),
        SideView::Int(number) => print(&Value::Int(number), out),
        SideView::Text(text) => print(&Value::Text(text.copy()), out),
    }
}

/// How close a condition binds: OR, AND, NOT, and what needs no parentheses.
fn level_of(pred: &Pred) -> u32
    ensures { result ≡ level_of pred.now }
{
    match pred.root() {
        Root::True | Root::Compare { .. } | Root::IsNull(_) => 3,
        Root::Not(_) => 2,
        Root::And(_, _) => 1,
        Root::Or(_, _) => 0,
    }
}

/// Appends a comparison.
fn put_comparison(
    columns: &[Column],
    column: u32,
    op: Cmp,
    side: SideView,
    out: &mut Vec<u8>,
) -> Result<(), AllocError>
    ensures { OnOk result (out.new.items ≡ out.old.items ++ condition_text columns.now (Compare column op (viewed_side side.entry))) }
{
    put(column_name(columns, column), out)?;
    put(operator_text(op), out)?;
    put_side(columns, side, out)
}

/// Appends a condition, in parentheses where it binds less close than it is to.
#[cycle(condition)]
fn put_nested(
    columns: &[Column],
    least: u32,
    pred: &Pred,
    out: &mut Vec<u8>,
) -> Result<(), AllocError>
    ensures { OnOk result (out.new.items ≡ out.old.items ++ nested least (level_of pred.now) (condition_text columns.now pred.now)) }
{
    if level_of(pred) >= least {
        return put_condition(columns, pred, out);
    }
    put(b"(", out)?;
    put_condition(columns, pred, out)?;
    put(b")", out)
}

/// Appends a condition over these columns.
#[cycle(condition)]
fn put_condition(columns: &[Column], pred: &Pred, out: &mut Vec<u8>) -> Result<(), AllocError>
    ensures { OnOk result (out.new.items ≡ out.old.items ++ condition_text columns.now pred.now) }
{
    match pred.root() {
        Root::True => put(b"TRUE", out),
        Root::Compare { column, op, side } => put_comparison(columns, column, op, side, out),
        Root::IsNull(column) => {
            put(column_name(columns, column), out)?;
            put(b" IS NULL", out)
        }
        Root::Not(inner) => {
            put(b"NOT ", out)?;
            put_nested(columns, 2, inner, out)
        }
        Root::And(left, right) => {
            put_nested(columns, 1, left, out)?;
            put(b" AND ", out)?;
            put_nested(columns, 2, right, out)
        }
        Root::Or(left, right) => {
            put_nested(columns, 0, left, out)?;
            put(b" OR ", out)?;
            put_nested(columns, 1, right, out)
        }
    }
}

/// Whether all rows are meant.
fn takes_all(pred: &Pred) -> bool
    ensures { result ≡ takes_all pred.now }
{
    match pred.root() {
        Root::True => true,
        Root::Compare { .. } | Root::IsNull(_) | Root::Not(_) | Root::And(_, _) | Root::Or(_, _) =>
            { false }
    }
}

/// Appends WHERE and a condition, nothing where there is none.
pub fn put_where(columns: &[Column], pred: &Pred, out: &mut Vec<u8>) -> Result<(), AllocError>
    ensures { OnOk result (out.new.items ≡ out.old.items ++ where_text columns.now pred.now) }
{
    if takes_all(pred) {
        return Ok(());
    }
    put(b" where ", out)?;
    put_condition(columns, pred, out)
}
