//! Conditions with their names resolved.

ghost use Rattle.std.specs.Prelude.{◌≡◌, not, is_none, IfOk};
ghost use Rattle.std.specs.Option.{option_map, option_copied};
ghost use Rattle.hy_ast.specs.Trees.{test_of};
ghost use Rattle.hy_bound.specs.Condition.{Compare};
ghost use Rattle.hy_bind.specs.Refusals.{first_of, fault_if, agree};
ghost use Rattle.hy_bind.specs.Scope.{scope_of, column_of, column_fault, operand_side};
ghost use Rattle.hy_bind.specs.Conditions.{compare_fault, test_fault, test_bound, where_fault, where_bound, null_bound};

use crate::literals::{kind_of, plain, value};
use crate::refusals::{BindFault, agree, fault_if, first_of};
use crate::scope::{Found, Scope, kind_in, missing, number, resolve};
use hy_ast::{ColumnRef, Operand, Test};
use hy_bound::{Pred, Side, SideView};
use hy_value::{Cmp, Kind};
use std::alloc::AllocError;

/// A condition as it is bound: why it is refused, and what the engine runs.
#[derive(Drop)]
pub struct BoundTest {
    /// Why it is refused, if it is.
    pub fault: Option<BindFault>,
    /// What the engine runs, if it is not refused.
    pub pred: Pred,
}

/// WHERE with its names resolved, each once.
pub fn tested(scope: &Scope, condition: Option<&Test>) -> Result<BoundTest, AllocError>
    ensures fault { IfOk result (λ tested. tested.fault ≡ where_fault (scope_of scope.now) (option_map test_of (option_copied condition.entry))) }
    ensures pred { IfOk result (λ tested. tested.pred ≡ where_bound (scope_of scope.now) (option_map test_of (option_copied condition.entry))) }
{
    match condition {
        Some(condition) => test(scope, condition),
        None => Ok(BoundTest {
            fault: None,
            pred: Pred::always(),
        }),
    }
}

/// A condition with its names resolved.
fn test(scope: &Scope, condition: &Test) -> Result<BoundTest, AllocError>
    ensures fault { IfOk result (λ tested. tested.fault ≡ test_fault (scope_of scope.now) (test_of condition.now)) }
    ensures pred { IfOk result (λ tested. tested.pred ≡ test_bound (scope_of scope.now) (test_of condition.now)) }
{
    match condition {
        Test::Compare {
            left,
            op,
            right,
            ..
        } => comparison(scope, left, *op, right),
        Test::IsNull {
            column,
            negated,
            ..
        } => null_test(scope, column, *negated),
        Test::Not { condition, .. } => {
            let BoundTest { fault, pred } = test(scope, condition)?;
            let pred = Pred::not(scope.alloc, pred)?;
            Ok(BoundTest { fault, pred })
        }
        Test::And { left, right, .. } | Test::Or { left, right, .. } => {
            let left = test(scope, left)?;
            let right = test(scope, right)?;
            let fault = first_of(left.fault, right.fault);
            let pred = match condition {
                Test::And { .. } => Pred::and(scope.alloc, left.pred, right.pred)?,
                _ => Pred::or(scope.alloc, left.pred, right.pred)?,
            };
            Ok(BoundTest { fault, pred })
        }
        Test::Nested(condition) => test(scope, condition),
    }
}

/// A comparison with its names resolved. It stands by itself, so that a chain of conditions takes little room for
/// each.
#[inline(never)]
fn comparison(
    scope: &Scope,
    left: &ColumnRef,
    op: Cmp,
    right: &Operand,
) -> Result<BoundTest, AllocError>
    ensures fault { IfOk result (λ tested. tested.fault ≡ compare_fault (scope_of scope.now) left.now right.now) }
    ensures pred { IfOk result (λ tested. tested.pred
        ≡ Compare (column_of (scope_of scope.now) left.now) op (operand_side (scope_of scope.now) right.now)) }
{
    let left = resolve(scope, left);
    let column = number(left)?;
    match right {
        Operand::Column(reference) => {
            let right = resolve(scope, reference);
            let fault = unequal(left, missing(right), kind_in(right));
            let side = SideView::Column(number(right)?);
            let pred = Pred::compare_view(scope.alloc, column, op, side)?;
            Ok(BoundTest { fault, pred })
        }
        Operand::Literal(literal) => {
            let (unfit, side) = plain(scope.script, literal);
            let fault = unequal(left, unfit, kind_of(literal));
            let pred = match side {
                Some(side) => Pred::compare_view(scope.alloc, column, op, side)?,
                None => {
                    let side = Side::Literal(value(scope.alloc, scope.script, literal)?);
                    Pred::compare(scope.alloc, column, op, side)?
                }
            };
            Ok(BoundTest { fault, pred })
        }
    }
}

/// Why two sides of one type are refused: one of them is, or they have two types.
pub fn unequal(
    left: Option<Found>,
    right: Option<BindFault>,
    kind: Option<Kind>,
) -> Option<BindFault>
    ensures { result ≡ first_of (first_of (fault_if (is_none left) BindFault.UnknownColumn) right)
        (fault_if (not (agree (option_map (λ column. column.kind) left) kind)) BindFault.WrongType) }
{
    let same = agree(kind_in(left), kind);
    let wrong_type = fault_if(!same, BindFault::WrongType);
    first_of(first_of(missing(left), right), wrong_type)
}

/// IS NULL, or IS NOT NULL, with its column resolved.
fn null_test(scope: &Scope, reference: &ColumnRef, negated: bool) -> Result<BoundTest, AllocError>
    ensures fault { IfOk result (λ tested. tested.fault ≡ column_fault (scope_of scope.now) reference.now) }
    ensures pred { IfOk result (λ tested. tested.pred ≡ null_bound (column_of (scope_of scope.now) reference.now) negated) }
{
    let column = resolve(scope, reference);
    let is_null = Pred::is_null(number(column)?);
    Ok(BoundTest {
        fault: missing(column),
        pred: if negated {
            Pred::not(scope.alloc, is_null)?
        } else {
            is_null
        },
    })
}
