//! The right sides of assignments with their names resolved.

ghost use Rattle.std.specs.Prelude.{◌≡◌, ◌&&◌, not, IfOk};
ghost use Rattle.hy_ast.specs.Trees.{formula_of};
ghost use Rattle.hy_bind.specs.Refusals.{fault_if, first_of};
ghost use Rattle.hy_bind.specs.Scope.{operand_fault, operand_kind, scope_of};
ghost use Rattle.hy_bind.specs.Expressions.{binary_bound, formula_bound, formula_fault, formula_kind, is_number, operand_bound};

use crate::literals::{kind_of, plain, value};
use crate::refusals::{BindFault, agree, fault_if, first_of};
use crate::scope::{Scope, kind_in, missing, number, resolve};
use hy_ast::{Formula, Operand, Operator};
use hy_bound::{SetExpr, SideView};
use hy_value::Kind;
use std::alloc::{AllocError, Global};

/// An expression as it is bound: why it is refused, its type, and what the engine runs.
#[derive(Drop)]
pub struct Judged {
    /// Why it is refused, if it is.
    pub fault: Option<BindFault>,
    /// Its type: an operator makes a number, and NULL has none.
    pub kind: Option<Kind>,
    /// What the engine runs, if it is not refused.
    pub value: SetExpr,
}

/// An expression with its names resolved, each once.
pub fn expression(scope: &Scope, tree: &Formula) -> Result<Judged, AllocError>
    ensures fault { IfOk result (λ judged. judged.fault ≡ formula_fault (scope_of scope.now) (formula_of tree.now)) }
    ensures kind { IfOk result (λ judged. judged.kind ≡ formula_kind (scope_of scope.now) (formula_of tree.now)) }
    ensures value { IfOk result (λ judged. judged.value ≡ formula_bound (scope_of scope.now) (formula_of tree.now)) }
{
    match tree {
        Formula::Plain(operand) => single(scope, operand),
        Formula::Binary {
            left,
            op,
            right,
            ..
        } => {
            let left = expression(scope, left)?;
            let right = expression(scope, right)?;
            binary(scope.alloc, *op, left, right)
        }
        Formula::Bracket(inner) => expression(scope, inner),
    }
}

/// A column or a literal as an expression. It stands by itself, so that a chain of operators takes little
/// room for each.
#[inline(never)]
fn single(scope: &Scope, operand: &Operand) -> Result<Judged, AllocError>
    ensures fault { IfOk result (λ judged. judged.fault ≡ operand_fault (scope_of scope.now) operand.now) }
    ensures kind { IfOk result (λ judged. judged.kind ≡ operand_kind (scope_of scope.now) operand.now) }
    ensures value { IfOk result (λ judged. judged.value ≡ operand_bound (scope_of scope.now) operand.now) }
{
    match operand {
        Operand::Column(reference) => {
            let found = resolve(scope, reference);
            Ok(Judged {
                fault: missing(found),
                kind: kind_in(found),
                value: SetExpr::column(number(found)?),
            })
        }
        Operand::Literal(literal) => {
            let (fault, side) = plain(scope.script, literal);
            let value = match side {
                Some(SideView::Int(number)) => SetExpr::number(number),
                _ => SetExpr::literal(scope.alloc, value(scope.alloc, scope.script, literal)?)?,
            };
            let kind = kind_of(literal);
            Ok(Judged { fault, kind, value })
        }
    }
}

/// Whether a type may be that of a number.
pub fn is_number(kind: Option<Kind>) -> bool
    ensures { result ≡ is_number kind }
{
    agree(kind, Some(Kind::Int))
}

/// An operator between two expressions. It stands by itself, as a column or a literal does.
#[inline(never)]
fn binary(alloc: Global, op: Operator, left: Judged, right: Judged) -> Result<Judged, AllocError>
    ensures fault { IfOk result (λ judged. judged.fault ≡ first_of (first_of left.fault right.fault)
        (fault_if (not (is_number left.kind && is_number right.kind)) BindFault.WrongType)) }
    ensures kind { IfOk result (λ judged. judged.kind ≡ Some Kind.Int) }
    ensures value { IfOk result (λ judged. judged.value ≡ binary_bound op left.value right.value) }
{
    let numbers = is_number(left.kind) && is_number(right.kind);
    let sides = first_of(left.fault, right.fault);
    Ok(Judged {
        fault: first_of(sides, fault_if(!numbers, BindFault::WrongType)),
        kind: Some(Kind::Int),
        value: combined(alloc, op, left.value, right.value)?,
    })
}

/// What the engine runs for an operator between two expressions.
#[inline(always)]
pub fn combined(
    alloc: Global,
    op: Operator,
    left: SetExpr,
    right: SetExpr,
) -> Result<SetExpr, AllocError>
    ensures { IfOk result (λ value. value ≡ binary_bound op left right) }
{
    match op {
        Operator::Plus => SetExpr::add(alloc, left, right),
        Operator::Minus => SetExpr::sub(alloc, left, right),
        Operator::Times => SetExpr::mul(alloc, left, right),
    }
}
