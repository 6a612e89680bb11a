//! ON with its names resolved.

ghost use Rattle.std.specs.Prelude.{◌≡◌, IfOk};
ghost use Rattle.hy_bind.specs.Scope.{scope_of};
ghost use Rattle.hy_bind.specs.Statements.{visible, join_fault, joins_fault, ons_bound, on_bound};

use crate::conditions::unequal;
use crate::refusals::{BindFault, first_of};
use crate::scope::{Scope, kind_in, missing, number, resolve};
use hy_ast::Join;
use hy_bound::{On, Ons};
use hy_value::Seq;
use std::alloc::AllocError;

/// The first so many tables.
fn visible<'a>(scope: &Scope<'a>, count: usize) -> Scope<'a>
    ensures { scope_of result ≡ visible (scope_of scope.now) count }
{
    let count = count.min(scope.tables.len());
    Scope {
        tables: &scope.tables[..count],
        ..*scope
    }
}

/// Why the ONs are refused, and these as the engine runs them. In each the tables up to the one just joined are visible.
pub fn ons(scope: &Scope, joins: &[Join]) -> Result<(Option<BindFault>, Ons), AllocError>
    ensures fault { IfOk result (λ found. found.0 ≡ joins_fault (scope_of scope.now) 2 joins.now) }
    ensures ons { IfOk result (λ found. found.1 ≡ ons_bound (scope_of scope.now) 2 joins.now) }
{
    let mut fault = None;
    let mut all = Vec::with_capacity(scope.alloc, joins.len())?;
    for (i, join) in joins.iter().enumerate() {
        let (unfit, equal) = on(&visible(scope, i + 2), join)?;
        fault = first_of(fault, unfit);
        all.push(equal)?;
    }
    Ok((fault, Seq::from_vec(all)))
}

/// Why an ON is refused, and the equality that it is.
fn on(scope: &Scope, join: &Join) -> Result<(Option<BindFault>, On), AllocError>
    ensures fault { IfOk result (λ found. found.0 ≡ join_fault (scope_of scope.now) join.now) }
    ensures on { IfOk result (λ found. found.1 ≡ on_bound (scope_of scope.now) join.now) }
{
    let left = resolve(scope, &join.left);
    let right = resolve(scope, &join.right);
    let on = On {
        left: number(left)?,
        right: number(right)?,
    };
    Ok((unequal(left, missing(right), kind_in(right)), on))
}
