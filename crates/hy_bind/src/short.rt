//! Short statements with their names resolved. One that is refused is resolved as any.

ghost use Rattle.std.specs.Prelude.{◌∷◌, [], Some, IfOk, IfSome, map};
ghost use Rattle.hy_ast.specs.Trees.{clause_of_short, selection_of_short, test_of_short};
ghost use Rattle.hy_bound.specs.declared.Bound.TheVariants as bound;
ghost use Rattle.hy_bind.specs.ShortForms.{FitsSet, FitsTest, MayBeSet, MeansNumbers};
ghost use Rattle.hy_bind.specs.Conditions.{where_bound};
ghost use Rattle.hy_bind.specs.Scope.{scope_of};
ghost use Rattle.hy_bind.specs.Statements.{Binds, selection_bound, selection_fault, set_bound, table_of, update_fault};

use crate::expressions::combined;
use crate::literals::{integer, text_in};
use crate::queries::query;
use crate::refusals::BindError;
use crate::scope::{Scope, column_ordinal, resolve};
use crate::statements::{is_key, key, table, update};
use hy_ast::{ShortSelection, ShortSet, ShortTest, unqualified};
use hy_bound::{Assign, Bound, Items, Pred, SetExpr, SideView};
use hy_token::Span;
use hy_value::{Cmp, Kind, Seq};
use std::alloc::AllocError;

/// The number of the column of numbers of the one table that a name means, if it means one. It stands by itself, since an
/// UPDATE asks it three times.
#[inline(never)]
#[tactic(auto, using(crate::proofs::ShortForms::means))]
fn numbers_of(scope: &Scope, name: Span) -> Option<u32>
    ensures { IfSome result (λ column. MeansNumbers (scope_of scope.now) name column) }
{
    let [table] = scope.tables else {
        return None;
    };
    let columns = scope.catalog.table(*table)?.columns.as_slice();
    let ordinal = column_ordinal(columns, text_in(scope.script, name))?;
    match columns.get(ordinal)?.kind {
        Kind::Int => u32::try_from(ordinal).ok(),
        Kind::Str => None,
    }
}

/// A short condition as the engine runs it, if nothing is against it.
#[inline(always)]
#[tactic(auto, using(crate::proofs::ShortForms::test_fits))]
fn key_of(scope: &Scope, test: &ShortTest) -> Result<Option<Pred>, AllocError>
    ensures { IfOk result (λ found. IfSome found (λ pred. FitsTest (scope_of scope.now) test.now pred)) }
{
    let column = numbers_of(scope, test.column);
    let number = integer(false, text_in(scope.script, test.digits));
    let (Some(column), Some(number)) = (column, number) else {
        return Ok(None);
    };
    let pred = Pred::compare_view(scope.alloc, column, Cmp::Eq, SideView::Int(number))?;
    Ok(Some(pred))
}

/// The number of a column that is set to a number, if it may be.
#[inline(always)]
fn set_numbers(scope: &Scope, name: Span) -> Option<u32>
    ensures { IfSome result (λ column. MayBeSet (scope_of scope.now) name column) }
{
    let column = numbers_of(scope, name)?;
    if is_key(key(scope), column as usize) {
        None
    } else {
        Some(column)
    }
}

/// A short assignment as the engine runs it, if nothing is against it.
#[inline(always)]
#[tactic(auto, using(crate::proofs::ShortForms::set_fits))]
fn change_of(scope: &Scope, set: &ShortSet) -> Result<Option<Assign>, AllocError>
    ensures { IfOk result (λ found. IfSome found (λ assign. FitsSet (scope_of scope.now) set.now assign)) }
{
    let column = set_numbers(scope, set.column);
    let left = numbers_of(scope, set.left);
    let number = integer(false, text_in(scope.script, set.digits));
    let (Some(column), Some(left), Some(number)) = (column, left, number) else {
        return Ok(None);
    };
    let left = SetExpr::column(left);
    let value = combined(scope.alloc, set.op, left, SetExpr::number(number))?;
    Ok(Some(Assign { column, value }))
}

/// A short UPDATE.
#[tactic(auto, using(crate::proofs::ShortForms::update_fits, crate::proofs::ShortForms::update_bound))]
pub fn short_update(scope: &Scope, set: &ShortSet, test: &ShortTest) -> Result<Bound, BindError>
    ensures { Binds result (update_fault (scope_of scope.now) (clause_of_short set.now ∷ []) (Some (test_of_short test.now)))
        (bound.Update (table_of (scope_of scope.now)) (map (set_bound (scope_of scope.now)) (clause_of_short set.now ∷ []))
        (where_bound (scope_of scope.now) (Some (test_of_short test.now)))) }
{
    let change = change_of(scope, set)?;
    let (Some(assign), Some(pred)) = (change, key_of(scope, test)?) else {
        return update(scope, &[set.clause(scope.alloc)?], Some(&test.test()));
    };
    let mut sets = Vec::with_capacity(scope.alloc, 1)?;
    sets.push_reserved(assign);
    Ok(Bound::Update {
        table: table(scope),
        sets: Seq::from_vec(sets),
        pred,
    })
}

/// A short SELECT.
#[tactic(auto, using(crate::proofs::ShortForms::select_fits, crate::proofs::ShortForms::select_bound))]
pub fn short_select(scope: &Scope, short: &ShortSelection) -> Result<Bound, BindError>
    ensures { Binds result (selection_fault (scope_of scope.now) (selection_of_short short.now))
        (selection_bound (scope_of scope.now) (selection_of_short short.now)) }
{
    let column = resolve(scope, &unqualified(short.column));
    let (Some(found), Some(pred)) = (column, key_of(scope, &short.test)?) else {
        return any_select(scope, short);
    };
    let number = u32::try_from(found.column).map_err(|_| AllocError)?;
    Ok(Bound::Select {
        tables: Seq::from_slice(scope.alloc, scope.tables)?,
        ons: Seq::new(scope.alloc),
        pred,
        items: Items::Columns(Seq::from_slice(scope.alloc, &[number])?),
    })
}

/// The same as any SELECT. It stands by itself, since few are refused.
#[inline(never)]
fn any_select(scope: &Scope, short: &ShortSelection) -> Result<Bound, BindError>
    ensures { Binds result (selection_fault (scope_of scope.now) (selection_of_short short.now))
        (selection_bound (scope_of scope.now) (selection_of_short short.now)) }
{
    query(scope, &short.selection(scope.alloc)?)
}
