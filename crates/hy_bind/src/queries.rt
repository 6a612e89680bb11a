//! SELECT with its names resolved.

ghost use Rattle.std.specs.Prelude.{◌≡◌, ◌==◌, ◌∷◌, is_none, map, not, IfOk};
ghost use Rattle.std.specs.Option.{option_map_or};
ghost use Rattle.hy_ast.specs.Trees.{selection_of};
ghost use Rattle.hy_bind.specs.Refusals.{first_of, fault_if};
ghost use Rattle.hy_bind.specs.Scope.{scope_of};
ghost use Rattle.hy_bind.specs.Statements.{Binds, from_fault, selection_fault, selection_bound};

use crate::conditions::tested;
use crate::joins::ons;
use crate::listed::{aggregate, items};
use crate::refusals::{BindError, BindFault, fault_if, first_of, refuse};
use crate::scope::{Found, Scope, missing, number, resolve, wide_number};
use crate::statements::table;
use crate::tables::{joined_tables, repeats};
use hy_ast::{Join, Selection};
use hy_bound::{Bound, Items};
use hy_limits::MOST_JOINED;
use hy_token::Span;
use hy_value::Seq;
use std::alloc::AllocError;

/// A SELECT.
pub fn query(scope: &Scope, tree: &Selection) -> Result<Bound, BindError>
    ensures { Binds result (selection_fault (scope_of scope.now) (selection_of tree.now)) (selection_bound (scope_of scope.now) (selection_of tree.now)) }
{
    match tree {
        Selection::Rows {
            listed,
            table,
            joins,
            condition,
        } => {
            let from = from_fault(scope, *table, joins.as_slice())?;
            let (unfit, ons) = ons(scope, joins.as_slice())?;
            let tested = tested(scope, condition.as_ref())?;
            let shown = items(scope, listed)?;
            let rest = first_of(shown.fault, tested.fault);
            refuse(first_of(first_of(from, unfit), rest))?;
            Ok(Bound::Select {
                tables: Seq::from_slice(scope.alloc, scope.tables)?,
                ons,
                pred: tested.pred,
                items: shown.items,
            })
        }
        Selection::Count { condition, .. } => {
            let tested = tested(scope, condition.as_ref())?;
            refuse(tested.fault)?;
            Ok(Bound::Select {
                tables: Seq::from_slice(scope.alloc, scope.tables)?,
                ons: Seq::new(scope.alloc),
                pred: tested.pred,
                items: Items::Count,
            })
        }
        Selection::Groups {
            column,
            total,
            condition,
            key,
            ..
        } => {
            let tested = tested(scope, condition.as_ref())?;
            let (fault, aggregate) = aggregate(scope, total)?;
            let key = resolve(scope, key);
            let columns = group_column_fault(resolve(scope, column), key);
            refuse(first_of(columns, first_of(fault, tested.fault)))?;
            Ok(Bound::Group {
                table: table(scope),
                pred: tested.pred,
                key: number(key)?,
                aggregate,
            })
        }
    }
}

/// Why FROM is refused: a table comes twice, or there are too many.
#[tactic(auto, using(crate::proofs::Few::one_table))]
fn from_fault(scope: &Scope, table: Span, joins: &[Join]) -> Result<Option<BindFault>, AllocError>
    ensures { IfOk result (λ fault. fault ≡ from_fault (scope_of scope.now) (table ∷ map (λ join. join.table) joins.now)) }
{
    if joins.is_empty() {
        return Ok(None);
    }
    let tables = joined_tables(scope.alloc, table, joins)?;
    let again = repeats(scope.alloc, scope.script, tables.as_slice())?;
    let twice = fault_if(again, BindFault::Twice);
    let limit = fault_if(tables.len() > MOST_JOINED, BindFault::Limit);
    Ok(first_of(twice, limit))
}

/// Why the columns of a SELECT with GROUP BY are refused: one isn't there, or they aren't the same.
fn group_column_fault(listed: Option<Found>, key: Option<Found>) -> Option<BindFault>
    ensures { result ≡ first_of (first_of (fault_if (is_none listed) BindFault.UnknownColumn) (fault_if (is_none key) BindFault.UnknownColumn))
        (fault_if (not (option_map_or (λ found. found.column) listed 0 == option_map_or (λ found. found.column) key 0)) BindFault.GroupColumn) }
{
    let unknown = first_of(missing(listed), missing(key));
    let other = wide_number(listed) != wide_number(key);
    first_of(unknown, fault_if(other, BindFault::GroupColumn))
}
