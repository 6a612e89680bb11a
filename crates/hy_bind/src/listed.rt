//! What a SELECT shows, with its names resolved.

ghost use Rattle.std.specs.Prelude.{◌≡◌, IfOk, map};
ghost use Rattle.std.specs.List.{range_with_len};
ghost use Rattle.hy_bind.specs.Scope.{scope_of, column_of, total_width};
ghost use Rattle.hy_bind.specs.Statements.{sum_fault, columns_fault, listed_fault, items_bound, total_fault, total_bound};

use crate::expressions::is_number;
use crate::refusals::{BindFault, fault_if, first_of};
use crate::scope::{Scope, kind_in, missing, number, resolve, width};
use hy_ast::{ColumnRef, Listed, Total};
use hy_bound::{Aggregate, Items, Numbers};
use hy_value::Seq;
use std::alloc::AllocError;

/// What a SELECT shows, as it is bound: why it is refused, and what the engine shows.
#[derive(Drop)]
pub struct Shown {
    /// Why it is refused, if it is.
    pub fault: Option<BindFault>,
    /// What the engine shows, if it is not refused.
    pub items: Items,
}

/// What is listed, each name resolved once.
pub fn items(scope: &Scope, listed: &Listed) -> Result<Shown, AllocError>
    ensures fault { IfOk result (λ shown. shown.fault ≡ listed_fault (scope_of scope.now) listed.now) }
    ensures items { IfOk result (λ shown. shown.items ≡ items_bound (scope_of scope.now) listed.now) }
{
    let (fault, items) = match listed {
        Listed::All => (None, Items::Columns(all_columns(scope)?)),
        Listed::Sum(reference) => {
            let (fault, column) = summed(scope, reference)?;
            (fault, Items::Sum(column))
        }
        Listed::Columns(references) => {
            let (fault, numbers) = columns(scope, references.as_slice())?;
            (fault, Items::Columns(numbers))
        }
    };
    Ok(Shown { fault, items })
}

/// Why the total of a group is refused, and how the engine makes it.
pub fn aggregate(scope: &Scope, total: &Total) -> Result<(Option<BindFault>, Aggregate), AllocError>
    ensures fault { IfOk result (λ found. found.0 ≡ total_fault (scope_of scope.now) total.now) }
    ensures aggregate { IfOk result (λ found. found.1 ≡ total_bound (scope_of scope.now) total.now) }
{
    match total {
        Total::Count => Ok((None, Aggregate::Count)),
        Total::Sum(reference) => {
            let (fault, column) = summed(scope, reference)?;
            Ok((fault, Aggregate::Sum(column)))
        }
    }
}

/// Why a sum is refused, and the number of its column.
fn summed(scope: &Scope, reference: &ColumnRef) -> Result<(Option<BindFault>, u32), AllocError>
    ensures fault { IfOk result (λ found. found.0 ≡ sum_fault (scope_of scope.now) reference.now) }
    ensures column { IfOk result (λ found. found.1 ≡ column_of (scope_of scope.now) reference.now) }
{
    let found = resolve(scope, reference);
    let wrong_type = fault_if(!is_number(kind_in(found)), BindFault::WrongType);
    Ok((first_of(missing(found), wrong_type), number(found)?))
}

/// The numbers of all columns of the joined row.
fn all_columns(scope: &Scope) -> Result<Numbers, AllocError>
    ensures { IfOk result (λ numbers. numbers ≡ range_with_len 0 (total_width scope.now.catalog.now scope.now.tables.now)) }
{
    let width = u32::try_from(joined_width(scope)).map_err(|_| AllocError)?;
    Ok(Seq::from_vec((0..width).collect(scope.alloc)?))
}

/// How many columns the joined row has, wide enough for any sum of widths.
fn joined_width(scope: &Scope) -> u128
    ensures { result ≡ total_width scope.now.catalog.now scope.now.tables.now }
{
    let mut total = 0u128;
    for table in scope.tables {
        total += width(scope.catalog, *table) as u128;
    }
    total
}

/// Why columns are refused, and their numbers.
fn columns(
    scope: &Scope,
    references: &[ColumnRef],
) -> Result<(Option<BindFault>, Numbers), AllocError>
    ensures fault { IfOk result (λ found. found.0 ≡ columns_fault (scope_of scope.now) references.now) }
    ensures numbers { IfOk result (λ found. found.1 ≡ map (column_of (scope_of scope.now)) references.now) }
{
    let mut fault = None;
    let mut numbers = Vec::with_capacity(scope.alloc, references.len())?;
    for reference in references {
        let found = resolve(scope, reference);
        fault = first_of(fault, missing(found));
        numbers.push(number(found)?)?;
    }
    Ok((fault, Seq::from_vec(numbers)))
}
