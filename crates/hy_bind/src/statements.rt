//! INSERT, UPDATE and DELETE with their names resolved.

ghost use Rattle.std.specs.Prelude.{◌≡◌, IfOk, map};
ghost use Rattle.std.specs.Option.{option_map, option_copied};
ghost use Rattle.hy_ast.specs.Trees.{set_clause_of, test_of};
ghost use Rattle.hy_bound.specs.declared.Bound.TheVariants as bound;
ghost use Rattle.hy_bind.specs.Conditions.{where_bound, where_fault};
ghost use Rattle.hy_bind.specs.Literals.{literal_value, text_of_span};
ghost use Rattle.hy_bind.specs.Scope.{scope_of};
ghost use Rattle.hy_bind.specs.Statements.{table_of, columns_of, key_of, value_fault, values_fault, key_fault, insert_fault, is_key};
ghost use Rattle.hy_bind.specs.Statements.{Binds, fault_of_set, kind_at, set_fault, set_column, sets_fault, update_fault, set_bound, repeats};

use crate::conditions::tested;
use crate::expressions::{Judged, expression};
use crate::literals::{kind_of, plain, text_in, value};
use crate::refusals::{BindError, BindFault, agree, fault_if, first_of, refuse};
use crate::scope::{Scope, column_ordinal};
use crate::tables::repeats;
use hy_ast::{Literal, SetClause, Test};
use hy_bound::{Assign, Bound, Sets, SideView};
use hy_schema::Column;
use hy_token::Span;
use hy_value::{Kind, RowBuffer, Seq, StoredRow};
use std::alloc::{AllocError, Global};

/// The number of a statement's one table.
pub fn table(scope: &Scope) -> u32
    ensures { result ≡ table_of (scope_of scope.now) }
{
    scope.tables.first().copied().unwrap_or(0)
}

/// The columns of that table.
pub fn columns<'a>(scope: &Scope<'a>) -> &'a [Column]
    ensures { result.now ≡ columns_of (scope_of scope.now) }
{
    match scope.catalog.table(table(scope)) {
        Some(def) => def.columns.as_slice(),
        None => &[],
    }
}

/// The number of its key, if it has one.
pub fn key(scope: &Scope) -> Option<u32>
    ensures { result ≡ key_of (scope_of scope.now) }
{
    scope.catalog.table(table(scope))?.key
}

/// An INSERT.
pub fn insert(scope: &Scope, values: &[Literal]) -> Result<Bound, BindError>
    ensures { Binds result (insert_fault (scope_of scope.now) values.now)
        (bound.Insert (table_of (scope_of scope.now)) (map (literal_value scope.now.script.now) values.now)) }
{
    let unfit = values_fault(scope.script, columns(scope), values);
    refuse(first_of(unfit, key_fault(key(scope), values)))?;
    Ok(Bound::Insert {
        table: table(scope),
        row: row(scope, values)?,
    })
}

/// Why the values of an INSERT don't fit these columns.
fn values_fault(script: &[u8], columns: &[Column], values: &[Literal]) -> Option<BindFault>
    ensures { result ≡ values_fault script.now columns.now values.now }
{
    let mut fault = None;
    for (i, column) in columns.iter().enumerate() {
        let Some(value) = values.get(i) else {
            return first_of(fault, Some(BindFault::WrongType));
        };
        fault = first_of(fault, value_fault(script, column, value));
    }
    let too_many = columns.len() < values.len();
    first_of(fault, fault_if(too_many, BindFault::WrongType))
}

/// Why a value doesn't fit a column.
fn value_fault(script: &[u8], column: &Column, value: &Literal) -> Option<BindFault>
    ensures { result ≡ value_fault script.now column.now value.now }
{
    let fits = agree(kind_of(value), Some(column.kind));
    let wrong_type = fault_if(!fits, BindFault::WrongType);
    first_of(plain(script, value).0, wrong_type)
}

/// Why the value of the key is refused: it is NULL.
fn key_fault(key: Option<u32>, values: &[Literal]) -> Option<BindFault>
    ensures { result ≡ key_fault key values.now }
{
    let value = values.get(key? as usize);
    let is_null = matches!(value, Some(Literal::Null(_)));
    fault_if(is_null, BindFault::KeyNull)
}

/// The row of an INSERT.
fn row(scope: &Scope, literals: &[Literal]) -> Result<StoredRow, AllocError>
    ensures { IfOk result (λ row. row ≡ map (literal_value scope.now.script.now) literals.now) }
{
    let mut row = RowBuffer::new(scope.alloc);
    row.make_room(literals.len(), 0)?;
    for literal in literals {
        match plain(scope.script, literal).1 {
            Some(SideView::Int(number)) => row.push_number_reserved(number),
            Some(SideView::Null) => row.push_null_reserved(),
            _ => return row_with_texts(scope, literals),
        }
    }
    Ok(StoredRow::from_buffer(row))
}

/// The row of an INSERT that has texts.
fn row_with_texts(scope: &Scope, literals: &[Literal]) -> Result<StoredRow, AllocError>
    ensures { IfOk result (λ row. row ≡ map (literal_value scope.now.script.now) literals.now) }
{
    let mut values = Vec::with_capacity(scope.alloc, literals.len())?;
    for literal in literals {
        values.push(value(scope.alloc, scope.script, literal)?)?;
    }
    StoredRow::from_values(scope.alloc, values.as_slice())
}

/// An UPDATE.
pub fn update(
    scope: &Scope,
    sets: &[SetClause],
    condition: Option<&Test>,
) -> Result<Bound, BindError>
    ensures { Binds result (update_fault (scope_of scope.now) (map set_clause_of sets.now) (option_map test_of (option_copied condition.entry)))
        (bound.Update (table_of (scope_of scope.now)) (map (set_bound (scope_of scope.now)) (map set_clause_of sets.now))
        (where_bound (scope_of scope.now) (option_map test_of (option_copied condition.entry)))) }
{
    let twice = fault_if(sets_twice(scope, sets)?, BindFault::Twice);
    let tested = tested(scope, condition)?;
    let (unfit, sets) = assignments(scope, sets)?;
    refuse(first_of(unfit, first_of(twice, tested.fault)))?;
    Ok(Bound::Update {
        table: table(scope),
        sets,
        pred: tested.pred,
    })
}

/// A DELETE.
pub fn delete(scope: &Scope, condition: Option<&Test>) -> Result<Bound, BindError>
    ensures { Binds result (where_fault (scope_of scope.now) (option_map test_of (option_copied condition.entry)))
        (bound.Delete (table_of (scope_of scope.now)) (where_bound (scope_of scope.now) (option_map test_of (option_copied condition.entry)))) }
{
    let tested = tested(scope, condition)?;
    refuse(tested.fault)?;
    Ok(Bound::Delete {
        table: table(scope),
        pred: tested.pred,
    })
}

/// Whether a column comes twice on the left of SET.
#[tactic(auto, using(crate::proofs::Few::few_sets, crate::proofs::Few::set_columns))]
fn sets_twice(scope: &Scope, sets: &[SetClause]) -> Result<bool, AllocError>
    ensures { IfOk result (λ twice. twice ≡ repeats (map (text_of_span scope.now.script.now) (map (λ set. set.column) (map set_clause_of sets.now)))) }
{
    if sets.len() < 2 {
        return Ok(false);
    }
    let columns = columns_set(scope.alloc, sets)?;
    repeats(scope.alloc, scope.script, columns.as_slice())
}

/// The spans of the columns on the left of SET.
fn columns_set(alloc: Global, sets: &[SetClause]) -> Result<Vec<Span>, AllocError>
    ensures { IfOk result (λ spans. spans.items ≡ map (λ set. set.column) sets.now) }
{
    sets.iter().map(|set| set.column).collect(alloc)
}

/// Why an assignment to a column of this number, if there is one, is refused, with a value that was judged.
fn set_fault(scope: &Scope, column: Option<usize>, value: &Judged) -> Option<BindFault>
    ensures { result ≡ fault_of_set (scope_of scope.now) value.now.fault value.now.kind column }
{
    let Some(column) = column else {
        return Some(BindFault::UnknownColumn);
    };
    let fits = agree(value.kind, kind_at(columns(scope), column));
    let wrong_type = fault_if(!fits, BindFault::WrongType);
    let key_set = fault_if(is_key(key(scope), column), BindFault::KeySet);
    first_of(value.fault, first_of(wrong_type, key_set))
}

/// The type of a column.
fn kind_at(columns: &[Column], column: usize) -> Option<Kind>
    ensures { result ≡ kind_at columns.now column }
{
    Some(columns.get(column)?.kind)
}

/// Whether a column is the key.
pub fn is_key(key: Option<u32>, column: usize) -> bool
    ensures { result ≡ is_key key column }
{
    key.is_some_and(|key| key as usize == column)
}

/// Why assignments are refused, and these as the engine runs them.
fn assignments(scope: &Scope, sets: &[SetClause]) -> Result<(Option<BindFault>, Sets), AllocError>
    ensures fault { IfOk result (λ found. found.0 ≡ sets_fault (scope_of scope.now) (map set_clause_of sets.now)) }
    ensures sets { IfOk result (λ found. found.1 ≡ map (set_bound (scope_of scope.now)) (map set_clause_of sets.now)) }
{
    let mut fault = None;
    let mut all = Vec::with_capacity(scope.alloc, sets.len())?;
    for set in sets {
        let (unfit, assign) = assignment(scope, set)?;
        fault = first_of(fault, unfit);
        all.push(assign)?;
    }
    Ok((fault, Seq::from_vec(all)))
}

/// Why an assignment is refused, and what the engine runs.
fn assignment(scope: &Scope, set: &SetClause) -> Result<(Option<BindFault>, Assign), AllocError>
    ensures fault { IfOk result (λ found. found.0 ≡ set_fault (scope_of scope.now) (set_clause_of set.now)
        (set_column (scope_of scope.now) (set_clause_of set.now))) }
    ensures assign { IfOk result (λ found. found.1 ≡ set_bound (scope_of scope.now) (set_clause_of set.now)) }
{
    let column = column_ordinal(columns(scope), text_in(scope.script, set.column));
    let value = expression(scope, &set.value)?;
    let fault = set_fault(scope, column, &value);
    let assign = Assign {
        column: u32::try_from(column.unwrap_or(0)).map_err(|_| AllocError)?,
        value: value.value,
    };
    Ok((fault, assign))
}
