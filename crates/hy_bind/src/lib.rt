//! Statements with their names and types resolved, or the first reason why one is refused.
#![tactic(auto)]

ghost use Rattle.std.specs.Prelude.{◌≡◌, None, IfOk, OnOk, IfErr};
ghost use Rattle.hy_ast.specs.Trees.{statement_of};
ghost use Rattle.hy_bind.specs.Scope.{scope_of};
ghost use Rattle.hy_bind.specs.Statements.{Binds, HasNames, NamesTables, bind_fault, bound_of, fault_in, bound_in, Fails};
ghost use Rattle.hy_value.specs.TextBytes.{text_of};
ghost use Rattle.hy_bind.specs.Literals.{text_of_span};

mod conditions;
mod expressions;
mod joins;
mod laws;
mod listed;
mod literals;
mod queries;
mod refusals;
mod scope;
mod short;
mod statements;
mod tables;

use hy_ast::Statement;
use hy_bound::{Bound, Name};
use hy_schema::Catalog;
use hy_token::Span;
pub use laws::{bound_statements_fit, names_mean_one_column};
pub use literals::{text, text_in};
pub use refusals::{BindError, BindFault};
use scope::Scope;
use short::{short_select, short_update};
use std::alloc::{AllocError, Global};
pub use tables::repeats;

/// The statement with its names resolved, or the first reason why it is refused: one that names a savepoint never is.
/// `script` is the bytes in which the tree's spans lie.
pub fn bind(
    alloc: Global,
    script: &[u8],
    catalog: &Catalog,
    ast: &Statement,
) -> Result<Bound, BindError>
    requires { HasNames (statement_of ast.now) }
    ensures bound { IfOk result (λ bound. bound ≡ bound_of script.now catalog.now (statement_of ast.now)) }
    ensures accepts { OnOk result (bind_fault script.now catalog.now (statement_of ast.now) ≡ None) }
    ensures refuses { IfErr result (λ error. Fails error (bind_fault script.now catalog.now (statement_of ast.now))) }
{
    match ast {
        Statement::Savepoint { name } => Ok(Bound::Savepoint {
            name: name_in(alloc, script, *name)?,
        }),
        Statement::RollbackTo { name } => Ok(Bound::RollbackTo {
            name: name_in(alloc, script, *name)?,
        }),
        Statement::Release { name } => Ok(Bound::Release {
            name: name_in(alloc, script, *name)?,
        }),
        _ => over_tables(alloc, script, catalog, ast),
    }
}

/// The name of a savepoint.
fn name_in(alloc: Global, script: &[u8], name: Span) -> Result<Name, AllocError>
    ensures { IfOk result (λ found. found ≡ text_of (text_of_span script.now name)) }
{
    Name::new(alloc, text(alloc, text_in(script, name)))
}

/// A statement that names tables.
fn over_tables(
    alloc: Global,
    script: &[u8],
    catalog: &Catalog,
    ast: &Statement,
) -> Result<Bound, BindError>
    requires { NamesTables (statement_of ast.now) }
    ensures { Binds result (bind_fault script.now catalog.now (statement_of ast.now)) (bound_of script.now catalog.now (statement_of ast.now)) }
{
    let (table, []) = tables::table_and_joins(ast) else {
        return joined(alloc, script, catalog, ast);
    };
    let Some(number) = catalog.find(text_in(script, table)) else {
        return Err(BindError::Refused(BindFault::UnknownTable));
    };
    let scope = Scope {
        alloc,
        script,
        catalog,
        tables: &[number],
    };
    statement(&scope, ast)
}

/// A statement of any number of tables.
fn joined(
    alloc: Global,
    script: &[u8],
    catalog: &Catalog,
    ast: &Statement,
) -> Result<Bound, BindError>
    requires { NamesTables (statement_of ast.now) }
    ensures { Binds result (bind_fault script.now catalog.now (statement_of ast.now)) (bound_of script.now catalog.now (statement_of ast.now)) }
{
    let (table, joins) = tables::table_and_joins(ast);
    let tables = tables::joined_tables(alloc, table, joins)?;
    let numbers = tables::numbers(alloc, script, catalog, tables.as_slice())?;
    let numbers = numbers.ok_or(BindError::Refused(BindFault::UnknownTable))?;
    let scope = Scope {
        alloc,
        script,
        catalog,
        tables: numbers.as_slice(),
    };
    statement(&scope, ast)
}

/// A statement whose tables are there.
#[inline(always)]
fn statement(scope: &Scope, ast: &Statement) -> Result<Bound, BindError>
    requires { NamesTables (statement_of ast.now) }
    ensures { Binds result (fault_in (scope_of scope.now) (statement_of ast.now)) (bound_in (scope_of scope.now) (statement_of ast.now)) }
{
    match ast {
        Statement::Insert { values, .. } => statements::insert(scope, values.as_slice()),
        Statement::Update {
            sets,
            condition,
            ..
        } => statements::update(scope, sets.as_slice(), condition.as_ref()),
        Statement::ShortUpdate { set, test, .. } => short_update(scope, set, test),
        Statement::ShortSelect(short) => short_select(scope, short),
        Statement::Delete { condition, .. } => statements::delete(scope, condition.as_ref()),
        Statement::Select(query) => queries::query(scope, query),
        _ => unreachable!(),
    }
}
