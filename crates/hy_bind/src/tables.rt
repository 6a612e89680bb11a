//! The tables that a statement names.

ghost use Rattle.std.specs.Prelude.{◌≡◌, ◌∷◌, map, IfOk};
ghost use Rattle.std.specs.Option.{option_map};
ghost use Rattle.hy_ast.specs.Trees.{statement_of};
ghost use Rattle.hy_bind.specs.Literals.{text_of_span};
ghost use Rattle.hy_bind.specs.Statements.{NamesTables, repeats, numbers_of, tables_of};

use crate::literals::text_in;
use hy_ast::{Join, Selection, ShortSelection, Statement};
use hy_schema::{Catalog, Names};
use hy_token::Span;
use std::alloc::{AllocError, Global};
use std::iter;

/// The span of the first table that a statement names, and the joins of others to it.
pub fn table_and_joins(ast: &Statement) -> (Span, &[Join])
    requires { NamesTables (statement_of ast.now) }
    ensures { tables_of (statement_of ast.now) ≡ result.0 ∷ map (λ join. join.table) result.1.now }
{
    match ast {
        Statement::Insert { table, .. }
        | Statement::Update { table, .. }
        | Statement::Delete { table, .. }
        | Statement::ShortUpdate { table, .. }
        | Statement::ShortSelect(ShortSelection { table, .. })
        | Statement::Select(Selection::Count { table, .. } | Selection::Groups { table, .. }) => {
            (*table, &[])
        }
        Statement::Select(Selection::Rows { table, joins, .. }) => (*table, joins.as_slice()),
        _ => unreachable!(),
    }
}

/// The spans of a table and of those joined to it.
pub fn joined_tables(alloc: Global, table: Span, joins: &[Join]) -> Result<Vec<Span>, AllocError>
    ensures { IfOk result (λ tables. tables.items ≡ table ∷ map (λ join. join.table) joins.now) }
{
    let joined = joins.iter().map(|join| join.table);
    iter::once(table).chain(joined).collect(alloc)
}

/// The numbers of tables, if they are all there.
pub fn numbers(
    alloc: Global,
    script: &[u8],
    catalog: &Catalog,
    tables: &[Span],
) -> Result<Option<Vec<u32>>, AllocError>
    ensures { IfOk result (λ found. option_map (λ numbers. numbers.items) found ≡ numbers_of script.now catalog.now tables.now) }
{
    let mut numbers = Vec::with_capacity(alloc, tables.len())?;
    for table in tables {
        let Some(number) = catalog.find(text_in(script, *table)) else {
            return Ok(None);
        };
        numbers.push(number)?;
    }
    Ok(Some(numbers))
}

/// Whether a name comes twice among those in these spans.
#[tactic(auto, using(crate::proofs::Few::few))]
pub fn repeats(alloc: Global, script: &[u8], spans: &[Span]) -> Result<bool, AllocError>
    ensures { IfOk result (λ again. again ≡ repeats (map (text_of_span script.now) spans.now)) }
{
    if spans.len() < 2 {
        return Ok(false);
    }
    let mut names = Names::new(alloc);
    for span in spans {
        let name = text_in(script, *span);
        if names.find(name).is_some() {
            return Ok(true);
        }
        names.add(alloc, name)?;
    }
    Ok(false)
}
