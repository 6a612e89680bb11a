//! The columns that a statement can name.

ghost use Rattle.std.specs.Prelude.{◌≡◌, ◌<◌, ◌^◌, is_none, IfOk};
ghost use Rattle.std.specs.Option.{option_and_then, option_map, option_map_or};
ghost use Rattle.hy_schema.specs.Names.{column_number, table_at};
ghost use Rattle.hy_bind.specs.Refusals.{fault_if};
ghost use Rattle.hy_bind.specs.Scope.{scope_of, width_at, may_mean, and_found, found_in, resolved};

use crate::literals::text_in;
use crate::refusals::{BindFault, fault_if};
use hy_ast::ColumnRef;
use hy_schema::{Catalog, Column};
use hy_token::Span;
use hy_value::Kind;
use std::alloc::{AllocError, Global};

/// Memory, a script and its tables, and the tables of a statement in FROM order, by number.
#[derive(Clone, Copy)]
pub struct Scope<'a> {
    /// Where memory comes from.
    pub alloc: Global,
    /// The bytes of the script.
    pub script: &'a [u8],
    /// Its tables.
    pub catalog: &'a Catalog,
    /// The numbers of the statement's tables.
    pub tables: &'a [u32],
}

/// A column that a reference means.
#[derive(Clone, Copy)]
pub struct Found {
    /// Its table.
    pub table: u32,
    /// Its number in the joined row: wide enough for any sum of widths.
    pub column: u128,
    /// Its type.
    pub kind: Kind,
}

/// What a reference means among some tables.
#[derive(Clone, Copy)]
pub enum Search {
    /// No column.
    Nowhere,
    /// A column of one table.
    In(Found),
    /// Columns of several tables.
    Several,
}

/// The column that a reference means, if it means a column of exactly one of the tables.
#[inline(always)]
#[tactic(auto, using(crate::proofs::Alone::alone))]
pub fn resolve(scope: &Scope, reference: &ColumnRef) -> Option<Found>
    ensures { result ≡ resolved (scope_of scope.now) reference.now }
{
    if let [table] = scope.tables {
        found_in_table(scope, reference, *table, 0)
    } else {
        resolve_among(scope, reference)
    }
}

/// The same of any number of tables. It stands by itself, since few statements join tables.
#[inline(never)]
fn resolve_among(scope: &Scope, reference: &ColumnRef) -> Option<Found>
    ensures { result ≡ resolved (scope_of scope.now) reference.now }
{
    let mut so_far = Search::Nowhere;
    let mut from = 0u128;
    for table in scope.tables {
        so_far = and_found(so_far, found_in_table(scope, reference, *table, from));
        from += width(scope.catalog, *table) as u128;
    }
    match so_far {
        Search::In(found) => Some(found),
        Search::Nowhere | Search::Several => None,
    }
}

/// What was found so far, and a column more: those of one table are one, the first.
fn and_found(before: Search, found: Option<Found>) -> Search
    ensures { result ≡ and_found before found }
{
    match (before, found) {
        (before, None) => before,
        (Search::Nowhere, Some(found)) => Search::In(found),
        (Search::In(before), Some(found)) if before.table == found.table => Search::In(before),
        _ => Search::Several,
    }
}

/// How many columns a table has.
pub fn width(catalog: &Catalog, table: u32) -> usize
    ensures { result ≡ width_at catalog.now table }
{
    catalog.table(table).map_or(0, |def| def.columns.len())
}

/// The column of a table that a reference means, the table's columns having numbers from `from` on.
#[inline(always)]
fn found_in_table(scope: &Scope, reference: &ColumnRef, table: u32, from: u128) -> Option<Found>
    requires { from < 2 ^ 127 }
    ensures { result ≡ option_and_then (found_in scope.now.script.now reference.now table from) (table_at scope.now.catalog.now table) }
{
    let def = scope.catalog.table(table)?;
    if !may_mean(scope.script, reference.table, def.name.as_bytes()) {
        return None;
    }
    let columns = def.columns.as_slice();
    let ordinal = column_ordinal(columns, text_in(scope.script, reference.column))?;
    let column = columns.get(ordinal)?;
    Some(Found {
        table,
        column: from + ordinal as u128,
        kind: column.kind,
    })
}

/// Whether a reference, with this table before its dot, may mean a column of a table of this name.
fn may_mean(script: &[u8], table: Option<Span>, name: &[u8]) -> bool
    ensures { result ≡ may_mean script.now table name.now }
{
    table.is_none_or(|table| text_in(script, table) == name)
}

/// The number of a column in its table.
pub fn column_ordinal(columns: &[Column], name: &[u8]) -> Option<usize>
    ensures { result ≡ column_number columns.now name.now }
{
    columns
        .iter()
        .position(|column| name == column.name.as_bytes())
}

/// Why a reference is refused that means this column.
pub fn missing(found: Option<Found>) -> Option<BindFault>
    ensures { result ≡ fault_if (is_none found) BindFault.UnknownColumn }
{
    fault_if(found.is_none(), BindFault::UnknownColumn)
}

/// The type of a column that was found.
pub fn kind_in(found: Option<Found>) -> Option<Kind>
    ensures { result ≡ option_map (λ column. column.kind) found }
{
    found.map(|column| column.kind)
}

/// The number of a column that was found. One beyond 32 bits would need more memory than there is.
pub fn number(found: Option<Found>) -> Result<u32, AllocError>
    ensures { IfOk result (λ number. number ≡ option_map_or (λ found. found.column) found 0) }
{
    u32::try_from(wide_number(found)).map_err(|_| AllocError)
}

/// The same, wide enough for any column.
pub fn wide_number(found: Option<Found>) -> u128
    ensures { result ≡ option_map_or (λ found. found.column) found 0 }
{
    found.map_or(0, |found| found.column)
}
