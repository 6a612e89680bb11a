//! Tables and their columns.

ghost use Rattle.std.specs.Prelude.{◌≡◌, ◌≤◌, None, is_some, length, map, nat_lt, count_by, IfOk, IfSome, OnOk};
ghost use Rattle.hy_limits.specs.declared.TheConstants.{MOST_COLUMNS};
ghost use Rattle.hy_schema.specs.Names.{table_number, refusal_of};
ghost use Rattle.hy_script.specs.Refusals.{create_code, is_key, name_in};
ghost use Rattle.hy_script.specs.Growing.{column_def, key_from, table_def, with_table, Takes};

use crate::codes::{Code, code_if, first_of};
use crate::sofar::SoFar;
use crate::stocks::Stock;
use hy_ast::ColumnDef;
use hy_bind::{repeats, text, text_in};
use hy_limits::{MOST_COLUMNS, MOST_TABLES};
use hy_schema::{Column, TableDef};
use hy_token::Span;
use hy_value::Seq;
use std::alloc::{AllocError, Global};

impl SoFar {
    /// Whether a table has this name.
    fn has_table(&self, alloc: Global, script: &[u8], table: Span) -> bool
        ensures { result ≡ is_some (table_number self.now.catalog (name_in script.now table)) }
    {
        let name = text(alloc, text_in(script, table));
        self.catalog.find(name.as_bytes()).is_some()
    }

    /// Why a table is not added.
    fn create_code(
        &self,
        alloc: Global,
        script: &[u8],
        table: Span,
        columns: &[ColumnDef],
    ) -> Result<Option<Code>, AllocError>
        ensures { IfOk result (λ code. code ≡ create_code script.now self.now table columns.now) }
    {
        let names = names_of(alloc, columns)?;
        let there = self.has_table(alloc, script, table);
        let twice = repeats(alloc, script, names.as_slice())?;
        let many = self.catalog.len() >= MOST_TABLES || columns.len() > MOST_COLUMNS;
        Ok(first_of(
            code_if(there || twice || has_two_keys(columns), Code::Twice),
            code_if(many, Code::Limit),
        ))
    }

    /// CREATE TABLE. One that is refused changes nothing.
    #[tactic(auto, using(crate::proofs::Tables::is_free, crate::proofs::Accepted::table_taken))]
    pub fn create(
        &mut self,
        alloc: Global,
        script: &[u8],
        table: Span,
        columns: &[ColumnDef],
    ) -> Result<Option<Code>, AllocError>
        ensures takes { IfOk result (λ code. Takes code (create_code script.now self.old table columns.now) self.new
            (with_table self.old (table_def script.now table columns.now))) }
        ensures refused { IfOk result (λ code. IfSome code (λ _. self.new ≡ self.old)) }
    {
        let code = self.create_code(alloc, script, table, columns)?;
        if code.is_none() {
            self.add_table(alloc, table_of(alloc, script, table, columns)?)?;
        }
        Ok(code)
    }

    /// Adds a table that may be added.
    fn add_table(&mut self, alloc: Global, def: TableDef) -> Result<(), AllocError>
        requires { refusal_of self.old.catalog def ≡ None }
        ensures { OnOk result (self.new ≡ with_table self.old def) }
    {
        let key = def.key;
        self.catalog.add(alloc, def).map_err(|_| AllocError)?;
        self.stocks.push(Stock::new(alloc, key))?;
        Ok(())
    }
}

/// The spans of the names of columns.
fn names_of(alloc: Global, columns: &[ColumnDef]) -> Result<Vec<Span>, AllocError>
    ensures { IfOk result (λ names. names.items ≡ map (λ column. column.name) columns.now) }
{
    columns.iter().map(|column| column.name).collect(alloc)
}

/// A column of a new table.
fn column_of(alloc: Global, script: &[u8], column: &ColumnDef) -> Column
    ensures { result ≡ column_def script.now column.now }
{
    Column {
        name: text(alloc, text_in(script, column.name)),
        kind: column.kind,
    }
}

/// The columns of a new table.
fn columns_of(
    alloc: Global,
    script: &[u8],
    columns: &[ColumnDef],
) -> Result<Vec<Column>, AllocError>
    ensures { IfOk result (λ all. all.items ≡ map (column_def script.now) columns.now) }
{
    columns
        .iter()
        .map(|column| column_of(alloc, script, column))
        .collect(alloc)
}

/// Whether more than one column is a key.
fn has_two_keys(columns: &[ColumnDef]) -> bool
    ensures { result ≡ nat_lt 1 (count_by is_key columns.now) }
{
    columns.iter().filter(|column| column.key).count() > 1
}

/// The number of the first column that is a key.
fn key_of(columns: &[ColumnDef]) -> Option<u32>
    requires { length columns.now ≤ MOST_COLUMNS }
    ensures { result ≡ key_from 0 columns.now }
{
    let ordinal = columns.iter().position(|column| column.key)?;
    Some(ordinal as u32)
}

/// A new table as it is written.
fn table_of(
    alloc: Global,
    script: &[u8],
    table: Span,
    columns: &[ColumnDef],
) -> Result<TableDef, AllocError>
    requires { length columns.now ≤ MOST_COLUMNS }
    ensures { IfOk result (λ def. def ≡ table_def script.now table columns.now) }
{
    Ok(TableDef {
        name: text(alloc, text_in(script, table)),
        columns: Seq::from_vec(columns_of(alloc, script, columns)?),
        key: key_of(columns),
    })
}
