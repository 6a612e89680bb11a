//! Tables as the beginning of a script: the lines that define them and give them their rows.
#![tactic(auto)]

ghost use Rattle.std.specs.Prelude.{◌≡◌, ◌++◌, List, OnOk};
ghost use Rattle.std.specs.List.{flat_map};
ghost use Rattle.hy_dump.specs.Dump.{column_text, columns_text, comma_before, create_line, dump, enclosed};
ghost use Rattle.hy_dump.specs.Dump.{insert_line, is_key, key_mark, kind_word, rows_at, values_text};

mod laws;

use hy_bound::StoredRows;
use hy_schema::{Catalog, Column, TableDef};
use hy_value::{Kind, StoredRow, print};
pub use laws::{what_is_read_can_be_written, what_is_written_is_read_back};
use std::alloc::AllocError;

/// Appends bytes.
fn put(bytes: &[u8], out: &mut Vec<u8>) -> Result<(), AllocError>
    ensures { OnOk result (out.new.items ≡ out.old.items ++ bytes.now) }
{
    out.extend_from_slice(bytes)
}

/// Appends a comma and a space before each item of a list but the first.
fn put_comma(number: usize, out: &mut Vec<u8>) -> Result<(), AllocError>
    ensures { OnOk result (out.new.items ≡ out.old.items ++ comma_before number) }
{
    if number == 0 {
        return Ok(());
    }
    put(b", ", out)
}

/// The word of a type.
fn kind_word(kind: Kind) -> &'static [u8]
    ensures { result.now ≡ kind_word kind }
{
    match kind {
        Kind::Int => b" INT",
        Kind::Str => b" TEXT",
    }
}

/// Whether the column of this number is the key.
fn is_key(key: Option<u32>, number: usize) -> bool
    ensures { result ≡ is_key key number }
{
    match key {
        Some(key) => key as usize == number,
        None => false,
    }
}

/// Appends the mark of the key.
fn put_key_mark(is_key: bool, out: &mut Vec<u8>) -> Result<(), AllocError>
    ensures { OnOk result (out.new.items ≡ out.old.items ++ key_mark is_key) }
{
    if is_key {
        put(b" PRIMARY KEY", out)
    } else {
        Ok(())
    }
}

/// Appends a column of a table.
fn put_column(column: &Column, is_key: bool, out: &mut Vec<u8>) -> Result<(), AllocError>
    ensures { OnOk result (out.new.items ≡ out.old.items ++ column_text column.now is_key) }
{
    put(column.name.as_bytes(), out)?;
    put(kind_word(column.kind), out)?;
    put_key_mark(is_key, out)
}

/// Appends the columns of a table.
fn put_columns(columns: &[Column], key: Option<u32>, out: &mut Vec<u8>) -> Result<(), AllocError>
    ensures { OnOk result (out.new.items ≡ out.old.items ++ columns_text key 0 columns.now) }
{
    for (number, column) in columns.iter().enumerate() {
        put_comma(number, out)?;
        put_column(column, is_key(key, number), out)?;
    }
    Ok(())
}

/// Appends the columns of a table in parentheses, and the end of the statement.
fn put_column_list(table: &TableDef, out: &mut Vec<u8>) -> Result<(), AllocError>
    ensures { OnOk result (out.new.items ≡ out.old.items ++ enclosed (columns_text table.now.key 0 table.now.columns)) }
{
    put(b" (", out)?;
    put_columns(table.columns.as_slice(), table.key, out)?;
    put(b");\n", out)
}

/// Appends the line that makes a table.
fn put_create(table: &TableDef, out: &mut Vec<u8>) -> Result<(), AllocError>
    ensures { OnOk result (out.new.items ≡ out.old.items ++ create_line table.now) }
{
    put(b"CREATE TABLE ", out)?;
    put(table.name.as_bytes(), out)?;
    put_column_list(table, out)
}

/// Appends the values of a row.
fn put_values(row: &StoredRow, out: &mut Vec<u8>) -> Result<(), AllocError>
    ensures { OnOk result (out.new.items ≡ out.old.items ++ values_text 0 row.now) }
{
    for number in 0..row.len() {
        put_comma(number, out)?;
        print(&row.refer(number).to_value(), out)?;
    }
    Ok(())
}

/// Appends the values of a row in parentheses, and the end of the statement.
fn put_value_list(row: &StoredRow, out: &mut Vec<u8>) -> Result<(), AllocError>
    ensures { OnOk result (out.new.items ≡ out.old.items ++ enclosed (values_text 0 row.now)) }
{
    put(b" (", out)?;
    put_values(row, out)?;
    put(b");\n", out)
}

/// Appends the line that inserts a row.
fn put_insert(table: &TableDef, row: &StoredRow, out: &mut Vec<u8>) -> Result<(), AllocError>
    ensures { OnOk result (out.new.items ≡ out.old.items ++ insert_line table.now.name row.now) }
{
    put(b"INSERT INTO ", out)?;
    put(table.name.as_bytes(), out)?;
    put(b" VALUES", out)?;
    put_value_list(row, out)
}

/// Appends a line for each row.
fn put_rows(table: &TableDef, rows: &[StoredRow], out: &mut Vec<u8>) -> Result<(), AllocError>
    ensures { OnOk result (out.new.items ≡ out.old.items ++ flat_map (insert_line table.now.name) rows.now) }
{
    for row in rows {
        put_insert(table, row, out)?;
    }
    Ok(())
}

/// The rows of the table of this number; none where there is no such table.
fn rows_of(tables: &[StoredRows], number: usize) -> &[StoredRow]
    ensures { result.now ≡ rows_at tables.now number }
{
    match tables.get(number) {
        Some(rows) => rows.as_slice(),
        None => &[],
    }
}

/// Appends the lines of a script that make these tables with these rows, which are by table.
///
/// With END behind them they are read back as just these tables and rows, where these can be written, as all are that were read:
/// `what_is_written_is_read_back` and `what_is_read_can_be_written`. Err is for want of memory; some of the lines may be there then.
pub fn dump(catalog: &Catalog, tables: &[StoredRows], out: &mut Vec<u8>) -> Result<(), AllocError>
    ensures { OnOk result (out.new.items ≡ out.old.items ++ dump catalog.now tables.now) }
{
    for (number, table) in catalog.tables().iter().enumerate() {
        put_create(table, out)?;
        put_rows(table, rows_of(tables, number), out)?;
    }
    Ok(())
}
