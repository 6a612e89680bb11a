//! Names, and pieces of text.

ghost use Rattle.std.specs.Prelude.{◌≡◌, ◌++◌, ◌||◌, IfOk, OnOk};
ghost use Rattle.std.specs.Fmt.{decimal};
ghost use Rattle.hy_explain.specs.Words.{table_name, columns_at, column_name, session_name, txn_name, comma_after, told_name, names_where};
ghost use Rattle.hy_explain.specs.Choosing.{is_chosen};

use crate::choosing::Choice;
use hy_schema::{Column, TableDef};
use hy_script::NamedTxns;
use hy_stamp::Label;
use itoa::Buffer;
use std::alloc::AllocError;

/// Appends bytes.
pub fn put(bytes: &[u8], out: &mut Vec<u8>) -> Result<(), AllocError>
    ensures { OnOk result (out.new.items ≡ out.old.items ++ bytes.now) }
{
    out.extend_from_slice(bytes)
}

/// Appends a number in decimal.
pub fn put_number(number: u64, out: &mut Vec<u8>) -> Result<(), AllocError>
    ensures { OnOk result (out.new.items ≡ out.old.items ++ decimal number) }
{
    let mut digits = Buffer::new();
    put(digits.format(number).as_bytes(), out)
}

/// The name of the table of this number.
pub fn table_name(tables: &[TableDef], number: u32) -> &[u8]
    ensures { result.now ≡ table_name tables.now number }
{
    match tables.get(number as usize) {
        Some(table) => table.name.as_bytes(),
        None => &[],
    }
}

/// The columns of the table of this number.
pub fn columns_at(tables: &[TableDef], number: u32) -> &[Column]
    ensures { result.now ≡ columns_at tables.now number }
{
    match tables.get(number as usize) {
        Some(table) => table.columns.as_slice(),
        None => &[],
    }
}

/// The name of the column of this number.
pub fn column_name(columns: &[Column], number: u32) -> &[u8]
    ensures { result.now ≡ column_name columns.now number }
{
    match columns.get(number as usize) {
        Some(column) => column.name.as_bytes(),
        None => &[],
    }
}

/// The name of the session of this number.
fn session_name(sessions: &[NamedTxns], number: u32) -> &[u8]
    ensures { result.now ≡ session_name sessions.now number }
{
    match sessions.get(number as usize) {
        Some(session) => session.name.text().as_bytes(),
        None => &[],
    }
}

/// Appends the name of a transaction.
pub fn put_txn(sessions: &[NamedTxns], label: Label, out: &mut Vec<u8>) -> Result<(), AllocError>
    ensures { OnOk result (out.new.items ≡ out.old.items ++ txn_name sessions.now label) }
{
    put(session_name(sessions, label.session), out)?;
    put(b".", out)?;
    put_number(u64::from(label.txn), out)
}

/// A comma and a space where something stands before.
fn comma_after(came: bool) -> &'static [u8]
    ensures { result.now ≡ comma_after came }
{
    if came { b", " } else { b"" }
}

/// Appends a name, where it is told; answers whether one has come by then.
fn put_name(name: &[u8], told: bool, came: bool, out: &mut Vec<u8>) -> Result<bool, AllocError>
    ensures came { IfOk result (λ now. now ≡ (came || told)) }
    ensures put { OnOk result (out.new.items ≡ out.old.items ++ told_name told came name.now) }
{
    if !told {
        return Ok(came);
    }
    put(comma_after(came), out)?;
    put(name, out)?;
    Ok(true)
}

/// Appends the names of the chosen columns, with commas between.
pub fn put_names(columns: &[Column], choice: Choice, out: &mut Vec<u8>) -> Result<(), AllocError>
    ensures { OnOk result (out.new.items ≡ out.old.items ++ names_where (is_chosen choice.entry) columns.now) }
{
    let mut came = false;
    for (number, column) in columns.iter().enumerate() {
        came = put_name(column.name.as_bytes(), choice.has(number), came, out)?;
    }
    Ok(())
}
