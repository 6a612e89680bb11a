//! One transaction that changes the row at position 0 of the one table: from 1 to 5, or from a text to another. The bytes come
//! from outside.

use hy_disk::MemDisk;
use hy_journal::Entry;
use hy_log_record::{HeldTable, HeldTables};
use hy_redo::{RecoverError, append, create, recover};
use hy_stamp::Label;
use hy_value::{Change, Kind, Seq, StoredRow, Text, Value, ValueRef};
use std::alloc::{AllocError, Global};
use std::slice;
use std::test::*;

/// The log of that transaction.
pub(crate) const LOG: [u8; 74] = [
    72, 89, 82, 69, 68, 79, 49, 10, 1, 0, 0, 0, 0, 0, 0, 0, 56, 0, 0, 0, 0, 0, 0, 0, 1, 0, 0, 0, 0,
    0, 0, 0, 2, 0, 0, 0, 0, 0, 0, 0, 3, 0, 0, 0, 1, 0, 0, 0, 0, 0, 0, 0, 0, 1, 1, 0, 0, 0, 0, 0, 0,
    0, 1, 1, 1, 0, 0, 0, 0, 0, 0, 0, 5, 0,
];

/// The log of a transaction that changes `a` to `é`.
const TEXT_LOG: [u8; 63] = [
    72, 89, 82, 69, 68, 79, 49, 10, 1, 0, 0, 0, 0, 0, 0, 0, 45, 0, 0, 0, 0, 0, 0, 0, 1, 0, 0, 0, 0,
    0, 0, 0, 2, 0, 0, 0, 0, 0, 0, 0, 3, 0, 0, 0, 1, 0, 0, 0, 0, 0, 0, 0, 0, 1, 2, 1, 97, 1, 2, 2,
    195, 169, 0,
];

/// A row of one value.
fn row_of(alloc: Global, value: Value) -> Result<StoredRow, AllocError> {
    StoredRow::from_values(alloc, &[value])
}

/// A row of one number.
fn row(alloc: Global, number: i64) -> Result<StoredRow, AllocError> {
    row_of(alloc, Value::Int(number))
}

/// A table of one column, with this row and a position that has none.
fn table_of(alloc: Global, kind: Kind, row: StoredRow) -> Result<HeldTables, AllocError> {
    let mut rows = Vec::new(alloc);
    rows.push(Some(row))?;
    rows.push(None)?;
    let mut tables = Vec::new(alloc);
    tables.push(HeldTable {
        kinds: Seq::from_slice(alloc, &[kind])?,
        rows: Seq::from_vec(rows),
    })?;
    Ok(Seq::from_vec(tables))
}

/// A table of numbers, with this one at position 0.
pub(crate) fn tables(alloc: Global, number: i64) -> Result<HeldTables, AllocError> {
    table_of(alloc, Kind::Int, row(alloc, number)?)
}

/// A table of texts, with `a` at position 0.
fn text_tables(alloc: Global) -> Result<HeldTables, AllocError> {
    let Ok(text) = Text::from_bytes(alloc, b"a") else {
        return Err(AllocError);
    };
    table_of(alloc, Kind::Str, row_of(alloc, Value::Text(text))?)
}

/// The entry of the transaction: it noted a position too that had no row and has none.
fn entry(alloc: Global) -> Result<Entry, AllocError> {
    let mut notes = Vec::new(alloc);
    notes.push(Change {
        table: 0,
        pos: 0,
        before: Some(row(alloc, 1)?),
        after: Some(row(alloc, 5)?),
    })?;
    notes.push(Change {
        table: 0,
        pos: 1,
        before: None,
        after: None,
    })?;
    Ok(Entry {
        label: Label { session: 0, txn: 1 },
        start: 2,
        time: 3,
        notes: Seq::from_vec(notes),
    })
}

/// A disk of these bytes, of which no call fails.
fn disk_of(alloc: Global, bytes: &[u8]) -> Result<MemDisk, AllocError> {
    MemDisk::new(alloc, Vec::from_slice(alloc, bytes)?, Vec::new(alloc))
}

/// The one value at position 0 of the one table, where there is no row at position 1.
fn single_value(tables: &HeldTables) -> Option<ValueRef<'_>> {
    match tables.as_slice() {
        [held] => match held.rows.as_slice() {
            [Some(row), None] if row.len() == 1 => Some(row.refer(0)),
            _ => None,
        },
        _ => None,
    }
}

/// Whether the one table has this number at position 0, and no row at position 1.
pub(crate) fn has_number(tables: &HeldTables, number: i64) -> bool {
    match single_value(tables) {
        Some(ValueRef::Int(found)) => found == number,
        _ => false,
    }
}

#[test]
fn recovers_one_change(rt: HostRuntime) -> Result<(), Fail> {
    let mut disk = disk_of(rt.alloc(), &LOG)?;
    let found = recover(rt.alloc(), &mut disk, tables(rt.alloc(), 1)?)?;
    assert!(rt; has_number(&found, 5));
    Ok(())
}

#[test]
fn refuses_a_log_that_is_cut(rt: HostRuntime) -> Result<(), Fail> {
    let mut disk = disk_of(rt.alloc(), &LOG[..40])?;
    let found = recover(rt.alloc(), &mut disk, tables(rt.alloc(), 1)?);
    assert!(rt; matches!(found, Err(RecoverError::Damaged { at: 8 })));
    Ok(())
}

#[test]
fn refuses_another_row_before(rt: HostRuntime) -> Result<(), Fail> {
    let mut disk = disk_of(rt.alloc(), &LOG)?;
    let found = recover(rt.alloc(), &mut disk, tables(rt.alloc(), 2)?);
    assert!(rt; matches!(found, Err(RecoverError::Damaged { at: 8 })));
    Ok(())
}

/// Whether the one table has this text at position 0, and no row at position 1.
fn has_text(tables: &HeldTables, text: &[u8]) -> bool {
    match single_value(tables) {
        Some(ValueRef::Text(found)) => found.as_bytes() == text,
        _ => false,
    }
}

#[test]
fn takes_texts_in_utf8_alone(rt: HostRuntime) -> Result<(), Fail> {
    let mut disk = disk_of(rt.alloc(), &TEXT_LOG)?;
    let found = recover(rt.alloc(), &mut disk, text_tables(rt.alloc())?)?;
    assert!(rt; has_text(&found, "é".as_bytes()));
    let mut broken = TEXT_LOG;
    broken[61] = b'a';
    let mut disk = disk_of(rt.alloc(), &broken)?;
    let found = recover(rt.alloc(), &mut disk, text_tables(rt.alloc())?);
    assert!(rt; matches!(found, Err(RecoverError::Damaged { at: 8 })));
    Ok(())
}

#[test]
fn writes_one_change(rt: HostRuntime) -> Result<(), Fail> {
    let mut disk = disk_of(rt.alloc(), &[])?;
    let mut log = create(&mut disk)?;
    let entry = entry(rt.alloc())?;
    append(rt.alloc(), &mut log, &mut disk, slice::from_ref(&entry))?;
    assert_eq!(rt; disk.bytes(), LOG.as_slice());
    Ok(())
}
