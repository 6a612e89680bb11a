//! Rows and their values, from where they stand.

ghost use Rattle.std.specs.Prelude.{◌≡◌, ◌<◌, ◌++◌, OnOk, drop, length};
ghost use Rattle.std.specs.List.{flat_map};
ghost use Rattle.hy_value.specs.Print.{BeginsWith, printed, printed_next, printed_row, doubled_quote};
ghost use Rattle.hy_value.specs.Refs.{referred};
ghost use Rattle.hy_value.specs.declared.Value.{Value};

use crate::digits::print_signed;
use crate::put;
use hy_value::{StoredRow, ValueRef};
use std::alloc::AllocError;

/// Appends a row: its values, with bars between them.
pub fn print_row(row: &StoredRow, out: &mut Vec<u8>) -> Result<(), AllocError>
    ensures ok { OnOk result (out.new.items ≡ out.old.items ++ printed_row row.now) }
    ensures begun { BeginsWith out.old.items out.new.items }
{
    if row.len() == 0 {
        return Ok(());
    }
    print_value(row.refer(0), out)?;
    print_others(row, out)
}

/// Appends the values behind the first, each after a bar.
fn print_others(row: &StoredRow, out: &mut Vec<u8>) -> Result<(), AllocError>
    requires { 0 < length row.now }
    ensures ok { OnOk result (out.new.items ≡ out.old.items ++ flat_map printed_next (drop 1 row.now)) }
    ensures begun { BeginsWith out.old.items out.new.items }
{
    for before in 0..row.len() - 1 {
        put(b"|", out)?;
        print_value(row.refer(before + 1), out)?;
    }
    Ok(())
}

/// Appends a value.
pub fn print_value(value: ValueRef<'_>, out: &mut Vec<u8>) -> Result<(), AllocError>
    ensures ok { OnOk result (out.new.items ≡ out.old.items ++ printed (referred value.entry)) }
    ensures begun { BeginsWith out.old.items out.new.items }
{
    match value {
        ValueRef::Null => put(b"NULL", out),
        ValueRef::Int(number) => print_signed(number, out),
        ValueRef::Text(text) => print_text(text.as_bytes(), out),
    }
}

/// Appends a text between quotes, each quote in it doubled.
#[inline(never)]
fn print_text(text: &[u8], out: &mut Vec<u8>) -> Result<(), AllocError>
    ensures ok { OnOk result (out.new.items ≡ out.old.items ++ printed (Value.Text text.now)) }
    ensures begun { BeginsWith out.old.items out.new.items }
{
    put(b"'", out)?;
    print_inside(text, out)?;
    put(b"'", out)
}

/// Appends a text, each quote in it doubled: at once where it has none.
fn print_inside(text: &[u8], out: &mut Vec<u8>) -> Result<(), AllocError>
    ensures ok { OnOk result (out.new.items ≡ out.old.items ++ flat_map doubled_quote text.now) }
    ensures begun { BeginsWith out.old.items out.new.items }
{
    if text.contains(&b'\'') {
        print_doubled(text, out)
    } else {
        put(text, out)
    }
}

/// Appends a text byte by byte, each quote in it doubled.
#[inline(never)]
fn print_doubled(text: &[u8], out: &mut Vec<u8>) -> Result<(), AllocError>
    ensures ok { OnOk result (out.new.items ≡ out.old.items ++ flat_map doubled_quote text.now) }
    ensures begun { BeginsWith out.old.items out.new.items }
{
    for byte in text {
        if *byte == b'\'' {
            put(b"'", out)?;
        }
        out.push(*byte)?;
    }
    Ok(())
}
