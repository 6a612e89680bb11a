//! The lines that the program writes beside the text of an outcome.

ghost use Rattle.std.specs.Prelude.{◌≡◌, ◌+◌, ◌++◌, IfOk, OnOk, length};
ghost use Rattle.std.specs.Fmt.{decimal};
ghost use Rattle.hy_script.specs.Codes.{number};
ghost use Rattle.hy_top.specs.Lines.{two_digits, all_rows, all_txns, refusal_line_of, checked_line, damaged_line};

use hy_bound::StoredRows;
use hy_script::{NamedTxns, Refused, Script};
use std::alloc::{AllocError, Global};

/// Appends a number in decimal.
fn print_number(number: u64, out: &mut Vec<u8>) -> Result<(), AllocError>
    ensures { OnOk result (out.new.items ≡ out.old.items ++ decimal number) }
{
    let digits = number.to_string(*out.allocator())?;
    out.extend_from_slice(digits.as_bytes())
}

/// Appends words and a number.
fn print_count(words: &[u8], count: u64, out: &mut Vec<u8>) -> Result<(), AllocError>
    ensures { OnOk result (out.new.items ≡ out.old.items ++ words.now ++ decimal count) }
{
    out.extend_from_slice(words)?;
    print_number(count, out)
}

/// Appends a number of at least two digits.
fn print_two_digits(number: u8, out: &mut Vec<u8>) -> Result<(), AllocError>
    ensures { OnOk result (out.new.items ≡ out.old.items ++ two_digits number) }
{
    if number < 10 {
        out.push(b'0')?;
    }
    print_number(u64::from(number), out)
}

/// The line that tells why a script is refused.
pub fn refusal_line(alloc: Global, refused: Refused) -> Result<Vec<u8>, AllocError>
    ensures { IfOk result (λ line. line.items ≡ refusal_line_of refused) }
{
    let mut out = Vec::new(alloc);
    print_count(b"line ", refused.line, &mut out)?;
    out.extend_from_slice(b": E")?;
    print_two_digits(refused.code.number(), &mut out)?;
    out.push(b'\n')?;
    Ok(out)
}

/// How many rows all tables have. More than 64 bits would count is want of memory.
fn rows_in_all(tables: &[StoredRows]) -> Result<u64, AllocError>
    ensures { IfOk result (λ count. count ≡ all_rows tables.now) }
{
    let mut count = 0u64;
    for rows in tables {
        match count.checked_add(rows.len() as u64) {
            Some(more) => count = more,
            None => return Err(AllocError),
        }
    }
    Ok(count)
}

/// How many transactions all sessions have.
fn txns_in_all(sessions: &[NamedTxns]) -> Result<u64, AllocError>
    ensures { IfOk result (λ count. count ≡ all_txns sessions.now) }
{
    let mut count = 0u64;
    for session in sessions {
        match count.checked_add(session.txns.len() as u64) {
            Some(more) => count = more,
            None => return Err(AllocError),
        }
    }
    Ok(count)
}

/// The line that tells what a script has.
pub fn check_line(alloc: Global, script: &Script) -> Result<Vec<u8>, AllocError>
    ensures { IfOk result (λ line. line.items ≡ checked_line script.now) }
{
    let rows = rows_in_all(script.rows.as_slice())?;
    let txns = txns_in_all(script.sessions.as_slice())?;
    let mut out = Vec::new(alloc);
    print_count(b"ok tables ", script.catalog.len() as u64, &mut out)?;
    print_count(b" rows ", rows, &mut out)?;
    print_count(b" sessions ", script.sessions.len() as u64, &mut out)?;
    print_count(b" transactions ", txns, &mut out)?;
    print_count(b" items ", script.schedule.len() as u64, &mut out)?;
    out.push(b'\n')?;
    Ok(out)
}

/// The line that tells where a log is damaged.
pub fn damage_line(alloc: Global, offset: u64) -> Result<Vec<u8>, AllocError>
    ensures { IfOk result (λ line. line.items ≡ damaged_line offset) }
{
    let mut out = Vec::new(alloc);
    print_count(b"log: damaged at ", offset, &mut out)?;
    out.push(b'\n')?;
    Ok(out)
}
