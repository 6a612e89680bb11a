//! An entry from the bytes of its body.

ghost use Rattle.std.specs.Prelude.{◌≡◌, ℕ, ◌<◌, ◌^◌, ◌++◌, List, length, IfOk, IsErrOf, IfSome, IfNone, MatchOption};
ghost use Rattle.std.specs.Str.{is_utf8};
ghost use Rattle.hy_log_record.specs.Bytes.{be64};
ghost use Rattle.hy_journal.specs.declared.Entry.{Entry};
ghost use Rattle.hy_log_record.specs.Bodies.{IsBody};
ghost use Rattle.hy_log_record.specs.Laws.{netted};
ghost use Rattle.hy_log_record.specs.Reading.{Gives, u32_at, u64_at, text_at, number_value_at, text_value_at};
ghost use Rattle.hy_log_record.specs.Reading.{value_at, values_at, row_at, change_at, changes_at, entry_at, record_at};

use crate::{BodyError, HeldTable};
use hy_journal::Entry;
use hy_stamp::Label;
use hy_value::{Change, Changes, Kind, Seq, StoredRow, Text, Value};
use std::alloc::Global;

fn read_u32(bytes: &[u8]) -> Result<(u32, &[u8]), BodyError>
    ensures { Gives (λ x. (x.0, x.1.now)) result (u32_at bytes.now) }
{
    if bytes.len() < 4 {
        return Err(BodyError::Malformed);
    }
    let (front, rest) = bytes.split_at(4);
    let number = u32::from_be_bytes([front[0], front[1], front[2], front[3]]);
    Ok((number, rest))
}

/// A number, where there are eight bytes.
fn u64_front(bytes: &[u8]) -> Option<(u64, &[u8])>
    ensures { MatchOption result (u64_at bytes.now ≡ None) (λ x. u64_at bytes.now ≡ Some (x.0, x.1.now)) }
{
    if bytes.len() < 8 {
        return None;
    }
    let (front, rest) = bytes.split_at(8);
    let number = u64::from_be_bytes([
        front[0], front[1], front[2], front[3], front[4], front[5], front[6], front[7],
    ]);
    Some((number, rest))
}

fn read_u64(bytes: &[u8]) -> Result<(u64, &[u8]), BodyError>
    ensures { Gives (λ x. (x.0, x.1.now)) result (u64_at bytes.now) }
{
    match u64_front(bytes) {
        Some((number, rest)) => Ok((number, rest)),
        None => Err(BodyError::Malformed),
    }
}

/// Whether bytes are UTF-8.
fn is_utf8(bytes: &[u8]) -> bool
    ensures { result ≡ is_utf8 bytes.now }
{
    str::from_utf8(bytes).is_ok()
}

/// A text in UTF-8 and its length before it.
fn read_text(alloc: Global, bytes: &[u8]) -> Result<(Text, &[u8]), BodyError>
    ensures { Gives (λ x. (x.0, x.1.now)) result (text_at bytes.now) }
{
    let [count, rest @ ..] = bytes else {
        return Err(BodyError::Malformed);
    };
    let count = usize::from(*count);
    if rest.len() < count {
        return Err(BodyError::Malformed);
    }
    let (text, rest) = rest.split_at(count);
    if !is_utf8(text) {
        return Err(BodyError::Malformed);
    }
    match Text::from_bytes(alloc, text) {
        Ok(text) => Ok((text, rest)),
        Err(_) => Err(BodyError::Malformed),
    }
}

/// A value for a column of a type.
#[tactic(auto, unfolding(crate::specs::Reading::value_at))]
fn read_value(alloc: Global, column: Kind, bytes: &[u8]) -> Result<(Value, &[u8]), BodyError>
    ensures { Gives (λ x. (x.0, x.1.now)) result (value_at column bytes.now) }
{
    match bytes {
        [0, rest @ ..] => Ok((Value::Null, rest)),
        [1, rest @ ..] => read_number_value(column, rest),
        [2, rest @ ..] => read_text_value(alloc, column, rest),
        _ => Err(BodyError::Malformed),
    }
}

/// A number for a column of a type.
#[tactic(auto, unfolding(crate::specs::Reading::number_value_at))]
fn read_number_value(column: Kind, bytes: &[u8]) -> Result<(Value, &[u8]), BodyError>
    ensures { Gives (λ x. (x.0, x.1.now)) result (number_value_at column bytes.now) }
{
    match column {
        Kind::Int => {
            let (number, rest) = read_u64(bytes)?;
            Ok((Value::Int(number.cast_signed()), rest))
        }
        Kind::Str => Err(BodyError::Malformed),
    }
}

/// A text for a column of a type.
#[tactic(auto, unfolding(crate::specs::Reading::text_value_at))]
fn read_text_value(alloc: Global, column: Kind, bytes: &[u8]) -> Result<(Value, &[u8]), BodyError>
    ensures { Gives (λ x. (x.0, x.1.now)) result (text_value_at column bytes.now) }
{
    match column {
        Kind::Int => Err(BodyError::Malformed),
        Kind::Str => {
            let (text, rest) = read_text(alloc, bytes)?;
            Ok((Value::Text(text), rest))
        }
    }
}

/// A value for each column.
fn read_values<'a>(
    alloc: Global,
    kinds: &[Kind],
    bytes: &'a [u8],
) -> Result<(StoredRow, &'a [u8]), BodyError>
    ensures { Gives (λ x. (x.0, x.1.now)) result (values_at kinds.now bytes.now) }
{
    let mut values = Vec::with_capacity(alloc, kinds.len())?;
    let mut rest = bytes;
    for kind in kinds {
        let (value, after) = read_value(alloc, *kind, rest)?;
        values.push(value)?;
        rest = after;
    }
    let row = StoredRow::from_values(alloc, values.as_slice())?;
    Ok((row, rest))
}

/// A row of these columns, or none.
#[tactic(auto, unfolding(crate::specs::Reading::row_at))]
fn read_row<'a>(
    alloc: Global,
    kinds: &[Kind],
    bytes: &'a [u8],
) -> Result<(Option<StoredRow>, &'a [u8]), BodyError>
    ensures { Gives (λ x. (x.0, x.1.now)) result (row_at kinds.now bytes.now) }
{
    match bytes {
        [0, rest @ ..] => Ok((None, rest)),
        [1, rest @ ..] => {
            let (row, rest) = read_values(alloc, kinds, rest)?;
            Ok((Some(row), rest))
        }
        _ => Err(BodyError::Malformed),
    }
}

/// A net change of one of the tables.
#[tactic(auto, unfolding(crate::specs::Reading::change_at))]
fn read_change<'a>(
    alloc: Global,
    tables: &[HeldTable],
    bytes: &'a [u8],
) -> Result<(Change, &'a [u8]), BodyError>
    ensures { Gives (λ x. (x.0, x.1.now)) result (change_at tables.now bytes.now) }
{
    let (table, rest) = read_u32(bytes)?;
    let (pos, rest) = read_u32(rest)?;
    let Some(held) = tables.get(table as usize) else {
        return Err(BodyError::Malformed);
    };
    let kinds = held.kinds.as_slice();
    let (before, rest) = read_row(alloc, kinds, rest)?;
    let (after, rest) = read_row(alloc, kinds, rest)?;
    if before.is_none() && after.is_none() {
        return Err(BodyError::Malformed);
    }
    let change = Change {
        table,
        pos,
        before,
        after,
    };
    Ok((change, rest))
}

/// So many net changes of the tables.
fn read_changes<'a>(
    alloc: Global,
    tables: &[HeldTable],
    count: u32,
    bytes: &'a [u8],
) -> Result<(Changes, &'a [u8]), BodyError>
    ensures { Gives (λ x. (x.0, x.1.now)) result (changes_at tables.now count bytes.now) }
{
    let mut changes = Vec::new(alloc);
    let mut rest = bytes;
    for _ in 0..count {
        let (change, after) = read_change(alloc, tables, rest)?;
        changes.push(change)?;
        rest = after;
    }
    Ok((Seq::from_vec(changes), rest))
}

/// An entry of the tables, all of the bytes.
#[tactic(auto, unfolding(crate::specs::Reading::entry_at))]
fn read_entry(alloc: Global, tables: &[HeldTable], bytes: &[u8]) -> Result<Entry, BodyError>
    ensures { Gives (λ x. x) result (entry_at tables.now bytes.now) }
{
    let (session, rest) = read_u32(bytes)?;
    let (txn, rest) = read_u32(rest)?;
    let (start, rest) = read_u64(rest)?;
    let (time, rest) = read_u64(rest)?;
    let (count, rest) = read_u32(rest)?;
    let (notes, rest) = read_changes(alloc, tables, count, rest)?;
    if !rest.is_empty() {
        return Err(BodyError::Malformed);
    }
    Ok(Entry {
        label: Label { session, txn },
        start,
        time,
        notes,
    })
}

/// The entry that the bytes are the body of, among those of the tables. What it has noted are net changes.
pub fn decode(alloc: Global, tables: &[HeldTable], bytes: &[u8]) -> Result<Entry, BodyError>
    ensures found { IfOk result (λ entry. IsBody tables.now entry bytes.now) }
    ensures net { IfOk result (λ entry. entry ≡ netted entry) }
    ensures malformed { IsErrOf result BodyError.Malformed → (entry : Entry) → IsBody tables.now entry bytes.now → ⊥ }
{
    read_entry(alloc, tables, bytes)
}

/// A length, so many bytes, and those behind them.
#[tactic(auto, unfolding(crate::specs::Reading::record_at))]
fn record_front(bytes: &[u8]) -> Option<(&[u8], &[u8])>
    ensures { MatchOption result (record_at bytes.now ≡ None) (λ x. record_at bytes.now ≡ Some (x.0.now, x.1.now)) }
{
    let Some((count, rest)) = u64_front(bytes) else {
        return None;
    };
    let count = count as usize;
    if rest.len() < count {
        return None;
    }
    let (body, rest) = rest.split_at(count);
    Some((body, rest))
}

/// The body of the record at the front of the bytes, and what follows it. None where the bytes end before that.
pub fn split_record(bytes: &[u8]) -> Option<(&[u8], &[u8])>
    ensures parts { IfSome result (λ x. (bytes.now ≡ be64 (length x.0.now) ++ (x.0.now ++ x.1.now)) × (length x.0.now < 2 ^ 64)) }
    ensures none { IfNone result ((body rest : List ℕ) → length body < 2 ^ 64 → bytes.now ≡ be64 (length body) ++ (body ++ rest) → ⊥) }
{
    record_front(bytes)
}
