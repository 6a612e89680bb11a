//! The bytes of an entry.

ghost use Rattle.std.specs.Prelude.{◌≡◌, ◌<◌, ◌^◌, ◌++◌, ◌∷◌, [], length, vec_len, filter, OnOk, IfOk};
ghost use Rattle.std.specs.List.{flat_map, AllByRecursion};
ghost use Rattle.hy_value.specs.Refs.{referred};
ghost use Rattle.hy_notes.specs.Notes.{is_change};
ghost use Rattle.hy_log_record.specs.Bytes.{be32, be64, value_bytes, row_bytes, change_bytes, changes_bytes, body_of, record_of};
ghost use Rattle.hy_log_record.specs.Bytes.{HasValueBytes, HasRowBytes, HasChangeBytes, HasBytes};

use hy_journal::Entry;
use hy_value::{Change, StoredRow, ValueRef};
use std::alloc::{AllocError, Global};

#[tactic(auto, unfolding(crate::specs::Bytes::be32))]
fn push_u32(out: &mut Vec<u8>, number: u32) -> Result<(), AllocError>
    ensures { OnOk result (out.new.items ≡ out.old.items ++ be32 number) }
{
    out.extend_from_slice(&number.to_be_bytes())
}

#[tactic(auto, unfolding(crate::specs::Bytes::be64))]
fn push_u64(out: &mut Vec<u8>, number: u64) -> Result<(), AllocError>
    ensures { OnOk result (out.new.items ≡ out.old.items ++ be64 number) }
{
    out.extend_from_slice(&number.to_be_bytes())
}

/// A length, and the bytes of a text.
fn push_text(out: &mut Vec<u8>, text: &[u8]) -> Result<(), AllocError>
    requires { length text.now < 256 }
    ensures { OnOk result (out.new.items ≡ out.old.items ++ (length text.now ∷ text.now)) }
{
    out.push(text.len() as u8)?;
    out.extend_from_slice(text)
}

fn push_value(out: &mut Vec<u8>, value: ValueRef<'_>) -> Result<(), AllocError>
    ensures bytes { OnOk result (out.new.items ≡ out.old.items ++ value_bytes (referred value.entry)) }
    ensures has { OnOk result (HasValueBytes (referred value.entry)) }
{
    match value {
        ValueRef::Null => out.push(0)?,
        ValueRef::Int(number) => {
            out.push(1)?;
            push_u64(out, number.cast_unsigned())?;
        }
        ValueRef::Text(text) => {
            out.push(2)?;
            push_text(out, text.as_bytes())?;
        }
    }
    Ok(())
}

fn push_values(out: &mut Vec<u8>, row: &StoredRow) -> Result<(), AllocError>
    ensures bytes { OnOk result (out.new.items ≡ out.old.items ++ flat_map value_bytes row.now) }
    ensures has { OnOk result (AllByRecursion HasValueBytes row.now) }
{
    for column in 0..row.len() {
        push_value(out, row.refer(column))?;
    }
    Ok(())
}

fn push_row(out: &mut Vec<u8>, row: &Option<StoredRow>) -> Result<(), AllocError>
    ensures bytes { OnOk result (out.new.items ≡ out.old.items ++ row_bytes row.now) }
    ensures has { OnOk result (HasRowBytes row.now) }
{
    match row {
        None => out.push(0)?,
        Some(row) => {
            out.push(1)?;
            push_values(out, row)?;
        }
    }
    Ok(())
}

#[tactic(auto, unfolding(crate::specs::Bytes::change_bytes))]
fn push_change(out: &mut Vec<u8>, change: &Change) -> Result<(), AllocError>
    ensures bytes { OnOk result (out.new.items ≡ out.old.items ++ change_bytes change.now) }
    ensures has { OnOk result (HasChangeBytes change.now) }
{
    push_u32(out, change.table)?;
    push_u32(out, change.pos)?;
    push_row(out, &change.before)?;
    push_row(out, &change.after)?;
    Ok(())
}

/// Whether a row was or is at the position.
fn is_net(change: &Change) -> bool
    ensures { result ≡ is_change change.now }
{
    change.before.is_some() || change.after.is_some()
}

/// How many of the changes are net.
fn count_net(notes: &[Change]) -> usize
    ensures { result ≡ length (filter is_change notes.now) }
{
    notes.iter().filter(|note| is_net(note)).count()
}

/// The net ones of the changes.
fn push_net(out: &mut Vec<u8>, notes: &[Change]) -> Result<(), AllocError>
    ensures bytes { OnOk result (out.new.items ≡ out.old.items ++ flat_map change_bytes (filter is_change notes.now)) }
    ensures has { OnOk result (AllByRecursion HasChangeBytes (filter is_change notes.now)) }
{
    for note in notes {
        if is_net(note) {
            push_change(out, note)?;
        }
    }
    Ok(())
}

/// The body of an entry. More than 2^32 - 1 changes are more than memory has room for.
#[tactic(auto, unfolding(crate::specs::Bytes::body_of))]
fn body(alloc: Global, entry: &Entry) -> Result<Vec<u8>, AllocError>
    ensures bytes { IfOk result (λ bytes. bytes.items ≡ body_of entry.now) }
    ensures has { OnOk result (HasBytes entry.now) }
{
    let notes = entry.notes.as_slice();
    let Ok(count) = u32::try_from(count_net(notes)) else {
        return Err(AllocError);
    };
    let mut out = Vec::new(alloc);
    push_u32(&mut out, entry.label.session)?;
    push_u32(&mut out, entry.label.txn)?;
    push_u64(&mut out, entry.start)?;
    push_u64(&mut out, entry.time)?;
    push_u32(&mut out, count)?;
    push_net(&mut out, notes)?;
    Ok(out)
}

/// Appends what stands behind an entry's gate in the log. Err is for want of memory.
pub fn encode(entry: &Entry, out: &mut Vec<u8>) -> Result<(), AllocError>
    ensures bytes { OnOk result (out.new.items ≡ out.old.items ++ record_of entry.now) }
    ensures has { OnOk result (HasBytes entry.now) }
{
    let body = body(*out.allocator(), entry)?;
    push_u64(out, body.len() as u64)?;
    out.extend_from_slice(&body)
}
