//! What a newer and an older record noted, as one.

ghost use Rattle.std.specs.Prelude.{◌≡◌, ◌<◌, ◌≤◌, length, map, slice_index_or, slice_set};
ghost use Rattle.hy_undo.specs.Images.{old_or, older_or, with_older};
ghost use Rattle.hy_undo.specs.Noted.{noted_value};
ghost use Rattle.hy_value.specs.declared.Value.{Value};

use crate::noted::Noted;
use hy_value::{Row, ValueRef};
use std::mem;

/// Takes what an older record noted of a column out of it.
fn keep_older(noted: &mut Noted, older: &mut Noted)
    ensures { noted_value noted.new ≡ older_or (noted_value noted.old) (noted_value older.old) }
{
    if !older.is_nothing() {
        *noted = mem::take(older);
    }
}

/// Takes what a newer record noted of a column out of it, where the older noted nothing.
fn fill_in(noted: &mut Noted, newer: &mut Noted)
    ensures { noted_value noted.new ≡ older_or (noted_value newer.old) (noted_value noted.old) }
{
    if noted.is_nothing() {
        *noted = mem::take(newer);
    }
}

/// Takes older values into newer ones, of at least as many columns: those of the older stay.
pub fn take_older(values: &mut [Noted], older: &mut [Noted])
    requires { length older.old ≤ length values.old }
    ensures { map noted_value values.new ≡ with_older (map noted_value values.old) (map noted_value older.old) }
{
    for column in 0..older.len() {
        keep_older(&mut values[column], &mut older[column]);
    }
}

/// Takes newer values into older ones, of at least as many columns: those of the older stay.
pub fn take_newer(values: &mut [Noted], newer: &mut [Noted])
    requires { length newer.old ≤ length values.old }
    ensures { map noted_value values.new ≡ with_older (map noted_value newer.old) (map noted_value values.old) }
{
    for column in 0..newer.len() {
        fill_in(&mut values[column], &mut newer[column]);
    }
}

/// Puts back what was noted of a column, if anything was.
pub fn put_back_at(row: &mut Row, column: usize, noted: &Noted)
    requires { column < length row.old }
    ensures { (d : Value) → row.new ≡ slice_set row.old column (old_or (slice_index_or row.old column d) (noted_value noted.now)) }
{
    match noted {
        Noted::Nothing => {}
        Noted::Null => row.set(column, ValueRef::Null),
        Noted::Int(number) => row.set(column, ValueRef::Int(*number)),
        Noted::Text(text) => row.set(column, ValueRef::Text(text)),
    }
}
