//! Columns, masks and the index of keys.

use hy_column::{Columns, IntColumn, TextColumn};
use hy_index::KeyIndex;
use hy_kernel::Mask;
use hy_value::{Cmp, Kind, Text, Value, ValueRef};
use std::alloc::{AllocError, Global};
use std::test::Fail;

/// Whether a comparison finds of the numbers from 0 on, so many of them, just those below 32.
fn finds_below_32(alloc: Global, numbers: i64) -> Result<bool, AllocError> {
    let mut values = Vec::new(alloc);
    for number in 0..numbers {
        values.push(number)?;
    }
    let mut mask = Mask::new(alloc, values.len())?;
    if mask.len() != values.len() {
        return Err(AllocError);
    }
    mask.compare(&values, Cmp::Lt, 32);
    for place in 0..mask.len() {
        if mask.get(place) != (place < 32) {
            return Ok(false);
        }
    }
    Ok(true)
}

#[test]
fn comparisons_fill_words_of_64(rt: HostRuntime) -> Result<(), Fail> {
    for numbers in [0, 1, 63, 64, 65, 1024] {
        assert!(rt; finds_below_32(rt.alloc(), numbers)?, "{numbers}");
    }
    Ok(())
}

#[test]
fn numbers_and_texts_are_replaced(rt: HostRuntime) -> Result<(), Fail> {
    let alloc = rt.alloc();
    let mut numbers = IntColumn::new(alloc, 4)?;
    if numbers.values().len() != 4 {
        return Err(Fail::from("there are four"));
    }
    assert_eq!(rt; numbers.replace(1, Some(7)), Some(0));
    assert_eq!(rt; numbers.get(1), Some(7));
    assert_eq!(rt; numbers.replace(1, None), Some(7));
    assert_eq!(rt; numbers.get(1), None);
    Ok(())
}

#[test]
fn texts_begin_empty(rt: HostRuntime) -> Result<(), Fail> {
    let alloc = rt.alloc();
    let mut texts = TextColumn::new(alloc, 4)?;
    let Some(first) = texts.look(3) else {
        return Err(Fail::from("it is no NULL"));
    };
    assert!(rt; first.as_bytes().is_empty());
    let ann = Text::new(alloc, "ann")?;
    assert!(rt; texts.replace(3, Some(ann)).is_some());
    let Some(last) = texts.look(3) else {
        return Err(Fail::from("it is no NULL"));
    };
    assert_eq!(rt; last.as_bytes(), b"ann".as_slice());
    Ok(())
}

#[test]
fn columns_are_seen_as_rows(rt: HostRuntime) -> Result<(), Fail> {
    let alloc = rt.alloc();
    let mut columns = Columns::new(alloc, &[Kind::Int, Kind::Int], 2)?;
    assert!(rt; matches!(columns.replace(1, 0, Value::Int(3)), Value::Int(0)));
    assert!(rt; matches!(columns.replace(1, 1, Value::Null), Value::Int(0)));
    assert!(rt; matches!(columns.value(1, 0), Value::Int(3)));
    assert!(rt; matches!(columns.value(1, 1), Value::Null));
    assert!(rt; matches!(columns.value(0, 1), Value::Int(0)));
    Ok(())
}

#[test]
fn keys_are_found_by_position(rt: HostRuntime) -> Result<(), Fail> {
    let mut index = KeyIndex::new(rt.alloc(), Kind::Int, 4)?;
    index.add(ValueRef::Int(5), 2);
    index.add(ValueRef::Int(4), 7);
    index.add(ValueRef::Null, 6);
    index.add(ValueRef::Int(5), 1);
    let found = index.find(ValueRef::Int(5));
    if found.len() != 2 {
        return Err(Fail::from("two positions have the key"));
    }
    assert_eq!(rt; (found.at(0), found.at(1)), (1, 2));
    assert_eq!(rt; index.find(ValueRef::Null).len(), 1);
    index.remove(ValueRef::Int(5), 1);
    assert_eq!(rt; index.find(ValueRef::Int(5)).len(), 1);
    assert_eq!(rt; index.find(ValueRef::Int(6)).len(), 0);
    Ok(())
}

#[test]
fn texts_are_keys_too(rt: HostRuntime) -> Result<(), Fail> {
    let alloc = rt.alloc();
    let Ok(text) = Text::new(alloc, "b") else {
        return Err(Fail::from("it is a text"));
    };
    let mut index = KeyIndex::new(alloc, Kind::Str, 2)?;
    index.add(ValueRef::Text(&text), 3);
    index.add(ValueRef::Null, 0);
    let found = index.find(ValueRef::Text(&text));
    if found.len() != 1 {
        return Err(Fail::from("one position has the key"));
    }
    assert_eq!(rt; found.at(0), 3);
    Ok(())
}
