//! Answers, changes that hit a read, times.

use crate::printing::printed;
use hy_bound::{Items, Pred, Record, Reply, hits};
use hy_given::{equal, pairs, stored_pair};
use hy_meaning::answer_joined;
use hy_stamp::{Clock, Label};
use hy_value::{ColMask, Row, Seq, Text, Value};
use std::alloc::{AllocError, Global};
use std::test::Fail;

/// A row of one value.
fn single(alloc: Global, value: Value) -> Result<Row, AllocError> {
    let mut values = Seq::new(alloc);
    values.push(value)?;
    Ok(values)
}

#[test]
fn an_answer_without_on_is_a_product(rt: HostRuntime) -> Result<(), Fail> {
    let alloc = rt.alloc();
    // No column of a script has numbers and texts; in the order of values texts come last.
    let mut mixed = Seq::new(alloc);
    mixed.push(single(alloc, Value::Text(Text::new(alloc, "a")?))?)?;
    mixed.push(single(alloc, Value::Int(9))?)?;
    mixed.push(single(alloc, Value::Null)?)?;
    mixed.push(single(alloc, Value::Text(Text::empty(alloc)))?)?;
    mixed.push(single(alloc, Value::Int(-1))?)?;
    let mut tables = Seq::new(alloc);
    tables.push(pairs(alloc, &[[Some(7), Some(2)], [Some(7), Some(1)]])?)?;
    tables.push(mixed)?;
    let items = Items::Columns(Seq::from_slice(alloc, &[2, 1])?);
    let reply = answer_joined(alloc, &[], &Pred::always(), &items, tables.as_slice())?;
    let Reply::Rows(rows) = reply else {
        return Err(Fail::from("a SELECT has rows"));
    };
    assert_eq!(rt;
        printed(alloc, rows.as_slice())?.as_str(),
        "NULL|1 NULL|2 -1|1 -1|2 9|1 9|2 ''|1 ''|2 'a'|1 'a'|2 "
    );
    Ok(())
}

/// Whether a change of a row of two numbers hits a read.
fn is_hit(
    alloc: Global,
    read: &Record,
    before: Option<(i64, i64)>,
    after: Option<(i64, i64)>,
) -> Result<bool, AllocError> {
    let before = match before {
        Some((first, second)) => Some(stored_pair(alloc, first, second)?),
        None => None,
    };
    let after = match after {
        Some((first, second)) => Some(stored_pair(alloc, first, second)?),
        None => None,
    };
    Ok(hits(read, before.as_ref(), after.as_ref()))
}

#[test]
fn changes_hit_reads(rt: HostRuntime) -> Result<(), Fail> {
    let alloc = rt.alloc();
    let looked_up = Record {
        statement: 1,
        table: 0,
        pred: equal(alloc, 0, 7)?,
        columns: ColMask::none().with(0).with(1),
    };
    for (before, after, wanted) in [
        (Some((7, 100)), Some((7, 50)), true),
        (Some((7, 100)), Some((7, 100)), false),
        (Some((2, 100)), Some((2, 50)), false),
        (Some((2, 100)), Some((7, 100)), true),
        (Some((7, 100)), Some((2, 100)), true),
        (Some((7, 100)), None, true),
        (Some((2, 100)), None, false),
        (None, Some((7, 100)), true),
        (None, Some((2, 100)), false),
    ] {
        let hit = is_hit(alloc, &looked_up, before, after)?;
        assert_eq!(rt; hit, wanted, "{before:?} {after:?}");
    }
    let counted = Record {
        statement: 1,
        table: 0,
        pred: Pred::always(),
        columns: ColMask::none(),
    };
    assert!(rt; !is_hit(alloc, &counted, Some((1, 100)), Some((1, 5)))?);
    assert!(rt; is_hit(alloc, &counted, Some((1, 100)), None)?);
    Ok(())
}

#[test]
fn times_and_identifiers(rt: HostRuntime) {
    let mut clock = Clock::new();
    assert_eq!(rt; (clock.draw(), clock.draw(), clock.draw()), (1, 2, 3));
    assert_eq!(rt; clock.next(), 4);
    let label = Label { session: 0, txn: 1 };
    assert_eq!(rt; label.id(), 9_223_372_036_854_775_809);
}
