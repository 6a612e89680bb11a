//! Plans of SELECTs, and the log of reads.

use hy_bound::{Bound, Items, On, Pred, Record, Shape, truth};
use hy_given::{compare, pair, row};
use hy_plan::{Plan, ReadLog, plan_statement};
use hy_value::{Cmp, ColMask, Seq};
use std::alloc::Global;
use std::test::Fail;

/// acc (id INT PRIMARY KEY, bal INT) and own (aid INT, tag INT).
const ACC_AND_OWN: [Shape; 2] = [
    Shape {
        width: 2,
        key: Some(0),
    },
    Shape {
        width: 2,
        key: None,
    },
];

/// The plan of SELECT of these columns FROM the two tables, where ON is id = aid.
fn plan(alloc: Global, tables: &[u32], pred: Pred, columns: &[u32]) -> Result<Plan, Fail> {
    let select = Bound::Select {
        tables: Seq::from_slice(alloc, tables)?,
        ons: Seq::from_slice(alloc, &[On { left: 0, right: 2 }])?,
        pred,
        items: Items::Columns(Seq::from_slice(alloc, columns)?),
    };
    match plan_statement(alloc, &ACC_AND_OWN, &select)? {
        Some(plan) => Ok(plan),
        None => Err(Fail::from("a SELECT has a plan")),
    }
}

#[test]
fn a_plan_splits_what_is_asked(rt: HostRuntime) -> Result<(), Fail> {
    let alloc = rt.alloc();
    let rich = compare(alloc, 1, Cmp::Ge, 100)?;
    let untagged = compare(alloc, 3, Cmp::Ne, 20)?;
    let plan = plan(alloc, &[0, 1], Pred::and(alloc, rich, untagged)?, &[3, 1])?;
    let [acc, own] = plan.parts.as_slice() else {
        return Err(Fail::from("two tables have two parts"));
    };
    assert_eq!(rt; (acc.table, own.table), (0, 1));
    let both = ColMask::none().with(0).with(1);
    assert_eq!(rt; (acc.columns, own.columns), (both, both));
    let (poor, bob, ann) = (
        pair(alloc, 1, 99)?,
        pair(alloc, 1, 20)?,
        pair(alloc, 1, 100)?,
    );
    assert!(rt; truth(&acc.pred, &ann) && !truth(&acc.pred, &poor));
    assert!(rt; truth(&own.pred, &ann) && !truth(&own.pred, &bob));
    // What is left to test of the joined row is ON.
    let equal = row(alloc, &[Some(1), Some(0), Some(1), Some(20)])?;
    let apart = row(alloc, &[Some(1), Some(100), Some(2), Some(10)])?;
    assert!(rt; truth(&plan.rest, &equal) && !truth(&plan.rest, &apart));
    Ok(())
}

#[test]
fn a_table_is_looked_up_by_its_key(rt: HostRuntime) -> Result<(), Fail> {
    let plan = plan(rt.alloc(), &[1, 0], Pred::always(), &[1, 3])?;
    let [own, acc] = plan.parts.as_slice() else {
        return Err(Fail::from("two tables have two parts"));
    };
    assert!(rt; own.lookup.is_none());
    assert!(rt; acc.lookup.is_some_and(|by| by.key == 0 && by.source == 0));
    Ok(())
}

#[test]
fn a_log_takes_what_it_has_room_for(rt: HostRuntime) -> Result<(), Fail> {
    let mut log = ReadLog::new(rt.alloc());
    log.reserve(1)?;
    log.push_reserved(Record {
        statement: 7,
        table: 2,
        pred: Pred::always(),
        columns: ColMask::none(),
    });
    let [of] = log.records() else {
        return Err(Fail::from("one push gives one record"));
    };
    assert_eq!(rt; (of.statement, of.table), (7, 2));
    Ok(())
}
