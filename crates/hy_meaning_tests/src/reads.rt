//! What statements log of their reads: the columns that they name, and a join key by key.

use hy_bound::{
    Aggregate, Assign, Bound, Items, On, Pred, Record, Records, Rows, SetExpr, Shape, Side, truth,
};
use hy_given::{compare, equal, pair, pairs, row, stored_pair};
use hy_plan::records;
use hy_value::{Cmp, Row, Seq, print_row};
use std::alloc::{AllocError, Global};
use std::test::Fail;

/// own (aid INT, tag INT), and acc (id INT PRIMARY KEY, bal INT).
const OWN_AND_ACC: [Shape; 2] = [
    Shape {
        width: 2,
        key: None,
    },
    Shape {
        width: 2,
        key: Some(0),
    },
];

/// The rows of own.
const OWN: [[Option<i64>; 2]; 4] = [
    [Some(7), Some(70)],
    [Some(1), Some(10)],
    [None, Some(40)],
    [Some(2), Some(20)],
];

/// The rows of acc.
const ACC: [[Option<i64>; 2]; 2] = [[Some(1), Some(100)], [Some(2), Some(100)]];

/// Rows that records are tried on.
const TRIED: [[Option<i64>; 2]; 8] = [
    [Some(1), Some(10)],
    [Some(8), Some(10)],
    [Some(1), Some(20)],
    [Some(1), None],
    [Some(1), Some(100)],
    [Some(2), Some(100)],
    [Some(100), Some(100)],
    [None, Some(10)],
];

/// A SELECT of these columns FROM two tables.
fn select(
    alloc: Global,
    tables: &[u32],
    on: On,
    pred: Pred,
    columns: &[u32],
) -> Result<Bound, AllocError> {
    Ok(Bound::Select {
        tables: Seq::from_slice(alloc, tables)?,
        ons: Seq::from_slice(alloc, &[on])?,
        pred,
        items: Items::Columns(Seq::from_slice(alloc, columns)?),
    })
}

/// What a SELECT of two tables logs, own and acc having their rows.
fn logged(alloc: Global, tables: &[u32], select: &Bound) -> Result<Records, AllocError> {
    let mut gathered = Seq::new(alloc);
    for table in tables {
        let rows = if *table == 0 {
            pairs(alloc, &OWN)?
        } else {
            pairs(alloc, &ACC)?
        };
        gathered.push(rows)?;
    }
    records(alloc, &OWN_AND_ACC, select, 1, gathered.as_slice())
}

/// What SELECT of all columns FROM own JOIN acc ON aid = id logs under this condition.
fn joined(alloc: Global, pred: Pred) -> Result<Records, AllocError> {
    let by_key = On { left: 0, right: 2 };
    let select = select(alloc, &[0, 1], by_key, pred, &[0, 1, 2, 3])?;
    logged(alloc, &[0, 1], &select)
}

/// Adds the rows of which a record is true.
fn add_taken(of: &Record, tried: &[Row], text: &mut Vec<u8>) -> Result<(), AllocError> {
    for row in tried {
        if truth(&of.pred, row) {
            text.push(b' ')?;
            print_row(row, text)?;
        }
    }
    Ok(())
}

/// Adds a digit.
fn add_digit(number: u32, text: &mut Vec<u8>) -> Result<(), AllocError> {
    text.push(u8::try_from(number).map_or(b'?', |digit| b'0'.saturating_add(digit)))?;
    Ok(())
}

/// Records as lines: the number of the statement, the table, which of two columns are named, and of which of
/// these rows the record is true.
fn lines(alloc: Global, all: &Records, tried: &Rows) -> Result<String, Fail> {
    let mut text = Vec::new(alloc);
    for of in all.as_slice() {
        add_digit(of.statement, &mut text)?;
        add_digit(of.table, &mut text)?;
        text.push(if of.columns.has(0) { b'x' } else { b'-' })?;
        text.push(if of.columns.has(1) { b'x' } else { b'-' })?;
        text.push(b':')?;
        add_taken(of, tried.as_slice(), &mut text)?;
        text.push(b'\n')?;
    }
    Ok(String::from_utf8(text)?)
}

/// The lines of what a join by key logs under a condition, tried on some rows.
fn joined_lines(alloc: Global, pred: Pred) -> Result<String, Fail> {
    lines(alloc, &joined(alloc, pred)?, &pairs(alloc, &TRIED)?)
}

#[test]
fn a_table_is_looked_up_by_the_keys_that_are_read(rt: HostRuntime) -> Result<(), Fail> {
    let alloc = rt.alloc();
    let text = joined_lines(alloc, equal(alloc, 1, 10)?)?;
    assert_eq!(rt;
        text.as_str(),
        "10xx: 1|10 8|10 NULL|10\n11xx: 1|10 1|20 1|NULL 1|100\n"
    );
    Ok(())
}

/// The lines of what a SELECT of two tables logs that have no lookup, tried on some rows.
fn scanned_lines(alloc: Global, tables: &[u32], on: On, pred: Pred) -> Result<String, Fail> {
    let select = select(alloc, tables, on, pred, &[1])?;
    let all = logged(alloc, tables, &select)?;
    lines(alloc, &all, &pairs(alloc, &TRIED)?)
}

#[test]
fn a_join_reads_each_table_by_itself(rt: HostRuntime) -> Result<(), Fail> {
    let alloc = rt.alloc();
    // Neither side of ON is a key, so that the second table isn't looked up.
    let parts = Pred::and(alloc, equal(alloc, 0, 1)?, equal(alloc, 3, 20)?)?;
    let text = scanned_lines(alloc, &[0, 0], On { left: 1, right: 3 }, parts)?;
    assert_eq!(rt; text.as_str(), "10xx: 1|10 1|20 1|NULL 1|100\n10-x: 1|20\n");
    Ok(())
}

#[test]
fn on_may_compare_the_key_with_its_own_table(rt: HostRuntime) -> Result<(), Fail> {
    let alloc = rt.alloc();
    let text = scanned_lines(
        alloc,
        &[0, 1],
        On { left: 2, right: 3 },
        equal(alloc, 1, 20)?,
    )?;
    assert_eq!(rt; text.as_str(), "10-x: 1|20\n11xx: 100|100\n");
    Ok(())
}

/// Adds the keys among 0, 1, 2 and 7 that a record looks up, and a space.
fn add_keys(alloc: Global, of: &Record, text: &mut Vec<u8>) -> Result<(), AllocError> {
    for key in [0, 1, 2, 7] {
        if truth(&of.pred, &pair(alloc, i64::from(key), 100)?) {
            add_digit(key, text)?;
        }
    }
    text.push(b' ')?;
    Ok(())
}

/// The keys that are looked up, record by record of acc.
fn keys(alloc: Global, all: &Records) -> Result<String, Fail> {
    let mut text = Vec::new(alloc);
    for of in all.as_slice() {
        if of.table == 1 {
            add_keys(alloc, of, &mut text)?;
        }
    }
    Ok(String::from_utf8(text)?)
}

/// These comparisons of columns with numbers, joined by OR or by AND.
fn condition(
    alloc: Global,
    parts: &[(u32, Cmp, i64)],
    is_either: bool,
) -> Result<Pred, AllocError> {
    let mut whole = None;
    for (column, op, number) in parts {
        let next = compare(alloc, *column, *op, *number)?;
        whole = Some(match whole {
            None => next,
            Some(before) if is_either => Pred::or(alloc, before, next)?,
            Some(before) => Pred::and(alloc, before, next)?,
        });
    }
    Ok(whole.unwrap_or(Pred::always()))
}

#[test]
fn each_value_that_is_read_is_a_key(rt: HostRuntime) -> Result<(), Fail> {
    let alloc = rt.alloc();
    for (parts, is_either, wanted) in [
        (&[(1, Cmp::Eq, 10)][..], false, "1 "),
        (&[(1, Cmp::Ne, 10)][..], false, "2 7 "),
        (&[(1, Cmp::Eq, 70)][..], false, "7 "),
        (&[(1, Cmp::Eq, 99)][..], false, ""),
        (&[(1, Cmp::Eq, 40)][..], false, ""),
        (&[(3, Cmp::Lt, 100)][..], false, "   "),
        (&[(1, Cmp::Ne, 70), (3, Cmp::Eq, 100)][..], false, "1 2 "),
        (&[(1, Cmp::Eq, 10), (2, Cmp::Ne, 1)][..], false, " "),
        (&[(1, Cmp::Eq, 10), (3, Cmp::Eq, 5)][..], true, "1 2 7 "),
    ] {
        let all = joined(alloc, condition(alloc, parts, is_either)?)?;
        assert_eq!(rt; keys(alloc, &all)?.as_str(), wanted, "{wanted}");
    }
    Ok(())
}

#[test]
fn a_key_that_is_null_is_not_looked_up(rt: HostRuntime) -> Result<(), Fail> {
    let alloc = rt.alloc();
    let pred = Pred::or(alloc, Pred::is_null(0), equal(alloc, 0, 2)?)?;
    assert_eq!(rt; keys(alloc, &joined(alloc, pred)?)?.as_str(), "2 ");
    Ok(())
}

#[test]
fn on_looks_up_a_key_by_an_earlier_column(rt: HostRuntime) -> Result<(), Fail> {
    let alloc = rt.alloc();
    // Where it doesn't, acc has one record, of all rows or of those for which ON holds.
    for (tables, left, right, wanted) in [
        ([0, 1], 0, 2, "1 2 7 "),
        ([0, 1], 2, 0, "1 2 7 "),
        ([0, 1], 0, 3, "0127 "),
        ([0, 1], 2, 2, "0127 "),
        ([0, 1], 0, 0, "0127 "),
        ([1, 0], 0, 2, "0127 "),
        ([1, 0], 2, 0, "0127 "),
    ] {
        let on = On { left, right };
        let select = select(alloc, &tables, on, Pred::always(), &[1])?;
        let all = logged(alloc, &tables, &select)?;
        assert_eq!(rt; keys(alloc, &all)?.as_str(), wanted, "{left} {right}");
    }
    Ok(())
}

/// What a statement on acc alone logs, tried on some rows.
fn alone_lines(alloc: Global, statement: &Bound) -> Result<String, Fail> {
    let all = records(alloc, &OWN_AND_ACC, statement, 1, &[])?;
    lines(alloc, &all, &pairs(alloc, &TRIED)?)
}

#[test]
fn an_insert_looks_for_its_key(rt: HostRuntime) -> Result<(), Fail> {
    let alloc = rt.alloc();
    let insert = Bound::Insert {
        table: 1,
        row: stored_pair(alloc, 1, 0)?,
    };
    let text = alone_lines(alloc, &insert)?;
    assert_eq!(rt; text.as_str(), "11x-: 1|10 1|20 1|NULL 1|100\n");
    Ok(())
}

#[test]
fn an_update_reads_what_it_names(rt: HostRuntime) -> Result<(), Fail> {
    let alloc = rt.alloc();
    let mut sets = Seq::new(alloc);
    sets.push(Assign {
        column: 0,
        value: SetExpr::column(1),
    })?;
    let update = Bound::Update {
        table: 1,
        sets,
        pred: Pred::is_null(0),
    };
    assert_eq!(rt; alone_lines(alloc, &update)?.as_str(), "11xx: NULL|10\n");
    Ok(())
}

#[test]
fn groups_and_deletes_read_what_they_name(rt: HostRuntime) -> Result<(), Fail> {
    let alloc = rt.alloc();
    let group = Bound::Group {
        table: 1,
        pred: Pred::is_null(0),
        key: 0,
        aggregate: Aggregate::Sum(1),
    };
    assert_eq!(rt; alone_lines(alloc, &group)?.as_str(), "11xx: NULL|10\n");
    let delete = Bound::Delete {
        table: 1,
        pred: equal(alloc, 1, 20)?,
    };
    assert_eq!(rt; alone_lines(alloc, &delete)?.as_str(), "11-x: 1|20\n");
    Ok(())
}

#[test]
fn keys_come_from_rows_that_are_looked_up(rt: HostRuntime) -> Result<(), Fail> {
    let alloc = rt.alloc();
    // own, acc with a home in place of a balance, and a table of which home is the key.
    let [own, acc] = OWN_AND_ACC;
    let homes = [[Some(1), Some(6)], [Some(2), Some(5)], [Some(3), Some(4)]];
    let mut gathered = Seq::new(alloc);
    gathered.push(pairs(alloc, &OWN)?)?;
    gathered.push(pairs(alloc, &homes)?)?;
    gathered.push(Seq::new(alloc))?;
    let select = Bound::Select {
        tables: Seq::from_slice(alloc, &[0, 1, 2])?,
        ons: Seq::from_slice(alloc, &[On { left: 0, right: 2 }, On { left: 3, right: 4 }])?,
        pred: equal(alloc, 1, 20)?,
        items: Items::Columns(Seq::from_slice(alloc, &[5])?),
    };
    let all = records(alloc, &[own, acc, acc], &select, 1, gathered.as_slice())?;
    let tried = pairs(
        alloc,
        &[[Some(1), Some(20)], [Some(2), Some(9)], [Some(5), Some(9)]],
    )?;
    let text = lines(alloc, &all, &tried)?;
    assert_eq!(rt; text.as_str(), "10xx: 1|20\n11xx: 2|9\n12xx: 5|9\n");
    Ok(())
}

/// What a join by key logs where the column that is looked up has these numbers from 1 on, NULL, and 1 again.
fn many(alloc: Global, numbers: i64) -> Result<Records, AllocError> {
    let mut own = Seq::new(alloc);
    for number in 1..=numbers {
        own.push(pair(alloc, number, 0)?)?;
    }
    own.push(row(alloc, &[None, None])?)?;
    own.push(pair(alloc, 1, 0)?)?;
    let mut gathered = Seq::new(alloc);
    gathered.push(own)?;
    gathered.push(Seq::new(alloc))?;
    let on = On { left: 0, right: 2 };
    let select = select(alloc, &[0, 1], on, compare(alloc, 2, Cmp::Ge, 1)?, &[3])?;
    records(alloc, &OWN_AND_ACC, &select, 1, gathered.as_slice())
}

/// Whether a record is true of a row with this key.
fn looks_up(alloc: Global, of: &Record, key: i64) -> Result<bool, AllocError> {
    Ok(truth(&of.pred, &pair(alloc, key, 100)?))
}

#[test]
fn so_many_keys_are_recorded_one_by_one(rt: HostRuntime) -> Result<(), Fail> {
    let alloc = rt.alloc();
    let all = many(alloc, 1024)?;
    assert_eq!(rt; all.len(), 1025);
    for key in 1..=1024u32 {
        let Some(of) = all.as_slice().get(key as usize) else {
            return Err(Fail::from("each key has a record behind that of own"));
        };
        let key = i64::from(key);
        assert!(rt; of.table == 1 && looks_up(alloc, of, key)?, "{key}");
        assert!(rt;
            !looks_up(alloc, of, key - 1)? && !looks_up(alloc, of, key + 1)?,
            "{key}"
        );
    }
    Ok(())
}

#[test]
fn one_key_more_and_the_table_has_one_record(rt: HostRuntime) -> Result<(), Fail> {
    let alloc = rt.alloc();
    let all = many(alloc, 1025)?;
    let [_, of] = all.as_slice() else {
        return Err(Fail::from("each table has one record"));
    };
    assert_eq!(rt; of.table, 1);
    for (key, wanted) in [(0, false), (1, true), (1025, true), (5000, true)] {
        assert_eq!(rt; looks_up(alloc, of, key)?, wanted, "{key}");
    }
    Ok(())
}
