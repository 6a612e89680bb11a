//! SELECTs that are answered from what is gathered for their plans and from their whole tables.

use crate::gather::{gather, rows_of};
use crate::random::{group, select, shapes, tables};
use hy_bound::{
    Aggregate, Bound, Grouped, Groups, Items, On, Pred, Record, Records, Reply, Rows, Shape,
    Shapes, column_value, truth,
};
use hy_gathered::Pieces;
use hy_given::Random;
use hy_meaning::answer_joined;
use hy_plan::{Gathered, PlanPart, plan_statement, records};
use hy_value::{Row, Seq, StoredRow, Value, ValueSet, copy_row};
use hy_visit::{Found, Reader, part_rows, reader_of};
use std::alloc::{AllocError, Global};
use std::test::Fail;

/// Tables, and a SELECT over them.
#[derive(Drop)]
struct Case {
    /// The shapes of the tables.
    shapes: Shapes,
    /// Their rows.
    tables: Seq<Rows>,
    /// The SELECT.
    select: Bound,
}

#[test]
fn gathered_rows_are_enough_for_a_select(rt: HostRuntime) -> Result<(), Fail> {
    let alloc = rt.alloc();
    let mut random = Random::new(1);
    for number in 0..400u32 {
        assert!(rt; next_select_agrees(alloc, &mut random)?, "SELECT {number}");
    }
    Ok(())
}

/// Whether the next SELECT without groups agrees.
fn next_select_agrees(alloc: Global, random: &mut Random) -> Result<bool, AllocError> {
    let case = random_select(alloc, random)?;
    select_agrees(alloc, &case)
}

/// A SELECT without groups.
fn random_select(alloc: Global, random: &mut Random) -> Result<Case, AllocError> {
    let shapes = shapes(alloc, random)?;
    let tables = tables(alloc, random)?;
    let select = select(alloc, random, shapes.as_slice())?;
    Ok(Case {
        shapes,
        tables,
        select,
    })
}

/// Whether a SELECT has the same reply and the same records from what is gathered for its plan as from its whole
/// tables.
fn select_agrees(alloc: Global, case: &Case) -> Result<bool, AllocError> {
    let reader = reader_for(alloc, case)?;
    let parts = reader.parts.as_slice();
    let gathered = pieces(alloc, gather(alloc, parts, case.tables.as_slice())?)?;
    let found = Found {
        gathered: gathered.as_slice(),
        fresh: None,
    };
    let rows = part_rows(alloc, parts, found)?;
    let whole = whole(alloc, parts, case.tables.as_slice())?;
    let reply = reader.reply(alloc, rows.as_slice())?;
    if !are_same(&reply, &whole_reply(alloc, case, whole.as_slice())?) {
        return Ok(false);
    }
    let told = reader.rows_logged(alloc, rows.as_slice())?;
    let all = logged(alloc, case, told.as_slice())?;
    let wanted = logged(alloc, case, whole.as_slice())?;
    Ok(are_same_records(all.as_slice(), wanted.as_slice(), case.tables.as_slice()))
}

/// How the SELECT is run.
fn reader_for(alloc: Global, case: &Case) -> Result<Reader, AllocError> {
    let shapes = case.shapes.as_slice();
    match &case.select {
        Bound::Select { .. } => reader_of(alloc, shapes, &case.select),
        Bound::Group { .. } => reader_of(alloc, shapes, &case.select),
        _ => Err(AllocError),
    }
}

/// What was gathered of each table, as its only piece.
fn pieces(alloc: Global, gathered: Vec<Gathered>) -> Result<Vec<Pieces>, AllocError> {
    let mut all = Vec::new(alloc);
    for piece in gathered {
        let mut pieces = Pieces::new(alloc);
        pieces.add(piece)?;
        all.push(pieces)?;
    }
    Ok(all)
}

/// The reply from the whole tables.
fn whole_reply(alloc: Global, case: &Case, whole: &[Rows]) -> Result<Reply, AllocError> {
    match &case.select {
        Bound::Select {
            tables: _,
            ons,
            pred,
            items,
        } => answer_joined(alloc, ons.as_slice(), pred, items, whole),
        Bound::Group {
            table,
            pred,
            key,
            aggregate,
        } => {
            let rows = rows_of(case.tables.as_slice(), *table);
            Ok(Reply::Groups(whole_groups(alloc, pred, *key, *aggregate, rows)?))
        }
        _ => Err(AllocError),
    }
}

/// The groups of the rows of which a condition is true, in ascending order of the key's values.
fn whole_groups(
    alloc: Global,
    pred: &Pred,
    key: u32,
    aggregate: Aggregate,
    rows: &[Row],
) -> Result<Groups, AllocError> {
    let mut groups = Seq::new(alloc);
    for value in values_of(alloc, pred, key, rows)? {
        let total = total_at(pred, key, aggregate, rows, &value);
        groups.push(Grouped { value, total })?;
    }
    Ok(groups)
}

/// The different values of the key in the rows of which a condition is true, ascending.
fn values_of(alloc: Global, pred: &Pred, key: u32, rows: &[Row]) -> Result<Vec<Value>, AllocError> {
    let mut values = ValueSet::new(alloc);
    for row in rows {
        if truth(pred, row) {
            values.insert(column_value(row, key))?;
        }
    }
    values.into_vec(alloc)
}

/// What the rows come to that have this value of the key, and of which a condition is true.
fn total_at(pred: &Pred, key: u32, aggregate: Aggregate, rows: &[Row], value: &Value) -> i128 {
    let mut total = 0i128;
    for row in rows {
        if truth(pred, row) && column_value(row, key) == *value {
            total = total.wrapping_add(amount(aggregate, row));
        }
    }
    total
}

/// What a row adds to the total of its group.
fn amount(aggregate: Aggregate, row: &Row) -> i128 {
    match aggregate {
        Aggregate::Count => 1,
        Aggregate::Sum(column) => match column_value(row, column) {
            Value::Int(number) => i128::from(number),
            _ => 0,
        },
    }
}

/// What the SELECT logs, its tables having these rows.
fn logged(alloc: Global, case: &Case, rows: &[Rows]) -> Result<Records, AllocError> {
    records(alloc, case.shapes.as_slice(), &case.select, 1, rows)
}

/// The rows of the parts' tables.
fn whole(alloc: Global, parts: &[PlanPart], tables: &[Rows]) -> Result<Seq<Rows>, AllocError> {
    let mut all = Seq::new(alloc);
    for part in parts {
        all.push(copies(alloc, rows_of(tables, part.table))?)?;
    }
    Ok(all)
}

/// Copies of rows.
fn copies(alloc: Global, rows: &[Row]) -> Result<Rows, AllocError> {
    let mut all = Seq::new(alloc);
    for row in rows {
        all.push(copy_row(alloc, row)?)?;
    }
    Ok(all)
}

/// Whether two replies are the same.
fn are_same(one: &Reply, other: &Reply) -> bool {
    match (one, other) {
        (Reply::Rows(one), Reply::Rows(other)) => {
            are_same_rows(one.as_slice(), other.as_slice())
        }
        (Reply::Value(one), Reply::Value(other)) => one == other,
        (Reply::Groups(one), Reply::Groups(other)) => {
            are_same_groups(one.as_slice(), other.as_slice())
        }
        _ => false,
    }
}

/// Whether rows are the same.
fn are_same_rows(one: &[StoredRow], other: &[StoredRow]) -> bool {
    one.len() == other.len()
        && one
            .iter()
            .zip(other)
            .all(|(row, other)| row.compare(other).is_eq())
}

/// Whether groups are the same.
fn are_same_groups(one: &[Grouped], other: &[Grouped]) -> bool {
    one.len() == other.len()
        && one.iter().zip(other).all(|(group, other)| group.value == other.value
            && group.total == other.total)
}

/// Whether records are the same, one by one.
fn are_same_records(one: &[Record], other: &[Record], tables: &[Rows]) -> bool {
    one.len() == other.len()
        && one
            .iter()
            .zip(other)
            .all(|(of, other)| is_same_record(of, other, tables))
}

/// Whether records are of the same table and columns, and say the same of each of the table's rows.
fn is_same_record(one: &Record, other: &Record, tables: &[Rows]) -> bool {
    one.table == other.table
        && one.columns == other.columns
        && rows_of(tables, one.table)
            .iter()
            .all(|row| truth(&one.pred, row) == truth(&other.pred, row))
}

#[test]
fn gathered_rows_are_enough_for_groups(rt: HostRuntime) -> Result<(), Fail> {
    let alloc = rt.alloc();
    let mut random = Random::new(2);
    for number in 0..400u32 {
        assert!(rt; next_groups_agree(alloc, &mut random)?, "SELECT {number}");
    }
    Ok(())
}

/// Whether the next SELECT with GROUP BY agrees.
fn next_groups_agree(alloc: Global, random: &mut Random) -> Result<bool, AllocError> {
    let case = random_group(alloc, random)?;
    select_agrees(alloc, &case)
}

/// A SELECT with GROUP BY.
fn random_group(alloc: Global, random: &mut Random) -> Result<Case, AllocError> {
    let shapes = shapes(alloc, random)?;
    let tables = tables(alloc, random)?;
    let select = group(alloc, random)?;
    Ok(Case {
        shapes,
        tables,
        select,
    })
}

#[test]
fn over_so_many_keys_all_rows_are_gathered(rt: HostRuntime) -> Result<(), Fail> {
    let alloc = rt.alloc();
    for (numbers, wanted) in [(1024, 2), (1025, 3)] {
        assert!(rt; look_up_gathers(alloc, numbers, wanted)?, "{numbers}");
    }
    Ok(())
}

/// Whether a look-up by so many numbers agrees and gathers so many rows.
fn look_up_gathers(alloc: Global, numbers: i64, wanted: usize) -> Result<bool, AllocError> {
    let case = look_up(alloc, numbers)?;
    Ok(select_agrees(alloc, &case)? && last_gathered(alloc, &case)? == wanted)
}

/// A join of a table of so many numbers from 0 on with one of the numbers -1, 0 and 1, which is looked up by its
/// key.
fn look_up(alloc: Global, numbers: i64) -> Result<Case, AllocError> {
    let mut tables = Seq::new(alloc);
    tables.push(number_rows(alloc, 0, numbers)?)?;
    tables.push(number_rows(alloc, -1, 2)?)?;
    let (width, key) = (1, Some(0));
    let shapes = Seq::from_slice(alloc, &[Shape { width, key: None }, Shape { width, key }])?;
    Ok(Case {
        shapes,
        tables,
        select: join(alloc)?,
    })
}

/// Rows of one number each, from one number to another, which is left out.
fn number_rows(alloc: Global, from: i64, to: i64) -> Result<Rows, AllocError> {
    let mut rows = Seq::new(alloc);
    for number in from..to {
        let mut row = Seq::new(alloc);
        row.push(Value::Int(number))?;
        rows.push(row)?;
    }
    Ok(rows)
}

/// SELECT of the only columns of the first two tables, where ON makes them equal.
fn join(alloc: Global) -> Result<Bound, AllocError> {
    let items = Items::Columns(Seq::from_slice(alloc, &[0, 1])?);
    let ons = Seq::from_slice(alloc, &[On { left: 0, right: 1 }])?;
    Ok(Bound::Select {
        tables: Seq::from_slice(alloc, &[0, 1])?,
        ons,
        pred: Pred::always(),
        items,
    })
}

/// How many rows are gathered of the last table.
fn last_gathered(alloc: Global, case: &Case) -> Result<usize, AllocError> {
    let Some(plan) = plan_statement(alloc, case.shapes.as_slice(), &case.select)? else {
        return Ok(0);
    };
    let gathered = gather(alloc, plan.parts.as_slice(), case.tables.as_slice())?;
    Ok(match gathered.last() {
        Some(last) => last.len(),
        None => 0,
    })
}
