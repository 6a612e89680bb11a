//! Random tables and SELECTs.

ghost use Rattle.std.specs.Prelude.{◌<◌, ◌≤◌};

use hy_bound::{Aggregate, Bound, Items, On, Pred, Rows, Shape, Shapes, Side};
use hy_given::Random;
use hy_value::{Cmp, Row, Seq, Text, Value};
use std::alloc::{AllocError, Global};

/// How many tables there are, and how many columns each has.
const TABLES: u32 = 3;

const WIDTH: u32 = 3;

/// NULL, a small number, or now and then the empty text.
pub fn value(alloc: Global, random: &mut Random) -> Value {
    match random.below(8) {
        0 => Value::Null,
        1 => Value::Text(Text::empty(alloc)),
        number => Value::Int(i64::from(number / 2)),
    }
}

/// A row of a table.
fn row(alloc: Global, random: &mut Random) -> Result<Row, AllocError> {
    let mut row = Seq::new(alloc);
    for _column in 0..WIDTH {
        row.push(value(alloc, random))?;
    }
    Ok(row)
}

/// The rows of a table: now and then none, and some of them equal.
fn rows(alloc: Global, random: &mut Random) -> Result<Rows, AllocError> {
    let mut rows = Seq::new(alloc);
    for _row in 0..random.below(8) {
        rows.push(row(alloc, random)?)?;
    }
    Ok(rows)
}

/// The tables.
pub fn tables(alloc: Global, random: &mut Random) -> Result<Seq<Rows>, AllocError> {
    let mut tables = Seq::new(alloc);
    for _table in 0..TABLES {
        tables.push(rows(alloc, random)?)?;
    }
    Ok(tables)
}

/// The shapes of the tables: most have a key.
pub fn shapes(alloc: Global, random: &mut Random) -> Result<Shapes, AllocError> {
    let mut shapes = Seq::new(alloc);
    for _table in 0..TABLES {
        let key = match random.below(4) {
            3 => None,
            key => Some(key),
        };
        shapes.push(Shape { width: WIDTH, key })?;
    }
    Ok(shapes)
}

/// A comparison, or IS NULL, of one of the first so many columns.
fn condition(alloc: Global, random: &mut Random, width: u32) -> Result<Pred, AllocError>
    requires { 0 < width }
{
    let column = random.below(width);
    let op = match random.below(6) {
        0 => Cmp::Ne,
        1 => Cmp::Lt,
        2 => Cmp::Ge,
        3 => return Ok(Pred::is_null(column)),
        _ => Cmp::Eq,
    };
    let side = match random.below(3) {
        0 => Side::Column(random.below(width)),
        _ => Side::Literal(value(alloc, random)),
    };
    Pred::compare(alloc, column, op, side)
}

/// A WHERE on the first so many columns: conditions joined by AND and OR, some of it in a NOT.
fn filter(alloc: Global, random: &mut Random, width: u32) -> Result<Pred, AllocError>
    requires { 0 < width }
{
    let mut pred = Pred::always();
    for _condition in 0..random.below(4) {
        let next = condition(alloc, random, width)?;
        pred = match random.below(5) {
            0 => Pred::or(alloc, pred, next)?,
            1 => Pred::not(alloc, Pred::and(alloc, pred, next)?)?,
            _ => Pred::and(alloc, pred, next)?,
        };
    }
    Ok(pred)
}

/// The ON of a table whose columns begin at `from`: most make its key, or its first column, equal to a column of
/// an earlier table.
fn on(random: &mut Random, shape: Shape, from: u32) -> On
    requires some { 0 < from }
    requires few { from ≤ 6 }
{
    let own = match shape.key {
        Some(key) if key < WIDTH => from + key,
        _ => from,
    };
    let other = random.below(from);
    match random.below(5) {
        0 => On {
            left: random.below(from + WIDTH),
            right: other,
        },
        1 | 2 => On {
            left: other,
            right: own,
        },
        _ => On {
            left: own,
            right: other,
        },
    }
}

/// What a SELECT of so many columns shows.
fn items(alloc: Global, random: &mut Random, width: u32) -> Result<Items, AllocError>
    requires { 0 < width }
{
    match random.below(6) {
        0 => Ok(Items::Count),
        1 => Ok(Items::Sum(random.below(width))),
        _ => {
            let columns = [random.below(width), random.below(width)];
            Ok(Items::Columns(Seq::from_slice(alloc, &columns)?))
        }
    }
}

/// A SELECT of one to three tables, which may be the same one.
pub fn select(alloc: Global, random: &mut Random, shapes: &[Shape]) -> Result<Bound, AllocError> {
    let count = 1 + random.below(3);
    let mut tables = Seq::new(alloc);
    let mut ons = Seq::new(alloc);
    for index in 0..count {
        let table = random.below(TABLES);
        if index > 0 {
            let shape = hy_bound::table_shape(shapes, table);
            ons.push(on(random, shape, WIDTH * index))?;
        }
        tables.push(table)?;
    }
    Ok(Bound::Select {
        tables,
        ons,
        pred: filter(alloc, random, WIDTH * count)?,
        items: items(alloc, random, WIDTH * count)?,
    })
}

/// A SELECT with GROUP BY.
pub fn group(alloc: Global, random: &mut Random) -> Result<Bound, AllocError> {
    let aggregate = match random.below(3) {
        0 => Aggregate::Count,
        _ => Aggregate::Sum(random.below(WIDTH)),
    };
    Ok(Bound::Group {
        table: random.below(TABLES),
        pred: filter(alloc, random, WIDTH)?,
        key: random.below(WIDTH),
        aggregate,
    })
}
