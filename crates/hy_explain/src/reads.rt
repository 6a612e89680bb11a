//! What a statement reads of each table, and the read that a change hits.

ghost use Rattle.std.specs.Prelude.{◌≡◌, ◌++◌, IfOk, OnOk, map, find};
ghost use Rattle.std.specs.Option.{option_copied};
ghost use Rattle.hy_bind.specs.Shapes.{catalog_shapes, defined_shape};
ghost use Rattle.hy_explain.specs.Reads.{read_of_part, reads_of, is_hit_by, hit_of};

use hy_bound::{Bound, Pred, Record, Records, Shape, Shapes, Side, hits};
use hy_plan::{Plan, PlanPart, plan_statement, records};
use hy_schema::TableDef;
use hy_value::{Change, Seq, Value};
use std::alloc::{AllocError, Global};

/// The types inside a record, for `let _: Met`, of which docs/DECISIONS.md says what it is for.
type Met = Option<(Value, Side, Pred)>;

/// The shape of a table. A width past 32 bits would be want of memory.
fn shape_of(def: &TableDef) -> Result<Shape, AllocError>
    ensures { IfOk result (λ shape. shape ≡ defined_shape def.now) }
{
    match u32::try_from(def.columns.len()) {
        Ok(width) => Ok(Shape {
            width,
            key: def.key,
        }),
        Err(_) => Err(AllocError),
    }
}

/// The shapes of tables.
pub fn shapes_of(alloc: Global, tables: &[TableDef]) -> Result<Shapes, AllocError>
    ensures { IfOk result (λ shapes. shapes ≡ catalog_shapes tables.now) }
{
    let mut shapes = Seq::new(alloc);
    for table in tables {
        shapes.push(shape_of(table)?)?;
    }
    Ok(shapes)
}

/// What is taken of a table, as a record of its statement.
fn read_of_part(alloc: Global, number: u32, part: &PlanPart) -> Result<Record, AllocError>
    ensures { IfOk result (λ read. read ≡ read_of_part number part.now) }
{
    let _: Met = None;
    Ok(Record {
        statement: number,
        table: part.table,
        pred: part.pred.copy(alloc)?,
        columns: part.columns,
    })
}

/// What a SELECT reads, a record for each table.
fn reads_of_plan(alloc: Global, number: u32, plan: &Plan) -> Result<Records, AllocError>
    ensures { IfOk result (λ reads. reads ≡ map (read_of_part number) plan.now.parts) }
{
    let _: Met = None;
    let mut reads = Seq::new(alloc);
    for part in plan.parts.as_slice() {
        reads.push(read_of_part(alloc, number, part)?)?;
    }
    Ok(reads)
}

/// What a statement of this number reads of tables that are defined so, a record for each.
pub fn reads_of(
    alloc: Global,
    tables: &[TableDef],
    number: u32,
    statement: Option<&Bound>,
) -> Result<Records, AllocError>
    ensures { IfOk result (λ reads. reads ≡ reads_of (catalog_shapes tables.now) number (option_copied statement.entry)) }
{
    let Some(statement) = statement else {
        return Ok(Seq::new(alloc));
    };
    let shapes = shapes_of(alloc, tables)?;
    match plan_statement(alloc, shapes.as_slice(), statement)? {
        Some(plan) => reads_of_plan(alloc, number, &plan),
        None => records(alloc, shapes.as_slice(), statement, number, &[]),
    }
}

/// Whether a change hits a record.
fn is_hit_by(change: &Change, read: &Record) -> bool
    ensures { result ≡ is_hit_by change.now read.now }
{
    read.table == change.table && hits(read, change.before.as_ref(), change.after.as_ref())
}

/// The first record that a change hits.
pub fn hit_of<'a>(reads: &'a [Record], change: &Change) -> Option<&'a Record>
    ensures { option_copied result ≡ hit_of reads.now change.now }
{
    reads.iter().find(|read| is_hit_by(change, read))
}
