//! A statement, and the statements of a transaction, on the rows of tables.

ghost use Rattle.std.specs.Prelude.{◌≡◌, IfOk, MatchOption, None, Some};
ghost use Rattle.hy_meaning.specs.Statement.{mean};
ghost use Rattle.hy_meaning.specs.Serial.{alone_of};

use crate::groups::answer_grouped;
use crate::saved::keep_or_go_back;
use crate::tables::{Database, gather, rows_of};
use crate::writes::{delete, insert, update};
use hy_bound::{Bound, Replies, Reply, Shape};
use hy_meaning::answer_joined;
use hy_value::Seq;
use std::alloc::{AllocError, Global};

/// What a transaction is told that runs alone.
#[derive(Drop)]
pub struct GivenAlone {
    /// Its replies, in order.
    pub replies: Replies,
    /// The number of the statement at which it stopped since a value went out of range, if it did.
    pub stop: Option<u64>,
}

/// Carries out a statement on the rows of tables, and tells its reply: none, and nothing changes, where a value is out of
/// range. Err is for want of memory.
fn run_statement(
    alloc: Global,
    shapes: &[Shape],
    statement: &Bound,
    db: &mut Database,
) -> Result<Option<Reply>, AllocError>
    ensures { IfOk result (λ told. MatchOption told (mean shapes.now statement.now db.old ≡ None)
        (λ reply. mean shapes.now statement.now db.old ≡ Some (reply, db.new))) }
{
    match statement {
        Bound::Select {
            tables,
            ons,
            pred,
            items,
        } => {
            let gathered = gather(alloc, db, tables.as_slice())?;
            let reply = answer_joined(alloc, ons.as_slice(), pred, items, gathered.as_slice())?;
            Ok(Some(reply))
        }
        Bound::Group {
            table,
            pred,
            key,
            aggregate,
        } => {
            let reply = answer_grouped(alloc, pred, *key, *aggregate, rows_of(db, *table))?;
            Ok(Some(reply))
        }
        Bound::Insert { table, row } => Ok(Some(insert(alloc, shapes, *table, row, db)?)),
        Bound::Update { table, sets, pred } => update(alloc, *table, sets, pred, db),
        Bound::Delete { table, pred } => Ok(Some(delete(alloc, *table, pred, db)?)),
        Bound::Savepoint { .. } => Ok(Some(Reply::Saved)),
        Bound::RollbackTo { .. } => Ok(Some(Reply::Back)),
        Bound::Release { .. } => Ok(Some(Reply::Released)),
    }
}

/// What the statements of a transaction are told that runs alone on tables of these shapes with these rows. Err is for want
/// of memory.
pub fn run_alone(
    alloc: Global,
    shapes: &[Shape],
    statements: &[Bound],
    tables: Database,
) -> Result<GivenAlone, AllocError>
    ensures replies { IfOk result (λ told. told.replies ≡ (alone_of shapes.now statements.now tables).replies) }
    ensures stop { IfOk result (λ told. told.stop ≡ (alone_of shapes.now statements.now tables).stop) }
{
    let mut db = tables;
    let mut saved = Seq::new(alloc);
    let mut replies = Seq::new(alloc);
    for (index, statement) in statements.iter().enumerate() {
        let Some(reply) = run_statement(alloc, shapes, statement, &mut db)? else {
            return Ok(GivenAlone {
                replies,
                stop: Some(index as u64 + 1),
            });
        };
        replies.push(reply)?;
        keep_or_go_back(alloc, statement, &mut saved, &mut db)?;
    }
    Ok(GivenAlone {
        replies,
        stop: None,
    })
}
