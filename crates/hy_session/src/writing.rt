//! Visits of an UPDATE or a DELETE.

ghost use Rattle.std.specs.Prelude.{◌≡◌, suc, ◌+◌, ◌^◌, ◌<◌, ◌≤◌, true, length, IfOk, OnErr, OnOk};
ghost use Rattle.hy_event.specs.Writing.{WriteVisit, told_by, ending_by};
ghost use Rattle.hy_chunk.specs.Writes.{sets_of};
ghost use Rattle.hy_visit.specs.Pruning.{AllShort};
ghost use Rattle.hy_session.specs.Visitors.{ForVisitor};
ghost use Rattle.hy_session.specs.Written.{CanWrite, HasWritten};

use crate::OpenTransaction;
use crate::answers::{Answer, push_answer, reserve_answer, reserve_writes};
use crate::visitors::{Present, Visitor};
use hy_bound::{Ending, Pred, Reply, table_shape};
use hy_chunk::{Chunk, RowWrite};
use hy_notes::Changes;
use hy_protocol::{Phase, Progress};
use hy_prune::Cover;
use hy_undo::Refusal;
use hy_visit::{Writer, write_visit};
use std::alloc::{AllocError, Global};

/// An UPDATE or a DELETE, by its parts.
#[derive(Clone, Copy)]
pub struct Write<'a> {
    /// The statement, and how far it is.
    pub present: Present<'a>,
    /// Its table.
    pub table: u32,
    /// What it does with a row that it selects.
    pub kind: RowWrite<'a>,
    /// Its condition.
    pub pred: &'a Pred,
}

/// The reply to one that selected so many rows.
fn reply_of(kind: RowWrite, count: u64) -> Reply
    ensures { result ≡ told_by (sets_of kind.entry) count }
{
    match kind {
        RowWrite::Set(_) => Reply::Updated(count),
        RowWrite::Delete => Reply::Deleted(count),
    }
}

/// How a transaction ends that is refused at a position of a table.
fn refusal_ending(table: u32, refusal: Refusal) -> Ending
    ensures { result ≡ ending_by table refusal }
{
    match refusal {
        Refusal::Conflict { pos, other } => Ending::Conflict { table, pos, other },
        Refusal::Range { pos } => Ending::Range { table, pos },
    }
}

/// Prunes the chunk, and then writes and notes what is selected: how many rows that are, or the first refusal. Room is
/// made before the pruning, for the positions that pruning leaves the only ones at which a row may be selected: so Err,
/// which is for want of memory, changes nothing.
fn write_chunk(
    visitor: &Visitor,
    write: &Write,
    start: u64,
    cover: &Cover,
    notes: &mut Changes,
    chunk: &mut Chunk,
) -> Result<Result<u32, Refusal>, AllocError>
    requires { CanWrite visitor.now write.now cover.now chunk.old }
    ensures done { IfOk result (λ answer. HasWritten visitor.now write.now start cover.now
        notes.old.notes notes.old.levels chunk.old.shown answer chunk.new.shown notes.new.notes notes.new.levels) }
    ensures long { length notes.new.levels ≡ length notes.old.levels }
    ensures short { OnOk result (visitor.now.prunes ≡ true → AllShort cover.now chunk.new.shown.places) }
    ensures kept { OnErr result (chunk.new.shown ≡ chunk.old.shown) }
    ensures notes_kept { OnErr result (notes.new.notes ≡ notes.old.notes) }
    ensures levels_kept { OnErr result (notes.new.levels ≡ notes.old.levels) }
    ensures kinds { chunk.new.kinds ≡ chunk.old.kinds }
{
    let width = table_shape(visitor.shapes, write.table).width;
    let places = chunk.find_candidates(write.pred)?;
    reserve_writes(chunk, notes, places.len(), width)?;
    let writer = Writer {
        viewer: visitor.viewer(start),
        label: visitor.label,
        cover,
        prunes: visitor.prunes,
    };
    let answer = write_visit(
        chunk,
        &writer,
        write.pred,
        write.kind,
        places.as_slice(),
        notes,
    );
    Ok(answer)
}

/// A visit behind which others of the statement are left.
fn write_on(
    visitor: &Visitor,
    write: &Write,
    visited: u32,
    now: &mut OpenTransaction,
    chunk: &mut Chunk,
) -> Result<Progress, AllocError>
    requires can { CanWrite visitor.now write.now now.old.cover chunk.old }
    requires next { visited ≡ suc write.now.present.visited }
    requires more { visited < visitor.now.chunks }
    requires fits { write.now.present.count + 2 ^ 32 ≤ 2 ^ 64 }
    ensures event { IfOk result (λ progress. ForVisitor visitor.now now.old now.new (λ session after.
        WriteVisit session now.old write.now.present.visited write.now.present.count write.now.present.statement.now write.now.table
        (sets_of write.now.kind) write.now.pred.now chunk.old.shown progress after chunk.new.shown)) }
    ensures short { OnOk result (visitor.now.prunes ≡ true → AllShort now.old.cover chunk.new.shown.places) }
    ensures kept { OnErr result (now.new ≡ now.old) }
    ensures chunk_kept { OnErr result (chunk.new.shown ≡ chunk.old.shown) }
    ensures kinds { chunk.new.kinds ≡ chunk.old.kinds }
{
    match write_chunk(visitor, write, now.start, &now.cover, &mut now.notes, chunk)? {
        Ok(rows) => {
            let count = write.present.count + u64::from(rows);
            now.phase = Phase::Working { visited, count };
            Ok(Progress::Moved)
        }
        Err(refusal) => {
            let cause = refusal_ending(write.table, refusal);
            now.phase = Phase::Undoing { visited: 0, cause };
            Ok(Progress::Moved)
        }
    }
}

/// The last visit of the statement, which answers it.
fn write_last(
    alloc: Global,
    visitor: &Visitor,
    write: &Write,
    now: &mut OpenTransaction,
    chunk: &mut Chunk,
) -> Result<Progress, AllocError>
    requires can { CanWrite visitor.now write.now now.old.cover chunk.old }
    requires last { visitor.now.chunks ≤ suc write.now.present.visited }
    requires fits { write.now.present.count + 2 ^ 32 ≤ 2 ^ 64 }
    ensures event { IfOk result (λ progress. ForVisitor visitor.now now.old now.new (λ session after.
        WriteVisit session now.old write.now.present.visited write.now.present.count write.now.present.statement.now write.now.table
        (sets_of write.now.kind) write.now.pred.now chunk.old.shown progress after chunk.new.shown)) }
    ensures short { OnOk result (visitor.now.prunes ≡ true → AllShort now.old.cover chunk.new.shown.places) }
    ensures kept { OnErr result (now.new ≡ now.old) }
    ensures chunk_kept { OnErr result (chunk.new.shown ≡ chunk.old.shown) }
    ensures kinds { chunk.new.kinds ≡ chunk.old.kinds }
{
    let records = visitor.records(alloc, write.present.statement, now.replies.len())?;
    reserve_answer(
        &mut now.replies,
        &mut now.took,
        &mut now.records,
        records.len(),
    )?;
    match write_chunk(visitor, write, now.start, &now.cover, &mut now.notes, chunk)? {
        Ok(rows) => {
            let answer = Answer {
                reply: reply_of(write.kind, write.present.count + u64::from(rows)),
                took: None,
                records,
            };
            push_answer(&mut now.replies, &mut now.took, &mut now.records, answer);
            now.gathered.clear();
            now.phase = Phase::Working {
                visited: 0,
                count: 0,
            };
            Ok(Progress::Answered)
        }
        Err(refusal) => {
            let refused = refusal_ending(write.table, refusal);
            now.phase = Phase::Undoing {
                visited: 0,
                cause: refused,
            };
            Ok(Progress::Moved)
        }
    }
}

/// A visit of an UPDATE or a DELETE. Err is for want of memory, and changes nothing.
pub fn write_rows(
    alloc: Global,
    visitor: &Visitor,
    write: &Write,
    now: &mut OpenTransaction,
    chunk: &mut Chunk,
) -> Result<Progress, AllocError>
    requires { CanWrite visitor.now write.now now.old.cover chunk.old }
    ensures event { IfOk result (λ progress. ForVisitor visitor.now now.old now.new (λ session after.
        WriteVisit session now.old write.now.present.visited write.now.present.count write.now.present.statement.now write.now.table
        (sets_of write.now.kind) write.now.pred.now chunk.old.shown progress after chunk.new.shown)) }
    ensures short { OnOk result (visitor.now.prunes ≡ true → AllShort now.old.cover chunk.new.shown.places) }
    ensures kept { OnErr result (now.new ≡ now.old) }
    ensures chunk_kept { OnErr result (chunk.new.shown ≡ chunk.old.shown) }
    ensures kinds { chunk.new.kinds ≡ chunk.old.kinds }
{
    let visited = write.present.visited.checked_add(1).ok_or(AllocError)?;
    // A visit selects fewer than 2^32 rows.
    let _most = write
        .present
        .count
        .checked_add(0x1_0000_0000)
        .ok_or(AllocError)?;
    if visited < visitor.chunks {
        write_on(visitor, write, visited, now, chunk)
    } else {
        write_last(alloc, visitor, write, now, chunk)
    }
}
