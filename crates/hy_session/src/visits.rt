//! Visits of chunks.

ghost use Rattle.std.specs.Prelude.{◌≡◌, ◌≤◌, ℕ, List, None, true, false, IfOk, OnErr, OnOk, length, take};
ghost use Rattle.std.specs.List.{All};
ghost use Rattle.hy_bound.specs.declared.Bound.{Bound};
ghost use Rattle.hy_event.specs.Events.{ChunkEvent, StatementVisit};
ghost use Rattle.hy_event.specs.Needs.{need_of};
ghost use Rattle.hy_event.specs.Sessions.{notes_since};
ghost use Rattle.hy_event.specs.declared.Need.{Need};
ghost use Rattle.hy_visit.specs.Backing.{MayAllGoBack};
ghost use Rattle.hy_protocol.specs.declared.Progress.{Progress};
ghost use Rattle.hy_session.specs.Entered.{has_entry};
ghost use Rattle.hy_session.specs.Limits.{IsSavedInOrder};
ghost use Rattle.hy_session.specs.Near.{NearChunk};
ghost use Rattle.hy_session.specs.Short.{LeavesShort};
ghost use Rattle.hy_session.specs.Visitors.{CanWork, ForVisitor, ShortAt, gathers, is_reading};

use crate::backing::go_back;
use crate::inserting::{Insertion, insert};
use crate::stamping::{stamp, undo};
use crate::visitors::{Present, Visitor};
use crate::writing::{Write, write_rows};
use crate::{OpenTransaction, Session};
use hy_bound::{Bound, Ending};
use hy_chunk::{Chunk, RowWrite};
use hy_notes::notes_tell;
use hy_protocol::{Phase, Progress};
use hy_render::TxnOutcome;
use hy_value::Seq;
use std::alloc::{AllocError, Global};

/// Whether a statement is a SELECT.
fn gathers(statement: &Bound) -> bool
    ensures { result ≡ gathers statement.now }
{
    match statement {
        Bound::Select { .. } | Bound::Group { .. } => true,
        Bound::Insert { .. }
        | Bound::Update { .. }
        | Bound::Delete { .. }
        | Bound::Savepoint { .. }
        | Bound::RollbackTo { .. }
        | Bound::Release { .. } => false,
    }
}

/// A visit of the present statement, which writes. Err is for want of memory, and changes nothing.
fn visit_statement(
    alloc: Global,
    visitor: &Visitor,
    present: &Present,
    now: &mut OpenTransaction,
    chunk: &mut Chunk,
) -> Result<Progress, AllocError>
    requires can { CanWork visitor.now now.old.cover present.now.statement.now chunk.old }
    requires order { IsSavedInOrder now.old.saved }
    requires back { (name : List ℕ) → present.now.statement.now ≡ Bound.RollbackTo name
        → MayAllGoBack chunk.old.kinds chunk.old.shown.key visitor.now.id (notes_since now.old name) chunk.old.shown }
    ensures event { IfOk result (λ progress. ForVisitor visitor.now now.old now.new (λ session after.
        StatementVisit session now.old present.now.visited present.now.count present.now.statement.now
        chunk.old.shown progress after chunk.new.shown)) }
    ensures short { OnOk result (ShortAt visitor.now present.now.visited present.now.statement.now now.old.cover chunk.new.shown) }
    ensures kept { OnErr result (now.new ≡ now.old) }
    ensures chunk_kept { OnErr result (chunk.new.shown ≡ chunk.old.shown) }
    ensures kinds { chunk.new.kinds ≡ chunk.old.kinds }
{
    match present.statement {
        Bound::Select { .. }
        | Bound::Group { .. }
        | Bound::Savepoint { .. }
        | Bound::Release { .. } => unreachable!(),
        Bound::RollbackTo { name } => go_back(alloc, visitor, present.visited, name, now, chunk),
        Bound::Insert { table, row } => {
            let insertion = Insertion {
                present: *present,
                table: *table,
                row,
            };
            insert(alloc, visitor, &insertion, now, chunk)
        }
        Bound::Update { table, sets, pred } => {
            let update = Write {
                present: *present,
                table: *table,
                kind: RowWrite::Set(sets),
                pred,
            };
            write_rows(alloc, visitor, &update, now, chunk)
        }
        Bound::Delete { table, pred } => {
            let delete = Write {
                present: *present,
                table: *table,
                kind: RowWrite::Delete,
                pred,
            };
            write_rows(alloc, visitor, &delete, now, chunk)
        }
    }
}

impl Session {
    /// Whether its next visit of a chunk reads for a SELECT.
    fn is_reading(&self) -> bool
        ensures { result ≡ is_reading self.entry.now }
    {
        let Some(now) = &self.now else {
            return false;
        };
        match now.phase {
            Phase::Working { .. } => match self.statements().get(now.replies.len()) {
                Some(statement) => gathers(statement),
                None => false,
            },
            Phase::Stamping { .. } | Phase::Undoing { .. } => false,
        }
    }

    /// A visit of a chunk that isn't one of a SELECT. Err is for want of memory, and changes nothing; it never comes where
    /// its open transaction has its entry.
    fn change(&mut self, alloc: Global, chunk: &mut Chunk) -> Result<Progress, AllocError>
        requires near { NearChunk self.old chunk.old }
        requires changes { is_reading self.old ≡ false }
        ensures event { IfOk result (λ progress. ChunkEvent self.old chunk.old.shown progress self.new chunk.new.shown) }
        ensures short { OnOk result (LeavesShort self.old self.old.now chunk.new.shown) }
        ensures kept { OnErr result (self.new ≡ self.old) }
        ensures entered { OnErr result (has_entry self.old ≡ false) }
        ensures chunk_kept { OnErr result (chunk.new.shown ≡ chunk.old.shown) }
        ensures kinds { chunk.new.kinds ≡ chunk.old.kinds }
    {
        let label = self.label();
        let Some(txn) = self.program.as_slice().get(self.done.len()) else {
            unreachable!();
        };
        let visitor = Visitor {
            label,
            id: label.id(),
            shapes: self.shapes.as_slice(),
            chunks: self.chunks,
            prunes: self.prunes,
        };
        let Some(now) = &mut self.now else {
            unreachable!();
        };
        // Notes stay in order where more are made.
        notes_tell();
        match now.phase {
            Phase::Working { visited, count } => {
                match txn.statements.as_slice().get(now.replies.len()) {
                    Some(statement) => {
                        let present = Present {
                            statement,
                            visited,
                            count,
                        };
                        visit_statement(alloc, &visitor, &present, now, chunk)
                    }
                    None => Ok(undo(&visitor, 0, Ending::RolledBack, now, chunk)),
                }
            }
            Phase::Stamping { visited } => Ok(stamp(&visitor, visited, now, chunk)),
            Phase::Undoing { visited, cause } => Ok(undo(&visitor, visited, cause, now, chunk)),
        }
    }

    /// Visits a chunk, which it needs: it reads or writes there for the present statement, or stamps or undoes what its
    /// open transaction wrote there. Err is for want of memory, and changes nothing that contracts see; it never comes where
    /// its open transaction has its entry, so that a stamp takes no memory.
    pub fn visit_chunk(&mut self, alloc: Global, chunk: &mut Chunk) -> Result<Progress, AllocError>
        requires near { NearChunk self.old chunk.old }
        ensures event { IfOk result (λ progress. ChunkEvent self.old chunk.old.shown progress self.new chunk.new.shown) }
        ensures kept { OnErr result ((self.new ≡ self.old) × (chunk.new.shown ≡ chunk.old.shown)) }
        ensures entered { OnErr result (has_entry self.old ≡ false) }
        ensures kinds { chunk.new.kinds ≡ chunk.old.kinds }
        ensures short { OnOk result (LeavesShort self.old self.old.now chunk.new.shown) }
    {
        if self.is_reading() {
            self.read(alloc, chunk)
        } else {
            self.change(alloc, chunk)
        }
    }

    /// Visits a chunk, which it needs, as `visit_chunk` does, and goes past it where it may.
    pub fn visit_or_pass(
        &mut self,
        alloc: Global,
        chunk: &mut Chunk,
    ) -> Result<Progress, AllocError>
        requires near { NearChunk self.old chunk.old }
        ensures event { IfOk result (λ progress. ChunkEvent self.old chunk.old.shown progress self.new chunk.new.shown) }
        ensures kept { OnErr result ((self.new ≡ self.old) × (chunk.new.shown ≡ chunk.old.shown)) }
        ensures entered { OnErr result (has_entry self.old ≡ false) }
        ensures kinds { chunk.new.kinds ≡ chunk.old.kinds }
        ensures short { OnOk result (LeavesShort self.old self.old.now chunk.new.shown) }
    {
        if self.pass_one(chunk) {
            Ok(Progress::Moved)
        } else {
            self.visit_chunk(alloc, chunk)
        }
    }

    /// What its ended transactions came to.
    pub fn into_done(self) -> Seq<TxnOutcome>
        ensures { result ≡ self.done }
    {
        let Session { done, .. } = self;
        Seq::from_vec(done)
    }
}
