//! A visit of a SELECT.

ghost use Rattle.std.specs.Prelude.{◌≡◌, ◌+◌, ◌<◌, [], List, None, Some, IfOk, OnErr, length};
ghost use Rattle.hy_plan.specs.Reads.{records_of};
ghost use Rattle.hy_meaning.specs.Statement.{Table};
ghost use Rattle.hy_gathered.specs.Answers.{spread_all};
ghost use Rattle.hy_event.specs.declared.Open.{Open};
ghost use Rattle.hy_protocol.specs.declared.Phase.{Phase};
ghost use Rattle.hy_event.specs.Events.{ChunkEvent};
ghost use Rattle.hy_event.specs.Gathering.{with_rows};
ghost use Rattle.hy_event.specs.Reading.{with_gathered};
ghost use Rattle.hy_event.specs.Sessions.{viewer_of};
ghost use Rattle.hy_protocol.specs.Turns.{Answers, Visits};
ghost use Rattle.hy_event.specs.Turns.{Takes, with_changed};
ghost use Rattle.hy_session.specs.Near.{NearChunk};
ghost use Rattle.hy_visit.specs.Parts.{tables_found};
ghost use Rattle.hy_visit.specs.Readers.{IsPlanOf, plan_by, told_of};
ghost use Rattle.hy_session.specs.Preparing.{IsPlanFor};
ghost use Rattle.hy_session.specs.Reading.{IsNextFor, IsReading, IsStep, IsStepOf};

use crate::answers::{Answer, push_answer, reserve_answer};
use crate::numbers::number_of;
use crate::visitors::Present;
use crate::{OpenTransaction, Session};
use hy_bound::{Bound, Records, Reply};
use hy_chunk::Chunk;
use hy_plan::{Gathered, records};
use hy_protocol::{Phase, Progress};
use hy_stamp::Viewer;
use hy_visit::{Found, Reader, add_piece, found_with, gather_part, keep_keys, part_rows};
use std::alloc::{AllocError, Global};

/// What comes of a visit of a SELECT.
#[derive(Drop)]
pub enum ReadStep {
    /// More rows are gathered.
    More {
        /// The number of the table, in FROM order.
        number: u32,
        /// The rows.
        piece: Gathered,
        /// How many visits are done then.
        visited: u32,
    },
    /// It is answered.
    Answer {
        /// The reply.
        reply: Reply,
        /// The records of what was read.
        records: Records,
    },
}

impl Session {
    /// As whom its open transaction looks at positions.
    fn viewer(&self, now: &OpenTransaction) -> Viewer
        requires { length self.now.done < length self.now.program }
        ensures { result ≡ viewer_of self.entry.now now.now }
    {
        let label = self.label();
        // The limits of a session make its label one that has an identifier.
        let _ = &self.done;
        Viewer {
            id: label.id(),
            start: now.start,
        }
    }

    /// The answer to a SELECT, and the records of what it read.
    fn answer(
        &self,
        alloc: Global,
        statement: &Bound,
        now: &OpenTransaction,
        reader: &Reader,
        found: Found,
    ) -> Result<(Reply, Records), AllocError>
        requires { IsPlanOf self.now.shapes statement.now (plan_by reader.now) }
        ensures reply { IfOk result (λ answer. answer.0 ≡ told_of reader.now.told (spread_all reader.now.parts (tables_found found.entry))) }
        ensures records { IfOk result (λ answer. answer.1
            ≡ records_of self.entry.now.shapes (length now.now.replies + 1) statement.now (spread_all reader.now.parts (tables_found found.entry))) }
    {
        let rows = part_rows(alloc, reader.parts.as_slice(), found)?;
        let reply = reader.reply(alloc, rows.as_slice())?;
        let count = number_of(now.replies.len())?
            .checked_add(1)
            .ok_or(AllocError)?;
        let tables = reader.rows_logged(alloc, rows.as_slice())?;
        let records = records(
            alloc,
            self.shapes.as_slice(),
            statement,
            count,
            tables.as_slice(),
        )?;
        Ok((reply, records))
    }

    /// What comes of a visit of a SELECT that is run so.
    fn read_statement(
        &self,
        alloc: Global,
        present: &Present,
        now: &OpenTransaction,
        reader: &Reader,
        chunk: &mut Chunk,
    ) -> Result<ReadStep, AllocError>
        requires at { length self.now.done < length self.now.program }
        requires planned { IsPlanOf self.now.shapes present.now.statement.now (plan_by reader.now) }
        requires fits { IsNextFor self.now now.now present.now.visited present.now.statement.now chunk.old }
        ensures step { IfOk result (λ step. IsStep self.entry.now now.now present.now.visited present.now.statement.now chunk.old.shown.places step) }
        ensures all { chunk.new ≡ chunk.old }
    {
        let parts = reader.parts.as_slice();
        let number = present.visited / self.chunks;
        let Some(part) = reader.part(number) else {
            unreachable!()
        };
        let gathered = now.gathered.as_slice();
        let piece = gather_part(alloc, chunk, &self.viewer(now), parts, part, gathered)?;
        let next = present.visited.checked_add(1).ok_or(AllocError)?;
        if u128::from(next) < u128::from(self.chunks) * parts.len() as u128 {
            return Ok(ReadStep::More {
                number,
                piece,
                visited: next,
            });
        }
        let found = found_with(gathered, number, &piece);
        let (reply, records) = self.answer(alloc, present.statement, now, reader, found)?;
        Ok(ReadStep::Answer { reply, records })
    }

    /// What comes of a visit of the present statement of its open transaction, a SELECT that is run so.
    fn read_step(
        &self,
        alloc: Global,
        reader: &Reader,
        chunk: &mut Chunk,
    ) -> Result<ReadStep, AllocError>
        requires near { NearChunk self.now chunk.old }
        requires reads { IsReading self.now }
        requires plan { IsPlanFor self.now reader.now }
        ensures step { IfOk result (λ step. IsStepOf self.entry.now chunk.old.shown.places step) }
        ensures all { chunk.new ≡ chunk.old }
    {
        let Some(txn) = self.program.as_slice().get(self.done.len()) else {
            unreachable!()
        };
        let Some(now) = &self.now else { unreachable!() };
        let Some(statement) = txn.statements.as_slice().get(now.replies.len()) else {
            unreachable!()
        };
        match now.phase {
            Phase::Working { visited, count } => {
                let present = Present {
                    statement,
                    visited,
                    count,
                };
                self.read_statement(alloc, &present, now, reader, chunk)
            }
            Phase::Stamping { .. } | Phase::Undoing { .. } => unreachable!(),
        }
    }

    /// The keys are kept by which its next visit looks rows up, where how the SELECT is run is kept. Err is for want of memory.
    fn keep_keys(&mut self, alloc: Global) -> Result<(), AllocError>
        ensures { self.new ≡ self.old }
    {
        let chunks = self.chunks;
        let Some(kept) = &self.prepared else {
            return Ok(());
        };
        let Some(now) = &mut self.now else {
            return Ok(());
        };
        let Phase::Working { visited, .. } = now.phase else {
            return Ok(());
        };
        let number = visited / chunks;
        keep_keys(
            alloc,
            kept.reader.parts.as_slice(),
            number,
            &mut now.gathered,
        )
    }

    /// What comes of a visit of a SELECT, which its open transaction is at. How the SELECT is run is kept, once that is made.
    /// Err is for want of memory.
    fn step_by_plan(&mut self, alloc: Global, chunk: &mut Chunk) -> Result<ReadStep, AllocError>
        requires near { NearChunk self.old chunk.old }
        requires reads { IsReading self.old }
        ensures step { IfOk result (λ step. IsStepOf self.old chunk.old.shown.places step) }
        ensures same { self.new ≡ self.old }
        ensures all { chunk.new ≡ chunk.old }
    {
        self.keep_keys(alloc)?;
        if let Some(reader) = self.kept_reader() {
            return self.read_step(alloc, reader, chunk);
        }
        let answered = self.count_answered();
        let reader = self.make_reader(alloc)?;
        let step = self.read_step(alloc, &reader, chunk)?;
        self.keep_reader(answered, reader);
        Ok(step)
    }

    /// Its open transaction keeps a piece of the rows of a table. Err is for want of memory, and changes nothing.
    fn keep(
        &mut self,
        alloc: Global,
        number: u32,
        piece: Gathered,
        visited: u32,
    ) -> Result<Progress, AllocError>
        ensures turn { IfOk result (λ progress. Takes
            (with_changed (λ (now : Open). record now { gathered = with_rows number piece.rows now.gathered }) self.old)
            (Visits [] (Phase.Working visited 0)) progress self.new) }
        ensures err { OnErr result (self.new ≡ self.old) }
    {
        if let Some(now) = &mut self.now {
            add_piece(alloc, &mut now.gathered, number, piece)?;
            now.phase = Phase::Working { visited, count: 0 };
        }
        Ok(Progress::Moved)
    }

    /// The present statement of its open transaction, a SELECT, is answered. Err is for want of memory, and changes
    /// nothing.
    fn give(&mut self, reply: Reply, records: Records) -> Result<Progress, AllocError>
        ensures turn { IfOk result (λ progress. (gathered : List Table)
            → Takes (with_gathered gathered self.old) (Answers [] reply None records) progress self.new) }
        ensures err { OnErr result (self.new ≡ self.old) }
    {
        if let Some(now) = &mut self.now {
            reserve_answer(
                &mut now.replies,
                &mut now.took,
                &mut now.records,
                records.len(),
            )?;
            let answer = Answer {
                reply,
                took: None,
                records,
            };
            push_answer(&mut now.replies, &mut now.took, &mut now.records, answer);
            now.gathered.clear();
            now.phase = Phase::Working {
                visited: 0,
                count: 0,
            };
        }
        Ok(Progress::Answered)
    }

    /// A visit of a SELECT, which its open transaction is at: it gathers what its plan takes of the chunk, and after
    /// the last chunk it answers. Err is for want of memory, and changes nothing.
    pub(crate) fn read(&mut self, alloc: Global, chunk: &mut Chunk) -> Result<Progress, AllocError>
        requires near { NearChunk self.old chunk.old }
        requires reads { IsReading self.old }
        ensures event { IfOk result (λ progress. ChunkEvent self.old chunk.old.shown progress self.new chunk.new.shown) }
        ensures kept { OnErr result (self.new ≡ self.old) }
        ensures all { chunk.new ≡ chunk.old }
    {
        match self.step_by_plan(alloc, chunk)? {
            ReadStep::More {
                number,
                piece,
                visited,
            } => self.keep(alloc, number, piece, visited),
            ReadStep::Answer { reply, records } => self.give(reply, records),
        }
    }
}
