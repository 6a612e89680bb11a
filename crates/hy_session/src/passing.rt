//! Going past chunks, one after another, in which a statement neither ends nor changes anything, where that is seen at once.

ghost use Rattle.std.specs.Prelude.{ℕ, length, take, ◌≡◌, ◌≤◌, true, false, IfSome};
ghost use Rattle.std.specs.List.{All, AllByRecursion};
ghost use Rattle.std.specs.Option.{option_copied};
ghost use Rattle.hy_bound.specs.Condition.{Condition};
ghost use Rattle.hy_chunk.specs.Gathering.{Asks};
ghost use Rattle.hy_value.specs.Refs.{referred};
ghost use Rattle.hy_event.specs.Events.{ChunkEvent};
ghost use Rattle.hy_event.specs.Needs.{need_of};
ghost use Rattle.hy_event.specs.declared.Need.{Need};
ghost use Rattle.hy_protocol.specs.declared.Progress.{Progress};
ghost use Rattle.hy_session.specs.Near.{NearChunk};
ghost use Rattle.hy_session.specs.Passing.{GoneBy, IsFirstPart, IsSpared, MayBePassed, Passes, ReadTo, SparedTo};
ghost use Rattle.hy_session.specs.Short.{LeavesShort};

use crate::inserting::{Insertion, pass};
use crate::prepared::Prepared;
use crate::visitors::{Present, Visitor};
use crate::{OpenTransaction, Session};
use hy_bound::{Bound, Pred, table_shape};
use hy_chunk::Chunk;
use hy_plan::PlanPart;
use hy_protocol::Phase;
use hy_prune::Cover;
use hy_visit::{AskedKey, asked_key};
use std::slice;

/// A statement that asks for a key, and how far it is.
#[derive(Clone, Copy)]
struct Asking<'a> {
    /// The key.
    key: AskedKey<'a>,
    /// Whether its visits prune.
    prunes: bool,
    /// How many visits are done.
    visited: u32,
    /// How many rows they selected, where they write.
    count: u64,
}

impl Asking<'_> {
    /// How many chunks visits go past, of the first ones of these.
    fn count_spared(&self, cover: &Cover, chunks: &[Chunk], most: usize) -> usize
        requires within { most ≤ length chunks.now }
        requires may { All MayBePassed chunks.now }
        ensures few { result ≤ most }
        ensures spared { (pred : Condition) → Asks pred self.now.key.column (referred self.now.key.value)
            → AllByRecursion (λ chunk. IsSpared self.now.prunes cover.now pred chunk.shown) (take result chunks.now) }
    {
        for number in 0..most {
            if !self.key.is_spared(&chunks[number], cover, self.prunes) {
                return number;
            }
        }
        most
    }

    /// Goes past the first ones of these chunks for as long as the statement, whose table has so many chunks, neither ends in
    /// them nor finds its key, and answers how many they are.
    fn pass(&self, per_table: u32, now: &mut OpenTransaction, chunks: &[Chunk]) -> usize
        requires { All MayBePassed chunks.now }
        ensures few { result ≤ length chunks.now }
        ensures gone { (pred : Condition) → Asks pred self.now.key.column (referred self.now.key.value)
            → SparedTo per_table self.now.prunes pred self.now.visited self.now.count now.old (take result chunks.now) now.new }
    {
        let left = per_table.saturating_sub(1).saturating_sub(self.visited);
        let most = chunks.len().min(left as usize);
        let passed = self.count_spared(&now.cover, chunks, most);
        if passed > 0 {
            now.phase = Phase::Working {
                visited: self.visited + passed as u32,
                count: self.count,
            };
        }
        passed
    }
}

/// An UPDATE or a DELETE of a table goes past the first ones of these chunks, as far as they lack the key that it asks for.
fn pass_written(
    visitor: &Visitor,
    present: &Present,
    table: u32,
    pred: &Pred,
    now: &mut OpenTransaction,
    chunks: &[Chunk],
) -> usize
    requires { All MayBePassed chunks.now }
    ensures few { result ≤ length chunks.now }
    ensures gone { SparedTo visitor.now.chunks visitor.now.prunes pred.now present.now.visited present.now.count now.old (take result chunks.now) now.new }
{
    let Some(key) = asked_key(pred, table_shape(visitor.shapes, table).key) else {
        return 0;
    };
    let asking = Asking {
        key,
        prunes: visitor.prunes,
        visited: present.visited,
        count: present.count,
    };
    asking.pass(visitor.chunks, now, chunks)
}

/// A SELECT goes past the first ones of these chunks of its first table, as far as they lack the key that it asks for there. It
/// has visited a chunk of it before.
fn pass_read(
    visitor: &Visitor,
    present: &Present,
    part: &PlanPart,
    now: &mut OpenTransaction,
    chunks: &[Chunk],
) -> usize
    requires { All MayBePassed chunks.now }
    ensures few { result ≤ length chunks.now }
    ensures gone { ReadTo visitor.now.chunks part.now present.now.visited now.old (take result chunks.now) now.new }
{
    if part.lookup.is_some() || now.gathered.is_empty() {
        return 0;
    }
    let Some(key) = asked_key(&part.pred, table_shape(visitor.shapes, part.table).key) else {
        return 0;
    };
    let asking = Asking {
        key,
        prunes: false,
        visited: present.visited,
        count: 0,
    };
    asking.pass(visitor.chunks, now, chunks)
}

/// A statement goes past the first ones of these chunks. Of the first table of a SELECT this is taken, where that is known.
fn pass_statement(
    visitor: &Visitor,
    present: &Present,
    part: Option<&PlanPart>,
    now: &mut OpenTransaction,
    chunks: &mut [Chunk],
) -> usize
    requires { All MayBePassed chunks.old }
    ensures few { result ≤ length chunks.old }
    ensures gone { GoneBy visitor.now present.now.statement.now (option_copied part.entry) present.now.visited present.now.count
        now.old (take result chunks.old) now.new }
    ensures all { chunks.new ≡ chunks.old }
{
    match present.statement {
        Bound::Insert { table, row } => {
            let insertion = Insertion {
                present: *present,
                table: *table,
                row,
            };
            pass(visitor, &insertion, now, chunks)
        }
        Bound::Update { table, pred, .. } => pass_written(
            visitor, present, *table, pred, now, chunks,
        ),
        Bound::Delete { table, pred } => pass_written(visitor, present, *table, pred, now, chunks),
        Bound::Select { .. } | Bound::Group { .. } => match part {
            Some(part) => pass_read(visitor, present, part, now, chunks),
            None => 0,
        },
        Bound::Savepoint { .. } | Bound::RollbackTo { .. } | Bound::Release { .. } => 0,
    }
}

/// What is taken of the first table by the plan of a statement of this number, if that is kept.
fn first_part(prepared: &Option<Prepared>, txn: usize, number: usize) -> Option<&PlanPart>
    ensures { IfSome result (λ part. IsFirstPart prepared.now txn number part.now) }
{
    match prepared {
        Some(kept) if kept.txn == txn && kept.statement == number => kept.reader.part(0),
        _ => None,
    }
}

impl Session {
    /// Goes past the first ones of these chunks, which it needs one after another, for as long as a statement neither ends in them
    /// nor changes anything and that is seen at once: an INSERT by the index of the keys, or by what is known of a chunk as a whole,
    /// any other by the index, where it asks for a key. It answers how many they are, takes no memory, and stops before the last
    /// chunk in which the statement may end.
    pub fn pass(&mut self, chunks: &mut [Chunk]) -> usize
        requires { All MayBePassed chunks.old }
        ensures passes { (table number : ℕ) → need_of self.old ≡ Need.Chunk table number → Passes self.old table number (take result chunks.old) self.new }
        ensures few { result ≤ length chunks.old }
        ensures all { chunks.new ≡ chunks.old }
    {
        if self.done.len() >= self.program.as_slice().len() {
            return 0;
        }
        let label = self.label();
        let Some(txn) = self.program.as_slice().get(self.done.len()) else {
            return 0;
        };
        let visitor = Visitor {
            label,
            id: label.id(),
            shapes: self.shapes.as_slice(),
            chunks: self.chunks,
            prunes: self.prunes,
        };
        let Some(now) = &mut self.now else {
            return 0;
        };
        let Phase::Working { visited, count } = now.phase else {
            return 0;
        };
        let Some(statement) = txn.statements.as_slice().get(now.replies.len()) else {
            return 0;
        };
        let present = Present {
            statement,
            visited,
            count,
        };
        let part = first_part(&self.prepared, self.done.len(), now.replies.len());
        pass_statement(&visitor, &present, part, now, chunks)
    }

    /// Goes past a chunk, which it needs, as `pass` does, and answers whether it did; else nothing changes.
    pub(crate) fn pass_one(&mut self, chunk: &mut Chunk) -> bool
        requires { NearChunk self.old chunk.old }
        ensures event { result ≡ true → ChunkEvent self.old chunk.old.shown Progress.Moved self.new chunk.new.shown }
        ensures short { result ≡ true → LeavesShort self.old self.old.now chunk.new.shown }
        ensures kept { result ≡ false → self.new ≡ self.old }
        ensures all { chunk.new ≡ chunk.old }
    {
        self.pass(slice::from_mut(chunk)) > 0
    }
}
