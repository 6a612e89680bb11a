//! Visits of an INSERT.

ghost use Rattle.std.specs.Prelude.{length, take, ◌≡◌, ◌<◌, ◌≤◌, ◌+◌, ◌^◌, suc, true, nat_lt, if◌then◌else◌, Some, IfOk, OnErr, OnOk};
ghost use Rattle.std.specs.List.{All, AllByRecursion};
ghost use Rattle.hy_protocol.specs.declared.Phase.{Phase};
ghost use Rattle.hy_protocol.specs.declared.Progress.{Progress};
ghost use Rattle.hy_bound.specs.declared.Ending.{Ending};
ghost use Rattle.hy_bound.specs.declared.Bound.{Bound};
ghost use Rattle.hy_bound.specs.Records.{shape_of};
ghost use Rattle.hy_event.specs.Inserting.{CheckVisit, PlaceVisit, InsertVisit};
ghost use Rattle.hy_visit.specs.Pruning.{AllShort};
ghost use Rattle.hy_session.specs.Passing.{AreAlike, GoesPast, GoneTo, MayBePassed};
ghost use Rattle.hy_session.specs.Visitors.{ForVisitor, ShortAt};
ghost use Rattle.hy_session.specs.Written.{CanInsert, HasCome};

use crate::OpenTransaction;
use crate::answers::{Answer, push_answer, reserve_answer, reserve_writes};
use crate::visitors::{Present, Visitor};
use hy_bound::{Ending, Reply, table_shape};
use hy_chunk::Chunk;
use hy_notes::Changes;
use hy_protocol::{Phase, Progress};
use hy_prune::Cover;
use hy_stamp::Viewer;
use hy_value::StoredRow;
use hy_visit::{Writer, check_visit, is_passed, place_visit};
use std::alloc::{AllocError, Global};

/// An INSERT, by its parts.
#[derive(Clone, Copy)]
pub struct Insertion<'a> {
    /// The statement, and how far it is.
    pub present: Present<'a>,
    /// Its table.
    pub table: u32,
    /// The row.
    pub row: &'a StoredRow,
}

/// A visit that looks for the key of the row.
fn check(
    alloc: Global,
    visitor: &Visitor,
    insertion: &Insertion,
    key: u32,
    now: &mut OpenTransaction,
    chunk: &mut Chunk,
) -> Result<Progress, AllocError>
    ensures event { IfOk result (λ progress. ForVisitor visitor.now now.old now.new (λ session after.
        CheckVisit session now.old insertion.now.present.visited insertion.now.present.statement.now insertion.now.row.now
        (Some key) chunk.old.shown progress after chunk.new.shown)) }
    ensures kept { OnErr result (now.new ≡ now.old) }
    ensures all { chunk.new ≡ chunk.old }
{
    let visited = insertion.present.visited.checked_add(1).ok_or(AllocError)?;
    let viewer = visitor.viewer(now.start);
    if !check_visit(chunk, &viewer, insertion.row, key) {
        now.phase = Phase::Working { visited, count: 0 };
        return Ok(Progress::Moved);
    }
    let records = visitor.records(alloc, insertion.present.statement, now.replies.len())?;
    reserve_answer(
        &mut now.replies,
        &mut now.took,
        &mut now.records,
        records.len(),
    )?;
    let answer = Answer {
        reply: Reply::Duplicate,
        took: None,
        records,
    };
    push_answer(&mut now.replies, &mut now.took, &mut now.records, answer);
    now.gathered.clear();
    now.phase = Phase::Working {
        visited: 0,
        count: 0,
    };
    Ok(Progress::Answered)
}

/// Prunes the chunk, and then puts the row at the first free position, notes it, and answers the position. Err is for
/// want of memory, and changes nothing.
fn place_in(
    visitor: &Visitor,
    insertion: &Insertion,
    start: u64,
    cover: &Cover,
    notes: &mut Changes,
    chunk: &mut Chunk,
) -> Result<Option<u32>, AllocError>
    requires { CanInsert visitor.now insertion.now cover.now chunk.old }
    ensures done { IfOk result (λ answer. HasCome visitor.now insertion.now start cover.now
        notes.old.notes notes.old.levels chunk.old.shown answer chunk.new.shown notes.new.notes notes.new.levels) }
    ensures long { length notes.new.levels ≡ length notes.old.levels }
    ensures short { OnOk result (visitor.now.prunes ≡ true → AllShort cover.now chunk.new.shown.places) }
    ensures kept { OnErr result (chunk.new.shown ≡ chunk.old.shown) }
    ensures notes_kept { OnErr result (notes.new.notes ≡ notes.old.notes) }
    ensures levels_kept { OnErr result (notes.new.levels ≡ notes.old.levels) }
    ensures kinds { chunk.new.kinds ≡ chunk.old.kinds }
{
    let row = insertion.row.to_row()?;
    let width = table_shape(visitor.shapes, insertion.table).width;
    reserve_writes(chunk, notes, 1, width)?;
    let writer = Writer {
        viewer: visitor.viewer(start),
        label: visitor.label,
        cover,
        prunes: visitor.prunes,
    };
    Ok(place_visit(chunk, &writer, &row, notes))
}

/// Where a transaction stands after a visit that found no position free in the chunk of this number.
fn next_phase(visitor: &Visitor, insertion: &Insertion, visited: u32, number: u32) -> Phase
    requires { number < visited }
    ensures { result
        ≡ (if nat_lt (suc number) visitor.now.chunks then Phase.Working visited 0 else Phase.Undoing 0 (Ending.Full insertion.now.table)) }
{
    if number + 1 < visitor.chunks {
        Phase::Working { visited, count: 0 }
    } else {
        let cause = Ending::Full {
            table: insertion.table,
        };
        Phase::Undoing { visited: 0, cause }
    }
}

/// A visit that looks for a position in the chunk of this number.
fn place(
    alloc: Global,
    visitor: &Visitor,
    insertion: &Insertion,
    number: u32,
    now: &mut OpenTransaction,
    chunk: &mut Chunk,
) -> Result<Progress, AllocError>
    requires can { CanInsert visitor.now insertion.now now.old.cover chunk.old }
    requires within { number ≤ insertion.now.present.visited }
    ensures event { IfOk result (λ progress. ForVisitor visitor.now now.old now.new (λ session after.
        PlaceVisit session now.old insertion.now.present.visited number insertion.now.present.statement.now insertion.now.table insertion.now.row.now
        chunk.old.shown progress after chunk.new.shown)) }
    ensures short { OnOk result (visitor.now.prunes ≡ true → AllShort now.old.cover chunk.new.shown.places) }
    ensures kept { OnErr result (now.new ≡ now.old) }
    ensures chunk_kept { OnErr result (chunk.new.shown ≡ chunk.old.shown) }
    ensures kinds { chunk.new.kinds ≡ chunk.old.kinds }
{
    let visited = insertion.present.visited.checked_add(1).ok_or(AllocError)?;
    let records = visitor.records(alloc, insertion.present.statement, now.replies.len())?;
    reserve_answer(
        &mut now.replies,
        &mut now.took,
        &mut now.records,
        records.len(),
    )?;
    match place_in(
        visitor,
        insertion,
        now.start,
        &now.cover,
        &mut now.notes,
        chunk,
    )? {
        Some(pos) => {
            let answer = Answer {
                reply: Reply::Inserted,
                took: Some(pos),
                records,
            };
            push_answer(&mut now.replies, &mut now.took, &mut now.records, answer);
            now.gathered.clear();
            now.phase = Phase::Working {
                visited: 0,
                count: 0,
            };
            Ok(Progress::Answered)
        }
        None => {
            now.phase = next_phase(visitor, insertion, visited, number);
            Ok(Progress::Moved)
        }
    }
}

/// What visits of an INSERT look for: the key of its row, or else a free position.
#[derive(Clone, Copy)]
struct Sought<'a> {
    /// As whom they look.
    viewer: Viewer,
    /// The row.
    row: &'a StoredRow,
    /// The column of the key, if they look for it.
    key: Option<u32>,
    /// The starts that pruning covers.
    cover: &'a Cover,
    /// Whether they prune.
    prunes: bool,
}

impl Sought<'_> {
    /// Whether a visit goes past a chunk and leaves it as it is, where that is seen at once.
    fn goes_past(&self, chunk: &mut Chunk) -> bool
        requires { MayBePassed chunk.old }
        ensures past { result ≡ true → GoesPast self.now.key self.now.viewer self.now.row.now self.now.prunes self.now.cover.now chunk.old.shown }
        ensures all { chunk.new ≡ chunk.old }
    {
        match self.key {
            Some(key) => !check_visit(chunk, &self.viewer, self.row, key),
            None => is_passed(chunk, self.cover, self.prunes),
        }
    }

    /// How many chunks visits go past, of the first ones of these.
    fn count_passed(&self, chunks: &mut [Chunk], most: usize) -> usize
        requires within { most ≤ length chunks.old }
        requires may { All MayBePassed chunks.old }
        ensures few { result ≤ most }
        ensures past { AllByRecursion
            (λ chunk. GoesPast self.now.key self.now.viewer self.now.row.now self.now.prunes self.now.cover.now chunk.shown)
            (take result chunks.old) }
        ensures all { chunks.new ≡ chunks.old }
    {
        for number in 0..most {
            if !self.goes_past(&mut chunks[number]) {
                return number;
            }
        }
        most
    }
}

/// The column of the key that the next visits of an INSERT look for, none where they look for a position, and how many look
/// for the same. The one that looks for a position in the last chunk is none of them.
fn alike(visitor: &Visitor, insertion: &Insertion) -> (Option<u32>, u32)
    ensures alike { AreAlike visitor.now.chunks (shape_of visitor.now.shapes.now insertion.now.table).key insertion.now.present.visited result.0 result.1 }
    ensures few { insertion.now.present.visited + result.1 < 2 ^ 32 }
{
    let visited = insertion.present.visited;
    let chunks = visitor.chunks;
    let others = chunks.saturating_sub(1);
    match table_shape(visitor.shapes, insertion.table).key {
        Some(key) if visited < chunks => (Some(key), chunks - visited),
        Some(_) => (None, chunks.saturating_add(others).saturating_sub(visited)),
        None => (None, others.saturating_sub(visited)),
    }
}

/// Goes past the first ones of these chunks for as long as an INSERT neither ends in them nor changes anything, where that is
/// seen at once, and answers how many they are. It takes no memory.
pub fn pass(
    visitor: &Visitor,
    insertion: &Insertion,
    now: &mut OpenTransaction,
    chunks: &mut [Chunk],
) -> usize
    requires { All MayBePassed chunks.old }
    ensures few { result ≤ length chunks.old }
    ensures gone { GoneTo visitor.now insertion.now.table insertion.now.row.now insertion.now.present.visited now.old (take result chunks.old) now.new }
    ensures all { chunks.new ≡ chunks.old }
{
    let (key, left) = alike(visitor, insertion);
    let sought = Sought {
        viewer: visitor.viewer(now.start),
        row: insertion.row,
        key,
        cover: &now.cover,
        prunes: visitor.prunes,
    };
    let most = chunks.len().min(left as usize);
    let passed = sought.count_passed(chunks, most);
    if passed > 0 {
        now.phase = Phase::Working {
            visited: insertion.present.visited + passed as u32,
            count: 0,
        };
    }
    passed
}

/// A visit of an INSERT. Err is for want of memory, and changes nothing.
pub fn insert(
    alloc: Global,
    visitor: &Visitor,
    insertion: &Insertion,
    now: &mut OpenTransaction,
    chunk: &mut Chunk,
) -> Result<Progress, AllocError>
    requires { CanInsert visitor.now insertion.now now.old.cover chunk.old }
    ensures event { IfOk result (λ progress. ForVisitor visitor.now now.old now.new (λ session after.
        InsertVisit session now.old insertion.now.present.visited insertion.now.present.statement.now insertion.now.table insertion.now.row.now
        (shape_of session.shapes insertion.now.table).key chunk.old.shown progress after chunk.new.shown)) }
    ensures short { OnOk result (ShortAt visitor.now insertion.now.present.visited
        (Bound.Insert insertion.now.table insertion.now.row.now) now.old.cover chunk.new.shown) }
    ensures kept { OnErr result (now.new ≡ now.old) }
    ensures chunk_kept { OnErr result (chunk.new.shown ≡ chunk.old.shown) }
    ensures kinds { chunk.new.kinds ≡ chunk.old.kinds }
{
    match table_shape(visitor.shapes, insertion.table).key {
        Some(key) if insertion.present.visited < visitor.chunks => {
            check(alloc, visitor, insertion, key, now, chunk)
        }
        Some(_) => {
            let number = insertion.present.visited - visitor.chunks;
            place(alloc, visitor, insertion, number, now, chunk)
        }
        None => {
            let number = insertion.present.visited;
            place(alloc, visitor, insertion, number, now, chunk)
        }
    }
}
