//! What a world tells at the end of a run.

ghost use Rattle.std.specs.Prelude.{◌≡◌, ◌++◌, ◌+◌, ◌*◌, ◌<◌, ◌≤◌, IfOk, OnOk, Some, length, map, slice_get};
ghost use Rattle.std.specs.List.{flat_map};
ghost use Rattle.hy_bound.specs.Projection.{spread};
ghost use Rattle.hy_chunk.specs.Views.{Whole};
ghost use Rattle.hy_event.specs.declared.SessionData.{SessionData};
ghost use Rattle.hy_stepping.specs.Outcomes.{told_entry};
ghost use Rattle.hy_world.specs.Finished.{every_column, gathered_at, gathered_in, read_back, tables_back};
ghost use Rattle.hy_world.specs.Finished.{HasWidth, HaveWidth, HaveTheirWidths};
ghost use Rattle.hy_world.specs.Follows.{Tells};

use crate::World;
use hy_bound::{Pred, Shape, StoredRows};
use hy_chunk::Chunk;
use hy_journal::Entry;
use hy_notes::net;
use hy_plan::Gathered;
use hy_render::{Committed, Outcome, TxnOutcome};
use hy_session::Session;
use hy_stamp::Viewer;
use hy_value::{ColMask, Seq, StoredRow, sort_stored_rows};
use std::alloc::{AllocError, Global};

/// Every column that a table may have.
fn all_columns() -> ColMask
    ensures { result ≡ every_column }
{
    ColMask(u32::MAX)
}

/// Adds the rows that a viewer sees in the chunk of a number.
fn gather_chunk(
    alloc: Global,
    chunks: &mut Vec<Chunk>,
    number: usize,
    viewer: &Viewer,
    gathered: &mut Gathered,
) -> Result<(), AllocError>
    requires within { number < length chunks.old.items }
    requires wide { (part : Whole) → slice_get chunks.old.items number ≡ Some part → HasWidth gathered.old.width part }
    ensures rows { OnOk result (gathered.new.rows ≡ gathered.old.rows ++ gathered_at viewer.now chunks.old.items number) }
    ensures width { gathered.new.width ≡ gathered.old.width }
    ensures kept { chunks.new.items ≡ chunks.old.items }
{
    let every = Pred::always();
    chunks[number].gather(alloc, viewer, &every, all_columns(), gathered)
}

/// Adds the rows that a viewer sees in so many chunks from one on.
fn gather_chunks(
    alloc: Global,
    chunks: &mut Vec<Chunk>,
    first: usize,
    count: usize,
    viewer: &Viewer,
    gathered: &mut Gathered,
) -> Result<(), AllocError>
    requires within { first + count ≤ length chunks.old.items }
    requires wide { HaveWidth gathered.old.width chunks.old.items first count }
    ensures rows { OnOk result (gathered.new.rows ≡ gathered.old.rows ++ gathered_in viewer.now chunks.old.items first count) }
    ensures kept { chunks.new.items ≡ chunks.old.items }
{
    for chunk in 0..count {
        gather_chunk(alloc, chunks, first + chunk, viewer, gathered)?;
    }
    Ok(())
}

/// Gathered rows, as rows of so many columns, in no more room than they take.
fn rows_of(alloc: Global, gathered: &Gathered, width: u32) -> Result<Vec<StoredRow>, AllocError>
    ensures { IfOk result (λ rows. rows.items ≡ map (spread every_column width) gathered.now.rows) }
{
    let mut rows = Vec::with_capacity(alloc, gathered.len())?;
    let mut values = Seq::from_vec(Vec::with_capacity(alloc, width as usize)?);
    for index in 0..gathered.len() {
        values.truncate(0);
        gathered.push_spread(index, all_columns(), width, &mut values)?;
        rows.push(StoredRow::from_values(alloc, values.as_slice())?)?;
    }
    Ok(rows)
}

/// The rows that a viewer sees in so many chunks from one on, of so many columns, ascending.
fn table_rows(
    alloc: Global,
    chunks: &mut Vec<Chunk>,
    first: usize,
    count: usize,
    viewer: &Viewer,
    width: u32,
) -> Result<StoredRows, AllocError>
    requires within { first + count ≤ length chunks.old.items }
    requires wide { HaveWidth width chunks.old.items first count }
    ensures rows { IfOk result (λ rows. rows ≡ read_back width (gathered_in viewer.now chunks.old.items first count)) }
    ensures kept { chunks.new.items ≡ chunks.old.items }
{
    let mut gathered = Gathered::new(alloc, width as usize)?;
    gather_chunks(alloc, chunks, first, count, viewer, &mut gathered)?;
    let mut rows = rows_of(alloc, &gathered, width)?;
    sort_stored_rows(&mut rows)?;
    Ok(Seq::from_vec(rows))
}

/// The rows that a viewer sees in each table, ascending.
fn all_rows(
    alloc: Global,
    chunks: &mut Vec<Chunk>,
    shapes: &[Shape],
    per_table: u32,
    viewer: &Viewer,
) -> Result<Seq<StoredRows>, AllocError>
    requires within { length shapes.now * per_table ≤ length chunks.old.items }
    requires wide { HaveTheirWidths shapes.now per_table chunks.old.items }
    ensures { IfOk result (λ tables. tables ≡ tables_back viewer.now chunks.old.items shapes.now per_table (length shapes.now)) }
{
    let mut tables = Seq::new(alloc);
    let count = per_table as usize;
    for table in 0..shapes.len() {
        let width = shapes[table].width;
        tables.push(table_rows(alloc, chunks, table * count, count, viewer, width)?)?;
    }
    Ok(tables)
}

/// An entry of the journal, with what is a change of its notes.
fn to_committed(entry: Entry) -> Committed
    ensures { result ≡ told_entry entry }
{
    let Entry { label, notes, .. } = entry;
    Committed {
        label,
        changes: net(notes),
    }
}

/// The commit order.
fn all_committed(alloc: Global, entries: Vec<Entry>) -> Result<Seq<Committed>, AllocError>
    ensures { IfOk result (λ all. all ≡ map told_entry entries.items) }
{
    let mut all = Seq::new(alloc);
    for entry in entries {
        all.push(to_committed(entry))?;
    }
    Ok(all)
}

/// Adds what the ended transactions of a session came to.
fn add_outcomes(all: &mut Seq<TxnOutcome>, done: Seq<TxnOutcome>) -> Result<(), AllocError>
    ensures { OnOk result (all.new ≡ all.old ++ done) }
{
    for outcome in done.into_vec() {
        all.push(outcome)?;
    }
    Ok(())
}

/// What the ended transactions of all sessions came to.
fn all_outcomes(alloc: Global, sessions: Vec<Session>) -> Result<Seq<TxnOutcome>, AllocError>
    ensures { IfOk result (λ all. all ≡ flat_map (λ (session : SessionData). session.done) sessions.items) }
{
    let mut all = Seq::new(alloc);
    for session in sessions {
        add_outcomes(&mut all, session.into_done())?;
    }
    Ok(all)
}

impl World {
    /// What its sessions came to, the commit order and the last rows of its tables: where all sessions are at their
    /// end that is the machine's outcome. Err is for want of memory.
    pub fn finish(self, alloc: Global) -> Result<Outcome, AllocError>
        ensures tells { IfOk result (λ outcome. Tells self outcome) }
        ensures order { IfOk result (λ outcome. outcome.order ≡ map told_entry self.core.entries) }
    {
        hy_stepping::outcomes_are_told();
        hy_lawful::reached_tables_fit();
        let World {
            shapes,
            tables: _,
            per_table,
            mut chunks,
            core,
            sessions,
        } = self;
        let next = core.next();
        let viewer = Viewer {
            id: next,
            start: next,
        };
        let tables = all_rows(alloc, &mut chunks, shapes.as_slice(), per_table, &viewer)?;
        let txns = all_outcomes(alloc, sessions)?;
        let order = all_committed(alloc, core.into_entries())?;
        Ok(Outcome {
            txns,
            order,
            tables,
        })
    }
}
