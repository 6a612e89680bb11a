//! A world before anything has happened.

ghost use Rattle.std.specs.Prelude.{◌≡◌, ◌+◌, ◌*◌, ◌<◌, ◌≤◌, ◌^◌, List, [], IfOk, OnOk, length, take, drop, replicate};
ghost use Rattle.std.specs.List.{All, AllByRecursion};
ghost use Rattle.hy_bound.specs.declared.Txn.{Txn};
ghost use Rattle.hy_chunk.specs.Fields.{blank_place};
ghost use Rattle.hy_chunk.specs.Sound.{FitsRow};
ghost use Rattle.hy_chunk.specs.Views.{with_places};
ghost use Rattle.hy_limits.specs.declared.TheConstants.{MOST_TABLES, MOST_TXNS};
ghost use Rattle.hy_machine.specs.Runs.{opening_of};
ghost use Rattle.hy_stepping.specs.Runnable.{IsRunnable};
ghost use Rattle.hy_stepping.specs.Typed.{AreTyped, kinds_of};
ghost use Rattle.hy_world.specs.Openings.{places_with, first_rows, IsLaid, AreLaid, sessions_from, IsOpened};
ghost use Rattle.hy_world.specs.Worlds.{ShowsState};

use crate::{Kinds, World};
use hy_bound::{Shape, Shapes, StoredRows, Txns, table_shape};
use hy_chunk::Chunk;
use hy_core::Core;
use hy_machine::Setting;
use hy_session::{Layout, Session};
use hy_value::{Kind, Seq, StoredRow};
use std::alloc::{AllocError, Global};

/// The types of a table's columns.
fn table_kinds(kinds: &[Kinds], table: u32) -> &[Kind]
    requires { table < length kinds.now }
    ensures { result.now ≡ kinds_of kinds.now table }
{
    kinds[table as usize].as_slice()
}

/// The first rows of a table.
fn table_rows(first: &[StoredRows], table: u32) -> &[StoredRow]
    requires { table < length first.now }
    ensures { result.now ≡ first_rows first.now table }
{
    first[table as usize].as_slice()
}

/// So many rows from one on, as far as there are any.
fn rows_from(rows: &[StoredRow], start: usize, count: usize) -> &[StoredRow]
    ensures { result.now ≡ take count (drop start rows.now) }
{
    let (_before, rest) = rows.split_at(start.min(rows.len()));
    let (these, _behind) = rest.split_at(count.min(rest.len()));
    these
}

/// Loads first rows, one behind the other, into a chunk of which no position is used. Err is for want of memory.
fn load_rows(alloc: Global, chunk: &mut Chunk, rows: &[StoredRow]) -> Result<(), AllocError>
    requires blank { chunk.old.shown.places ≡ replicate (length chunk.old.shown.places) (blank_place chunk.old.kinds) }
    requires few { length rows.now ≤ length chunk.old.shown.places }
    requires fit { All (FitsRow chunk.old.kinds) rows.now }
    ensures { OnOk result (chunk.new ≡ with_places chunk.old (places_with chunk.old.kinds (length chunk.old.shown.places) rows.now) chunk.new.room) }
{
    for (place, row) in rows.iter().enumerate() {
        let values = row.to_row()?;
        chunk.load_at(place, &values);
    }
    Ok(())
}

/// A chunk of a table with its first rows.
fn table_chunk(
    alloc: Global,
    setting: &Setting,
    kinds: &[Kinds],
    table: u32,
    number: u32,
) -> Result<Chunk, AllocError>
    requires runnable { IsRunnable setting.now }
    requires typed { AreTyped kinds.now setting.now.shapes setting.now.first setting.now.programs }
    requires table { table < length setting.now.shapes }
    requires number { number < setting.now.chunks }
    ensures { IfOk result (λ part. IsLaid setting.now kinds.now table number part) }
{
    let rows = setting.rows as usize;
    let first = number * setting.rows;
    let types = table_kinds(kinds, table);
    let key = table_shape(setting.shapes.as_slice(), table).key;
    let mut chunk = Chunk::new(alloc, table, first, types, rows, key)?;
    let all = table_rows(setting.first.as_slice(), table);
    load_rows(alloc, &mut chunk, rows_from(all, first as usize, rows))?;
    Ok(chunk)
}

/// Adds the chunks of a table behind those of the tables before it.
fn add_chunks(
    alloc: Global,
    setting: &Setting,
    kinds: &[Kinds],
    table: u32,
    chunks: &mut Vec<Chunk>,
) -> Result<(), AllocError>
    requires runnable { IsRunnable setting.now }
    requires typed { AreTyped kinds.now setting.now.shapes setting.now.first setting.now.programs }
    requires table { table < length setting.now.shapes }
    requires before { AreLaid setting.now kinds.now (table * setting.now.chunks) chunks.old.items }
    ensures { OnOk result (AreLaid setting.now kinds.now ((table + 1) * setting.now.chunks) chunks.new.items) }
{
    for number in 0..setting.chunks {
        chunks.push(table_chunk(alloc, setting, kinds, table, number)?)?;
    }
    Ok(())
}

/// The chunks of all tables.
fn all_chunks(alloc: Global, setting: &Setting, kinds: &[Kinds]) -> Result<Vec<Chunk>, AllocError>
    requires runnable { IsRunnable setting.now }
    requires typed { AreTyped kinds.now setting.now.shapes setting.now.first setting.now.programs }
    ensures { IfOk result (λ chunks. AreLaid setting.now kinds.now (length setting.now.shapes * setting.now.chunks) chunks.items) }
{
    let mut chunks = Vec::new(alloc);
    for table in 0..setting.shapes.len() as u32 {
        add_chunks(alloc, setting, kinds, table, &mut chunks)?;
    }
    Ok(chunks)
}

/// A session for each program.
fn all_sessions(
    alloc: Global,
    programs: Seq<Txns>,
    shapes: &[Shape],
    layout: Layout,
    prunes: bool,
) -> Result<Vec<Session>, AllocError>
    requires chunks { 0 < layout.chunks }
    requires tables { length shapes.now ≤ MOST_TABLES }
    requires numbered { length shapes.now * layout.chunks < 2 ^ 32 }
    requires few { length programs < 2 ^ 32 }
    requires txns { AllByRecursion (λ (program : List Txn). length program ≤ MOST_TXNS) programs }
    ensures { IfOk result (λ sessions. sessions.items ≡ sessions_from shapes.now layout prunes 0 programs) }
{
    let mut sessions = Vec::new(alloc);
    let mut number = 0;
    for program in programs.into_vec() {
        let columns = Seq::from_slice(alloc, shapes)?;
        let session = Session::new(alloc, number, program, columns, layout, prunes);
        sessions.push(session)?;
        number += 1;
    }
    Ok(sessions)
}

/// The parts and the sessions of a setting before anything has happened.
#[derive(Drop)]
pub(crate) struct Opened {
    pub(crate) shapes: Shapes,
    pub(crate) per_table: u32,
    pub(crate) chunks: Vec<Chunk>,
    pub(crate) core: Core,
    pub(crate) sessions: Vec<Session>,
}

/// The parts and the sessions of a setting: its chunks have the first rows, and its sessions have done nothing.
pub(crate) fn open_all(
    alloc: Global,
    setting: Setting,
    kinds: &[Kinds],
    prunes: bool,
) -> Result<Opened, AllocError>
    requires runnable { IsRunnable setting }
    requires typed { AreTyped kinds.now setting.shapes setting.first setting.programs }
    ensures { IfOk result (λ opened. IsOpened setting kinds.now prunes opened) }
{
    let chunks = all_chunks(alloc, &setting, kinds)?;
    let layout = Layout {
        chunks: setting.chunks,
        rows: setting.rows,
    };
    let shapes = setting.shapes;
    let sessions = all_sessions(alloc, setting.programs, shapes.as_slice(), layout, prunes)?;
    Ok(Opened {
        shapes,
        per_table: layout.chunks,
        chunks,
        core: Core::new(alloc),
        sessions,
    })
}

impl World {
    /// The world of a setting: its chunks have the first rows, and its sessions have done nothing. They prune the
    /// chunks that they write, or do not. Err is for want of memory.
    pub fn open(
        alloc: Global,
        setting: Setting,
        kinds: &[Kinds],
        prunes: bool,
    ) -> Result<World, AllocError>
        requires runnable { IsRunnable setting }
        requires typed { AreTyped kinds.now setting.shapes setting.first setting.programs }
        ensures shows { IfOk result (λ world. ShowsState setting (opening_of setting) world) }
        ensures entries { IfOk result (λ world. world.core.entries ≡ []) }
        ensures kinds { IfOk result (λ world. world.kinds ≡ kinds.now) }
        ensures prunes { IfOk result (λ world. All (λ session. session.prunes ≡ prunes) world.sessions) }
    {
        hy_refinement::the_opening_is_shown();
        let Opened {
            shapes,
            per_table,
            chunks,
            core,
            sessions,
        } = open_all(alloc, setting, kinds, prunes)?;
        let tables = shapes.len() as u32;
        Ok(World {
            shapes,
            tables,
            per_table,
            chunks,
            core,
            sessions,
        })
    }
}
