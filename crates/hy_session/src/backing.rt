//! Visits of a ROLLBACK TO.

ghost use Rattle.std.specs.Prelude.{◌≡◌, IfOk, OnErr};
ghost use Rattle.hy_event.specs.Backing.{BackVisit};
ghost use Rattle.hy_event.specs.Sessions.{notes_since};
ghost use Rattle.hy_visit.specs.Backing.{MayAllGoBack};
ghost use Rattle.hy_session.specs.Limits.{IsSavedInOrder};
ghost use Rattle.hy_session.specs.Savepoints.{notes_in_chunk};
ghost use Rattle.hy_session.specs.Visitors.{ForVisitor, IsReady};

use crate::OpenTransaction;
use crate::answers::reserve_writes;
use crate::visitors::Visitor;
use hy_bound::{Name, newest_savepoint, table_shape};
use hy_chunk::Chunk;
use hy_protocol::{Phase, Progress};
use hy_value::Changes as ChangeList;
use hy_visit::{Writer, back_visit, notes_of_a_chunk_stand, notes_of_a_chunk_tell};
use std::alloc::{AllocError, Global};

/// What an open transaction noted in a chunk since its newest savepoint of a name. Err is for want of memory.
fn notes_in(
    alloc: Global,
    now: &OpenTransaction,
    name: &Name,
    chunk: &Chunk,
) -> Result<ChangeList, AllocError>
    ensures { IfOk result (λ list. list ≡ notes_in_chunk (notes_since now.now name.now) chunk.now.shown) }
{
    let Some(number) = newest_savepoint(now.saved.as_slice(), name.text()) else {
        return Ok(ChangeList::new(alloc));
    };
    let first = u64::from(chunk.first());
    let behind = first.checked_add(chunk.len() as u64).ok_or(AllocError)?;
    now.notes.notes_since(number, chunk.table(), first, behind)
}

/// A visit of a ROLLBACK TO: in the chunk the transaction goes back to what it saw when the newest savepoint of the name was
/// made. Err is for want of memory, and changes nothing.
pub fn go_back(
    alloc: Global,
    visitor: &Visitor,
    visited: u32,
    name: &Name,
    now: &mut OpenTransaction,
    chunk: &mut Chunk,
) -> Result<Progress, AllocError>
    requires ready { IsReady visitor.now now.old.cover chunk.old }
    requires order { IsSavedInOrder now.old.saved }
    requires may { MayAllGoBack chunk.old.kinds chunk.old.shown.key visitor.now.id (notes_since now.old name.now) chunk.old.shown }
    ensures event { IfOk result (λ progress. ForVisitor visitor.now now.old now.new (λ session after.
        BackVisit session now.old visited name.now chunk.old.shown progress after chunk.new.shown)) }
    ensures kept { OnErr result (now.new ≡ now.old) }
    ensures chunk_kept { OnErr result (chunk.new.shown ≡ chunk.old.shown) }
    ensures kinds { chunk.new.kinds ≡ chunk.old.kinds }
{
    let visited = visited.checked_add(1).ok_or(AllocError)?;
    let since = notes_in(alloc, now, name, chunk)?;
    let width = table_shape(visitor.shapes, chunk.table()).width;
    reserve_writes(chunk, &mut now.notes, since.len(), width)?;
    let writer = Writer {
        viewer: visitor.viewer(now.start),
        label: visitor.label,
        cover: &now.cover,
        prunes: visitor.prunes,
    };
    // The notes of the chunk are in order, and tell what goes back there.
    notes_of_a_chunk_stand();
    notes_of_a_chunk_tell();
    back_visit(chunk, &writer, since.as_slice(), &mut now.notes);
    now.phase = Phase::Working { visited, count: 0 };
    Ok(Progress::Moved)
}
