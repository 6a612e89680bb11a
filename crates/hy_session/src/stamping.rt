//! Visits of a transaction that has its entry, or is undone.

ghost use Rattle.std.specs.Prelude.{◌≡◌, ◌+◌, ◌^◌, ◌<◌, true};
ghost use Rattle.hy_event.specs.Stamping.{StampVisit};
ghost use Rattle.hy_event.specs.Undoing.{UndoVisit};
ghost use Rattle.hy_visit.specs.Pruning.{AllFall, AllShort, AllUnderOwn};
ghost use Rattle.hy_session.specs.Visitors.{ForVisitor};

use crate::OpenTransaction;
use crate::visitors::Visitor;
use hy_bound::Ending;
use hy_chunk::Chunk;
use hy_protocol::{Phase, Progress};
use hy_visit::{stamp_visit, undo_visit};

/// A stamp visit, so many being done: the own records in the chunk get the commit time. It takes no memory.
pub fn stamp(
    visitor: &Visitor,
    visited: u32,
    now: &mut OpenTransaction,
    chunk: &mut Chunk,
) -> Progress
    requires few { visited + 1 < 2 ^ 32 }
    requires falls { AllFall chunk.old.shown.places }
    requires under { AllUnderOwn visitor.now.id now.old.time chunk.old.shown.places }
    ensures event { ForVisitor visitor.now now.old now.new (λ session after.
        StampVisit session now.old visited chunk.old.shown result after chunk.new.shown) }
    ensures short { visitor.now.prunes ≡ true → AllShort now.old.cover chunk.new.shown.places }
    ensures kinds { chunk.new.kinds ≡ chunk.old.kinds }
{
    stamp_visit(chunk, visitor.id, now.time, &now.cover, visitor.prunes);
    now.phase = Phase::Stamping {
        visited: visited + 1,
    };
    Progress::Moved
}

/// An undo visit, so many being done: the own records in the chunk go. It takes no memory.
pub fn undo(
    visitor: &Visitor,
    visited: u32,
    cause: Ending,
    now: &mut OpenTransaction,
    chunk: &mut Chunk,
) -> Progress
    requires few { visited + 1 < 2 ^ 32 }
    ensures event { ForVisitor visitor.now now.old now.new (λ session after.
        UndoVisit session now.old visited cause chunk.old.shown result after chunk.new.shown) }
    ensures kinds { chunk.new.kinds ≡ chunk.old.kinds }
{
    undo_visit(chunk, visitor.id);
    now.phase = Phase::Undoing {
        visited: visited + 1,
        cause,
    };
    Progress::Moved
}
