//! What one statement comes to: over which other tables it comes to the same, and that it may go part by part.

ghost use Rattle.hy_replay.specs.EffectUnseen.{ChangesAgain, ResultsAgain, InsertsFindAgain, OneAgain, RunsLeaveOwn};
ghost use Rattle.hy_replay.specs.EffectVisits.{VisitsAddUp, ChunksAddUp, ChangesByChunks};

use hy_laws::{a_row_is_changed_by_what_is_read, changes_that_miss_are_unseen};

/// Over tables that differ only at positions that a statement doesn't write, and there by changes that hit none of the
/// records of what it read, it does the same: an UPDATE or a DELETE selects the same positions and makes the same cells
/// of them (and is refused alike over tables that differ only at positions that it doesn't select), an INSERT finds its
/// key in both or in neither, and every statement comes to the same own writes, reply and records.
pub fn what_is_unseen_leaves_a_statement()
    ensures changes { ChangesAgain }
    ensures results { ResultsAgain }
    ensures inserts { InsertsFindAgain }
    ensures statements { OneAgain }
{
    changes_that_miss_are_unseen();
    a_row_is_changed_by_what_is_read();
}

/// What the statements of a transaction write of tables whose rows are as wide as their tables are own writes in such
/// tables: an item for each position, and rows as wide as their tables. So the law above speaks of each of them.
pub fn a_run_leaves_own_writes()
    ensures { RunsLeaveOwn }
{}

/// An UPDATE or a DELETE may go part by part: over positions, and then over those behind them with the own writes of the
/// first part laid over the tables, it comes to what it comes to over all of them at once, the same own writes, the same
/// count, and the same first refusal. So it does chunk by chunk, of whatever size the chunks are.
pub fn visits_add_up()
    ensures parts { VisitsAddUp }
    ensures chunks { ChunksAddUp }
    ensures statements { ChangesByChunks }
{}
