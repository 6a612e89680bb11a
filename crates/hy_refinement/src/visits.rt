//! A visit of a session to the part that it needs is the machine's turn: for each kind of visit.

ghost use Rattle.hy_refinement.specs.Frames.{UnmovedPlacesShow, ChunkVisitsShow, OwnStepsShow, PrunedChunksShow, VisitedChunksShow};
ghost use Rattle.hy_refinement.specs.Frames.{GoingOnIsTaken, NotesFollowWrites};
ghost use Rattle.hy_refinement.specs.Visits.{SelectsAreTaken, GroupsAreTaken, ChecksAreTaken, PlacesAreTaken, WritesAreTaken};
ghost use Rattle.hy_refinement.specs.Visits.{StampsAreTaken, UndosAreTaken, BacksAreTaken, WrittenChunksAreTheMachines, ChunksSinceAreTheMachines};
ghost use Rattle.hy_refinement.specs.CoreVisits.{BeginsAreTaken, ClosesAreTaken, LeavesAreTaken, NotesAreWrites, HitsAreTheMachines};
ghost use Rattle.hy_refinement.specs.CoreVisits.{EntriesTellChanges};
ghost use Rattle.hy_refinement.specs.CoreVisits.{SavesAreTaken, EntersAreTaken, RefusalsAreTaken, WaitsAreTaken};
ghost use Rattle.hy_refinement.specs.Steps.{EventsAreSteps};

use crate::{
    blockers_are_the_machines, free_positions_are_the_machines, pruned_places_tell,
    pruning_shows_nothing, rivals_are_the_machines,
};

/// Where the transaction of a session goes on and stands as before at a position, the position shows what it showed.
pub fn unmoved_places_show()
    ensures { UnmovedPlacesShow }
{}

/// Where a session goes on in a chunk all is shown, if the chunk is: the core and the other chunks stay.
pub fn chunk_visits_show()
    ensures { ChunkVisitsShow }
{
    unmoved_places_show();
}

/// Where a session goes on and no part changes all is shown.
pub fn own_steps_show()
    ensures { OwnStepsShow }
{
    unmoved_places_show();
}

/// A chunk that is pruned by the cover of an open transaction shows what it showed.
pub fn pruned_chunks_show()
    ensures { PrunedChunksShow }
{
    pruning_shows_nothing();
}

/// A chunk that is visited shows the state.
pub fn visited_chunks_show()
    ensures { VisitedChunksShow }
{}

/// A turn that goes on is taken where what it goes on to is shown.
pub fn going_on_is_taken()
    ensures { GoingOnIsTaken }
{}

/// A change that is noted shows the cell that is written.
pub fn notes_follow_writes()
    ensures { NotesFollowWrites }
{
    hy_notes::notes_tell();
}

/// A visit of a SELECT is the machine's.
pub fn selects_are_taken()
    ensures { SelectsAreTaken }
{
    own_steps_show();
    hy_laws::tables_are_looked_up_in_turn();
    hy_laws::looked_up_rows_answer();
    hy_laws::looked_up_rows_log_the_same();
    hy_laws::wanted_rows_are_read_by_key();
}

/// A visit of a SELECT with GROUP BY is the machine's.
pub fn groups_are_taken()
    ensures { GroupsAreTaken }
{
    own_steps_show();
    hy_gathered::gathered_groups_answer();
}

/// A visit of an INSERT that looks for its key is the machine's.
pub fn checks_are_taken()
    ensures { ChecksAreTaken }
{
    own_steps_show();
}

/// A visit of an INSERT that looks for a position is the machine's.
pub fn places_are_taken()
    ensures { PlacesAreTaken }
{
    hy_stamp::identifiers_are_apart();
    visited_chunks_show();
    pruned_chunks_show();
    free_positions_are_the_machines();
    notes_follow_writes();
    unmoved_places_show();
    chunk_visits_show();
    going_on_is_taken();
}

/// A visit of an UPDATE or a DELETE is the machine's.
pub fn writes_are_taken()
    ensures { WritesAreTaken }
{
    hy_stamp::identifiers_are_apart();
    visited_chunks_show();
    pruned_chunks_show();
    rivals_are_the_machines();
    notes_follow_writes();
    unmoved_places_show();
    chunk_visits_show();
    going_on_is_taken();
}

/// A stamp visit is the machine's.
pub fn stamps_are_taken()
    ensures { StampsAreTaken }
{
    pruned_places_tell();
    visited_chunks_show();
    pruned_chunks_show();
    unmoved_places_show();
    chunk_visits_show();
    going_on_is_taken();
}

/// An undo visit is the machine's.
pub fn undos_are_taken()
    ensures { UndosAreTaken }
{
    visited_chunks_show();
    unmoved_places_show();
    chunk_visits_show();
    going_on_is_taken();
}

/// A visit of a ROLLBACK TO is the machine's.
pub fn backs_are_taken()
    ensures { BacksAreTaken }
{
    hy_stamp::identifiers_are_apart();
    visited_chunks_show();
    pruned_chunks_show();
    rivals_are_the_machines();
    notes_follow_writes();
    unmoved_places_show();
    chunk_visits_show();
    going_on_is_taken();
}

/// An open transaction wrote in the same chunks as the machine's.
pub fn written_chunks_are_the_machines()
    ensures { WrittenChunksAreTheMachines }
{}

/// And since its newest savepoint of a name.
pub fn chunks_since_are_the_machines()
    ensures { ChunksSinceAreTheMachines }
{}

/// A BEGIN is the machine's.
pub fn begins_are_taken()
    ensures { BeginsAreTaken }
{
    hy_stamp::identifiers_are_apart();
}

/// The end of a transaction that has no entry is the machine's.
pub fn closes_are_taken()
    ensures { ClosesAreTaken }
{}

/// The end of a transaction whose chunks are stamped is the machine's.
pub fn leaves_are_taken()
    ensures { LeavesAreTaken }
{
    visited_chunks_show();
}

/// A transaction has notes exactly where the machine's has written.
pub fn notes_are_writes()
    ensures { NotesAreWrites }
{}

/// The changes among the notes of an entry are those that the machine's entry commits.
pub fn entries_tell_changes()
    ensures { EntriesTellChanges }
{
    hy_notes::notes_tell();
}

/// Validation finds the first hit that the machine finds.
pub fn hits_are_the_machines()
    ensures { HitsAreTheMachines }
{
    hy_validate::hits_are_of_statements_and_rows();
    hy_notes::notes_tell();
}

/// An entry into the journal is the machine's.
pub fn enters_are_taken()
    ensures { EntersAreTaken }
{}

/// The refusal of a transaction is the machine's.
pub fn refusals_are_taken()
    ensures { RefusalsAreTaken }
{
    own_steps_show();
    going_on_is_taken();
}

/// The answer to a statement that opens or closes savepoints is the machine's.
pub fn saves_are_taken()
    ensures { SavesAreTaken }
{
    own_steps_show();
}

/// A session that waits stays as it is, as in the machine.
pub fn waits_are_taken()
    ensures { WaitsAreTaken }
{}

/// A visit of a session to the part that it needs is the machine's step, whatever the chains look like.
pub fn events_are_steps()
    ensures { EventsAreSteps }
{
    blockers_are_the_machines();
    written_chunks_are_the_machines();
    chunks_since_are_the_machines();
    notes_are_writes();
    hits_are_the_machines();
    selects_are_taken();
    groups_are_taken();
    checks_are_taken();
    places_are_taken();
    writes_are_taken();
    stamps_are_taken();
    undos_are_taken();
    backs_are_taken();
    saves_are_taken();
    begins_are_taken();
    closes_are_taken();
    leaves_are_taken();
    enters_are_taken();
    refusals_are_taken();
    waits_are_taken();
}
