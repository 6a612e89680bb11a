//! The refinement: which state of the snapshot machine the engine's parts and sessions show.
//!
//! A part or a session does not have the machine's state. It has marks, times and chains, and these show the state: how
//! they do is said by sentences on the core, on sessions and on positions, and the laws here are about these.
#![tactic(auto)]

ghost use Rattle.hy_refinement.specs.Laws.{OpeningIsShown};
ghost use Rattle.hy_refinement.specs.Pruned.{PrunedTells, PruningShowsNothing};
ghost use Rattle.hy_refinement.specs.Rivals.{RivalsAreOpponents};
ghost use Rattle.hy_refinement.specs.Free.{FreeIsTheMachines};
ghost use Rattle.hy_refinement.specs.Waiting.{BlockersAreTheMachines};
ghost use Rattle.hy_refinement.specs.OwnRecords.{BehindOwnIsTheStart, NotesHaveWhatWasSeen};

mod visits;

use hy_undo::Delta;
pub use visits::{
    backs_are_taken, begins_are_taken, checks_are_taken, chunk_visits_show,
    chunks_since_are_the_machines, closes_are_taken, enters_are_taken, entries_tell_changes,
    events_are_steps, going_on_is_taken, groups_are_taken, hits_are_the_machines, leaves_are_taken,
    notes_are_writes, notes_follow_writes, own_steps_show, places_are_taken, pruned_chunks_show,
    refusals_are_taken, saves_are_taken, selects_are_taken, stamps_are_taken, undos_are_taken,
    unmoved_places_show, visited_chunks_show, waits_are_taken, writes_are_taken,
    written_chunks_are_the_machines,
};

/// Before anything has happened the parts and the sessions show the machine's opening.
pub fn the_opening_is_shown()
    ensures { OpeningIsShown }
{}

/// What a position that was pruned tells of its stamps.
pub fn pruned_places_tell()
    ensures { PrunedTells }
{
    hy_chain::pruning_keeps_stamps::<Delta>();
    hy_chain::pruning_shrinks::<Delta>();
}

/// Pruning by a cover that is held changes nothing that a position shows.
pub fn pruning_shows_nothing()
    ensures { PruningShowsNothing }
{
    pruned_places_tell();
}

/// Where an open transaction that has no entry yet sees a row, the newest record of the position names as its rival
/// exactly whom the machine names as its opponent: another transaction that holds the position, or else the last one that
/// changed it since its start.
pub fn rivals_are_the_machines()
    ensures { RivalsAreOpponents }
{}

/// A position is free by the watermark of an open transaction that has no entry yet, which the chunk tests, exactly where
/// the machine says that it is free: nobody holds it, no row was there at its low prefix, and no entry wrote it since.
pub fn free_positions_are_the_machines()
    ensures { FreeIsTheMachines }
{}

/// A session's step at the core is blocked exactly where the machine's step is, and by the same transaction.
pub fn blockers_are_the_machines()
    ensures { BlockersAreTheMachines }
{}

/// What a transaction that goes back finds where it wrote. Where its record is on top of a position, and it has no entry
/// yet, what stood there before is what the tables of its start have; and where it noted a change since a savepoint it
/// holds the position, and the note has what it saw there when the savepoint was made.
pub fn own_records_tell()
    ensures behind { BehindOwnIsTheStart }
    ensures seen { NotesHaveWhatWasSeen }
{}
