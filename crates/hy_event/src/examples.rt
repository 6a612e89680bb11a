//! Worked rows: small visits of one session, computed from the definitions.

ghost use Rattle.std.specs.Prelude.{◌≡◌, [], ◌∷◌, None, Some, pos};
ghost use Rattle.hy_bound.specs.Condition.{True};
ghost use Rattle.hy_bound.specs.declared.Reply.{Reply};
ghost use Rattle.hy_bound.specs.declared.Ending.{Ending};
ghost use Rattle.hy_journal.specs.declared.CoreData.{CoreData};
ghost use Rattle.hy_stamp.specs.Times.{id_of};
ghost use Rattle.hy_undo.specs.Chunks.{ChunkData};
ghost use Rattle.hy_event.specs.declared.Need.{Need};
ghost use Rattle.hy_protocol.specs.declared.Phase.{Phase};
ghost use Rattle.hy_protocol.specs.declared.Progress.{Progress};
ghost use Rattle.hy_event.specs.declared.SessionData.{SessionData};
ghost use Rattle.hy_event.specs.Needs.{need_of};
ghost use Rattle.hy_event.specs.CoreTurns.{CoreEvent};
ghost use Rattle.hy_event.specs.Events.{ChunkEvent, Event, CorePart};
ghost use Rattle.hy_event.specs.Accounts.{number, account, is_account, counting, grouping, paying, closing, opening, logged, kept_by_count};
ghost use Rattle.hy_event.specs.Accounts.{committing, rolling_back};
ghost use Rattle.hy_event.specs.Examples.{session_of, running, ended, begun, answered, joined_with, join_answered};
ghost use Rattle.hy_event.specs.Accounts.{chunk_of, with_row, unused, with_old_record, with_paid, with_gone, with_new, first, other};
ghost use Rattle.hy_event.specs.Examples.{change, paid, payer, payer_entered, payer_ended, core_of, entry_at};

/// A session needs the core first, which is the last part. BEGIN takes the clock's next time, which is open from then
/// on; then the first statement needs the first chunk.
pub fn a_session_begins()
    ensures needs { need_of (session_of (committing (counting ∷ []) ∷ committing (paying ∷ []) ∷ []) None) ≡ Need.Core }
    ensures begins { CoreEvent
        (session_of (committing (counting ∷ []) ∷ []) None) (core_of 1 [] [] None)
        Progress.Answered
        (running counting (begun (Phase.Working 0 0))) (core_of 2 (1 ∷ []) [] None) }
    ensures event { Event 2
        (session_of (committing (counting ∷ []) ∷ []) None) (CorePart (core_of 1 [] [] None))
        (running counting (begun (Phase.Working 0 0))) (CorePart (core_of 2 (1 ∷ []) [] None)) }
    ensures goes_on { need_of (running counting (begun (Phase.Working 0 0))) ≡ Need.Chunk 0 0 }
{}

/// While a statement is left nothing can be done at the core, and at its COMMIT a session can do nothing in a chunk.
pub fn no_other_part_is_visited()
    ensures core { (old new : CoreData) (progress : Progress) (after : SessionData)
        → CoreEvent (running counting (begun (Phase.Working 0 0))) old progress after new → ⊥ }
    ensures chunk { (old new : ChunkData) (progress : Progress) (after : SessionData)
        → ChunkEvent (running paying payer) old progress after new → ⊥ }
{}

/// While another transaction stands between its entry and its end BEGIN waits for it, and nothing changes.
pub fn a_begin_waits()
    ensures { CoreEvent
        (session_of (committing (counting ∷ []) ∷ []) None) (core_of 3 (1 ∷ []) (entry_at other 2 (paid ∷ []) ∷ []) (Some other))
        (Progress.Blocked other)
        (session_of (committing (counting ∷ []) ∷ []) None) (core_of 3 (1 ∷ []) (entry_at other 2 (paid ∷ []) ∷ []) (Some other)) }
{}

/// A count gathers the one row of the first chunk; in the second it finds none, and answers 1.
pub fn a_count_gathers_and_answers()
    ensures gathers { ChunkEvent
        (running counting (begun (Phase.Working 0 0))) (chunk_of 0 (with_row (account 1 100)))
        Progress.Moved
        (running counting (record (begun (Phase.Working 1 0)) { gathered = (kept_by_count (account 1 100) ∷ []) ∷ [] }))
        (chunk_of 0 (with_row (account 1 100))) }
    ensures answers { ChunkEvent
        (running counting (record (begun (Phase.Working 1 0)) { gathered = (kept_by_count (account 1 100) ∷ []) ∷ [] }))
        (chunk_of 1 unused)
        Progress.Answered
        (running counting (answered (Reply.Value (pos 1)) None (logged True []) [])) (chunk_of 1 unused) }
{}

/// GROUP BY gathers the balances, and tells how many there are of each.
pub fn groups_are_told_of_what_is_gathered()
    ensures gathers { ChunkEvent
        (running grouping (begun (Phase.Working 0 0))) (chunk_of 0 (with_row (account 1 100)))
        Progress.Moved
        (running grouping (record (begun (Phase.Working 1 0)) { gathered = ((number 100 ∷ []) ∷ []) ∷ [] }))
        (chunk_of 0 (with_row (account 1 100))) }
    ensures answers { ChunkEvent
        (running grouping (record (begun (Phase.Working 1 0)) { gathered = ((number 100 ∷ []) ∷ []) ∷ [] }))
        (chunk_of 1 (with_row (account 2 100)))
        Progress.Answered
        (running grouping (answered (Reply.Groups (record { value = number 100; total = pos 2 } ∷ [])) None (logged True (1 ∷ [])) []))
        (chunk_of 1 (with_row (account 2 100))) }
{}

/// Where ON looks accounts up by their key, one that no row gathered so far asks for is left out, and one that is asked
/// for is gathered, and recorded by its key.
pub fn a_join_gathers_by_key()
    ensures passes { ChunkEvent
        (joined_with [] (begun (Phase.Working 2 0))) (chunk_of 0 (with_row (account 2 100)))
        Progress.Moved
        (joined_with ([] ∷ []) (begun (Phase.Working 3 0))) (chunk_of 0 (with_row (account 2 100))) }
    ensures answers { ChunkEvent
        (joined_with ([] ∷ []) (begun (Phase.Working 3 0))) (chunk_of 1 (with_row (account 1 100)))
        Progress.Answered
        join_answered (chunk_of 1 (with_row (account 1 100))) }
{}

/// Where nothing is selected an UPDATE goes on to the next chunk, and the positions stay.
pub fn an_update_passes_what_it_does_not_select()
    ensures visit { ChunkEvent
        (running paying (begun (Phase.Working 0 0))) (chunk_of 0 (with_row (account 1 100)))
        Progress.Moved
        (running paying (begun (Phase.Working 1 0))) (chunk_of 0 (with_row (account 1 100))) }
    ensures goes_on { need_of (running paying (begun (Phase.Working 1 0))) ≡ Need.Chunk 0 1 }
{}

/// A chunk is pruned before anything is asked of it: a record that is older than every open start is gone then.
pub fn an_update_prunes_first()
    ensures { ChunkEvent
        (running paying (begun (Phase.Working 0 0))) (chunk_of 0 (with_old_record (account 1 100)))
        Progress.Moved
        (running paying (begun (Phase.Working 1 0))) (chunk_of 0 (with_row (account 1 100))) }
{
    hy_undo::places_step()
}

/// In the last chunk it writes the row that it selects, with the old balance behind it, and answers how many they were.
pub fn an_update_writes_what_it_selects()
    ensures { ChunkEvent
        (running paying (begun (Phase.Working 1 0))) (chunk_of 1 (with_row (account 2 100)))
        Progress.Answered
        (running paying payer) (chunk_of 1 (with_paid (id_of first))) }
{
    hy_undo::places_step()
}

/// A DELETE leaves a position whose row is gone, and was there before.
pub fn a_delete_takes_the_row_away()
    ensures { ChunkEvent
        (running closing (begun (Phase.Working 1 0))) (chunk_of 1 (with_row (account 2 100)))
        Progress.Answered
        (running closing (answered (Reply.Deleted 1) None (logged (is_account 2) (0 ∷ [])) (change (Some (account 2 100)) None ∷ [])))
        (chunk_of 1 with_gone) }
{
    hy_undo::places_step()
}

/// An INSERT whose key stands in a chunk answers so, and logs that it looked for the key.
pub fn an_insert_finds_its_key()
    ensures { ChunkEvent
        (running (opening 1) (begun (Phase.Working 0 0))) (chunk_of 0 (with_row (account 1 100)))
        Progress.Answered
        (running (opening 1) (answered Reply.Duplicate None (logged (is_account 1) (0 ∷ [])) []))
        (chunk_of 0 (with_row (account 1 100))) }
{}

/// An INSERT that found its key in no chunk goes on over a chunk without a free position, and takes one in the next.
pub fn an_insert_takes_a_free_position()
    ensures passes { ChunkEvent
        (running (opening 2) (begun (Phase.Working 2 0))) (chunk_of 0 (with_row (account 1 100)))
        Progress.Moved
        (running (opening 2) (begun (Phase.Working 3 0))) (chunk_of 0 (with_row (account 1 100))) }
    ensures takes { ChunkEvent
        (running (opening 2) (begun (Phase.Working 3 0))) (chunk_of 1 unused)
        Progress.Answered
        (running (opening 2) (answered Reply.Inserted (Some 1) (logged (is_account 2) (0 ∷ [])) (change None (Some (account 2 100)) ∷ [])))
        (chunk_of 1 with_new) }
{
    hy_undo::places_step()
}

/// Where no chunk has a free position the transaction is refused; it wrote nothing, so that its end is at the core.
pub fn an_insert_may_find_no_room()
    ensures refused { ChunkEvent
        (running (opening 3) (begun (Phase.Working 3 0))) (chunk_of 1 (with_row (account 2 100)))
        Progress.Moved
        (running (opening 3) (begun (Phase.Undoing 0 (Ending.Full 0)))) (chunk_of 1 (with_row (account 2 100))) }
    ensures ends { need_of (running (opening 3) (begun (Phase.Undoing 0 (Ending.Full 0)))) ≡ Need.Core }
{}

/// COMMIT ends a transaction that wrote nothing, and its start is not open any more.
pub fn a_commit_of_nothing_written_ends()
    ensures { CoreEvent
        (running counting (answered (Reply.Value (pos 1)) None (logged True []) [])) (core_of 2 (1 ∷ []) [] None)
        Progress.Answered
        (ended counting (record {
          label = first;
          start = 0;
          replies = Reply.Value (pos 1) ∷ [];
          ending = Ending.Read;
          wrote = [];
          placed = 0 ∷ [];
        }))
        (core_of 2 [] [] None) }
{}

/// A commit that nothing hits puts the notes into an entry with the clock's next time, and marks the transaction; then
/// it needs the chunk that it wrote.
pub fn a_commit_enters_the_journal()
    ensures enters { CoreEvent
        (running paying payer) (core_of 2 (1 ∷ []) [] None)
        Progress.Moved
        (running paying (payer_entered 0)) (core_of 3 (1 ∷ []) (entry_at first 2 (paid ∷ []) ∷ []) (Some first)) }
    ensures goes_on { need_of (running paying (payer_entered 0)) ≡ Need.Chunk 0 1 }
{}

/// A row that came since its start, and that one of its statements counted, refuses a commit: the core stays, and the
/// transaction is undone.
pub fn a_hit_refuses_a_commit()
    ensures { CoreEvent
        (running counting (answered (Reply.Value (pos 1)) None (logged True []) (paid ∷ [])))
        (core_of 3 (1 ∷ []) (entry_at other 2 (change None (Some (account 3 100)) ∷ []) ∷ []) None)
        Progress.Moved
        (running counting (record (answered (Reply.Value (pos 1)) None (logged True []) (paid ∷ [])) {
          phase = Phase.Undoing 0 (Ending.Invalid 0 1 other 1);
        }))
        (core_of 3 (1 ∷ []) (entry_at other 2 (change None (Some (account 3 100)) ∷ []) ∷ []) None) }
{}

/// A stamp visit gives the own record of the chunk the commit time.
pub fn a_written_chunk_is_stamped()
    ensures stamps { ChunkEvent
        (running paying (payer_entered 0)) (chunk_of 1 (with_paid (id_of first)))
        Progress.Moved
        (running paying (payer_entered 1)) (chunk_of 1 (with_paid 2)) }
    ensures goes_on { need_of (running paying (payer_entered 1)) ≡ Need.Core }
{
    hy_undo::places_step()
}

/// Then the transaction ends at the rank of its entry, nobody is marked any more, and the session is at its end.
pub fn a_stamped_transaction_ends()
    ensures ends { CoreEvent
        (running paying (payer_entered 1)) (core_of 3 (1 ∷ []) (entry_at first 2 (paid ∷ []) ∷ []) (Some first))
        Progress.Answered
        (ended paying (payer_ended (Ending.Committed 0))) (core_of 3 [] (entry_at first 2 (paid ∷ []) ∷ []) None) }
    ensures done { need_of (ended paying (payer_ended (Ending.Committed 0))) ≡ Need.Done }
{}

/// ROLLBACK goes to the chunk that was written, puts the row back, and then ends.
pub fn a_written_chunk_is_undone()
    ensures needs { need_of (session_of (rolling_back (paying ∷ []) ∷ []) (Some payer)) ≡ Need.Chunk 0 1 }
    ensures undoes { ChunkEvent
        (session_of (rolling_back (paying ∷ []) ∷ []) (Some payer)) (chunk_of 1 (with_paid (id_of first)))
        Progress.Moved
        (session_of (rolling_back (paying ∷ []) ∷ []) (Some (record payer { phase = Phase.Undoing 1 Ending.RolledBack })))
        (chunk_of 1 (with_row (account 2 100))) }
    ensures ends { CoreEvent
        (session_of (rolling_back (paying ∷ []) ∷ []) (Some (record payer { phase = Phase.Undoing 1 Ending.RolledBack })))
        (core_of 2 (1 ∷ []) [] None)
        Progress.Answered
        (record (session_of (rolling_back (paying ∷ []) ∷ []) None) { done = payer_ended Ending.RolledBack ∷ [] })
        (core_of 2 [] [] None) }
{
    hy_undo::places_step()
}
