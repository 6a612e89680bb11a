//! What is unseen leaves a run: the law that precision locking rests on.

ghost use Rattle.hy_replay.specs.Laws.{RunsAgain, RunsKeepWidths};

use hy_laws::{a_row_is_changed_by_what_is_read, changes_that_miss_are_unseen};

/// What a transaction did over its snapshot is what it does over any other tables that differ from it only in rows
/// that it didn't write, and by changes that hit none of the predicates that it logged: the same replies, the same
/// writes and the same records. Precision locking rests on this: validation compares the changes that were committed
/// since the snapshot with these predicates.
pub fn what_is_unseen_leaves_a_run()
    ensures { RunsAgain }
{
    changes_that_miss_are_unseen();
    a_row_is_changed_by_what_is_read();
}

/// What a transaction writes over tables whose rows have the widths of their tables leaves them so.
pub fn a_run_keeps_widths()
    ensures { RunsKeepWidths }
{}
