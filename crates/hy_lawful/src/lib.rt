//! Lawful and serializable outcomes, and the theorems that the snapshot machine gives no others.
#![tactic(auto)]

ghost use Rattle.std.specs.Prelude.{◌≡◌, List, true};
ghost use Rattle.hy_machine.specs.declared.Setting.{Setting};
ghost use Rattle.hy_machine.specs.States.{State};
ghost use Rattle.hy_bound.specs.declared.schedule.Item.{Item};
ghost use Rattle.hy_machine.specs.Runs.{all_ended_from, run_of, IsReached};
ghost use Rattle.hy_machine.specs.Outcomes.{outcome_of};
ghost use Rattle.hy_lawful.specs.Laws.{SerialEnds, SerialRuns};
ghost use Rattle.hy_lawful.specs.Lawful.{Lawful};

mod states;

use hy_machine::runs_are_steps;
use hy_replay::{a_run_keeps_widths, a_run_over_cells_is_alone, what_is_unseen_leaves_a_run};
pub use states::{
    inserts_count_positions, inserts_take_what_is_placed, open_ones_may_overlap,
    reached_entries_stand, reached_keys_stay, reached_rows_meet_demands, reached_savepoints_fit,
    reached_states_are_kept, reached_tables_fit, reached_views_fit, rows_are_followed,
    the_committed_passed_unseen, transactions_have_run,
};

/// Whatever the script, and whatever the steps after which every session has ended, what the machine has come to is
/// lawful: every transaction has its outcome once, the order has exactly the committed ones, every ending is one that
/// may come, and a table is called full only where its first rows, and what was placed in it by those that may have
/// been in the way, are as many as its positions. Where the script fits, it is also serializable in the order of its
/// commits: the replies of every transaction are the first of those that it gets alone over the rows that the commits
/// before its start leave, those of a committed one are all that it gets alone over the rows that the commits before
/// its own leave, and the final tables are those of the whole order. The printed changes tell the rows at every rank,
/// each change starting from what stands at its position. What committed between the start of a committed transaction
/// and its own commit passes by what it wrote and by what it logs alone; its own entry changes only positions that it
/// wrote, and each of these where a row stood at its start. What was refused was so for a cause: the first hit of what
/// it logs alone, up to which nothing changed what it wrote; a row that it selects, at a position where the transaction
/// which is named found one too and has written; a value out of range, of a row as its answered statements left it; or
/// want of room for a row whose key these leave nowhere. Whatever a transaction wrote is what its statements select and
/// place, and who only reads writes nothing.
pub fn ends_are_lawful()
    ensures lawful { (setting : Setting) (state : State) → IsReached setting state → all_ended_from setting 0 state.sessions ≡ true
        → Lawful setting (outcome_of setting state) }
    ensures serial { SerialEnds }
{
    transactions_have_run();
    the_committed_passed_unseen();
    what_is_unseen_leaves_a_run();
    a_run_keeps_widths();
    a_run_over_cells_is_alone();
}

/// Whatever the script and the schedule, what the machine makes of them is lawful, and where the script fits it is
/// serializable: a run of a schedule is a list of steps after which every session has ended.
pub fn runs_are_lawful()
    ensures lawful { (setting : Setting) (schedule : List Item) → Lawful setting (outcome_of setting (run_of setting schedule)) }
    ensures serial { SerialRuns }
{
    runs_are_steps();
    ends_are_lawful();
}
