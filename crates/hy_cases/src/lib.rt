//! Small examples: outcomes on which the definition of serializable outcomes is tried, right ones, which it takes, and wrong
//! ones, which it refuses, each made from a right one by what its name says; and where the laws of statements end,
//! neighbours of them that ask for less, each of which is false.
#![tactic(auto)]

ghost use Rattle.hy_cases.specs.Never.{NeverGiven};
ghost use Rattle.hy_cases.specs.Right.{RightOutcomes};
ghost use Rattle.hy_cases.specs.Wrong.{WrongReplies, WrongStarts, WrongOrders, WrongCommits};
ghost use Rattle.hy_cases.specs.Wrong.{WrongConflicts, WrongInvalids, WrongRefusals, WrongWrites, WrongChanges, WrongSavepoints};

mod neighbours;

use hy_lawful::runs_are_lawful;
pub use neighbours::{
    a_group_needs_the_columns_of_where, a_missing_table_gets_no_rows, a_part_has_few_columns,
    a_part_needs_the_columns_of_on, a_part_needs_the_summed_column,
    a_record_needs_the_columns_of_set, a_record_needs_the_columns_of_where,
    a_table_has_few_columns, after_images_do_not_suffice, an_insert_looks_at_no_other_key,
    an_insert_needs_its_record, an_insert_needs_its_table, an_insert_takes_a_position,
    before_images_do_not_suffice, every_named_column_matters, few_columns_are_read_again,
    inserted_rows_are_not_followed, inserted_rows_must_fit, keys_are_columns,
    own_positions_must_not_differ, positions_taken_back_must_not_differ, revisits_do_not_add_up,
    selected_positions_must_not_differ, sets_do_not_suffice, the_rest_must_be_asked, widths_matter,
};

/// These outcomes are lawful and serializable, and each comes by a schedule: of transactions that read and write, of each
/// ending that there is, and of two and three sessions that do so at a time.
pub fn right_outcomes_are_serial()
    ensures { RightOutcomes }
{
    runs_are_lawful();
}

/// Where replies are not those that a transaction gets alone from its start on, the outcome is lawful and still not
/// serializable; where they are too many or too few, it is not lawful.
pub fn wrong_replies_are_refused()
    ensures { WrongReplies }
{}

/// Where transactions are missing or start where they can't, and where the commit order is not of those that committed,
/// the outcome is not lawful. Where the final tables are not those of the order, or one committed that must not have by
/// what others did, it is lawful and still not serializable.
pub fn wrong_orders_are_refused()
    ensures starts { WrongStarts }
    ensures orders { WrongOrders }
    ensures commits { WrongCommits }
{}

/// Where a transaction is refused that may not be by its script, the outcome is not lawful. Where it may be, but for no
/// cause or for another one, the outcome is lawful and still not serializable.
pub fn wrong_refusals_are_refused()
    ensures conflicts { WrongConflicts }
    ensures invalids { WrongInvalids }
    ensures others { WrongRefusals }
{}

/// Where positions are none of the tables, or don't ascend, the outcome is not lawful. Where a transaction wrote others
/// than its statements select and place, or an entry tells other changes than were made, it is lawful and still not
/// serializable.
pub fn wrong_writes_are_refused()
    ensures writes { WrongWrites }
    ensures changes { WrongChanges }
{}

/// Where a savepoint gives positions back or drops what was read behind it, keeps another database than the one that there
/// was, or is not the newest of its name, the outcome is lawful and still not serializable.
pub fn wrong_savepoints_are_refused()
    ensures { WrongSavepoints }
{}

/// These outcomes are lawful and serializable, and still no steps of the machine come to them, whatever the schedule: a
/// table is called full beside a place that is free, a place is taken that isn't the least, another row is named than the
/// first that is refused, or what is told of who came before whom goes in a circle. That an outcome is one of the machine
/// is what refuses them.
pub fn lawful_outcomes_that_no_schedule_gives()
    ensures { NeverGiven }
{}
