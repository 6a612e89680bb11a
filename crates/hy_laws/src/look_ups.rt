//! The laws of what is looked up for a SELECT.

ghost use Rattle.hy_laws.specs.Lookups.{LookedUpIsRead, LookedUpAnswers, LookedUpLogsTheSame};
ghost use Rattle.hy_laws.specs.Turns.{LookedUpInTurn, LookedUpAlone};
ghost use Rattle.hy_laws.specs.Wanted.{ReadIsWanted};

use crate::{answers_depend_on_what_is_read, gathered_rows_answer, what_is_read_is_read_again};

/// What is looked up, said of each table for itself: for a part of a plan that is gathered of its table which its look-up
/// wants by what was gathered for the parts before it. Tables that are gathered so are what is looked up, and no others are.
pub fn tables_are_looked_up_in_turn()
    ensures each { LookedUpInTurn }
    ensures alone { LookedUpAlone }
{}

/// What is looked up for a SELECT's plan is what the SELECT reads of its tables, row by row and in the same order: an engine
/// that knows of the earlier tables only what it gathered of them gathers the rows of which its records are.
pub fn looked_up_rows_are_what_is_read()
    ensures { LookedUpIsRead }
{}

/// What is answered from what is looked up for a SELECT's plan is the SELECT's answer over its tables.
pub fn looked_up_rows_answer()
    ensures { LookedUpAnswers }
{
    answers_depend_on_what_is_read();
    gathered_rows_answer();
}

/// The records that a SELECT logs over what was looked up for it are those that it logs over its tables: they can be made
/// from what was gathered, without another look at the tables.
pub fn looked_up_rows_log_the_same()
    ensures { LookedUpLogsTheSame }
{
    what_is_read_is_read_again();
}

/// The rows that a look-up wants of those of which a part's condition is true are those that are read of its table by key.
pub fn wanted_rows_are_read_by_key()
    ensures { ReadIsWanted }
{}
