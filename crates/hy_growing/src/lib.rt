//! Scripts that grow line by line while their sessions run: the longer script comes to what the shorter one came to, by
//! the same turns, and where no further line comes what is open is rolled back.
//!
//! A session that waits for its next line has a script that is not yet whole. Between two lines its open transaction
//! counts as one that rolls back, so the script so far is a script, and the machine knows no other kind of transaction.
//! BEGIN adds one to it, a statement goes into the last one, COMMIT makes that one commit, and ROLLBACK adds nothing.
#![tactic(auto)]

ghost use Rattle.hy_growing.specs.Growing.{LinesAreReached, LinesGoOn, AnswersAreWhole, AnswersAreReached, LinesAreAnswered};
ghost use Rattle.hy_growing.specs.Growing.{AnswersLeaveReady, ClosingsEnd, OthersStay, SessionsStayBetween, EmptyScriptsAreBetween};
ghost use Rattle.hy_growing.specs.Growing.{TurnsAreRuns, DropsBegin, DropsGoOn, DropsEnd, OpenOnesAreDropped, DropsAreRuns};
ghost use Rattle.hy_growing.specs.Growing.{AnyLineIsReached, AnyItemsGoOn};

use hy_machine::runs_are_steps;

/// A state that the machine comes to is reached in the setting with one line more, where the line's session is ready
/// for it. Turns that were answered come to such a state, and then no transaction stands between the entry of its commit
/// and its end, so that nobody is blocked.
pub fn lines_are_reached()
    ensures lines { LinesAreReached }
    ensures answers { AnswersAreReached }
{}

/// Where each of a list of turns was answered, each is answered in the setting with one line more, and they come to
/// the same state. Turns that are answered are whole items of a schedule.
pub fn lines_go_on()
    ensures go_on { LinesGoOn }
    ensures whole { AnswersAreWhole }
{
    runs_are_steps();
}

/// A line that its session is ready for is answered, and then no transaction stands between the entry of its commit and
/// its end, so that nobody is blocked at the next line. The session waits for a further line of its transaction, or is
/// between two transactions, as it is after COMMIT and ROLLBACK; the others are as they were.
pub fn lines_are_answered()
    ensures answered { LinesAreAnswered }
    ensures ready { AnswersLeaveReady }
    ensures closed { ClosingsEnd }
    ensures others { OthersStay }
{
    runs_are_steps();
}

/// Each session is between two lines at the opening of scripts that say nothing yet, and so it is after the answer to
/// each line that its session was ready for: it is at its script's end, or waits in a transaction that is rolled back
/// where no further line comes.
pub fn sessions_stay_between_lines()
    ensures begins { EmptyScriptsAreBetween }
    ensures goes_on { SessionsStayBetween }
{
    runs_are_steps();
}

/// Answered turns after which every session has ended are a whole run: no rounds follow.
pub fn turns_are_runs()
    ensures { TurnsAreRuns }
{
    runs_are_steps();
}

/// Where each session is between two lines, one whole item of each that has an open transaction, in order, leaves every
/// session at its end. Each of these turns is answered; its transaction was rolled back, and the other sessions are as
/// they were. What they come to is what a run comes to of the schedule that has a whole item for each line.
pub fn open_ones_are_dropped()
    ensures begins { DropsBegin }
    ensures goes_on { DropsGoOn }
    ensures ends { DropsEnd }
    ensures all { OpenOnesAreDropped }
    ensures runs { DropsAreRuns }
{
    runs_are_steps();
}

/// The line must be one that its session is ready for: a COMMIT for a transaction that has ended by ROLLBACK would say
/// that it committed.
pub fn a_line_must_be_awaited()
    ensures { AnyLineIsReached → ⊥ }
{}

/// The turns must have been answered: an item of a session at its script's end does nothing, and begins the transaction
/// that a line adds.
pub fn turns_must_be_answered()
    ensures { AnyItemsGoOn → ⊥ }
{}
