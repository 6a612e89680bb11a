//! Laws that join the engine's steps with the machine's.
//!
//! Where the engine's parts and sessions show a state that the snapshot machine comes to, the part that a session needs is
//! there, its visit may be made and is the machine's step, the loops of a run end, and at the end the parts tell the
//! machine's outcome. And the redo log of a run can be recovered: what the journal has stands on the first tables, and
//! leaves the machine's.
#![tactic(auto)]

ghost use Rattle.hy_stepping.specs.Steps.{CoresAreNear, NeededChunksAreThere, ChunksAreNear, ChunksMayBePassed};
ghost use Rattle.hy_stepping.specs.Steps.{VisitsAreSteps, PassesAreSteps, EndedStayAsTheyAre};
ghost use Rattle.hy_stepping.specs.Outcomes.{EndsAreTheMachines, OutcomesAreTold};
ghost use Rattle.hy_stepping.specs.Bounds.{BoundsAreEnough, WholesAreSteps, RunsAreReached};
ghost use Rattle.hy_stepping.specs.Pushed.{AwaitedIsReady, LinesAreRunnable, LinesAreShown, LinesAreTyped};
ghost use Rattle.hy_stepping.specs.Told.{SessionsTell};
ghost use Rattle.hy_stepping.specs.Standing.{SessionsStand};

mod logs;

pub use logs::{entries_stand, logs_recover_tables};

/// A visit of the core may be made where a session needs it.
pub fn cores_are_near()
    ensures { CoresAreNear }
{
    hy_lawful::reached_states_are_kept();
}

/// A chunk that a session needs is there.
pub fn needed_chunks_are_there()
    ensures { NeededChunksAreThere }
{
    hy_lawful::reached_states_are_kept();
}

/// A visit of a chunk may be made where a session needs it.
pub fn chunks_are_near()
    ensures { ChunksAreNear }
{
    hy_stamp::identifiers_are_apart();
    hy_lawful::reached_states_are_kept();
    hy_lawful::reached_rows_meet_demands();
    hy_lawful::reached_keys_stay();
    hy_refinement::own_records_tell();
    needed_chunks_are_there();
}

/// A visit of a session to the part that it needs is the machine's step.
pub fn visits_are_steps()
    ensures { VisitsAreSteps }
{
    hy_refinement::events_are_steps();
    hy_lawful::reached_states_are_kept();
    hy_lawful::reached_views_fit();
    runs_are_reached();
}

/// A session may go past each chunk.
pub fn chunks_may_be_passed()
    ensures { ChunksMayBePassed }
{}

/// Where a session goes past chunks one after another, each is the machine's step.
pub fn passes_are_steps()
    ensures { PassesAreSteps }
{
    visits_are_steps();
}

/// A step of a session that is at its end changes nothing.
pub fn ended_stay_as_they_are()
    ensures { EndedStayAsTheyAre }
{}

/// A session awaits a line exactly where the machine's is ready for it.
pub fn awaited_lines_are_the_machines()
    ensures { AwaitedIsReady }
{}

/// A session tells of its latest line what the machine's tells: the commits that its open transaction reads, the latest
/// reply, and how its latest transaction ended.
pub fn sessions_tell()
    ensures { SessionsTell }
{}

/// A session stands where the machine's does: at the same transaction, as far in it, and it needs the part that the
/// machine's visits next. And the journal has as many entries as the commit order.
pub fn sessions_stand()
    ensures { SessionsStand }
{
    hy_lawful::reached_states_are_kept();
    hy_refinement::written_chunks_are_the_machines();
    hy_refinement::chunks_since_are_the_machines();
}

/// What is shown is shown with a line more, where its session is ready for the line and the line fits; the engine runs
/// the longer script; and where the line's values are of its table's types, so are still those of all that is run.
pub fn lines_are_shown()
    ensures shown { LinesAreShown }
    ensures runnable { LinesAreRunnable }
    ensures typed { LinesAreTyped }
{
    hy_growing::lines_are_reached();
    hy_lawful::reached_states_are_kept();
}

/// The sessions are at their end exactly where the machine's have ended.
pub fn ends_are_the_machines()
    ensures { EndsAreTheMachines }
{
    hy_lawful::reached_states_are_kept();
}

/// Where all have ended, what the parts and the sessions tell is the machine's outcome.
pub fn outcomes_are_told()
    ensures { OutcomesAreTold }
{
    hy_lawful::reached_states_are_kept();
    hy_refinement::entries_tell_changes();
}

/// A number of 64 bits is as good a bound of the loops as the machine's own.
pub fn bounds_are_enough()
    ensures { BoundsAreEnough }
{
    hy_machine::runs_are_steps();
    hy_lawful::reached_states_are_kept();
}

/// A session's steps until it answers may be taken one after another.
pub fn wholes_are_steps()
    ensures { WholesAreSteps }
{
    hy_machine::runs_are_steps();
}

/// What the machine comes to from a state that it comes to, it comes to.
pub fn runs_are_reached()
    ensures { RunsAreReached }
{}
