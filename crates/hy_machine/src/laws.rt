//! Laws of runs.

ghost use Rattle.hy_machine.specs.Runs.{RunsAreSteps, StepsFall, RunsEnd};

/// A run is a list of steps from the opening on, so that what holds along steps holds of it. A step that goes on
/// brings its session nearer to its end, so that no other bound is put on a whole statement; and after a run every
/// session has ended.
pub fn runs_are_steps()
    ensures steps { RunsAreSteps }
    ensures falls { StepsFall }
    ensures ends { RunsEnd }
{}
