//! The text of a trace: a run step by step, a line for each step of the machine, in their order.
//!
//! A line says who takes the step, what its transaction is at, the part that is visited, and what the step comes to. No chunk is
//! passed here without a line, so that a trace is longer than a run, and its bytes are the same whether chunks are pruned or
//! not.
#![tactic(auto)]

ghost use Rattle.std.specs.Prelude.{◌≡◌, IfOk};
ghost use Rattle.hy_stepping.specs.Runnable.{IsRunnable};
ghost use Rattle.hy_stepping.specs.Typed.{AreTyped};
ghost use Rattle.hy_trace.specs.Examples.{WriteSkewsAreTraced};
ghost use Rattle.hy_trace.specs.Steps.{TakenStepsAreTheRun};
ghost use Rattle.hy_trace.specs.Trace.{trace_text};

mod printing;
mod standing;
mod steps;

use hy_bound::Item;
use hy_machine::Setting;
use hy_render::Names;
use hy_world::{Kinds, World};
use printing::put;
use std::alloc::{AllocError, Global};
use steps::trace_run;

/// Runs a schedule in a setting, and then rounds until every session has ended, and traces it: the text of the steps that the
/// snapshot machine takes, whether chunks are pruned or not. Err is for want of memory.
pub fn trace(
    alloc: Global,
    names: &Names,
    setting: Setting,
    kinds: &[Kinds],
    prunes: bool,
    schedule: &[Item],
) -> Result<Vec<u8>, AllocError>
    requires runnable { IsRunnable setting }
    requires typed { AreTyped kinds.now setting.shapes setting.first setting.programs }
    ensures { IfOk result (λ text. text.items ≡ trace_text names.now setting schedule.now) }
{
    let mut world = World::open(alloc, setting, kinds, prunes)?;
    let mut out = Vec::new(alloc);
    trace_run(alloc, names, &mut world, schedule, &mut out)?;
    put(b"end\n", &mut out)?;
    Ok(out)
}

/// A law: the steps that are traced lead where the run leads.
pub fn traced_steps_are_the_run()
    ensures { TakenStepsAreTheRun }
{}

/// A worked row: the trace of a write skew. The second transaction to commit is refused, and undone.
pub fn write_skews_are_traced()
    ensures { WriteSkewsAreTraced }
{}
