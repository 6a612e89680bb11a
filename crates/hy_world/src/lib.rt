//! The engine's world: chunks changed in place, the core, and the sessions, which step by step do what the snapshot
//! machine does.
//!
//! A call speaks of each state of the machine that the world shows: what the machine makes of the state is shown
//! afterwards. So nothing of the machine is kept while the engine runs.
#![tactic(auto)]

ghost use Rattle.std.specs.Prelude.{◌≡◌, IfOk};
ghost use Rattle.hy_machine.specs.Outcomes.{outcome_of};
ghost use Rattle.hy_machine.specs.Runs.{run_of};
ghost use Rattle.hy_stepping.specs.Runnable.{IsRunnable};
ghost use Rattle.hy_stepping.specs.Typed.{AreTyped};

mod answering;
mod finishing;
mod grouped;
mod logged_threads;
mod logging;
mod opening;
mod shared;
mod steps;
mod threads;
mod visiting;
mod world;

use hy_bound::Item;
use hy_disk::NoDisk;
use hy_machine::Setting;
use hy_render::Outcome;
use hy_value::{Kind, Seq};
pub use logged_threads::{Crew, run_threads_logged};
pub use logging::logs_tell_orders;
use std::alloc::{AllocError, Global};
pub use threads::{run_threads, world_by_threads};
pub use world::World;

/// The types of a table's columns.
pub type Kinds = Seq<Kind>;

/// Runs a schedule in a setting, and then rounds until every session has ended: the outcome is what the snapshot machine
/// comes to, whether chunks are pruned or not. Err is for want of memory.
pub fn run(
    alloc: Global,
    setting: Setting,
    kinds: &[Kinds],
    prunes: bool,
    schedule: &[Item],
) -> Result<Outcome, AllocError>
    requires runnable { IsRunnable setting }
    requires typed { AreTyped kinds.now setting.shapes setting.first setting.programs }
    ensures { IfOk result (λ outcome. outcome ≡ outcome_of setting (run_of setting schedule.now)) }
{
    hy_stepping::ends_are_the_machines();
    hy_machine::runs_are_steps();
    let mut world = World::open(alloc, setting, kinds, prunes)?;
    match world.run(alloc, schedule, &mut None, &mut NoDisk) {
        Ok(()) => world.finish(alloc),
        Err(_) => Err(AllocError),
    }
}
