//! The entries of the journal in a redo log.

ghost use Rattle.std.specs.Prelude.{◌≡◌, ◌≤◌, ◌++◌, List, [], OnOk, IfOk, IsErrOf, is_some, length};
ghost use Rattle.hy_outside.specs.Faults.{Rose};
ghost use Rattle.hy_bound.specs.declared.schedule.Item.{Item};
ghost use Rattle.hy_journal.specs.declared.Entry.{Entry};
ghost use Rattle.hy_machine.specs.declared.Setting.{Setting};
ghost use Rattle.hy_machine.specs.States.{State};
ghost use Rattle.hy_machine.specs.Outcomes.{outcome_of};
ghost use Rattle.hy_machine.specs.Runs.{opening_of, run_of};
ghost use Rattle.hy_stepping.specs.Texts.{CanBeLogged};
ghost use Rattle.hy_redo.specs.Crashes.{AreLogsOf};
ghost use Rattle.hy_value.specs.declared.Kind.{Kind};
ghost use Rattle.hy_world.specs.Logged.{IsKept, IsKeptButTheLast, Logs, HasLogged, IsDurable, LogsRun, LogsTellOrders};
ghost use Rattle.hy_world.specs.Worlds.{ShowsState};

use crate::World;
use hy_bound::Item;
use hy_disk::Disk;
use hy_journal::Entry;
use hy_redo::{AppendError, Log, append};
use hy_render::Outcome;
use std::alloc::Global;

/// Appends entries, where a log is kept: none, or one.
pub(crate) fn log_entries<D: Disk>(
    alloc: Global,
    log: &mut Option<Log>,
    disk: &mut D,
    more: &[Entry],
) -> Result<(), AppendError>
    requires few { length more.now ≤ 1 }
    requires kept { (entries : List Entry) × IsKept D.image entries log.old disk.old }
    ensures kept { OnOk result ((entries : List Entry) → IsKept D.image entries log.old disk.old
        → IsKept D.image (entries ++ more.now) log.new disk.new) }
    ensures cut { (entries : List Entry) → IsKept D.image entries log.old disk.old → IsKeptButTheLast D.image (entries ++ more.now) log.new disk.new }
    ensures stays { is_some log.new ≡ is_some log.old }
    ensures logs { (entries : List Entry) → IsKept D.image entries log.old disk.old
        → Logs D.clock D.image_since entries (entries ++ more.now) disk.old disk.new }
    ensures fault { IsErrOf result AppendError.DiskFault → Rose (D.faults disk.old) (D.faults disk.new) }
    ensures steady { ¬ IsErrOf result AppendError.DiskFault → D.faults disk.new ≡ D.faults disk.old }
{
    let Some(log) = log else {
        return Ok(());
    };
    append(alloc, log, disk, more)
}

/// A law: what the log of a world tells is the commit order of the state that the world shows, or the first part of it, and it
/// recovers to the tables after as many entries.
pub fn logs_tell_orders()
    ensures { LogsTellOrders }
{
    hy_stepping::logs_recover_tables();
    hy_refinement::entries_tell_changes();
}

impl World {
    /// Runs a schedule in a world where nothing has happened, and then rounds until every session has ended, with each entry
    /// of the commit order in the log before another step is taken: the outcome is what the snapshot machine comes to, and
    /// what a crash leaves at any moment recovers to the tables after some first entries of its order. Err is for a fault of
    /// the disk, or for want of memory.
    pub fn run_logged<D: Disk>(
        self,
        alloc: Global,
        schedule: &[Item],
        log: Log,
        disk: &mut D,
    ) -> Result<Outcome, AppendError>
        requires log { AreLogsOf (D.image disk.old) self.core.entries log }
        ensures outcome { IfOk result (λ outcome. (setting : Setting) → ShowsState setting (opening_of setting) self
            → outcome ≡ outcome_of setting (run_of setting schedule.now)) }
        ensures logged { IfOk result (λ outcome. HasLogged D.image D.image_since outcome.order (D.clock disk.old) disk.new) }
        ensures durable { IfOk result (λ _. (setting : Setting) (kinds : List (List Kind)) → ShowsState setting (opening_of setting) self
            → CanBeLogged kinds setting
            → IsDurable D.image D.image_since setting kinds (run_of setting schedule.now) (D.clock disk.old) disk.new) }
        // Where it breaks off too, a crash at any moment leaves the log of some first entries of the machine's order.
        ensures moments { (setting : Setting) (kinds : List (List Kind)) → ShowsState setting (opening_of setting) self
            → CanBeLogged kinds setting
            → LogsRun D.clock D.image_since setting kinds (run_of setting schedule.now) disk.old disk.new }
        ensures later { D.clock disk.old ≤ D.clock disk.new }
        ensures fault { IsErrOf result AppendError.DiskFault → Rose (D.faults disk.old) (D.faults disk.new) }
        ensures steady { ¬ IsErrOf result AppendError.DiskFault → D.faults disk.new ≡ D.faults disk.old }
    {
        hy_stepping::ends_are_the_machines();
        hy_machine::runs_are_steps();
        hy_stepping::logs_recover_tables();
        hy_refinement::entries_tell_changes();
        let mut world = self;
        let mut log = Some(log);
        world.run(alloc, schedule, &mut log, disk)?;
        Ok(world.finish(alloc)?)
    }
}
