//! Steps of sessions, items of a schedule, and rounds. Where a log is kept, it has each entry of the journal before anybody
//! takes another step: so where a run breaks off, it has all of them, or all but the last.

ghost use Rattle.std.specs.Prelude.{◌≡◌, IfOk, OnOk, OnErr, IsErrOf, is_some, length};
ghost use Rattle.hy_outside.specs.Faults.{Rose};
ghost use Rattle.hy_stepping.specs.Outcomes.{is_done, are_done};
ghost use Rattle.hy_machine.specs.Steps.{step_of};
ghost use Rattle.hy_machine.specs.Runs.{is_moved, whole_of, item_of, items_of, round_of, rounds_of};
ghost use Rattle.hy_world.specs.Follows.{Follows, Steps};
ghost use Rattle.hy_world.specs.Logged.{IsKept, IsKeptButTheLast, Logs, Approaches};

use crate::World;
use crate::logging::log_entries;
use hy_bound::Item;
use hy_disk::Disk;
use hy_event::Need;
use hy_protocol::Progress;
use hy_redo::{AppendError, Log};
use std::alloc::Global;

/// Whether a session went on without an answer.
fn has_moved(stepped: Progress) -> bool
    ensures { result ≡ is_moved stepped }
{
    matches!(stepped, Progress::Moved)
}

/// Whether a session that needs this is at the end of its script.
fn is_at_end(need: Need) -> bool
    ensures { result ≡ is_done need }
{
    matches!(need, Need::Done)
}

impl World {
    /// A step of a session, in a world whose log, where one is kept, has every entry of its journal. Where it enters a transaction
    /// into that, the log has the entry too after it; Err is for want of memory, or a fault of the disk, and then the log may lack it.
    pub fn step_logged<D: Disk>(
        &mut self,
        alloc: Global,
        number: u32,
        log: &mut Option<Log>,
        disk: &mut D,
    ) -> Result<Progress, AppendError>
        requires kept { IsKept D.image self.old.core.entries log.old disk.old }
        ensures step { IfOk result (λ stepped. Steps number stepped self.old self.new) }
        ensures under_way { OnErr result (Approaches (λ setting state. (step_of setting state number).0) self.old self.new) }
        ensures kept { OnOk result (IsKept D.image self.new.core.entries log.new disk.new) }
        ensures cut { OnErr result (IsKeptButTheLast D.image self.new.core.entries log.new disk.new) }
        ensures kinds { self.new.kinds ≡ self.old.kinds }
        ensures stays { is_some log.new ≡ is_some log.old }
        ensures logs { Logs D.clock D.image_since self.old.core.entries self.new.core.entries disk.old disk.new }
        ensures fault { IsErrOf result AppendError.DiskFault → Rose (D.faults disk.old) (D.faults disk.new) }
        ensures steady { ¬ IsErrOf result AppendError.DiskFault → D.faults disk.new ≡ D.faults disk.old }
    {
        let before = self.core.since(0).len();
        let stepped = self.step(alloc, number)?;
        log_entries(alloc, log, disk, self.core.since(before))?;
        Ok(stepped)
    }

    /// A session's steps until it answers, is blocked or has ended. Err is for want of memory, or a fault of the disk, and then
    /// the log may lack the last entry.
    pub fn step_whole<D: Disk>(
        &mut self,
        alloc: Global,
        number: u32,
        log: &mut Option<Log>,
        disk: &mut D,
    ) -> Result<(), AppendError>
        requires kept { IsKept D.image self.old.core.entries log.old disk.old }
        // The world follows the machine, to the answer or as far as the steps come.
        ensures follows { OnOk result (Follows (λ setting state. whole_of setting state number) self.old self.new) }
        ensures under_way { OnErr result (Approaches (λ setting state. whole_of setting state number) self.old self.new) }
        ensures kinds { self.new.kinds ≡ self.old.kinds }
        // The log keeps up with the journal.
        ensures kept { OnOk result (IsKept D.image self.new.core.entries log.new disk.new) }
        ensures cut { OnErr result (IsKeptButTheLast D.image self.new.core.entries log.new disk.new) }
        ensures stays { is_some log.new ≡ is_some log.old }
        ensures logs { Logs D.clock D.image_since self.old.core.entries self.new.core.entries disk.old disk.new }
        // Faults of the disk.
        ensures fault { IsErrOf result AppendError.DiskFault → Rose (D.faults disk.old) (D.faults disk.new) }
        ensures steady { ¬ IsErrOf result AppendError.DiskFault → D.faults disk.new ≡ D.faults disk.old }
    {
        hy_stepping::bounds_are_enough();
        hy_stepping::wholes_are_steps();
        for _turn in 0..u64::MAX {
            self.pass(number);
            let stepped = self.step_logged(alloc, number, log, disk)?;
            if !has_moved(stepped) {
                return Ok(());
            }
        }
        Ok(())
    }

    /// An item of a schedule.
    fn run_item<D: Disk>(
        &mut self,
        alloc: Global,
        item: Item,
        log: &mut Option<Log>,
        disk: &mut D,
    ) -> Result<(), AppendError>
        requires kept { IsKept D.image self.old.core.entries log.old disk.old }
        ensures follows { OnOk result (Follows (λ setting state. item_of setting state item) self.old self.new) }
        ensures under_way { OnErr result (Approaches (λ setting state. item_of setting state item) self.old self.new) }
        ensures kept { OnOk result (IsKept D.image self.new.core.entries log.new disk.new) }
        ensures cut { OnErr result (IsKeptButTheLast D.image self.new.core.entries log.new disk.new) }
        ensures stays { is_some log.new ≡ is_some log.old }
        ensures logs { Logs D.clock D.image_since self.old.core.entries self.new.core.entries disk.old disk.new }
        ensures fault { IsErrOf result AppendError.DiskFault → Rose (D.faults disk.old) (D.faults disk.new) }
        ensures steady { ¬ IsErrOf result AppendError.DiskFault → D.faults disk.new ≡ D.faults disk.old }
    {
        if item.whole {
            return self.step_whole(alloc, item.session, log, disk);
        }
        let _ = self.step_logged(alloc, item.session, log, disk)?;
        Ok(())
    }

    /// The items of a schedule, one after another.
    fn run_items<D: Disk>(
        &mut self,
        alloc: Global,
        items: &[Item],
        log: &mut Option<Log>,
        disk: &mut D,
    ) -> Result<(), AppendError>
        requires kept { IsKept D.image self.old.core.entries log.old disk.old }
        ensures follows { OnOk result (Follows (λ setting state. items_of setting state items.now) self.old self.new) }
        ensures under_way { OnErr result (Approaches (λ setting state. items_of setting state items.now) self.old self.new) }
        ensures kept { OnOk result (IsKept D.image self.new.core.entries log.new disk.new) }
        ensures cut { OnErr result (IsKeptButTheLast D.image self.new.core.entries log.new disk.new) }
        ensures stays { is_some log.new ≡ is_some log.old }
        ensures logs { Logs D.clock D.image_since self.old.core.entries self.new.core.entries disk.old disk.new }
        ensures fault { IsErrOf result AppendError.DiskFault → Rose (D.faults disk.old) (D.faults disk.new) }
        ensures steady { ¬ IsErrOf result AppendError.DiskFault → D.faults disk.new ≡ D.faults disk.old }
    {
        for item in items {
            self.run_item(alloc, *item, log, disk)?;
        }
        Ok(())
    }

    /// How many sessions there are.
    pub fn session_count(&self) -> u32
        ensures { result ≡ length self.now.sessions }
    {
        self.sessions.len() as u32
    }

    /// A round: each session, in order, as far as it answers.
    fn run_round<D: Disk>(
        &mut self,
        alloc: Global,
        log: &mut Option<Log>,
        disk: &mut D,
    ) -> Result<(), AppendError>
        requires kept { IsKept D.image self.old.core.entries log.old disk.old }
        ensures follows { OnOk result (Follows (λ setting state. round_of setting state) self.old self.new) }
        ensures under_way { OnErr result (Approaches (λ setting state. round_of setting state) self.old self.new) }
        ensures kept { OnOk result (IsKept D.image self.new.core.entries log.new disk.new) }
        ensures cut { OnErr result (IsKeptButTheLast D.image self.new.core.entries log.new disk.new) }
        ensures stays { is_some log.new ≡ is_some log.old }
        ensures logs { Logs D.clock D.image_since self.old.core.entries self.new.core.entries disk.old disk.new }
        ensures fault { IsErrOf result AppendError.DiskFault → Rose (D.faults disk.old) (D.faults disk.new) }
        ensures steady { ¬ IsErrOf result AppendError.DiskFault → D.faults disk.new ≡ D.faults disk.old }
    {
        hy_lawful::reached_states_are_kept();
        for number in 0..self.session_count() {
            self.step_whole(alloc, number, log, disk)?;
        }
        Ok(())
    }

    /// Whether every session is at its end.
    pub fn is_done(&self) -> bool
        ensures { result ≡ are_done self.now.sessions }
    {
        for session in self.sessions.iter() {
            if !is_at_end(session.next()) {
                return false;
            }
        }
        true
    }

    /// Rounds until every session has ended.
    fn run_rounds<D: Disk>(
        &mut self,
        alloc: Global,
        log: &mut Option<Log>,
        disk: &mut D,
    ) -> Result<(), AppendError>
        requires kept { IsKept D.image self.old.core.entries log.old disk.old }
        ensures follows { OnOk result (Follows (λ setting state. rounds_of setting state) self.old self.new) }
        ensures under_way { OnErr result (Approaches (λ setting state. rounds_of setting state) self.old self.new) }
        ensures kept { OnOk result (IsKept D.image self.new.core.entries log.new disk.new) }
        ensures cut { OnErr result (IsKeptButTheLast D.image self.new.core.entries log.new disk.new) }
        ensures stays { is_some log.new ≡ is_some log.old }
        ensures logs { Logs D.clock D.image_since self.old.core.entries self.new.core.entries disk.old disk.new }
        ensures fault { IsErrOf result AppendError.DiskFault → Rose (D.faults disk.old) (D.faults disk.new) }
        ensures steady { ¬ IsErrOf result AppendError.DiskFault → D.faults disk.new ≡ D.faults disk.old }
    {
        hy_stepping::bounds_are_enough();
        hy_stepping::ends_are_the_machines();
        for _round in 0..u64::MAX {
            if self.is_done() {
                return Ok(());
            }
            self.run_round(alloc, log, disk)?;
        }
        Ok(())
    }

    /// Runs a schedule, and then rounds until every session has ended, with each entry in the log, where one is kept. Err
    /// is for want of memory, or a fault of the disk: then the log has all entries but at most the last, and these come first in
    /// the order that the whole run gives.
    pub fn run<D: Disk>(
        &mut self,
        alloc: Global,
        schedule: &[Item],
        log: &mut Option<Log>,
        disk: &mut D,
    ) -> Result<(), AppendError>
        requires kept { IsKept D.image self.old.core.entries log.old disk.old }
        // The world follows the machine, to the end or as far as the run comes.
        ensures follows { OnOk result (Follows (λ setting state. rounds_of setting (items_of setting state schedule.now)) self.old self.new) }
        ensures under_way { OnErr result (Approaches (λ setting state. rounds_of setting (items_of setting state schedule.now)) self.old self.new) }
        // The log keeps up with the journal.
        ensures kept { OnOk result (IsKept D.image self.new.core.entries log.new disk.new) }
        ensures cut { OnErr result (IsKeptButTheLast D.image self.new.core.entries log.new disk.new) }
        ensures stays { is_some log.new ≡ is_some log.old }
        ensures logs { Logs D.clock D.image_since self.old.core.entries self.new.core.entries disk.old disk.new }
        // Faults of the disk.
        ensures fault { IsErrOf result AppendError.DiskFault → Rose (D.faults disk.old) (D.faults disk.new) }
        ensures steady { ¬ IsErrOf result AppendError.DiskFault → D.faults disk.new ≡ D.faults disk.old }
    {
        self.run_items(alloc, schedule, log, disk)?;
        self.run_rounds(alloc, log, disk)
    }
}
