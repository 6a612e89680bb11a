//! Lines that a session takes, and sessions whose transactions are dropped.

ghost use Rattle.std.specs.Prelude.{◌≡◌, ◌++◌, IfOk, IsErrOf, OnOk, Some, if◌then◌else◌, ◌<◌, List, [], true, false, is_some, slice_index_or};
ghost use Rattle.hy_growing.specs.Growing.{pushed};
ghost use Rattle.hy_machine.specs.declared.Setting.{Setting};
ghost use Rattle.hy_machine.specs.States.{State};
ghost use Rattle.hy_machine.specs.Runs.{whole_of};
ghost use Rattle.hy_outside.specs.Faults.{Rose};
ghost use Rattle.hy_service.specs.Knowing.{Drops, HasAnswered, KnowsBy, KnowsSessions, Takes, listed};
ghost use Rattle.hy_service.specs.Logging.{CanLog, KeepsUp, LogsAt};
ghost use Rattle.hy_service.specs.Service.{Service, is_begin, dropped_text, taken};
ghost use Rattle.hy_service.specs.Sound.{CanTake, IsSound};
ghost use Rattle.hy_serving.specs.Saying.{ended, place_at};
ghost use Rattle.hy_stepping.specs.Texts.{CanBeLogged};
ghost use Rattle.hy_value.specs.declared.Kind.{Kind};
ghost use Rattle.hy_world.specs.Follows.{Follows};
ghost use Rattle.hy_world.specs.Lines.{Awaits, is_open_at};
ghost use Rattle.hy_world.specs.Logged.{IsKept, LogsRun};
ghost use Rattle.hy_world.specs.Worlds.{ShowsState};
ghost use Rattle.hy_limits.specs.declared.TheConstants.{MOST_SESSIONS};

use crate::Server;
use crate::telling::{name_at, print_dropped, told};
use hy_disk::{Disk, NoDisk};
use hy_event::SessionLine;
use hy_limits::MOST_SESSIONS;
use hy_redo::AppendError;
use hy_stepping::{awaited_lines_are_the_machines, sessions_tell};
use hy_value::Text;
use hy_world::{World, logs_tell_orders};
use std::alloc::{AllocError, Global};

/// Whether a line is BEGIN.
fn is_begin(line: &SessionLine) -> bool
    ensures { result ≡ is_begin line.now }
{
    matches!(line, SessionLine::Begin { .. })
}

/// A session takes its turn up to the answer, in which what it has open is rolled back. Nothing is logged of that.
fn roll_back(alloc: Global, world: &mut World, session: u32) -> Result<(), AllocError>
    ensures follows { OnOk result (Follows (λ setting state. whole_of setting state session) world.old world.new) }
    ensures kinds { world.new.kinds ≡ world.old.kinds }
{
    match world.step_whole(alloc, session, &mut None, &mut NoDisk) {
        Ok(()) => Ok(()),
        Err(_) => Err(AllocError),
    }
}

impl Server {
    /// A session more, where it is new.
    pub(crate) fn add_name(&mut self, name: Option<Text>) -> Result<(), AllocError>
        ensures added { OnOk result (self.new ≡ record self.old { names = record self.old.names { sessions = self.old.names.sessions ++ listed name } }) }
        ensures same { (self.new.options ≡ self.old.options) × (self.new.world ≡ self.old.world) × (self.new.log ≡ self.old.log) }
    {
        if let Some(name) = name {
            self.names.sessions.push(name)?;
        }
        Ok(())
    }

    /// Where a session has no transaction open in a world, it has none open on the desk.
    fn settle(&mut self, world: &World, session: u32)
        ensures { self.new ≡ record self.old { desk = if is_open_at world.now.sessions session then self.old.desk else ended session self.old.desk } }
    {
        if !world.is_open(session) {
            self.desk.end(session as usize);
        }
    }

    /// A session takes a line, and its turn up to the answer: what it commits is in the log, where one is kept.
    fn take_turn<D: Disk>(
        &mut self,
        alloc: Global,
        world: &mut World,
        session: u32,
        line: SessionLine,
        disk: &mut D,
    ) -> Result<(), AppendError>
        requires awaits { Awaits world.old session line }
        requires kept { IsKept D.image world.old.core.entries self.old.log disk.old }
        ensures answered { OnOk result (HasAnswered session line world.old world.new) }
        ensures rest { self.new ≡ record self.old { log = self.new.log } }
        ensures kept { OnOk result (IsKept D.image world.new.core.entries self.new.log disk.new) }
        ensures stays { is_some self.new.log ≡ is_some self.old.log }
        // Of each state that was shown, whose script can be logged with the line.
        ensures logs { (setting : Setting) (state : State) (kinds : List (List Kind)) → ShowsState setting state world.old
            → CanBeLogged kinds (pushed setting session line) → LogsRun D.clock D.image_since (pushed setting session line) kinds
            (whole_of (pushed setting session line) state session) disk.old disk.new }
        ensures fault { IsErrOf result AppendError.DiskFault → Rose (D.faults disk.old) (D.faults disk.new) }
        ensures steady { ¬ IsErrOf result AppendError.DiskFault → D.faults disk.new ≡ D.faults disk.old }
    {
        logs_tell_orders();
        world.push(alloc, session, line)?;
        world.step_whole(alloc, session, &mut self.log, disk)
    }

    /// A session takes a line and its turn up to the answer. Where its transaction ends with that, the desk hears of it.
    pub(crate) fn take<D: Disk>(
        &mut self,
        alloc: Global,
        number: usize,
        line: SessionLine,
        disk: &mut D,
    ) -> Result<Vec<u8>, AppendError>
        requires known { (service : Service) × CanTake self.old.options service number line
            × KnowsBy self.old.options service self.old.desk self.old.names self.old.world }
        requires kept { KeepsUp D.image self.old disk.old }
        ensures takes { (service : Service) → CanTake self.old.options service number line
            → KnowsBy self.old.options service self.old.desk self.old.names self.old.world
            → IfOk result (λ told. Takes service number line told.items self.new) }
        ensures same { (self.new.options ≡ self.old.options) × (self.new.prunes ≡ self.old.prunes) }
        ensures kept { OnOk result (KeepsUp D.image self.new disk.new) }
        ensures stays { is_some self.new.log ≡ is_some self.old.log }
        ensures logs { (service : Service) → CanTake self.old.options service number line
            → KnowsBy self.old.options service self.old.desk self.old.names self.old.world
            → CanLog self.old.options (taken self.old.options service (Some (number, line)))
            → LogsAt D.clock D.image_since self.old.options (taken self.old.options service (Some (number, line))) disk.old disk.new }
        ensures fault { IsErrOf result AppendError.DiskFault → Rose (D.faults disk.old) (D.faults disk.new) }
        ensures steady { ¬ IsErrOf result AppendError.DiskFault → D.faults disk.new ≡ D.faults disk.old }
    {
        awaited_lines_are_the_machines();
        sessions_tell();
        let begins = is_begin(&line);
        let session = number as u32;
        let mut world = self.take_world(alloc)?;
        self.take_turn(alloc, &mut world, session, line, disk)?;
        self.settle(&world, session);
        let answer = told(alloc, &self.names, &world, session, begins)?;
        self.world = Some(world);
        Ok(answer)
    }

    /// A session that has an open transaction takes its turn, in which that is rolled back, and is told that it was dropped.
    fn drop_if_open(
        &self,
        alloc: Global,
        number: usize,
        world: &mut World,
        out: &mut Vec<u8>,
    ) -> Result<(), AllocError>
        requires { number < MOST_SESSIONS }
        ensures follows { is_some (place_at self.now.desk number).standing ≡ true
            → OnOk result (Follows (λ setting state. whole_of setting state number) world.old world.new) }
        ensures told { is_some (place_at self.now.desk number).standing ≡ true
            → OnOk result (out.new.items ≡ out.old.items ++ dropped_text (slice_index_or self.now.names.sessions number [])) }
        ensures kept { is_some (place_at self.now.desk number).standing ≡ false → (world.new ≡ world.old) × (out.new.items ≡ out.old.items) }
    {
        if !self.desk.is_open(number) {
            return Ok(());
        }
        roll_back(alloc, world, number as u32)?;
        print_dropped(name_at(&self.names, number), out)?;
        Ok(())
    }

    /// Each session that has an open transaction takes its turn, in which that is rolled back, and is told that it was
    /// dropped.
    pub(crate) fn drop_open_ones(
        &self,
        alloc: Global,
        world: &mut World,
        out: &mut Vec<u8>,
    ) -> Result<(), AllocError>
        ensures { (service : Service) → IsSound self.now.options service
            → KnowsSessions self.now.options service self.now.desk self.now.names world.old
            → OnOk result (Drops self.now.options service world.new out.old.items out.new.items) }
    {
        for number in 0..MOST_SESSIONS {
            self.drop_if_open(alloc, number, world, out)?;
        }
        Ok(())
    }
}
