//! A visit of the core: BEGIN, COMMIT, and the ends of transactions.

ghost use Rattle.std.specs.Prelude.{◌≡◌, ◌^◌, ◌<◌, [], true, false, IfOk, OnOk, OnErr, length};
ghost use Rattle.hy_event.specs.declared.Need.{Need};
ghost use Rattle.hy_event.specs.Needs.{need_of};
ghost use Rattle.hy_event.specs.CoreTurns.{CoreEvent, entered_by};
ghost use Rattle.hy_protocol.specs.Turns.{Begins, Enters, Ends, refused};
ghost use Rattle.hy_event.specs.Turns.{Takes, TakesBy, beginning};
ghost use Rattle.hy_bound.specs.declared.Ending.TheVariants.{Committed};
ghost use Rattle.hy_journal.specs.Core.{core_begun};
ghost use Rattle.hy_session.specs.Entered.{has_entry};
ghost use Rattle.hy_session.specs.Near.{IsActive, NearCore};
ghost use Rattle.hy_session.specs.CoreSteps.{closed_by, left_by};

use crate::core_steps::CoreStep;
use crate::ends::written_places;
use crate::{OpenTransaction, Session};
use hy_bound::Ending;
use hy_core::Core;
use hy_notes::Changes;
use hy_plan::ReadLog;
use hy_protocol::{Phase, Progress};
use hy_value::Seq;
use std::alloc::{AllocError, Global};
use std::mem;

/// A transaction begins at the core, with room for notes that was spare. Err is for want of memory, and changes nothing.
fn begin_transaction(
    alloc: Global,
    core: &mut Core,
    spare: &mut Changes,
) -> Result<OpenTransaction, AllocError>
    requires clock { core.old.next < 2 ^ 63 }
    requires few { length core.old.entries < 2 ^ 32 }
    requires none_noted { spare.old.notes ≡ [] }
    requires none_saved { spare.old.levels ≡ [] }
    ensures now { IfOk result (λ now. now ≡ beginning core.old) }
    ensures ok { OnOk result (core.new ≡ core_begun core.old) }
    ensures err { OnErr result (core.new ≡ core.old) }
    ensures none_left { spare.new.notes ≡ [] }
    ensures no_savepoint_left { spare.new.levels ≡ [] }
{
    let prefix = core.since(0).len() as u32;
    let begun = core.begin()?;
    Ok(OpenTransaction {
        start: begun.start,
        prefix,
        cover: begun.cover,
        replies: Vec::new(alloc),
        records: ReadLog::new(alloc),
        took: Vec::new(alloc),
        gathered: Vec::new(alloc),
        notes: mem::replace(spare, Changes::new(alloc)),
        saved: Seq::new(alloc),
        wrote: Seq::new(alloc),
        time: 0,
        phase: Phase::Working {
            visited: 0,
            count: 0,
        },
    })
}

impl Session {
    /// It begins a transaction, with room for what it comes to. Err is for want of memory, and changes nothing.
    fn begin(&mut self, alloc: Global, core: &mut Core) -> Result<Progress, AllocError>
        requires clock { core.old.next < 2 ^ 63 }
        requires few { length core.old.entries < 2 ^ 32 }
        ensures turn { IfOk result (λ progress. TakesBy core.old self.old Begins progress self.new) }
        ensures core { OnOk result (core.new ≡ core_begun core.old) }
        ensures err { OnErr result (self.new ≡ self.old) }
        ensures core_err { OnErr result (core.new ≡ core.old) }
    {
        let counts = Vec::with_capacity(alloc, self.shapes.len())?;
        self.done.reserve(1)?;
        self.now = Some(begin_transaction(alloc, core, &mut self.spare)?);
        self.counts = counts;
        Ok(Progress::Answered)
    }

    /// Its open transaction enters the journal. Err is for want of memory, and changes nothing.
    fn enter(&mut self, alloc: Global, core: &mut Core) -> Result<Progress, AllocError>
        requires clock { core.old.next < 2 ^ 63 }
        requires at { length self.old.done < length self.old.program }
        ensures turn { IfOk result (λ progress. TakesBy core.old self.old Enters progress self.new) }
        ensures core { OnOk result (core.new ≡ entered_by self.old core.old self.old.now) }
        ensures err { OnErr result (self.new ≡ self.old) }
        ensures core_err { OnErr result (core.new ≡ core.old) }
    {
        let label = self.label();
        let Some(now) = &mut self.now else {
            return Ok(Progress::Moved);
        };
        let wrote = written_places(alloc, now)?;
        let time = core.enter(label, now.start, &mut now.notes)?;
        now.saved.truncate(0);
        now.wrote = wrote;
        now.time = time;
        now.phase = Phase::Stamping { visited: 0 };
        Ok(Progress::Moved)
    }

    /// Its open transaction is refused, and will be undone.
    fn refuse(&mut self, cause: Ending) -> Progress
        ensures { Takes self.old (refused cause) result self.new }
    {
        if let Some(now) = &mut self.now {
            now.phase = Phase::Undoing { visited: 0, cause };
        }
        Progress::Moved
    }

    /// Its open transaction, which has no entry, ends. Err is for want of memory, and changes nothing.
    fn close(
        &mut self,
        alloc: Global,
        core: &mut Core,
        cause: Ending,
    ) -> Result<Progress, AllocError>
        requires active { IsActive core.old.active self.old.now }
        requires at { length self.old.done < length self.old.program }
        ensures turn { IfOk result (λ progress. Takes self.old (Ends cause) progress self.new) }
        ensures core { OnOk result (core.new ≡ closed_by core.old self.old.now) }
        ensures err { OnErr result (self.new ≡ self.old) }
        ensures core_err { OnErr result (core.new ≡ core.old) }
    {
        let places = match &self.now {
            Some(now) => written_places(alloc, now)?,
            None => Seq::new(alloc),
        };
        if let Some(start) = self.end(alloc, cause, places) {
            core.close(start);
        }
        Ok(Progress::Answered)
    }

    /// Its open transaction ends, whose entry has this rank. It takes no memory.
    fn leave(&mut self, alloc: Global, core: &mut Core, rank: u32) -> Progress
        requires active { IsActive core.old.active self.old.now }
        requires at { length self.old.done < length self.old.program }
        requires entered { has_entry self.old ≡ true }
        ensures turn { Takes self.old (Ends (Committed rank)) result self.new }
        ensures core { core.new ≡ left_by core.old self.old.now }
    {
        if let Some(start) = self.end(alloc, Ending::Committed { rank }, Seq::new(alloc)) {
            core.leave(start);
        }
        Progress::Answered
    }

    /// Visits the core, which it needs. Err is for want of memory, and changes nothing; it never comes where its open
    /// transaction has its entry, so that the end for which others wait takes no memory.
    pub fn visit_core(&mut self, alloc: Global, core: &mut Core) -> Result<Progress, AllocError>
        requires needs { need_of self.old ≡ Need.Core }
        requires near { NearCore self.old core.old }
        ensures event { IfOk result (λ progress. CoreEvent self.old core.old progress self.new core.new) }
        ensures kept { OnErr result ((self.new ≡ self.old) × (core.new ≡ core.old)) }
        ensures entered { OnErr result (has_entry self.old ≡ false) }
    {
        match self.choose(alloc, core)? {
            CoreStep::Wait(by) => Ok(Progress::Blocked { by }),
            CoreStep::Begin => self.begin(alloc, core),
            CoreStep::Save => self.save(),
            CoreStep::Enter => self.enter(alloc, core),
            CoreStep::Refuse(cause) => Ok(self.refuse(cause)),
            CoreStep::Close(cause) => self.close(alloc, core, cause),
            CoreStep::Leave(rank) => Ok(self.leave(alloc, core, rank)),
        }
    }
}
