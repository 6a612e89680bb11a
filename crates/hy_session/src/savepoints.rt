//! Statements that open or close savepoints, which are answered at the core.

ghost use Rattle.std.specs.Prelude.{◌≡◌, [], length, map, IfOk, OnErr, OnOk};
ghost use Rattle.std.specs.Option.{option_copied};
ghost use Rattle.hy_bound.specs.Savepoints.{saved_after};
ghost use Rattle.hy_event.specs.Sessions.{savepoint_of};
ghost use Rattle.hy_event.specs.Turns.{Takes, after_saving, saved_of};
ghost use Rattle.hy_session.specs.CoreSteps.{open_after, reply_if, saving_of, saving_reply};
ghost use Rattle.hy_session.specs.Savepoints.{opened_by, savepoints};

use crate::answers::{Answer, push_answer, reserve_answer};
use crate::{OpenTransaction, Session};
use hy_bound::{Bound, Reply, SavedName, keep_open};
use hy_notes::Changes;
use hy_protocol::{Phase, Progress};
use hy_value::Seq;
use std::alloc::{AllocError, Global};

/// The reply to a statement that opens or closes savepoints; none to any other.
fn saving_reply(statement: &Bound) -> Option<Reply>
    ensures { result ≡ saving_reply statement.now }
{
    match statement {
        Bound::Savepoint { .. } => Some(Reply::Saved),
        Bound::RollbackTo { .. } => Some(Reply::Back),
        Bound::Release { .. } => Some(Reply::Released),
        _ => None,
    }
}

/// Opens a level of the notes where a statement makes a savepoint. Err is for want of memory, and changes nothing.
fn open_for(notes: &mut Changes, statement: &Bound) -> Result<(), AllocError>
    ensures levels { OnOk result (notes.new.levels ≡ opened_by statement.now notes.old.levels) }
    ensures notes { notes.new.notes ≡ notes.old.notes }
    ensures err { OnErr result (notes.new ≡ notes.old) }
{
    match statement {
        Bound::Savepoint { .. } => notes.open_level(),
        _ => Ok(()),
    }
}

/// Makes the names and the levels of the notes those of the savepoints behind a statement. Err is for want of memory, and
/// changes nothing.
fn keep_savepoints(
    saved: &mut Seq<SavedName>,
    notes: &mut Changes,
    statement: &Bound,
) -> Result<(), AllocError>
    requires long { length saved.old ≡ length notes.old.levels }
    ensures saved { OnOk result (savepoints saved.new notes.new.levels
        ≡ map saved_of (saved_after statement.now (map savepoint_of (savepoints saved.old notes.old.levels)) [])) }
    ensures long { length saved.new ≡ length notes.new.levels }
    ensures notes { notes.new.notes ≡ notes.old.notes }
    ensures names_kept { OnErr result (saved.new ≡ saved.old) }
    ensures levels_kept { OnErr result (notes.new.levels ≡ notes.old.levels) }
{
    open_for(notes, statement)?;
    let kept = keep_open(saved, statement);
    notes.keep_levels(saved.len());
    kept
}

impl OpenTransaction {
    /// Its savepoints are those behind a statement, which is answered so. Err is for want of memory, and changes nothing.
    fn save(&mut self, statement: &Bound, reply: Reply) -> Result<(), AllocError>
        ensures ok { OnOk result (self.new ≡ after_saving statement.now reply self.old) }
        ensures err { OnErr result (self.new ≡ self.old) }
    {
        reserve_answer(&mut self.replies, &mut self.took, &mut self.records, 0)?;
        keep_savepoints(&mut self.saved, &mut self.notes, statement)?;
        let answer = Answer {
            reply,
            took: None,
            records: Seq::new(*self.replies.allocator()),
        };
        push_answer(&mut self.replies, &mut self.took, &mut self.records, answer);
        self.gathered.clear();
        self.phase = Phase::Working {
            visited: 0,
            count: 0,
        };
        Ok(())
    }

    /// This statement of its script, if it is there and opens or closes savepoints, is answered. Err is for want of memory,
    /// and changes nothing.
    fn save_by(&mut self, statement: Option<&Bound>) -> Result<Progress, AllocError>
        ensures turn { IfOk result (λ progress.
            (self.new, progress) ≡ open_after (option_copied statement.entry) (reply_if (option_copied statement.entry)) self.old) }
        ensures err { OnErr result (self.new ≡ self.old) }
    {
        let Some(statement) = statement else {
            return Ok(Progress::Ended);
        };
        let Some(reply) = saving_reply(statement) else {
            return Ok(Progress::Ended);
        };
        self.save(statement, reply)?;
        Ok(Progress::Answered)
    }
}

impl Session {
    /// Its present statement, which opens or closes savepoints, is answered. Err is for want of memory, and changes nothing.
    pub(crate) fn save(&mut self) -> Result<Progress, AllocError>
        ensures turn { IfOk result (λ progress. Takes self.old (saving_of self.old) progress self.new) }
        ensures err { OnErr result (self.new ≡ self.old) }
    {
        let Some(txn) = self.program.as_slice().get(self.done.len()) else {
            return Ok(Progress::Ended);
        };
        let Some(now) = &mut self.now else {
            return Ok(Progress::Ended);
        };
        let number = now.replies.len();
        now.save_by(txn.statements.as_slice().get(number))
    }
}
