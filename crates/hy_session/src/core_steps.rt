//! What a session does at the core, chosen before anything changes.

ghost use Rattle.std.specs.Prelude.{◌≡◌, ◌-◌, ◌^◌, ◌<◌, false, Some, IfOk, OnErr, length, drop};
ghost use Rattle.hy_event.specs.declared.Need.{Need};
ghost use Rattle.hy_event.specs.declared.SessionData.{SessionData};
ghost use Rattle.hy_event.specs.Sessions.{label_of, txn_at};
ghost use Rattle.hy_event.specs.Needs.{need_of, phase_need};
ghost use Rattle.hy_event.specs.CoreTurns.{core_turn, phase_turn, invalid_by};
ghost use Rattle.hy_protocol.specs.Turns.{is_stamping};
ghost use Rattle.hy_journal.specs.Core.{blocked_by};
ghost use Rattle.hy_validate.specs.Hits.{first_invalid};
ghost use Rattle.hy_session.specs.Entered.{has_entry};
ghost use Rattle.hy_session.specs.CoreSteps.{leaves, turn_by, unless_blocked, commit_turn, validated_turn};

use crate::numbers::elements_behind;
use crate::touched::are_touched;
use crate::{OpenTransaction, Session};
use hy_bound::{Ending, Record, Txn};
use hy_core::Core;
use hy_protocol::Phase;
use hy_stamp::Label;
use hy_validate::{Invalid, Tree, validate_with};
use std::alloc::{AllocError, Global};

/// What a session does at the core.
#[derive(Clone, Copy, Debug, PartialEq, Eq)]
pub enum CoreStep {
    /// It waits for this transaction, which stands between its entry and its end.
    Wait(Label),
    /// It begins a transaction.
    Begin,
    /// Its open transaction answers its present statement, which opens or closes savepoints.
    Save,
    /// Its open transaction enters the journal.
    Enter,
    /// Its open transaction is refused so.
    Refuse(Ending),
    /// Its open transaction, which has no entry, ends so.
    Close(Ending),
    /// Its open transaction ends, whose entry has this rank.
    Leave(u32),
}

/// A core step is taken unless another transaction stands between its entry and its end.
fn unless_marked(core: &Core, label: Label, step: CoreStep) -> CoreStep
    ensures turn { (session : SessionData)
        → turn_by result session core.now ≡ unless_blocked core.now (blocked_by core.now label) (turn_by step session core.now) }
    ensures stays { leaves step ≡ false → leaves result ≡ false }
{
    match core.blocked(label) {
        Some(by) => CoreStep::Wait(by),
        None => step,
    }
}

/// How a transaction of these records ends that is refused by validation.
fn refusal(records: &[Record], invalid: Invalid) -> Ending
    ensures { result ≡ invalid_by records.now invalid }
{
    let statement = match records.get(invalid.number as usize) {
        Some(record) => record.statement,
        None => 0,
    };
    Ending::Invalid {
        table: invalid.table,
        pos: invalid.pos,
        other: invalid.other,
        statement,
    }
}

/// COMMIT of a transaction that wrote: validation refuses it, or it enters the journal.
#[tactic(auto, using(crate::proofs::OtherTables::none_invalid))]
fn validate(alloc: Global, core: &Core, now: &OpenTransaction) -> Result<CoreStep, AllocError>
    ensures turn { IfOk result (λ step. (session : SessionData) → session.now ≡ Some now.now
        → validated_turn session core.now now.now (first_invalid now.now.records (drop now.now.prefix core.now.entries)) ≡ turn_by step session core.now) }
    ensures stays { IfOk result (λ step. leaves step ≡ false) }
{
    let records = now.records.records();
    let since = elements_behind(core.since(0), now.prefix as usize);
    // Most often nobody committed meanwhile, or all who did wrote other tables, and nothing is looked for.
    if !are_touched(records, since) {
        return Ok(CoreStep::Enter);
    }
    let tree = Tree::build(alloc, records)?;
    match validate_with(&tree, since) {
        Ok(()) => Ok(CoreStep::Enter),
        Err(invalid) => Ok(CoreStep::Refuse(refusal(records, invalid))),
    }
}

/// COMMIT of a transaction of this label.
fn commit(
    alloc: Global,
    core: &Core,
    label: Label,
    now: &OpenTransaction,
) -> Result<CoreStep, AllocError>
    ensures turn { IfOk result (λ step. (session : SessionData) → session.now ≡ Some now.now → label_of session ≡ label
        → unless_blocked core.now (blocked_by core.now label) (commit_turn session core.now now.now now.now.notes) ≡ turn_by step session core.now) }
    ensures stays { IfOk result (λ step. leaves step ≡ false) }
{
    match core.blocked(label) {
        Some(by) => Ok(CoreStep::Wait(by)),
        None if now.notes.len() == 0 => Ok(CoreStep::Close(Ending::Read)),
        None => validate(alloc, core, now),
    }
}

/// The rank of the newest entry of the journal.
fn last_rank(core: &Core) -> u32
    requires { length core.now.entries < 2 ^ 32 }
    ensures { result ≡ length core.now.entries - 1 }
{
    core.since(0).len().saturating_sub(1) as u32
}

impl Session {
    /// The label of its transaction that is open or comes next.
    pub(crate) fn label(&self) -> Label
        requires { length self.now.done < length self.now.program }
        ensures { result ≡ label_of self.entry.now }
    {
        Label {
            session: self.number,
            txn: self.done.len() as u32 + 1,
        }
    }

    /// What its open transaction does at the core, by where it stands.
    fn choose_by(
        &self,
        alloc: Global,
        core: &Core,
        txn: &Txn,
        now: &OpenTransaction,
    ) -> Result<CoreStep, AllocError>
        requires at_txn { txn_at self.now ≡ Some txn.now }
        requires is_open { self.now.now ≡ Some now.now }
        requires needs { phase_need self.now txn.now now.now now.now.phase ≡ Need.Core }
        requires at { length self.now.done < length self.now.program }
        requires few { length core.now.entries < 2 ^ 32 }
        ensures turn { IfOk result (λ step. phase_turn self.entry.now core.now txn.now now.now now.now.phase ≡ Some (turn_by step self.entry.now core.now)) }
        ensures leaves { IfOk result (λ step. leaves step ≡ is_stamping now.now.phase) }
        ensures entered { OnErr result (is_stamping now.now.phase ≡ false) }
    {
        let label = self.label();
        match now.phase {
            Phase::Working { .. } => match txn.statements.as_slice().get(now.replies.len()) {
                Some(_) => Ok(unless_marked(core, label, CoreStep::Save)),
                None if txn.commits => commit(alloc, core, label, now),
                None => Ok(unless_marked(core, label, CoreStep::Close(Ending::RolledBack))),
            },
            Phase::Stamping { .. } => Ok(CoreStep::Leave(last_rank(core))),
            Phase::Undoing { cause, .. } => Ok(unless_marked(core, label, CoreStep::Close(cause))),
        }
    }

    /// What it does at the core, which it needs. Err is for want of memory, and never comes between its transaction's entry
    /// and its end.
    pub(crate) fn choose(&self, alloc: Global, core: &Core) -> Result<CoreStep, AllocError>
        requires needs { need_of self.now ≡ Need.Core }
        requires few { length core.now.entries < 2 ^ 32 }
        ensures turn { IfOk result (λ step. core_turn self.entry.now core.now ≡ Some (turn_by step self.entry.now core.now)) }
        ensures leaves { IfOk result (λ step. leaves step ≡ has_entry self.entry.now) }
        ensures entered { OnErr result (has_entry self.entry.now ≡ false) }
    {
        match self.program.as_slice().get(self.done.len()) {
            None => unreachable!(),
            Some(txn) => match &self.now {
                None => Ok(unless_marked(core, self.label(), CoreStep::Begin)),
                Some(now) => self.choose_by(alloc, core, txn, now),
            },
        }
    }
}
