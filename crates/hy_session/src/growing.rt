//! A script that grows by a line.

ghost use Rattle.std.specs.Prelude.{◌≡◌, ◌≤◌, OnErr, OnOk, length};
ghost use Rattle.hy_event.specs.Lines.{committing, grown, with_last, with_line, with_statement};
ghost use Rattle.hy_limits.specs.declared.TheConstants.{MOST_TXNS};

use crate::Session;
use hy_bound::{Bound, Txn};
use hy_event::SessionLine;
use hy_value::Seq;
use std::alloc::{AllocError, Global};
use std::mem;

/// Adds a statement to the last transaction, if there is one. Err is for want of memory, and changes nothing.
fn add_statement(txns: &mut Vec<Txn>, statement: Bound) -> Result<(), AllocError>
    ensures ok { OnOk result (txns.new.items ≡ with_last (with_statement statement) txns.old.items) }
    ensures err { OnErr result (txns.new.items ≡ txns.old.items) }
{
    if let Some(txn) = txns.last_mut() {
        txn.statements.push(statement)?;
    }
    Ok(())
}

/// Makes the last transaction commit, if there is one.
fn commit_last(txns: &mut Vec<Txn>)
    ensures { txns.new.items ≡ with_last committing txns.old.items }
{
    if let Some(txn) = txns.last_mut() {
        txn.commits = true;
    }
}

/// Makes transactions those after a line. Err is for want of memory, and changes nothing.
fn grow(alloc: Global, txns: &mut Vec<Txn>, line: SessionLine) -> Result<(), AllocError>
    ensures ok { OnOk result (txns.new.items ≡ grown line txns.old.items) }
    ensures err { OnErr result (txns.new.items ≡ txns.old.items) }
{
    match line {
        SessionLine::Begin { read_only } => {
            txns.push(Txn {
                read_only,
                statements: Seq::new(alloc),
                commits: false,
            })?;
            Ok(())
        }
        SessionLine::Statement(statement) => add_statement(txns, statement),
        SessionLine::Commit => {
            commit_last(txns);
            Ok(())
        }
        SessionLine::Rollback => Ok(()),
    }
}

impl Session {
    /// Its script grows by a line, for which it has room; nothing else changes that contracts see. A session that waits for the line
    /// goes on with it. Err is for want of memory, and changes nothing.
    pub fn push(&mut self, alloc: Global, line: SessionLine) -> Result<(), AllocError>
        requires room { length (grown line self.old.program) ≤ MOST_TXNS }
        ensures ok { OnOk result (self.new ≡ with_line self.old line) }
        ensures err { OnErr result (self.new ≡ self.old) }
    {
        // A way to run a statement may be kept for numbers of which there was no statement so far.
        self.prepared = None;
        let mut txns = mem::replace(&mut self.program, Seq::new(alloc)).into_vec();
        let grew = grow(alloc, &mut txns, line);
        self.program = Seq::from_vec(txns);
        grew
    }
}
