//! How the present statement is run, where it is a SELECT: made once for the statement, and kept from visit to visit.

ghost use Rattle.std.specs.Prelude.{◌≡◌, IfOk, IfSome, length};
ghost use Rattle.std.specs.Option.{option_copied, option_map_or};
ghost use Rattle.hy_event.specs.declared.Open.{Open};
ghost use Rattle.hy_session.specs.Preparing.{IsPlanAt, IsPlanFor, statement_in};
ghost use Rattle.hy_session.specs.Reading.{IsReading};

use crate::Session;
use hy_bound::Bound;
use hy_protocol::Phase;
use hy_visit::{Reader, reader_of};
use std::alloc::{AllocError, Global};

/// How a SELECT of a program is run.
#[derive(Drop)]
pub struct Prepared {
    /// The number of its transaction, from 0 on.
    pub txn: usize,
    /// Its number in the transaction, from 0 on.
    pub statement: usize,
    /// How it is run.
    pub reader: Reader,
}

impl Session {
    /// How many statements of its open transaction are answered; without one 0.
    pub(crate) fn count_answered(&self) -> usize
        ensures { result ≡ option_map_or (λ (now : Open). length now.replies) self.entry.now.now 0 }
    {
        match &self.now {
            Some(now) => now.replies.len(),
            None => 0,
        }
    }

    /// The statement at which its open transaction works.
    fn statement_at_work(&self) -> Option<&Bound>
        ensures { option_copied result ≡ statement_in self.entry.now }
    {
        let Some(now) = &self.now else {
            return None;
        };
        match now.phase {
            Phase::Working { .. } => self.statements().get(now.replies.len()),
            Phase::Stamping { .. } | Phase::Undoing { .. } => None,
        }
    }

    /// The statement of this number of its transaction is run so, which is kept.
    pub(crate) fn keep_reader(&mut self, number: usize, reader: Reader)
        requires { IsPlanAt self.old number reader }
        ensures { self.new ≡ self.old }
    {
        self.prepared = Some(Prepared {
            txn: self.done.len(),
            statement: number,
            reader,
        });
    }

    /// How its present statement is run, if that is kept.
    pub(crate) fn kept_reader(&self) -> Option<&Reader>
        ensures { IfSome result (λ reader. IsPlanFor self.entry.now reader.now) }
    {
        let number = self.count_answered();
        match &self.prepared {
            Some(kept) if kept.txn == self.done.len() && kept.statement == number => {
                Some(&kept.reader)
            }
            _ => None,
        }
    }

    /// How its present statement is run, which is a SELECT. Err is for want of memory.
    pub(crate) fn make_reader(&self, alloc: Global) -> Result<Reader, AllocError>
        requires { IsReading self.now }
        ensures { IfOk result (λ reader. IsPlanFor self.entry.now reader) }
    {
        match self.statement_at_work() {
            Some(statement) => reader_of(alloc, self.shapes.as_slice(), statement),
            None => unreachable!(),
        }
    }
}
