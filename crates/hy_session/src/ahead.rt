//! What of its next visit's work a session does ahead of it, while it has no part: where that visit answers a SELECT, the sum
//! of the rows that it has gathered, or their totals by GROUP BY, which it offers in shares where they are many.

ghost use Rattle.std.specs.Prelude.{◌≡◌, IfSome};
ghost use Rattle.hy_gathered.specs.Shares.{AreSharesOf};
ghost use Rattle.hy_session.specs.Ahead.{IsShareAhead, rows_ahead};

use crate::Session;
use hy_gathered::{GroupTally, Grouping, Pieces};
use hy_protocol::Phase;
use hy_visit::{Reader, keep_shares, keep_sum};
use std::alloc::Global;

impl Session {
    /// What it gathered, and by what that is grouped, where its next visit is the last one of a SELECT with GROUP BY.
    fn group_ahead(&self) -> Option<(Grouping, &Pieces)>
        ensures { IfSome result (λ ahead. ahead.1.now ≡ rows_ahead self.entry.now) }
    {
        let reader = self.reader_ahead()?;
        let grouping = reader.grouping()?;
        let Some(now) = &self.now else {
            return None;
        };
        let pieces = now.gathered.as_slice().get(0)?;
        Some((grouping, pieces))
    }

    /// How its statement is run, where its next visit is the last one of a SELECT.
    fn reader_ahead(&self) -> Option<&Reader> {
        let Phase::Working { visited, .. } = self.now.as_ref()?.phase else {
            return None;
        };
        if visited.saturating_add(1) < self.chunks {
            return None;
        }
        self.kept_reader()
    }

    /// Does ahead of its next visit what that visit would do with what was gathered before: the sum of the rows, where that
    /// is asked for. Where there is no memory for that, the visit does all the work.
    pub fn make_ready(&mut self, alloc: Global)
        ensures { self.new ≡ self.old }
    {
        let Some(reader) = self.reader_ahead() else {
            return;
        };
        let Some(column) = reader.summed() else {
            return;
        };
        if let Some(now) = &mut self.now {
            let _ = keep_sum(alloc, &mut now.gathered, column);
        }
    }

    /// How many shares of its next visit's work it offers.
    pub fn shares(&self) -> usize {
        match self.group_ahead() {
            Some((grouping, pieces)) => pieces.shares(grouping),
            None => 0,
        }
    }

    /// Makes the share of this number. None where it offers none, or for want of memory.
    pub fn make_share(&self, alloc: Global, number: usize) -> Option<GroupTally>
        ensures { IsShareAhead self.entry.now number result }
    {
        let (grouping, pieces) = self.group_ahead()?;
        match pieces.tally_share(alloc, grouping, number) {
            Ok(tallied) => Some(tallied),
            Err(_) => None,
        }
    }

    /// Takes what was made of its shares, in order, for its next visit. Where there is no memory for that, or one was not
    /// made, it lets them go, and the visit does all the work.
    pub fn take_shares(&mut self, alloc: Global, shares: &[Option<GroupTally>])
        requires { AreSharesOf (rows_ahead self.old) shares.now }
        ensures { self.new ≡ self.old }
    {
        if let Some(now) = &mut self.now {
            let _ = keep_shares(alloc, &mut now.gathered, shares);
        }
    }
}
