//! What a session tells of where it stands and of its latest line.

ghost use Rattle.std.specs.Prelude.{◌≡◌, is_some};
ghost use Rattle.std.specs.Option.{option_copied};
ghost use Rattle.hy_event.specs.Sessions.{txn_at};
ghost use Rattle.hy_session.specs.Latest.{answered, latest_ending, latest_reply, open_prefix, phase_of};

use crate::Session;
use hy_bound::{Ending, Reply, Txn};
use hy_protocol::Phase;

impl Session {
    /// Whether it has a transaction open.
    pub fn is_open(&self) -> bool
        ensures { result ≡ is_some self.entry.now.now }
    {
        self.now.is_some()
    }

    /// How many entries the journal had at the BEGIN of its open transaction, if it has one.
    pub fn open_prefix(&self) -> Option<u32>
        ensures { result ≡ open_prefix self.entry.now }
    {
        let now = self.now.as_ref()?;
        Some(now.prefix)
    }

    /// The reply to the latest statement of its open transaction, if any was answered.
    pub fn latest_reply(&self) -> Option<&Reply>
        ensures { option_copied result ≡ latest_reply self.entry.now }
    {
        self.now.as_ref()?.replies.last()
    }

    /// How its latest transaction ended, if any has.
    pub fn latest_ending(&self) -> Option<Ending>
        ensures { result ≡ latest_ending self.entry.now }
    {
        let done = self.done.last()?;
        Some(done.ending)
    }

    /// The transaction of its script that it is at, if it is not at its end.
    pub fn txn(&self) -> Option<&Txn>
        ensures { option_copied result ≡ txn_at self.entry.now }
    {
        self.program.as_slice().get(self.done.len())
    }

    /// Where its open transaction stands, if it has one.
    pub fn phase(&self) -> Option<Phase>
        ensures { result ≡ phase_of self.entry.now }
    {
        let now = self.now.as_ref()?;
        Some(now.phase)
    }

    /// How many statements of its open transaction are answered; none where it has none.
    pub fn answered(&self) -> usize
        ensures { result ≡ answered self.entry.now }
    {
        match &self.now {
            Some(now) => now.replies.len(),
            None => 0,
        }
    }
}
