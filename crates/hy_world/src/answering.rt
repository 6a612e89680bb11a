//! Lines that come to sessions of a world, one after another, and what is told of the answers and of where sessions stand.

ghost use Rattle.std.specs.Prelude.{◌≡◌, OnErr, OnOk, length, slice_get};
ghost use Rattle.std.specs.Option.{option_copied};
ghost use Rattle.hy_world.specs.Lines.{Awaits, Grows, HasLine, is_open_at, open_prefix_at, latest_reply_at, latest_ending_at};

use crate::World;
use hy_bound::{Ending, Reply};
use hy_event::SessionLine;
use hy_session::Session;
use std::alloc::{AllocError, Global};

impl World {
    /// The script of a session that awaits the line grows by it. Err is for want of memory, and changes nothing that
    /// contracts see.
    pub fn push(&mut self, alloc: Global, number: u32, line: SessionLine) -> Result<(), AllocError>
        requires { Awaits self.old number line }
        ensures grows { OnOk result (Grows number line self.old self.new) }
        ensures after { OnOk result (HasLine number line self.old self.new) }
        ensures err { OnErr result (self.new ≡ self.old) }
    {
        hy_stepping::awaited_lines_are_the_machines();
        hy_stepping::lines_are_shown();
        let session = &mut self.sessions[number as usize];
        session.push(alloc, line)
    }

    /// Whether a session has a transaction open; one that is not there has none.
    pub fn is_open(&self, number: u32) -> bool
        ensures { result ≡ is_open_at self.now.sessions number }
    {
        match self.sessions.get(number as usize) {
            Some(session) => session.is_open(),
            None => false,
        }
    }

    /// How many entries the journal had at the BEGIN of a session's open transaction, if it has one.
    pub fn open_prefix(&self, number: u32) -> Option<u32>
        ensures { result ≡ open_prefix_at self.now.sessions number }
    {
        self.sessions.get(number as usize)?.open_prefix()
    }

    /// The reply to the latest statement of a session's open transaction, if any was answered.
    pub fn latest_reply(&self, number: u32) -> Option<&Reply>
        ensures { option_copied result ≡ latest_reply_at self.now.sessions number }
    {
        self.sessions.get(number as usize)?.latest_reply()
    }

    /// How a session's latest transaction ended, if any has.
    pub fn latest_ending(&self, number: u32) -> Option<Ending>
        ensures { result ≡ latest_ending_at self.now.sessions number }
    {
        self.sessions.get(number as usize)?.latest_ending()
    }

    /// The session of this number, if there is one.
    pub fn session(&self, number: u32) -> Option<&Session>
        ensures { option_copied result ≡ slice_get self.now.sessions number }
    {
        self.sessions.get(number as usize)
    }

    /// How many entries the journal has.
    pub fn entry_count(&self) -> usize
        ensures { result ≡ length self.now.core.entries }
    {
        self.core.since(0).len()
    }
}
