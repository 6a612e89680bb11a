//! The start times of the open transactions.

ghost use Rattle.std.specs.Prelude.{◌≡◌, ◌+◌, ◌<◌, ◌≤◌, ◌==◌, [], ◌∷◌, ◌++◌, All, Contains, IfOk, OnOk, OnErr, position};

use crate::{Cover, Starts};
use std::alloc::{AllocError, Global};
use std::marker::Model;

/// The index of the first of these times that is this one.
fn index_of(times: &[u64], time: u64) -> Option<usize>
    ensures { result ≡ position (λ other. other == time) times.now }
{
    times.iter().position(|other| *other == time)
}

/// The starts of the open transactions, ascending. Room is made before a start is entered, so that entering
/// needs no memory.
#[derive(Drop)]
pub struct Active {
    starts: Vec<u64>,
}

impl Model for Active {
    ghost use Rattle.std.specs.Prelude.{◌-◌, vec_len, vec_capacity};
    ghost use Rattle.hy_prune.specs.OpenStarts.{OpenStarts, open_starts_code, Rise};

    ghost Value = { OpenStarts };

    ghost coded = { open_starts_code };

    ghost view = { λ a. record { starts = a.starts.items; room = vec_capacity a.starts - vec_len a.starts } };

    ghost invariant = { λ a. Rise a.starts.items };
}

impl Active {
    ghost use Rattle.hy_prune.specs.OpenStarts.{Rise, without};

    /// No open transactions. It takes no memory.
    pub fn new(alloc: Global) -> Active
        ensures { result.starts ≡ [] }
    {
        Active {
            starts: Vec::new(alloc),
        }
    }

    /// Makes room for so many more starts. It fails only where that room was missing; the starts stay, and
    /// there is never less room.
    pub fn reserve(&mut self, additional: usize) -> Result<(), AllocError>
        ensures starts { self.new.starts ≡ self.old.starts }
        ensures ok { OnOk result (additional ≤ self.new.room) }
        ensures kept { self.old.room ≤ self.new.room }
        ensures err { OnErr result (self.old.room < additional) }
    {
        self.starts.reserve(additional)
    }

    /// Enters a start that is later than all that are open, where there is room for it. It takes no memory,
    /// and no more room than that.
    pub fn enter_reserved(&mut self, start: u64)
        requires room { 0 < self.old.room }
        requires latest { All (λ other. other < start) self.old.starts }
        ensures starts { self.new.starts ≡ self.old.starts ++ start ∷ [] }
        ensures room { self.old.room ≤ self.new.room + 1 }
    {
        let _entered = self.starts.push(start);
    }

    /// Takes a start out that is open. Its room serves the next one.
    pub fn leave(&mut self, start: u64)
        requires { Contains self.old.starts start }
        ensures starts { self.new.starts ≡ without start self.old.starts }
        ensures room { self.old.room + 1 ≤ self.new.room }
    {
        if let Some(index) = index_of(self.starts.as_slice(), start) {
            let _left = self.starts.remove(index);
        }
    }

    /// The open starts, and the time that the clock would give next. Err is for want of memory.
    pub fn cover(&self, next: u64) -> Result<Cover, AllocError>
        ensures starts { IfOk result (λ cover. cover.starts ≡ self.now.starts) }
        ensures rise { IfOk result (λ cover. Rise cover.starts) }
        ensures next { IfOk result (λ cover. cover.next ≡ next) }
    {
        let starts = Vec::from_slice(*self.starts.allocator(), self.starts.as_slice())?;
        Ok(Cover {
            starts: Starts::from_rising(starts),
            next,
        })
    }
}
