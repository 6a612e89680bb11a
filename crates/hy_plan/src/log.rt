//! The log of what a transaction reads.

ghost use Rattle.std.specs.Prelude.{◌≡◌, ◌+◌, ◌<◌, ◌≤◌, [], ◌∷◌, ◌++◌, IsOk, OnOk, OnErr};

use hy_bound::{Pred, Record, Side};
use hy_value::Value;
use std::alloc::{AllocError, Global};
use std::marker::Model;

/// The records of a transaction, in the order of its reads. Room is made before a read, so that logging
/// what was read needs no memory.
#[derive(Drop)]
pub struct ReadLog {
    entries: Vec<Record>,
}

impl Model for ReadLog {
    ghost use Rattle.std.specs.Prelude.{◌-◌, vec_len, vec_capacity};
    ghost use Rattle.hy_plan.specs.Logs.{Log, log_code};

    ghost Value = { Log };

    ghost coded = { log_code };

    ghost view = { λ a. record { entries = a.entries.items; room = vec_capacity a.entries - vec_len a.entries } };
}

impl ReadLog {
    /// No records. It takes no memory.
    pub fn new(alloc: Global) -> ReadLog
        ensures { result.entries ≡ [] }
    {
        ReadLog {
            entries: Vec::new(alloc),
        }
    }

    /// Makes room for so many more records. It fails only where that room was missing; the records stay, and
    /// there is never less room.
    pub fn reserve(&mut self, additional: usize) -> Result<(), AllocError>
        ensures entries { self.new.entries ≡ self.old.entries }
        ensures ok { OnOk result (additional ≤ self.new.room) }
        ensures kept { self.old.room ≤ self.new.room }
        ensures err { OnErr result (self.old.room < additional) }
    {
        self.entries.reserve(additional)
    }

    /// Adds a record at the end, where there is room for it. It takes no memory, and no more room than that.
    pub fn push_reserved(&mut self, entry: Record)
        requires { 0 < self.old.room }
        ensures entries { self.new.entries ≡ self.old.entries ++ entry ∷ [] }
        ensures room { self.old.room ≤ self.new.room + 1 }
    {
        let _: Option<(Value, Side, Pred)> = None;
        let _pushed = self.entries.push(entry);
    }

    /// The records, in the order in which they were added.
    pub fn records(&self) -> &[Record]
        ensures { result.now ≡ self.now.entries }
    {
        self.entries.as_slice()
    }
}
