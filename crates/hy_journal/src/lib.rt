//! The journal of committed transactions that wrote: against it a later commit is validated (precision locking
//! over the undo buffers of recent commits: Neumann, Mühlbauer, Kemper, "Fast Serializable Multi-Version
//! Concurrency Control for Main-Memory Database Systems", SIGMOD 2015).
#![tactic(auto)]

ghost use Rattle.std.specs.Prelude.{◌≡◌, ◌+◌, ◌<◌, ◌≤◌, [], ◌∷◌, ◌++◌, ◌↔◌, IsTrue, OnOk, OnErr, length, drop};

use hy_stamp::Label;
use hy_value::{Changes, Seq};
use std::alloc::{AllocError, Global};
use std::marker::Model;

/// An entry of the journal. Its index, from 0, is its transaction's rank in the commit order.
#[derive(Drop)]
pub struct Entry {
    /// The transaction.
    pub label: Label,
    /// Its start time.
    pub start: u64,
    /// Its commit time.
    pub time: u64,
    /// What it wrote, by table and then position, absent to absent too.
    pub notes: Changes,
}

/// The plain data of the core: what all transactions share beside the chunks.
#[derive(Drop)]
pub struct CoreData {
    /// The next time of the clock.
    pub next: u64,
    /// The starts of the open transactions, ascending.
    pub active: Seq<u64>,
    /// The entries of the journal, in the order of their commits.
    pub entries: Seq<Entry>,
    /// The transaction that stands between the entry of its commit and its end, if there is one.
    pub mark: Option<Label>,
}

/// The entries, in the order of their commits. Room is made before an entry is added, so that adding it needs
/// no memory.
#[derive(Drop)]
pub struct Journal {
    entries: Vec<Entry>,
}

impl Model for Journal {
    ghost use Rattle.std.specs.Prelude.{◌-◌, vec_len, vec_capacity};
    ghost use Rattle.hy_journal.specs.Journaled.{Journaled, journaled_code};

    ghost Value = { Journaled };

    ghost coded = { journaled_code };

    ghost view = { λ a. record { entries = a.entries.items; room = vec_capacity a.entries - vec_len a.entries } };
}

impl Journal {
    /// No entries. It takes no memory.
    pub fn new(alloc: Global) -> Journal
        ensures { result.entries ≡ [] }
    {
        Journal {
            entries: Vec::new(alloc),
        }
    }

    /// Makes room for so many more entries. It fails only where that room was missing; the entries stay, and
    /// there is never less room.
    pub fn reserve(&mut self, additional: usize) -> Result<(), AllocError>
        ensures entries { self.new.entries ≡ self.old.entries }
        ensures ok { OnOk result (additional ≤ self.new.room) }
        ensures kept { self.old.room ≤ self.new.room }
        ensures err { OnErr result (self.old.room < additional) }
    {
        self.entries.reserve(additional)
    }

    /// Adds an entry at the end, where there is room for it. It takes no memory, and no more room than that.
    pub fn append_reserved(&mut self, entry: Entry)
        requires { 0 < self.old.room }
        ensures entries { self.new.entries ≡ self.old.entries ++ entry ∷ [] }
        ensures room { self.old.room ≤ self.new.room + 1 }
    {
        let _added = self.entries.push(entry);
    }

    /// How many entries there are.
    pub fn len(&self) -> usize
        ensures { result ≡ length self.now.entries }
    {
        self.entries.len()
    }

    /// Whether there are none.
    pub fn is_empty(&self) -> bool
        ensures { IsTrue result ↔ (length self.now.entries ≡ 0) }
    {
        self.entries.is_empty()
    }

    /// The entries.
    pub fn into_entries(self) -> Vec<Entry>
        ensures { result.items ≡ self.entries }
    {
        self.entries
    }

    /// The entries behind a prefix of so many.
    pub fn since(&self, prefix: usize) -> &[Entry]
        requires { prefix ≤ length self.now.entries }
        ensures { result.now ≡ drop prefix self.now.entries }
    {
        let (_before, since) = self.entries.as_slice().split_at(prefix);
        since
    }
}
