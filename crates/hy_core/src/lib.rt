//! The core: the clock, the starts of the open transactions, the journal, and the mark of the one that commits (the
//! shared part of HyPer's multiversion concurrency control: Neumann, Mühlbauer, Kemper, "Fast Serializable
//! Multi-Version Concurrency Control for Main-Memory Database Systems", SIGMOD 2015).
#![tactic(auto)]

ghost use Rattle.std.specs.Prelude.{◌≡◌, ◌^◌, ◌+◌, ◌++◌, ◌∷◌, ◌<◌, ◌≤◌, [], None, Contains, IfOk, OnOk, OnErr, length, drop};
ghost use Rattle.hy_journal.specs.Core.{blocked_by, core_begun, core_entered, core_left, core_closed};

use hy_journal::{Entry, Journal};
use hy_notes::Changes;
use hy_prune::{Active, Cover};
use hy_stamp::{Clock, Label};
use std::alloc::{AllocError, Global};
use std::marker::Model;

/// What a transaction begins with.
#[derive(Drop)]
pub struct Begun {
    /// Its start time.
    pub start: u64,
    /// How many entries the journal has: these it reads.
    pub prefix: usize,
    /// The open starts, its own among them, and the next time. Pruning by it hides nothing from anyone who is open.
    pub cover: Cover,
}

/// The core. Contracts see its plain data.
#[derive(Drop)]
pub struct Core {
    clock: Clock,
    active: Active,
    journal: Journal,
    mark: Option<Label>,
}

impl Model for Core {
    ghost use Rattle.hy_journal.specs.declared.CoreData.{CoreData};
    ghost use Rattle.hy_journal.specs.contracts.CoreData as core_data;
    ghost use Rattle.hy_core.specs.Sound.{AreGiven};

    ghost Value = { CoreData };

    ghost coded = { core_data.the_row.coded };

    ghost view = { λ a. record { next = a.clock; active = a.active.starts; entries = a.journal.entries; mark = a.mark } };

    ghost invariant = { λ a. AreGiven a.clock a.active.starts };
}

impl Core {
    /// A core whose clock gives 1 next, with an empty journal. It takes no memory.
    pub fn new(alloc: Global) -> Core
        ensures next { result.next ≡ 1 }
        ensures active { result.active ≡ [] }
        ensures entries { result.entries ≡ [] }
        ensures mark { result.mark ≡ None }
    {
        Core {
            clock: Clock::new(),
            active: Active::new(alloc),
            journal: Journal::new(alloc),
            mark: None,
        }
    }

    /// The next time of the clock.
    pub fn next(&self) -> u64
        ensures { result ≡ self.now.next }
    {
        self.clock.next()
    }

    /// The transaction that stands between the entry of its commit and its end, if it is another than this one: until
    /// its end nobody else begins, enters or ends.
    pub fn blocked(&self, label: Label) -> Option<Label>
        ensures { result ≡ blocked_by self.now label }
    {
        match self.mark {
            Some(marked) if marked != label => Some(marked),
            _ => None,
        }
    }

    /// Begins a transaction: its start is the clock's next time, and it reads what the journal has. Err is for want of
    /// memory, and leaves the core as it was.
    pub fn begin(&mut self) -> Result<Begun, AllocError>
        requires { self.old.next < 2 ^ 63 }
        ensures start { IfOk result (λ begun. begun.start ≡ self.old.next) }
        ensures prefix { IfOk result (λ begun. begun.prefix ≡ length self.old.entries) }
        ensures starts { IfOk result (λ begun. begun.cover.starts ≡ self.old.active ++ self.old.next ∷ []) }
        ensures next { IfOk result (λ begun. begun.cover.next ≡ self.old.next + 1) }
        ensures ok { OnOk result (self.new ≡ core_begun self.old) }
        ensures err { OnErr result (self.new ≡ self.old) }
    {
        self.active.reserve(1)?;
        let start = self.clock.next();
        self.active.enter_reserved(start);
        match self.active.cover(start + 1) {
            Ok(cover) => {
                let _start = self.clock.draw();
                Ok(Begun {
                    start,
                    prefix: self.journal.len(),
                    cover,
                })
            }
            Err(error) => {
                self.active.leave(start);
                Err(error)
            }
        }
    }

    /// Enters a transaction of this start into the journal with what it noted, and marks it: none of the notes are left,
    /// and there is never less room for others. Its commit time, which is answered, is the clock's next time. Err is for
    /// want of memory, and leaves the core and the notes as they were.
    pub fn enter(
        &mut self,
        label: Label,
        start: u64,
        changes: &mut Changes,
    ) -> Result<u64, AllocError>
        requires { self.old.next < 2 ^ 63 }
        ensures time { IfOk result (λ time. time ≡ self.old.next) }
        ensures ok { OnOk result (self.new ≡ core_entered self.old label start changes.old.notes) }
        ensures none { OnOk result (changes.new.notes ≡ []) }
        ensures no_level { OnOk result (changes.new.levels ≡ []) }
        ensures kept { OnErr result (self.new ≡ self.old) }
        ensures err { OnErr result (changes.new ≡ changes.old) }
        ensures room { changes.old.room ≤ changes.new.room }
        ensures width { changes.old.width ≤ changes.new.width }
    {
        self.journal.reserve(1)?;
        let notes = changes.take_all()?;
        let time = self.clock.draw();
        self.journal.append_reserved(Entry {
            label,
            start,
            time,
            notes,
        });
        self.mark = Some(label);
        Ok(time)
    }

    /// Ends the marked transaction, whose start this is: nobody is marked any more.
    pub fn leave(&mut self, start: u64)
        requires { Contains self.old.active start }
        ensures { self.new ≡ core_left self.old start }
    {
        self.close(start);
        self.mark = None;
    }

    /// Ends a transaction of this start that has no entry.
    pub fn close(&mut self, start: u64)
        requires { Contains self.old.active start }
        ensures { self.new ≡ core_closed self.old start }
    {
        self.active.leave(start);
    }

    /// The entries of its journal.
    pub fn into_entries(self) -> Vec<Entry>
        ensures { result.items ≡ self.entries }
    {
        let Core { journal, .. } = self;
        journal.into_entries()
    }

    /// The entries behind a prefix of so many.
    pub fn since(&self, prefix: usize) -> &[Entry]
        requires { prefix ≤ length self.now.entries }
        ensures { result.now ≡ drop prefix self.now.entries }
    {
        self.journal.since(prefix)
    }
}
