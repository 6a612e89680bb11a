//! Times and identifiers: who wrote a version, and when it counts.
//!
//! One clock gives start and commit times. A transaction's identifier is above every time, so that a
//! version marked by an identifier is newer than any start (HyPer's scheme: Neumann, Mühlbauer, Kemper,
//! "Fast Serializable Multi-Version Concurrency Control for Main-Memory Database Systems", SIGMOD 2015).
#![tactic(auto)]

ghost use Rattle.std.specs.Prelude.{◌≡◌, ℕ, ◌+◌, ◌*◌, ◌^◌, ◌<◌, ◌≤◌};
ghost use Rattle.hy_stamp.specs.Times.{id_of, IsLabel};
ghost use Rattle.hy_stamp.specs.declared.Label.{Label};

use std::marker::Model;

/// A transaction's name: its session's number in file order, from 0, and its own number there, from 1.
#[derive(Clone, Copy, Debug, PartialEq, Eq)]
pub struct Label {
    /// The session's number, from 0.
    pub session: u32,
    /// The transaction's number in its session, from 1.
    pub txn: u32,
}

impl Label {
    /// The identifier: 2^63 + 65536 * session + txn.
    pub fn id(&self) -> u64
        requires { IsLabel self.now }
        ensures { result ≡ id_of self.now }
    {
        (1 << 63) + 65536 * u64::from(self.session) + u64::from(self.txn)
    }
}

/// Who wrote a version, and its mark: the writer's identifier until it commits, its commit time from
/// then on.
#[derive(Clone, Copy, Debug, PartialEq, Eq)]
pub struct Stamp {
    /// The writer.
    pub owner: Label,
    /// An identifier or a commit time.
    pub mark: u64,
}

/// Who looks at versions: an open transaction's identifier and start time.
#[derive(Clone, Copy, Debug, PartialEq, Eq)]
pub struct Viewer {
    /// The identifier of the transaction.
    pub id: u64,
    /// Its start time.
    pub start: u64,
}

/// The one clock. Contracts see the next time that it will give.
#[derive(Drop, Debug)]
pub struct Clock {
    next: u64,
}

impl Model for Clock {
    ghost use Rattle.std.specs.Prelude.{ℕ};

    ghost Value = { ℕ };

    ghost view = { λ a. a.next };
}

impl Clock {
    /// A clock that begins at 1.
    pub fn new() -> Clock
        ensures { result ≡ 1 }
    {
        Clock { next: 1 }
    }

    /// The time that the next draw will answer.
    pub fn next(&self) -> u64
        ensures { result ≡ self.now }
    {
        self.next
    }

    /// Answers the next time, and raises the clock by one. Times stay below every identifier.
    pub fn draw(&mut self) -> u64
        requires { self.old < 2 ^ 63 }
        ensures time { result ≡ self.old }
        ensures raised { self.new ≡ self.old + 1 }
    {
        let time = self.next;
        self.next += 1;
        time
    }
}

/// Identifiers differ where labels do, and every identifier exceeds every time that is drawn.
pub fn identifiers_are_apart()
    ensures one { (a b : Label) → IsLabel a → IsLabel b → id_of a ≡ id_of b → a ≡ b }
    ensures above { (a : Label) (time : ℕ) → time < 2 ^ 63 → time < id_of a }
{}
