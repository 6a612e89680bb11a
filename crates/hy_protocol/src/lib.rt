//! What a session does next, told once for the machine, which defines what a run comes to, and for the engine, which
//! runs.
//!
//! A session asks where it stands (Asking): who is in its way, what a statement selects, whether a key is there, which
//! position is free, what its records are hit by. What it does then, its turn (Turns), follows from the answers: in a
//! visit of its statement (Statements), where it closes (Closing), and by where it stands (Sessions). The machine answers
//! from its snapshots; the engine answers in a visit from the chunk or the core that is visited (hy_event), which also
//! says what the turn makes of it.
#![tactic(auto)]

use hy_bound::Ending;
use hy_stamp::Label;

/// Where an open transaction stands. Which kind of visit comes next follows from its present statement.
#[derive(Clone, Copy, Debug, PartialEq, Eq)]
pub enum Phase {
    /// So many visits of its present statement are done, which selected so many rows of an UPDATE or a DELETE. Where all
    /// statements are answered nothing is done of what closes it.
    Working {
        /// The visits done.
        visited: u32,
        /// The rows selected so far.
        count: u64,
    },
    /// Its entry stands in the commit order, and so many of the chunks that it wrote are stamped.
    Stamping {
        /// The stamps done.
        visited: u32,
    },
    /// So many of the chunks that it wrote are undone.
    Undoing {
        /// The undo visits done.
        visited: u32,
        /// How it will end.
        cause: Ending,
    },
}

/// What a step came to, which is a visit of a part, if it is one.
#[derive(Clone, Copy, Debug, PartialEq, Eq)]
pub enum Progress {
    /// Nothing changed: a transaction stands between the entry of its commit and its end.
    Blocked {
        /// That transaction.
        by: Label,
    },
    /// The session went on, and has not answered yet.
    Moved,
    /// The session began a transaction, or gave a reply or an ending.
    Answered,
    /// The session's script is at its end.
    Ended,
}
