//! The snapshot machine: what a run comes to, step by step, as definitions that no program computes.
//!
//! A state is the commit order, a mark, and where each session stands (States). What a session does next follows from what
//! it finds there (Turns), as it does in the engine, and what that makes of the state is its step (Steps). A run is a
//! list of steps (Runs), and what the last state comes to is its outcome (Outcomes).
//!
//! A transaction reads the tables as they were after the commits that stood before its BEGIN, overlaid by its
//! own writes (snapshot isolation: Berenson et al., "A Critique of ANSI SQL Isolation Levels", SIGMOD 1995),
//! and is validated by what it read when it commits (precision locking: Jordan, Banerjee, Batman, "Precision
//! Locks", SIGMOD 1981). The machine has no times, before-images, pruning or locks.
#![tactic(auto)]

use hy_bound::{Shapes, StoredRows, Txns};
use hy_value::Seq;

mod laws;

pub use laws::runs_are_steps;

/// What does not change while the machine runs.
#[derive(Drop)]
pub struct Setting {
    /// How many chunks a table has.
    pub chunks: u32,
    /// How many positions a chunk has.
    pub rows: u32,
    /// The columns of each table.
    pub shapes: Shapes,
    /// The first rows of each table.
    pub first: Seq<StoredRows>,
    /// The transactions of each session.
    pub programs: Seq<Txns>,
}
