//! Sessions that run over shared parts, each in a thread of its own, or together on one.
//!
//! A worker is a session with its seat. It asks its session which part it needs next, takes the part, lets the session
//! visit it, and gives it back, until the session is at its end. A gate is told of each visit before the part is taken,
//! while it is held, and after it was given, so that a caller may watch the run or bring about an order. Shares of a
//! visit's work that its session offers are made ahead of it on threads of their own, while the worker has no part.
//!
//! A worker that finds no memory stops before its visit, and the others go on. One that waits for it would wait for ever,
//! so an engine lets no session wait for one that may find no memory.
//!
//! An engine says by `Worked` what its sessions need and what a visit may do; `work` and `run_all` do the rest. What
//! comes out is parts and sessions of which the engine's fact holds, and where no memory ran out every session is at its end.
#![tactic(auto)]

mod ahead;
mod gate;
mod group;
mod known;
mod parted;
mod parts;
mod rule;
mod runs;
mod threads;
mod together;
mod waiting;
mod worked;
mod worker;

pub use gate::{Gate, Moment, OpenGate, PieceGate, Point, TimedGate};
pub use known::Known;
pub use parted::Parted;
pub use parts::{Parts, Seat};
pub use runs::{Ran, run_all};
pub use threads::work;
pub use worked::{Visited, Worked};
pub use worker::Worker;
