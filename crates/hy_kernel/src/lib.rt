//! Scans over a column of numbers, 64 at a time: what a comparison says of each stands in the bits of a mask,
//! and masks are joined word by word (as HyPer's vectorized scans of unversioned ranges: Neumann, Mühlbauer,
//! Kemper, "Fast Serializable Multi-Version Concurrency Control for Main-Memory Database Systems", SIGMOD
//! 2015).
#![tactic(auto)]

mod masks;
mod words;

pub use masks::Mask;
pub use words::compare;
