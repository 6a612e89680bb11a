//! Columns that are changed in place, and the rows that they make together.
//!
//! A chunk keeps the newest version of each row by column, and the older ones as before-images (Neumann,
//! Mühlbauer, Kemper, "Fast Serializable Multi-Version Concurrency Control for Main-Memory Database Systems",
//! SIGMOD 2015). NULL is a bit beside a number.
#![tactic(auto)]

mod columns;
mod numbers;
mod texts;

pub use columns::Columns;
pub use numbers::IntColumn;
pub use texts::TextColumn;
