//! A chunk of a table: columns that are changed in place, and the versions before beside them (Neumann,
//! Mühlbauer, Kemper, "Fast Serializable Multi-Version Concurrency Control for Main-Memory Database Systems",
//! SIGMOD 2015).
#![tactic(auto)]

mod chunk;
mod gathering;
mod lookup;
mod marks;
mod masks;
mod positions;
mod rows;
mod settled;
mod writes;

pub use chunk::{Chunk, NoRoom, Sweep};
pub use gathering::{Keys, Sought, conditions_gather_rows, value_asked};
pub use writes::RowWrite;
