//! What a transaction is told that runs alone on the rows of tables: its meaning, carried out statement by statement.
#![tactic(auto)]

mod groups;
mod running;
mod saved;
mod tables;
mod writes;

pub use running::{GivenAlone, run_alone};
pub use tables::Database;
