//! Rows gathered of a table, piece by piece, and what they come to, told from their columns: sums and groups; and GROUP
//! BY: what is gathered of the table for it, and its reply from the rows that were gathered.
#![tactic(auto)]

mod group_plans;
mod laws;
mod pieces;
mod shares;
mod sums;
mod tally;

pub use group_plans::{GroupPlan, plan_group};
pub use laws::{gathered_groups_answer, gathered_groups_read};
pub use pieces::Pieces;
pub use sums::{PartColumn, count_columns};
pub use tally::{GroupTally, Grouping, Tally};
