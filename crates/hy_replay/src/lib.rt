//! Transactions over tables of positions: what their statements come to where nobody is in the way, over which other
//! tables they come to the same, and that this is what they come to alone, over bags of rows.
#![tactic(auto)]

mod bags;
mod effects;
mod unseen;

pub use bags::a_run_over_cells_is_alone;
pub use effects::{a_run_leaves_own_writes, visits_add_up, what_is_unseen_leaves_a_statement};
pub use unseen::{a_run_keeps_widths, what_is_unseen_leaves_a_run};
