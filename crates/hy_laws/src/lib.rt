//! Laws of statements: what their replies depend on, what may be left out of what they read, and that what an engine
//! gathers that looks tables up by their key is enough, for replies and for records.
#![tactic(auto)]

mod ends;
mod laws;
mod look_ups;

pub use ends::{a_key_must_be_a_column, look_ups_leave_rows_out, rows_must_fit};
pub use laws::{
    a_change_that_misses_shows_the_same, a_row_is_changed_by_what_is_read,
    an_insert_looks_at_its_key, answers_depend_on_what_is_read, changes_that_miss_are_unseen,
    gathered_rows_answer, only_the_bag_of_rows_matters, what_is_read_is_read_again,
};
pub use look_ups::{
    looked_up_rows_answer, looked_up_rows_are_what_is_read, looked_up_rows_log_the_same,
    tables_are_looked_up_in_turn, wanted_rows_are_read_by_key,
};
