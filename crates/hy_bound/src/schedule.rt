//! Schedules: whose turn it is.

use hy_value::Seq;

/// An item of a schedule: one step of a session, or its steps until it answers or can't go on.
#[derive(Clone, Copy, Debug, PartialEq, Eq)]
pub struct Item {
    /// The session.
    pub session: u32,
    /// Whether it is the steps of a whole statement.
    pub whole: bool,
}

/// The items of a schedule.
pub type Schedule = Seq<Item>;
