//! Why a write is refused.

use hy_stamp::Label;

/// Why an UPDATE or a DELETE changes nothing.
#[derive(Clone, Copy, Debug, PartialEq, Eq)]
pub enum Refusal {
    /// Another transaction wrote the row at the position after the writer's start, or holds it.
    Conflict {
        /// The position in the table.
        pos: u32,
        /// The other transaction.
        other: Label,
    },
    /// A value for the row at the position is out of range.
    Range {
        /// The position in the table.
        pos: u32,
    },
}
