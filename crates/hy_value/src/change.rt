//! What a transaction changed, position by position.

use crate::{Seq, StoredRow};

/// The change of a transaction at a position of a table: the row before it and the row after it, each
/// there or absent.
#[derive(Drop)]
pub struct Change {
    /// The table.
    pub table: u32,
    /// The position in the table.
    pub pos: u32,
    /// The row before, if there was one.
    pub before: Option<StoredRow>,
    /// The row after, if there is one.
    pub after: Option<StoredRow>,
}

/// The changes of a transaction, by table and then position.
pub type Changes = Seq<Change>;
