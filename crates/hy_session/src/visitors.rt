//! Who visits a chunk, and which statement is at work.

ghost use Rattle.std.specs.Prelude.{◌≡◌, [], suc, IfOk};
ghost use Rattle.hy_plan.specs.Reads.{records_of};

use crate::numbers::number_of;
use hy_bound::{Bound, Records, Shape};
use hy_plan::records;
use hy_stamp::{Label, Viewer};
use std::alloc::{AllocError, Global};

/// A session that visits a chunk, its open transaction aside.
#[derive(Clone, Copy)]
pub struct Visitor<'a> {
    /// The label of its open transaction.
    pub label: Label,
    /// The identifier of that transaction.
    pub id: u64,
    /// The columns of each table.
    pub shapes: &'a [Shape],
    /// How many chunks a table has.
    pub chunks: u32,
    /// Whether it prunes the chunks that it writes.
    pub prunes: bool,
}

/// The present statement of an open transaction, and how far it is.
#[derive(Clone, Copy)]
pub struct Present<'a> {
    /// The statement.
    pub statement: &'a Bound,
    /// How many of its visits are done.
    pub visited: u32,
    /// How many rows these have selected.
    pub count: u64,
}

impl Visitor<'_> {
    /// As whom its open transaction, which has this start, looks at positions.
    pub fn viewer(&self, start: u64) -> Viewer
        ensures { result ≡ record { id = self.now.id; start = start } }
    {
        Viewer { id: self.id, start }
    }

    /// The records of a statement that gathers no rows, so many statements being answered. Err is for want of memory.
    pub fn records(
        &self,
        alloc: Global,
        statement: &Bound,
        answered: usize,
    ) -> Result<Records, AllocError>
        ensures { IfOk result (λ all. all ≡ records_of self.now.shapes.now (suc answered) statement.now []) }
    {
        let number = number_of(answered)?.checked_add(1).ok_or(AllocError)?;
        records(alloc, self.shapes, statement, number, &[])
    }
}
