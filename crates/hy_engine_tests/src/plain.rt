//! A plain list of versions: what a chunk is to show.

use hy_stamp::Viewer;
use std::alloc::{AllocError, Global};

/// What a transaction left of the row of an identifier.
#[derive(Clone, Copy)]
struct Left {
    /// The identifier.
    id: i64,
    /// The balance, or none where the row is gone.
    bal: Option<i64>,
    /// The identifier of the transaction.
    by: u64,
    /// When it committed, if it did.
    time: Option<u64>,
}

/// Whether a viewer sees what was left: it is its own, or was committed before its start.
fn is_seen(left: &Left, viewer: &Viewer) -> bool {
    match left.time {
        Some(time) => time < viewer.start,
        None => left.by == viewer.id,
    }
}

/// All that was left, in the order in which it was written.
#[derive(Drop)]
pub struct Plain {
    all: Vec<Left>,
}

impl Plain {
    /// Nothing was left.
    pub fn new(alloc: Global) -> Plain {
        Plain {
            all: Vec::new(alloc),
        }
    }

    /// A transaction leaves this of a row.
    pub fn leave(&mut self, id: i64, bal: Option<i64>, by: u64) -> Result<(), AllocError> {
        self.all.push(Left {
            id,
            bal,
            by,
            time: None,
        })?;
        Ok(())
    }

    /// What a transaction left counts from this time on.
    pub fn commit(&mut self, by: u64, time: u64) {
        for left in self.all.iter_mut() {
            if left.by == by && left.time.is_none() {
                left.time = Some(time);
            }
        }
    }

    /// What a transaction left goes.
    pub fn roll_back(&mut self, by: u64) {
        self.all.retain(|left| left.by != by || left.time.is_some());
    }

    /// The balance that a viewer sees of an identifier.
    pub fn balance(&self, viewer: &Viewer, id: i64) -> Option<i64> {
        let mut bal = None;
        for left in self.all.as_slice() {
            if left.id == id && is_seen(left, viewer) {
                bal = left.bal;
            }
        }
        bal
    }

    /// Whether something was left of an identifier that a viewer doesn't see.
    pub fn is_hidden(&self, viewer: &Viewer, id: i64) -> bool {
        for left in self.all.as_slice() {
            if left.id == id && !is_seen(left, viewer) {
                return true;
            }
        }
        false
    }
}
