//! The bytes of what transactions changed: the body of an entry, as a redo log keeps it.
//!
//! A body is exact in both directions: an entry has one, and bytes are the body of one entry of these tables or of
//! none.
#![tactic(auto)]

mod laws;
mod reading;
mod writing;

ghost use Rattle.std.specs.Prelude.{◌≡◌};
ghost use Rattle.hy_log_record.specs.declared.BodyError.TheVariants.{OutOfMemory};

use hy_value::{Kinds, Seq, StoredRow};
pub use laws::bodies_are_one;
pub use reading::{decode, split_record};
use std::alloc::{AllocError, AllocFailed};
pub use writing::encode;

/// The rows of a table by position, each there or absent.
pub type HeldRows = Seq<Option<StoredRow>>;

/// A table by position.
#[derive(Drop)]
pub struct HeldTable {
    /// The types of its columns.
    pub kinds: Kinds,
    /// Its rows by position.
    pub rows: HeldRows,
}

/// Tables by number.
pub type HeldTables = Seq<HeldTable>;

/// Why no entry was read.
#[derive(Clone, Copy, Debug, PartialEq, Eq)]
pub enum BodyError {
    /// The bytes are the body of no entry of the tables.
    Malformed,
    /// Memory ran out.
    OutOfMemory,
}

impl From<AllocError> for BodyError {
    ghost from_gives = { λ _ e. e ≡ OutOfMemory };

    fn from(_error: AllocError) -> BodyError {
        BodyError::OutOfMemory
    }
}

impl<T: Drop> From<AllocFailed<T>> for BodyError {
    ghost from_gives = { λ _ e. e ≡ OutOfMemory };

    fn from(_error: AllocFailed<T>) -> BodyError {
        BodyError::OutOfMemory
    }
}
