//! A redo log: what each committed transaction changed, on a disk before it counts, so that after a crash the tables
//! can be made again.
//!
//! The gate before what is appended, one entry or several, stays closed until the records are sure. Then it is opened by a
//! write of its own, so that a crash at any moment leaves all of these entries or none.
#![tactic(auto)]

mod errors;
mod laws;
mod log;
mod recovery;
mod standing;

pub use errors::{AppendError, CreateError, RecoverError};
pub use laws::{crashes_recover, recovery_is_one};
pub use log::{Batch, Log, append, append_batch, create, encode_batch};
pub use recovery::recover;
