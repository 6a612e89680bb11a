//! Chains of undo records: for each position of a chunk the versions that came before the one in place,
//! newest first (Neumann, Mühlbauer, Kemper, "Fast Serializable Multi-Version Concurrency Control for
//! Main-Memory Database Systems", SIGMOD 2015), and their pruning against the active starts (Böttcher, Leis,
//! Neumann, Kemper, "Scalable Garbage Collection for In-Memory MVCC Systems", PVLDB 2019).
#![tactic(auto)]

ghost use Rattle.hy_chain.specs.Pruning.{KeepsViews, KeepsStamps, Shrinks};

mod chains;
mod image;
mod lists;
mod pruning;

pub use chains::Chains;
pub use image::Image;

/// Pruning by a cover keeps what every viewer sees whose start is in the cover or later, and whom a write
/// of it is in conflict with.
pub fn pruning_keeps_views<D: Image>()
    ensures { KeepsViews D.applied D.merged }
{}

/// Pruning leaves at most as many records below the cover's time as the cover has starts.
pub fn pruning_shrinks<D: Image>()
    ensures { Shrinks D.merged }
{}

/// What pruning does with the stamps of a chain.
pub fn pruning_keeps_stamps<D: Image>()
    ensures { KeepsStamps D.merged }
{}
