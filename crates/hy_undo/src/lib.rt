//! Before-images of rows, and what viewers see at a position through a chain of them (undo records with
//! before-images of the changed columns: Neumann, Mühlbauer, Kemper, "Fast Serializable Multi-Version
//! Concurrency Control for Main-Memory Database Systems", SIGMOD 2015).
#![tactic(auto)]

ghost use Rattle.hy_undo.specs.Places.{OthersKeep};
ghost use Rattle.hy_undo.specs.Steps.{PlacesStep};

mod delta;
mod merging;
mod noted;
mod refusal;
mod spares;
mod version;

pub use delta::Delta;
pub use refusal::Refusal;
pub use spares::Spares;
pub use version::Version;

/// What viewers see at a position after a write, an undo or a stamp there.
pub fn others_keep_their_views()
    ensures { OthersKeep }
{}

/// What pruning, a commit, an undo, a write and an insert do at a position is what visits of a chunk do there.
pub fn places_step()
    ensures { PlacesStep }
{
    hy_chain::pruning_keeps_views::<Delta>()
}

fn is_shared<T: Send + Sync>() {}

/// Chains of before-images may be handed from thread to thread.
pub fn chains_are_shared() {
    is_shared::<Delta>();
    is_shared::<hy_chain::Chains<Delta>>();
}
