//! Pruning, and visits that write nothing new.

ghost use Rattle.std.specs.Prelude.{◌≡◌, ◌≤◌, true, length};
ghost use Rattle.hy_undo.specs.Chunks.{AtOwn, Everywhere, Undone};
ghost use Rattle.hy_chunk.specs.Views.{with_places};
ghost use Rattle.hy_event.specs.Changing.{OnlyPlaces, PrunesFirst};
ghost use Rattle.hy_visit.specs.Pruning.{AllFall, AllShort, AllUnderOwn, StampDone};

use hy_chunk::Chunk;
use hy_prune::Cover;
use hy_undo::Delta;

/// Prunes the chunk by a cover, or leaves it where nothing is pruned. A chain has then at most as many records below
/// the cover's next time as the cover has starts.
pub fn prune_first(chunk: &mut Chunk, cover: &Cover, prunes: bool)
    requires { AllFall chunk.old.shown.places }
    ensures pruned { PrunesFirst prunes cover.now chunk.old.shown chunk.new.shown }
    ensures falls { AllFall chunk.new.shown.places }
    ensures short { prunes ≡ true → AllShort cover.now chunk.new.shown.places }
    ensures many { length chunk.new.shown.places ≡ length chunk.old.shown.places }
    ensures all { chunk.new ≡ with_places chunk.old chunk.new.shown.places chunk.new.room }
    ensures room { chunk.old.room ≤ chunk.new.room }
{
    hy_chain::pruning_shrinks::<Delta>();
    if prunes {
        chunk.prune(cover);
    }
}

/// Whether `prune_first` leaves the chunk as it is, seen without a look at the positions. No clause says that it is seen
/// wherever it is so.
pub fn has_none_to_prune(chunk: &Chunk, cover: &Cover, prunes: bool) -> bool
    requires { AllFall chunk.now.shown.places }
    ensures pruned { result ≡ true → PrunesFirst prunes cover.now chunk.now.shown chunk.now.shown }
    ensures short { result ≡ true → prunes ≡ true → AllShort cover.now chunk.now.shown.places }
{
    hy_chain::pruning_shrinks::<Delta>();
    !prunes || chunk.is_pruned(cover)
}

/// Gives the own records of a transaction in the chunk their commit time, and then prunes it.
pub fn stamp_visit(chunk: &mut Chunk, id: u64, time: u64, cover: &Cover, prunes: bool)
    requires falls { AllFall chunk.old.shown.places }
    requires under { AllUnderOwn id time chunk.old.shown.places }
    ensures done { StampDone id time prunes cover.now chunk.old.shown chunk.new.shown }
    ensures falls { AllFall chunk.new.shown.places }
    ensures short { prunes ≡ true → AllShort cover.now chunk.new.shown.places }
    ensures all { chunk.new ≡ with_places chunk.old chunk.new.shown.places chunk.new.room }
    ensures room { chunk.old.room ≤ chunk.new.room }
{
    chunk.stamp(id, time);
    prune_first(chunk, cover, prunes);
}

/// Puts back what the own records of a transaction in the chunk say.
pub fn undo_visit(chunk: &mut Chunk, id: u64)
    ensures done { OnlyPlaces (Everywhere (AtOwn id (Undone id))) chunk.old.shown chunk.new.shown }
    ensures all { chunk.new ≡ with_places chunk.old chunk.new.shown.places chunk.new.room }
    ensures room { chunk.old.room ≤ chunk.new.room }
{
    chunk.undo(id);
}
