//! Chunks in which a statement that asks for a key finds no row, seen without a look at the positions.

ghost use Rattle.std.specs.Prelude.{◌≡◌, true, IfSome};
ghost use Rattle.hy_bound.specs.Condition.{Condition};
ghost use Rattle.hy_chunk.specs.Gathering.{Asks};
ghost use Rattle.hy_event.specs.Changing.{PrunesFirst};
ghost use Rattle.hy_value.specs.Refs.{referred};
ghost use Rattle.hy_visit.specs.Pruning.{AllFall, AllShort};
ghost use Rattle.hy_visit.specs.Sparing.{SelectsNone};

use crate::pruning::has_none_to_prune;
use hy_bound::Pred;
use hy_chunk::{Chunk, value_asked};
use hy_prune::Cover;
use hy_value::ValueRef;

/// A value that a condition asks for in a column, the key.
#[derive(Clone, Copy)]
pub struct AskedKey<'a> {
    /// The column.
    pub column: u32,
    /// The value.
    pub value: ValueRef<'a>,
}

/// The key that a condition asks for, in a table whose key is this column, where that is seen. No clause says that it is seen
/// wherever it is so.
pub fn asked_key(pred: &Pred, key: Option<u32>) -> Option<AskedKey<'_>>
    ensures { IfSome result (λ asked. Asks pred.now asked.column (referred asked.value)) }
{
    let column = key?;
    let value = value_asked(pred, column)?;
    Some(AskedKey { column, value })
}

impl AskedKey<'_> {
    /// Whether a visit of a statement that asks for it selects no row in a chunk and leaves the chunk as it is, seen without a look
    /// at the positions. No clause says that it is seen wherever it is so.
    pub fn is_spared(self, chunk: &Chunk, cover: &Cover, prunes: bool) -> bool
        requires { AllFall chunk.now.shown.places }
        ensures none { result ≡ true → (pred : Condition) → Asks pred self.entry.column (referred self.entry.value) → SelectsNone pred chunk.now.shown.places }
        ensures pruned { result ≡ true → PrunesFirst prunes cover.now chunk.now.shown chunk.now.shown }
        ensures short { result ≡ true → prunes ≡ true → AllShort cover.now chunk.now.shown.places }
    {
        has_none_to_prune(chunk, cover, prunes) && chunk.lacks_key(self.column, self.value)
    }
}
