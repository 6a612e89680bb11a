//! Visits of an UPDATE, a DELETE or an INSERT.

ghost use Rattle.std.specs.Prelude.{◌≡◌, ◌+◌, ◌<◌, ◌≤◌, true, None, Some, length};
ghost use Rattle.std.specs.List.{AllByRecursion};
ghost use Rattle.hy_chunk.specs.Candidates.{AreCandidates};
ghost use Rattle.hy_chunk.specs.Sound.{FitsRow, most_texts};
ghost use Rattle.hy_chunk.specs.Views.{with_places};
ghost use Rattle.hy_chunk.specs.Writes.{FitsWrite, sets_of};
ghost use Rattle.hy_event.specs.Changing.{PrunesFirst};
ghost use Rattle.hy_event.specs.Inserting.{free_index, sees_key};
ghost use Rattle.hy_notes.specs.Notes.{Ascends, is_between};
ghost use Rattle.hy_visit.specs.Backing.{BackDone, ChunkNotesStand, ChunkNotesTell, MayAllGoBack};
ghost use Rattle.hy_visit.specs.Placing.{PlaceDone};
ghost use Rattle.hy_visit.specs.Pruning.{AllFall, AllShort};
ghost use Rattle.hy_visit.specs.Writing.{WriteDone};

use crate::pruning::{has_none_to_prune, prune_first};
use hy_bound::{Pred, column_ref};
use hy_chunk::{Chunk, RowWrite, Sweep};
use hy_notes::Changes;
use hy_prune::Cover;
use hy_stamp::{Label, Viewer};
use hy_undo::Refusal;
use hy_value::{Change, Row, StoredRow};

/// Who writes, and how the chunk is pruned before.
#[derive(Clone, Copy)]
pub struct Writer<'a> {
    /// As whom the transaction looks at positions.
    pub viewer: Viewer,
    /// Its label.
    pub label: Label,
    /// The starts that were open when it had begun.
    pub cover: &'a Cover,
    /// Whether it prunes by them.
    pub prunes: bool,
}

/// Prunes the chunk, and then does an UPDATE or a DELETE: it writes and notes each position whose row is seen and
/// selected, which are among these, and answers how many they are. It fails with the first refusal, and has then
/// pruned alone.
pub fn write_visit(
    chunk: &mut Chunk,
    writer: &Writer,
    pred: &Pred,
    kind: RowWrite,
    places: &[u32],
    changes: &mut Changes,
) -> Result<u32, Refusal>
    requires falls { AllFall chunk.old.shown.places }
    requires candidates { AreCandidates pred.now chunk.old.shown.key chunk.old.shown.places places.now }
    requires room { length places.now ≤ chunk.old.room }
    requires notes { length places.now ≤ changes.old.room }
    requires wide { length chunk.old.kinds ≤ changes.old.width }
    requires long { most_texts chunk.old.kinds ≤ changes.old.texts }
    requires fits { FitsWrite chunk.old.kinds chunk.old.shown.key kind }
    ensures done { WriteDone writer.now (sets_of kind.entry) pred.now chunk.old.shown changes.old.notes changes.old.levels result
        chunk.new.shown changes.new.notes changes.new.levels }
    ensures short { writer.now.prunes ≡ true → writer.now.cover.now.next ≤ writer.now.viewer.id → AllShort writer.now.cover.now chunk.new.shown.places }
    ensures all { chunk.new ≡ with_places chunk.old chunk.new.shown.places chunk.new.room }
    ensures room { chunk.old.room ≤ chunk.new.room + length places.now }
    ensures notes_room { changes.old.room ≤ changes.new.room + length places.now }
    ensures notes_width { changes.new.width ≡ changes.old.width }
    ensures notes_texts { changes.new.texts ≡ changes.old.texts }
{
    prune_first(chunk, writer.cover, writer.prunes);
    let sweep = Sweep {
        viewer: &writer.viewer,
        pred,
        kind,
        places,
    };
    chunk.write(&sweep, writer.label, changes)
}

/// Whether a viewer sees a row of the chunk that has the key of this row.
pub fn check_visit(chunk: &mut Chunk, viewer: &Viewer, row: &StoredRow, key: u32) -> bool
    ensures found { result ≡ sees_key viewer.now row.now (Some key) chunk.old.shown.places }
    ensures all { chunk.new ≡ chunk.old }
{
    chunk.find_key(viewer, key, &column_ref(row, key).to_value())
}

/// Whether a visit that looks for a free position finds none and leaves the chunk as it is, seen without a look at the
/// positions. No clause says that it is seen wherever it is so.
pub fn is_passed(chunk: &Chunk, cover: &Cover, prunes: bool) -> bool
    requires { AllFall chunk.now.shown.places }
    ensures pruned { result ≡ true → PrunesFirst prunes cover.now chunk.now.shown chunk.now.shown }
    ensures full { result ≡ true → free_index cover.now chunk.now.shown ≡ None }
    ensures short { result ≡ true → prunes ≡ true → AllShort cover.now chunk.now.shown.places }
{
    chunk.is_full() && has_none_to_prune(chunk, cover, prunes)
}

/// Prunes the chunk, and then puts a new row at the first free position, notes it, and answers the position. Where
/// none is free it has pruned alone.
pub fn place_visit(
    chunk: &mut Chunk,
    writer: &Writer,
    row: &Row,
    changes: &mut Changes,
) -> Option<u32>
    requires falls { AllFall chunk.old.shown.places }
    requires fits { FitsRow chunk.old.kinds row.now }
    requires room { 0 < chunk.old.room }
    requires notes { 0 < changes.old.room }
    requires wide { length chunk.old.kinds ≤ changes.old.width }
    requires long { most_texts chunk.old.kinds ≤ changes.old.texts }
    ensures done { PlaceDone writer.now row.now chunk.old.shown changes.old.notes changes.old.levels result
        chunk.new.shown changes.new.notes changes.new.levels }
    ensures short { writer.now.prunes ≡ true → writer.now.cover.now.next ≤ writer.now.viewer.id → AllShort writer.now.cover.now chunk.new.shown.places }
    ensures all { chunk.new ≡ with_places chunk.old chunk.new.shown.places chunk.new.room }
    ensures room { chunk.old.room ≤ chunk.new.room + 1 }
    ensures notes_room { changes.old.room ≤ changes.new.room + 1 }
    ensures notes_width { changes.new.width ≡ changes.old.width }
    ensures notes_texts { changes.new.texts ≡ changes.old.texts }
{
    prune_first(chunk, writer.cover, writer.prunes);
    match chunk.place(&writer.viewer, writer.label, writer.cover, row, changes) {
        Ok(pos) => Some(pos),
        Err(_) => None,
    }
}

/// Goes back in a chunk: at each position of these notes since a savepoint, which are of the chunk and in order, the row
/// before is put back, and that is noted. Nothing is pruned. It takes no memory.
pub fn back_visit(chunk: &mut Chunk, writer: &Writer, since: &[Change], changes: &mut Changes)
    requires order { Ascends since.now }
    requires within { AllByRecursion (λ note. is_between chunk.old.shown.table chunk.old.shown.first
        (chunk.old.shown.first + length chunk.old.shown.places) note ≡ true) since.now }
    requires may { MayAllGoBack chunk.old.kinds chunk.old.shown.key writer.now.viewer.id since.now chunk.old.shown }
    requires room { length since.now ≤ chunk.old.room }
    requires notes { length since.now ≤ changes.old.room }
    requires wide { length chunk.old.kinds ≤ changes.old.width }
    requires long { most_texts chunk.old.kinds ≤ changes.old.texts }
    ensures done { BackDone writer.now since.now chunk.old.shown changes.old.notes changes.old.levels
        chunk.new.shown changes.new.notes changes.new.levels }
    ensures all { chunk.new ≡ with_places chunk.old chunk.new.shown.places chunk.new.room }
    ensures room { chunk.old.room ≤ chunk.new.room + length since.now }
    ensures notes_room { changes.old.room ≤ changes.new.room + length since.now }
    ensures notes_width { changes.new.width ≡ changes.old.width }
    ensures notes_texts { changes.new.texts ≡ changes.old.texts }
{
    for note in since {
        chunk.write_back(&writer.viewer, writer.label, note, changes);
    }
}

/// What goes back in a chunk is told by the notes of its positions alone.
pub fn notes_of_a_chunk_tell()
    ensures { ChunkNotesTell }
{}

/// The notes of a chunk's positions are in order where all notes are.
pub fn notes_of_a_chunk_stand()
    ensures { ChunkNotesStand }
{}
