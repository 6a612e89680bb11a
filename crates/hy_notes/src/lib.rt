//! What a transaction writes, noted position by position with its row before and its row after; and the same of what it
//! writes since each of some moments, the levels.
//!
//! Room for the rows is made before, so that a note needs no memory.
#![tactic(auto)]

ghost use Rattle.std.specs.Prelude.{◌≡◌, ◌<◌, ◌≤◌, ◌&&◌, ◌==◌, length, filter, map};
ghost use Rattle.hy_notes.specs.Notes.{Ascends, order_of, is_change, place_of};
ghost use Rattle.hy_notes.specs.Telling.{NotesTell, TellingIsOne};

mod blocks;
mod changes;
mod levels;
mod rows;

pub use changes::Changes;
use hy_value::{Change, Changes as ChangeList, Seq};

/// A position of a table.
#[derive(Clone, Copy, Debug, PartialEq, Eq)]
pub struct NotedPlace {
    /// The table.
    pub table: u32,
    /// The position in the table.
    pub pos: u32,
}

/// Whether a row was or is at the position of a note.
fn is_of_a_row(note: &Change) -> bool
    ensures { result ≡ is_change note.now }
{
    note.before.is_some() || note.after.is_some()
}

/// The notes of positions where a row was or is: those absent before and after are left out. It takes no memory.
pub fn net(notes: ChangeList) -> ChangeList
    ensures { result ≡ filter is_change notes }
{
    let mut changes = notes.into_vec();
    changes.retain(|note| is_of_a_row(note));
    Seq::from_vec(changes)
}

/// What is noted at a position after one more note, and that notes are one list where they tell the same.
pub fn notes_tell()
    ensures more { NotesTell }
    ensures one { TellingIsOne }
{}
