//! What an UPDATE or a DELETE makes of a version, and why it may not.

ghost use Rattle.std.specs.Prelude.{◌≡◌, ◌+◌, ◌<◌, ◌≤◌, ℕ, List, Option, None, Some, is_some, is_ok, length, map, true, not as negated};
ghost use Rattle.std.specs.List.{AllByRecursion};
ghost use Rattle.std.specs.Option.{option_copied};
ghost use Rattle.hy_bound.specs.Assignment.{assigned, value_of};
ghost use Rattle.hy_bound.specs.Predicate.{truth_at};
ghost use Rattle.hy_bound.specs.ValueRefs.{value_referred};
ghost use Rattle.hy_notes.specs.Notes.{with_note};
ghost use Rattle.hy_undo.specs.Places.{cell_of};
ghost use Rattle.hy_undo.specs.Sweeps.{judged, new_cell, verdict};
ghost use Rattle.hy_chunk.specs.Writes.{FitsWrite, SetColumns, refusal_in, sets_of, with_value};
ghost use Rattle.hy_chunk.specs.Keyed.{SameKey};
ghost use Rattle.hy_chunk.specs.Sound.{FitsRow};
ghost use Rattle.hy_value.specs.Cells.{texts_in};
ghost use Rattle.hy_value.specs.declared.Kind.{Kind};
ghost use Rattle.hy_value.specs.declared.Value.{Value};

use hy_bound::{Assign, Pred, Range, Sets, truth, value_ref};
use hy_notes::Changes;
use hy_stamp::Label;
use hy_undo::{Refusal, Version};
use hy_value::{Row, StoredRow, ValueRef};

/// What an UPDATE or a DELETE makes of a row that it selects, by the statement's own assignments.
#[derive(Clone, Copy)]
pub enum RowWrite<'a> {
    /// These set columns of it.
    Set(&'a Sets),
    /// It goes.
    Delete,
}

/// Whether a value of SET is out of range for a row.
fn is_out_of_range(set: &Assign, row: &Row) -> bool
    ensures { result ≡ negated (is_ok (value_of set.now.value row.now)) }
{
    value_ref(&set.value, row).is_err()
}

/// Whether each value of SET is in range for a row.
fn is_in_range(sets: &[Assign], row: &Row) -> bool
    ensures { result ≡ is_some (assigned sets.now row.now) }
{
    for set in sets {
        if is_out_of_range(set, row) {
            return false;
        }
    }
    true
}

/// Why a row that is selected is not written, if a value for it is out of range.
fn range_refusal(kind: RowWrite, row: &Row, pos: u32) -> Option<Refusal>
    ensures { result ≡ refusal_in (judged pos None (new_cell (sets_of kind.entry) row.now)) }
{
    match kind {
        RowWrite::Set(sets) => {
            if is_in_range(sets.as_slice(), row) {
                None
            } else {
                Some(Refusal::Range { pos })
            }
        }
        RowWrite::Delete => None,
    }
}

/// Whether a version is a row that a condition selects.
pub fn is_selected(version: &Version, pred: &Pred) -> bool
    ensures { result ≡ truth_at pred.now (cell_of version.now) }
{
    version.live && truth(pred, &version.row)
}

/// Why a version at a position is not written, if it is selected and may not be.
pub fn refusal_at(
    version: &Version,
    pred: &Pred,
    kind: RowWrite,
    rival: Option<Label>,
    pos: u32,
) -> Option<Refusal>
    ensures { result ≡ refusal_in (verdict (sets_of kind.entry) pred.now pos rival (cell_of version.now)) }
{
    if !is_selected(version, pred) {
        return None;
    }
    match rival {
        Some(other) => Some(Refusal::Conflict { pos, other }),
        None => range_refusal(kind, &version.row, pos),
    }
}

/// Puts a value into a column of a row, where it is in range.
fn set_value(row: &mut Row, column: u32, value: Result<ValueRef<'_>, Range>)
    requires { column < length row.old }
    ensures { row.new ≡ with_value row.old column (value_referred value.entry) }
{
    if let Ok(value) = value {
        row.set(column as usize, value);
    }
}

/// Puts the values of SET for a row, which are in range, into a copy of it.
fn set_columns(sets: &[Assign], row: &Row, next: &mut Row)
    requires same { next.old ≡ row.now }
    requires within { AllByRecursion (λ assign. assign.column < length row.now) sets.now }
    requires in_range { is_some (assigned sets.now row.now) ≡ true }
    ensures { assigned sets.now row.now ≡ Some next.new }
{
    for set in sets {
        set_value(next, set.column, value_ref(&set.value, row));
    }
}

/// Makes a row a copy of another one, of as many values. It takes no memory.
fn copy_over(row: &Row, next: &mut Row)
    requires { length next.old ≡ length row.now }
    ensures { next.new ≡ row.now }
{
    for column in 0..row.len() {
        next.set(column, row.as_slice()[column].refer());
    }
}

/// Makes a version, of as many values, what an UPDATE or a DELETE makes of a row, where its values are in range.
pub fn make_next(kind: RowWrite, row: &Row, next: &mut Version)
    requires width { length next.old.row ≡ length row.now }
    requires within { SetColumns (length row.now) kind }
    requires in_range { is_some (new_cell (sets_of kind) row.now) ≡ true }
    ensures cell { new_cell (sets_of kind.entry) row.now ≡ Some (cell_of next.new) }
    ensures fits { (kinds : List Kind) (key : Option ℕ) → FitsRow kinds row.now → FitsWrite kinds key kind.entry → FitsRow kinds next.new.row }
    ensures same_key { (kinds : List Kind) (key : Option ℕ) → FitsWrite kinds key kind.entry → SameKey key next.new.row row.now }
    ensures size { length next.new.row ≡ length row.now }
{
    copy_over(row, &mut next.row);
    match kind {
        RowWrite::Set(sets) => {
            set_columns(sets.as_slice(), row, &mut next.row);
            next.live = true;
        }
        RowWrite::Delete => {
            next.live = false;
        }
    }
}

/// Notes that a row was there before, and whether the one after is. It takes no memory.
pub fn note(changes: &mut Changes, table: u32, pos: u32, before: &Row, after: &Version)
    requires room { 0 < changes.old.room }
    requires before { length before.now ≤ changes.old.width }
    requires after { length after.now.row ≤ changes.old.width }
    requires texts_before { texts_in before.now ≤ changes.old.texts }
    requires texts_after { texts_in after.now.row ≤ changes.old.texts }
    ensures notes { changes.new.notes
        ≡ with_note (record { table = table; pos = pos; before = Some before.now; after = cell_of after.now }) changes.old.notes }
    ensures levels { changes.new.levels
        ≡ map (with_note (record { table = table; pos = pos; before = Some before.now; after = cell_of after.now })) changes.old.levels }
    ensures room { changes.old.room ≤ changes.new.room + 1 }
    ensures width { changes.new.width ≡ changes.old.width }
    ensures texts { changes.new.texts ≡ changes.old.texts }
{
    if after.live {
        changes.note_reserved(table, pos, Some(before), Some(&after.row));
    } else {
        changes.note_reserved(table, pos, Some(before), None);
    }
}

/// Makes a row a copy of one that is kept, of as many values. It takes no memory.
fn copy_kept(row: &StoredRow, next: &mut Row)
    requires { length next.old ≡ length row.now }
    ensures { next.new ≡ row.now }
{
    for column in 0..row.len() {
        next.set(column, row.refer(column));
    }
}

/// Makes a version the row that is kept, of as many values, or one without a row. It takes no memory.
pub fn put_cell(cell: &Option<StoredRow>, version: &mut Version)
    requires { (row : List Value) → cell.now ≡ Some row → length version.old.row ≡ length row }
    ensures cell { cell_of version.new ≡ cell.now }
    ensures width { length version.new.row ≡ length version.old.row }
{
    match cell {
        Some(row) => {
            copy_kept(row, &mut version.row);
            version.live = true;
        }
        None => version.live = false,
    }
}

/// The row of a version, if one is there.
pub fn row_of(version: &Version) -> Option<&Row>
    ensures { option_copied result ≡ cell_of version.now }
{
    if version.live {
        Some(&version.row)
    } else {
        None
    }
}
