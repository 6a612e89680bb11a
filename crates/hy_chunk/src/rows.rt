//! Rows that are put at a place of columns.

ghost use Rattle.std.specs.Prelude.{◌≡◌, ◌+◌, ◌<◌, ◌≤◌, ℕ, List, [], None, length, slice_index_or, slice_set, not as negated};
ghost use Rattle.std.specs.Ordering.{is_eq};
ghost use Rattle.hy_column.specs.Cells.{FitsKind, kind_texts, texts_of};
ghost use Rattle.hy_chunk.specs.Sound.{AreReady, FitsRow, FitsImage};
ghost use Rattle.hy_chunk.specs.Noting.{change_noted, changes_noted};
ghost use Rattle.hy_value.specs.Order.{value_cmp};
ghost use Rattle.hy_value.specs.declared.Kind.{Kind};
ghost use Rattle.hy_value.specs.declared.Value.{Value};

use hy_column::Columns;
use hy_undo::{Delta, Spares};
use hy_value::{Row, Value, compare_refs};

/// Puts a row's values at a place. It takes no memory.
pub fn put_row(columns: &mut Columns, place: usize, row: &Row)
    requires within { place < length columns.old.rows }
    requires old { FitsRow columns.old.kinds (slice_index_or columns.old.rows place []) }
    requires new { FitsRow columns.old.kinds row.now }
    ensures kinds { columns.new.kinds ≡ columns.old.kinds }
    ensures rows { columns.new.rows ≡ slice_set columns.old.rows place row.now }
{
    for column in 0..columns.width() {
        columns.put(place, column, row.as_slice()[column].refer());
    }
}

/// Whether another value than this one stands at a place.
fn has_other(columns: &Columns, place: usize, column: usize, value: &Value) -> bool
    requires within { place < length columns.now.rows }
    requires column { column < length columns.now.kinds }
    requires there { column < length (slice_index_or columns.now.rows place []) }
    ensures { (d : Value) → result
        ≡ negated (is_eq (value_cmp (slice_index_or (slice_index_or columns.now.rows place []) column d) value.now)) }
{
    compare_refs(columns.refer(place, column), value.refer()).is_ne()
}

/// Puts a value at a place, and notes in an image what stood there where it was another one.
fn exchange_value(
    columns: &mut Columns,
    place: usize,
    column: usize,
    value: &Value,
    image: &mut Delta,
    spare: &mut Spares,
)
    requires within { place < length columns.old.rows }
    requires column { column < length columns.old.kinds }
    requires there { column < length (slice_index_or columns.old.rows place []) }
    requires slot { column < length image.old.values }
    requires was { (d : Value) → FitsKind (slice_index_or columns.old.kinds column Kind.Int) (slice_index_or (slice_index_or columns.old.rows place []) column d) }
    requires fits { FitsKind (slice_index_or columns.old.kinds column Kind.Int) value.now }
    requires free { kind_texts (slice_index_or columns.old.kinds column Kind.Int) ≤ spare.old.free }
    ensures kinds { columns.new.kinds ≡ columns.old.kinds }
    ensures rows { columns.new.rows
        ≡ slice_set columns.old.rows place (slice_set (slice_index_or columns.old.rows place []) column value.now) }
    ensures values { (d : Value) → image.new.values ≡ slice_set image.old.values column
        (change_noted (slice_index_or (slice_index_or columns.old.rows place []) column d) value.now (slice_index_or image.old.values column None)) }
    ensures live { image.new.live ≡ image.old.live }
    ensures same { (spare.new.columns ≡ spare.old.columns) × (spare.new.texts ≡ spare.old.texts) }
    ensures count { spare.new.count ≡ spare.old.count }
    ensures free { spare.old.free ≤ spare.new.free + kind_texts (slice_index_or columns.old.kinds column Kind.Int) }
{
    if has_other(columns, place, column, value) {
        image.note(column, columns.refer(place, column), spare);
        columns.put(place, column, value.refer());
    }
}

/// Puts a row's values at a place, and notes in an image those that stood there and were others, texts in free places
/// of the spares. It takes no memory.
pub fn exchange_row(
    columns: &mut Columns,
    place: usize,
    row: &Row,
    image: &mut Delta,
    spare: &mut Spares,
)
    requires within { place < length columns.old.rows }
    requires old { FitsRow columns.old.kinds (slice_index_or columns.old.rows place []) }
    requires new { FitsRow columns.old.kinds row.now }
    requires image { FitsImage columns.old.kinds image.old.values }
    requires free { texts_of columns.old.kinds ≤ spare.old.free }
    ensures kinds { columns.new.kinds ≡ columns.old.kinds }
    ensures rows { columns.new.rows ≡ slice_set columns.old.rows place row.now }
    ensures values { image.new.values ≡ changes_noted (slice_index_or columns.old.rows place []) row.now image.old.values }
    ensures live { image.new.live ≡ image.old.live }
    ensures ready { (kinds : List Kind) → AreReady kinds spare.old → AreReady kinds spare.new }
    ensures count { spare.new.count ≡ spare.old.count }
{
    for column in 0..columns.width() {
        exchange_value(
            columns,
            place,
            column,
            &row.as_slice()[column],
            image,
            spare,
        );
    }
}
