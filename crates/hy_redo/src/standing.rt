//! Which entries stand on tables, and the tables after them.

ghost use Rattle.std.specs.Prelude.{◌≡◌, ◌<◌, length, vec_len};
ghost use Rattle.std.specs.List.{list_all};
ghost use Rattle.hy_redo.specs.Tables.{is_past, rise_past, rise, with_table, with_cell, after_changes};
ghost use Rattle.hy_redo.specs.Tests.{same_cells, begins_from, is_behind, stand_test};

use hy_log_record::HeldTable;
use hy_value::{Change, Changes, StoredRow};

/// Whether two cells have the same row, or none.
fn is_same(left: &Option<StoredRow>, right: &Option<StoredRow>) -> bool
    ensures { result ≡ same_cells left.now right.now }
{
    match left {
        None => right.is_none(),
        Some(row) => match right {
            None => false,
            Some(other) => row.compare(other).is_eq(),
        },
    }
}

/// Whether a change begins from the row that stands there.
fn begins(tables: &[HeldTable], change: &Change) -> bool
    ensures { result ≡ begins_from tables.now change.now }
{
    let Some(held) = tables.get(change.table as usize) else {
        return false;
    };
    let Some(cell) = held.rows.as_slice().get(change.pos as usize) else {
        return false;
    };
    is_same(cell, &change.before)
}

/// Whether each change does.
fn all_begin(tables: &[HeldTable], changes: &[Change]) -> bool
    ensures { result ≡ list_all (begins_from tables.now) changes.now }
{
    changes.iter().all(|change| begins(tables, change))
}

/// Whether a change is of a position behind this one, by table and then position.
fn is_behind_position(table: u32, pos: u32, change: &Change) -> bool
    ensures { result ≡ is_past table pos change.now }
{
    table.cmp(&change.table).then(pos.cmp(&change.pos)).is_lt()
}

/// Whether each change is of a position behind this one, and behind those before it.
fn all_behind(mut table: u32, mut pos: u32, changes: &[Change]) -> bool
    ensures { result ≡ rise_past table pos changes.now }
{
    for change in changes {
        if !is_behind_position(table, pos, change) {
            return false;
        }
        table = change.table;
        pos = change.pos;
    }
    true
}

/// Whether each change is of a position behind those before it.
fn in_order(changes: &[Change]) -> bool
    ensures { result ≡ rise changes.now }
{
    match changes {
        [] => true,
        [first, others @ ..] => all_behind(first.table, first.pos, others),
    }
}

/// Whether a time lies behind the last one, where there was one.
fn is_later(last: Option<u64>, time: u64) -> bool
    ensures { result ≡ is_behind last time }
{
    match last {
        None => true,
        Some(last) => last < time,
    }
}

/// Whether net changes that were committed at a time stand on the tables, behind the last time.
pub fn stand(tables: &[HeldTable], last: Option<u64>, time: u64, changes: &[Change]) -> bool
    ensures { result ≡ stand_test tables.now last time changes.now }
{
    in_order(changes) && all_begin(tables, changes) && is_later(last, time)
}

/// Puts a cell at a position of a table, where there is one.
fn put_cell(held: &mut HeldTable, pos: u32, cell: Option<StoredRow>)
    ensures { held.new ≡ with_cell pos cell held.old }
{
    let pos = pos as usize;
    if pos < held.rows.len() {
        let _before = held.rows.replace(pos, cell);
    }
}

/// Puts a cell at a position of one of the tables, where there is one.
fn put(tables: &mut Vec<HeldTable>, table: u32, pos: u32, cell: Option<StoredRow>)
    ensures { tables.new.items ≡ with_table table (with_cell pos cell) tables.old.items }
{
    let table = table as usize;
    if table < tables.len() {
        put_cell(&mut tables[table], pos, cell);
    }
}

/// Puts the row after of each change at its position.
pub fn put_changes(tables: &mut Vec<HeldTable>, changes: Changes)
    ensures { tables.new.items ≡ after_changes tables.old.items changes }
{
    let mut left = changes.into_vec();
    while let Some(change) = left.pop() {
        let Change {
            table,
            pos,
            before: _,
            after,
        } = change;
        put(tables, table, pos, after);
    }
}
