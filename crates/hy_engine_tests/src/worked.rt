//! Each call of a chunk once, and one row that is updated over and over under an old reader.

use crate::tried::{Open, Tried};
use hy_chunk::NoRoom;
use hy_stamp::Viewer;
use hy_undo::Refusal;
use std::alloc::{AllocError, Global};
use std::test::Fail;

/// Whether a viewer sees just these rows.
fn sees(
    alloc: Global,
    tried: &mut Tried,
    viewer: &Viewer,
    rows: &[(i64, i64)],
) -> Result<bool, AllocError> {
    let seen = tried.seen(alloc, viewer)?;
    Ok(seen.as_slice() == rows)
}

/// Whether a viewer finds just these rows where it looks keys up.
fn finds(
    alloc: Global,
    tried: &mut Tried,
    viewer: &Viewer,
    keys: &[i64],
    rows: &[(i64, i64)],
) -> Result<bool, AllocError> {
    let found = tried.looked_up(alloc, viewer, keys)?;
    Ok(found.as_slice() == rows)
}

/// Whether a write of the row is seen by its writer, and not by another.
fn write_is_seen(
    alloc: Global,
    tried: &mut Tried,
    other: &Open,
    writer: &Open,
) -> Result<bool, Fail> {
    Ok(
        tried.write(alloc, writer, 1, Some(90))? == Ok(1)
            && sees(alloc, tried, &other.viewer, &[(1, 100)])?
            && sees(alloc, tried, &writer.viewer, &[(1, 90)])?,
    )
}

/// Whether another is refused a write of the row that the writer has written, and finds its key still.
fn write_is_refused(
    alloc: Global,
    tried: &mut Tried,
    other: &Open,
    writer: &Open,
) -> Result<bool, Fail> {
    let refusal = Refusal::Conflict {
        pos: 0,
        other: writer.label,
    };
    Ok(
        tried.write(alloc, other, 1, Some(80))? == Err(refusal)
            && tried.has_key(&other.viewer, 1)
            && !tried.has_key(&other.viewer, 2),
    )
}

/// Whether all see the row as it was where the writer takes back what it wrote.
fn undo_is_seen(
    alloc: Global,
    tried: &mut Tried,
    other: &Open,
    writer: &Open,
) -> Result<bool, AllocError> {
    tried.roll_back(writer);
    let newcomer = tried.newcomer();
    Ok(
        sees(alloc, tried, &other.viewer, &[(1, 100)])?
            && sees(alloc, tried, &writer.viewer, &[(1, 100)])?
            && sees(alloc, tried, &newcomer, &[(1, 100)])?,
    )
}

/// Whether all this holds of a writer that begins second.
fn second_writes(alloc: Global, tried: &mut Tried, other: &Open) -> Result<bool, Fail> {
    let writer = tried.begin(alloc)?;
    Ok(
        other.viewer.start == 1
            && writer.viewer.start == 2
            && write_is_seen(alloc, tried, other, &writer)?
            && write_is_refused(alloc, tried, other, &writer)?
            && undo_is_seen(alloc, tried, other, &writer)?,
    )
}

/// Whether it does beside one that began first.
fn first_is_beside(alloc: Global, tried: &mut Tried) -> Result<bool, Fail> {
    let other = tried.begin(alloc)?;
    second_writes(alloc, tried, &other)
}

/// Whether it does in a chunk of four positions.
fn four_hide_writes(alloc: Global) -> Result<bool, Fail> {
    let mut tried = Tried::new(alloc, 4, &[1])?;
    first_is_beside(alloc, &mut tried)
}

#[test]
fn a_write_is_seen_by_its_writer_alone(rt: HostRuntime) -> Result<(), Fail> {
    assert!(rt; four_hide_writes(rt.alloc())?);
    Ok(())
}

/// Whether a new row finds no room, and the rows that are there are seen.
fn has_no_room(alloc: Global, tried: &mut Tried) -> Result<bool, Fail> {
    let inserter = tried.begin(alloc)?;
    let rows = [(5, 100), (6, 100), (7, 100), (8, 100)];
    Ok(
        tried.place(alloc, &inserter, 9, 100)? == Err(NoRoom)
            && sees(alloc, tried, &inserter.viewer, &rows)?,
    )
}

/// Whether this is so in a chunk of four positions and four rows.
fn four_are_full(alloc: Global) -> Result<bool, Fail> {
    let mut tried = Tried::new(alloc, 4, &[5, 6, 7, 8])?;
    has_no_room(alloc, &mut tried)
}

#[test]
fn a_fifth_row_has_no_room_in_four_positions(rt: HostRuntime) -> Result<(), Fail> {
    assert!(rt; four_are_full(rt.alloc())?);
    Ok(())
}

/// Whether one row is deleted and another updated.
fn changes_two(alloc: Global, tried: &mut Tried, writer: &Open) -> Result<bool, Fail> {
    let is_deleted = tried.write(alloc, writer, 1, None)? == Ok(1);
    let is_updated = tried.write(alloc, writer, 3, Some(30))? == Ok(1);
    let _time = tried.commit(writer)?;
    Ok(is_deleted && is_updated)
}

/// Whether a reader that began before finds both rows, and a newcomer the one that is left.
fn both_find(alloc: Global, tried: &mut Tried, reader: &Viewer) -> Result<bool, Fail> {
    let newcomer = tried.newcomer();
    Ok(
        finds(alloc, tried, reader, &[3, 1], &[(1, 100), (3, 100)])?
            && finds(alloc, tried, &newcomer, &[3, 1], &[(3, 30)])?,
    )
}

/// Whether this is so beside a writer.
fn look_ups_find(alloc: Global, tried: &mut Tried, reader: &Viewer) -> Result<bool, Fail> {
    let writer = tried.begin(alloc)?;
    Ok(changes_two(alloc, tried, &writer)? && both_find(alloc, tried, reader)?)
}

/// Whether this is so of a reader that begins first.
fn reader_finds(alloc: Global, tried: &mut Tried) -> Result<bool, Fail> {
    let reader = tried.begin(alloc)?;
    look_ups_find(alloc, tried, &reader.viewer)
}

/// Whether this is so in a chunk of four positions.
fn four_are_looked_up(alloc: Global) -> Result<bool, Fail> {
    let mut tried = Tried::new(alloc, 4, &[1, 2, 3])?;
    reader_finds(alloc, &mut tried)
}

#[test]
fn rows_are_looked_up_by_position_and_not_by_key(rt: HostRuntime) -> Result<(), Fail> {
    assert!(rt; four_are_looked_up(rt.alloc())?);
    Ok(())
}

/// Whether a writer updates the row to this number, and prunes before and behind.
fn updates(alloc: Global, tried: &mut Tried, number: i64) -> Result<bool, Fail> {
    let writer = tried.begin(alloc)?;
    tried.prune(&writer);
    let count = tried.write(alloc, &writer, 1, Some(number))?;
    let _time = tried.commit(&writer)?;
    tried.prune(&writer);
    Ok(count == Ok(1))
}

/// Whether the reader sees the first version of the row then, and a newcomer the last.
fn ends_are_seen(
    alloc: Global,
    tried: &mut Tried,
    reader: &Viewer,
    number: i64,
) -> Result<bool, AllocError> {
    let newcomer = tried.newcomer();
    Ok(sees(alloc, tried, reader, &[(1, 100)])? && sees(alloc, tried, &newcomer, &[(1, number)])?)
}

/// Whether this is so of 200 updates, one after another.
fn first_is_seen(alloc: Global, tried: &mut Tried, reader: &Viewer) -> Result<bool, Fail> {
    for number in 1..201i64 {
        if !updates(alloc, tried, number)? || !ends_are_seen(alloc, tried, reader, number)? {
            return Ok(false);
        }
    }
    Ok(true)
}

/// Whether this is so of a reader that begins before them.
fn old_reader_sees(alloc: Global, tried: &mut Tried) -> Result<bool, Fail> {
    let reader = tried.begin(alloc)?;
    let is_seen = first_is_seen(alloc, tried, &reader.viewer)?;
    tried.roll_back(&reader);
    Ok(is_seen)
}

/// Whether a newcomer sees the last version, where it has pruned all others.
fn last_is_left(alloc: Global, tried: &mut Tried) -> Result<bool, Fail> {
    let newcomer = tried.begin(alloc)?;
    tried.prune(&newcomer);
    Ok(sees(alloc, tried, &newcomer.viewer, &[(1, 200)])?)
}

/// Whether both hold where the row is the only one.
fn ends_hold(alloc: Global, tried: &mut Tried) -> Result<bool, Fail> {
    Ok(old_reader_sees(alloc, tried)? && last_is_left(alloc, tried)?)
}

/// Whether this is so in a chunk of four positions.
fn four_keep_ends(alloc: Global) -> Result<bool, Fail> {
    let mut tried = Tried::new(alloc, 4, &[1])?;
    ends_hold(alloc, &mut tried)
}

#[test]
fn an_old_reader_sees_the_first_of_many_versions(rt: HostRuntime) -> Result<(), Fail> {
    assert!(rt; four_keep_ends(rt.alloc())?);
    Ok(())
}
