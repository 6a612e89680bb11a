//! Random calls of a chunk, beside a plain list of versions: after each call an old reader, each writer and a newcomer
//! see the same in both.

ghost use Rattle.std.specs.Prelude.{◌<◌};

use crate::plain::Plain;
use crate::tried::{Open, Tried};
use hy_given::Random;
use hy_stamp::Viewer;
use std::alloc::Global;
use std::test::Fail;

/// How many positions the chunk has.
const POSITIONS: usize = 64;

/// How many identifiers rows have.
const IDS: u32 = 12;

/// How many transactions are open at most, the reader apart.
const WRITERS: usize = 4;

/// A chunk, the plain list beside it, and who is open.
#[derive(Drop)]
struct Run {
    tried: Tried,
    plain: Plain,
    /// A reader, which begins anew now and then.
    reader: Open,
    writers: Vec<Open>,
    random: Random,
    /// How many writes were refused.
    refused: u32,
}

/// A run in which a reader has begun.
fn start(alloc: Global) -> Result<Run, Fail> {
    let mut tried = Tried::new(alloc, POSITIONS, &[])?;
    let reader = tried.begin(alloc)?;
    Ok(Run {
        tried,
        plain: Plain::new(alloc),
        reader,
        writers: Vec::new(alloc),
        random: Random::new(15),
        refused: 0,
    })
}

/// An identifier.
fn any_id(random: &mut Random) -> i64 {
    i64::from(random.below(IDS))
}

/// The number of an open writer, or none where there is none.
fn any_writer(run: &mut Run) -> Option<usize> {
    match u32::try_from(run.writers.len()) {
        Ok(count) if count > 0 => Some(run.random.below(count) as usize),
        _ => None,
    }
}

/// Whether a viewer sees the rows of the plain list, and finds one of them by its key.
fn agrees(alloc: Global, run: &mut Run, viewer: &Viewer) -> Result<bool, Fail> {
    let id = any_id(&mut run.random);
    let rows = run.tried.seen(alloc, viewer)?;
    Ok(
        are_all_seen(&run.plain, viewer, rows.as_slice())
            && run.tried.has_key(viewer, id) == run.plain.balance(viewer, id).is_some()
            && finds(alloc, run, viewer, id)?,
    )
}

/// Whether rows are all that are seen by the plain list.
fn are_all_seen(plain: &Plain, viewer: &Viewer, rows: &[(i64, i64)]) -> bool {
    let mut count = 0usize;
    for number in 0..IDS {
        if plain.balance(viewer, i64::from(number)).is_some() {
            count = count.wrapping_add(1);
        }
    }
    rows.len() == count
        && rows
            .iter()
            .all(|row| plain.balance(viewer, row.0) == Some(row.1))
}

/// Whether a viewer finds of an identifier what the plain list has.
fn finds(alloc: Global, run: &mut Run, viewer: &Viewer, id: i64) -> Result<bool, Fail> {
    let rows = run.tried.looked_up(alloc, viewer, &[id])?;
    match run.plain.balance(viewer, id) {
        Some(bal) => Ok(rows.as_slice() == [(id, bal)].as_slice()),
        None => Ok(rows.is_empty()),
    }
}

/// Whether all writers agree.
fn writers_agree(alloc: Global, run: &mut Run) -> Result<bool, Fail> {
    for i in 0..run.writers.len() {
        let Some(open) = run.writers.get(i) else {
            return Ok(true);
        };
        let viewer = open.viewer;
        if !agrees(alloc, run, &viewer)? {
            return Ok(false);
        }
    }
    Ok(true)
}

/// Whether the reader, a newcomer and all writers agree.
fn all_agree(alloc: Global, run: &mut Run) -> Result<bool, Fail> {
    let reader = run.reader.viewer;
    let newcomer = run.tried.newcomer();
    Ok(agrees(alloc, run, &reader)? && agrees(alloc, run, &newcomer)? && writers_agree(alloc, run)?)
}

/// A writer begins, unless there are enough.
fn begin(alloc: Global, run: &mut Run) -> Result<(), Fail> {
    if run.writers.len() < WRITERS {
        let open = run.tried.begin(alloc)?;
        run.writers.push(open)?;
    }
    Ok(())
}

/// The reader ends, and another begins.
fn begin_anew(alloc: Global, run: &mut Run) -> Result<(), Fail> {
    run.tried.roll_back(&run.reader);
    run.reader = run.tried.begin(alloc)?;
    Ok(())
}

/// A writer updates or deletes a row: whether it is written, refused or not there as the plain list says.
fn write(alloc: Global, run: &mut Run, number: usize) -> Result<bool, Fail> {
    let id = any_id(&mut run.random);
    let drawn = run.random.below(10);
    let bal = if drawn < 3 {
        None
    } else {
        Some(i64::from(drawn))
    };
    let Some(open) = run.writers.get(number) else {
        return Ok(true);
    };
    let is_there = run.plain.balance(&open.viewer, id).is_some();
    let is_hidden = run.plain.is_hidden(&open.viewer, id);
    match run.tried.write(alloc, open, id, bal)? {
        Ok(count) => {
            if count != 0 {
                run.plain.leave(id, bal, open.viewer.id)?;
            }
            Ok(count == u32::from(is_there) && !(is_there && is_hidden))
        }
        Err(_) => {
            run.refused = run.refused.wrapping_add(1);
            Ok(is_there && is_hidden)
        }
    }
}

/// A writer inserts a row, unless somebody has one of its identifier: there is room.
fn place(alloc: Global, run: &mut Run, number: usize) -> Result<bool, Fail> {
    let id = any_id(&mut run.random);
    let bal = i64::from(run.random.below(100));
    let Some(open) = run.writers.get(number) else {
        return Ok(true);
    };
    let viewer = &open.viewer;
    if run.plain.balance(viewer, id).is_some() || run.plain.is_hidden(viewer, id) {
        return Ok(true);
    }
    match run.tried.place(alloc, open, id, bal)? {
        Ok(_) => run.plain.leave(id, Some(bal), open.viewer.id)?,
        Err(_) => return Ok(false),
    }
    Ok(true)
}

/// A writer commits.
fn commit(run: &mut Run, number: usize) -> Result<(), Fail> {
    if number < run.writers.len() {
        let open = run.writers.remove(number);
        let time = run.tried.commit(&open)?;
        run.plain.commit(open.viewer.id, time);
    }
    Ok(())
}

/// A writer takes back what it wrote.
fn roll_back(run: &mut Run, number: usize) {
    if number < run.writers.len() {
        let open = run.writers.remove(number);
        run.tried.roll_back(&open);
        run.plain.roll_back(open.viewer.id);
    }
}

/// The chunk is pruned by the cover of a writer.
fn prune(run: &mut Run, number: usize) {
    if let Some(open) = run.writers.get(number) {
        run.tried.prune(open);
    }
}

/// A call by a writer.
fn call_of(alloc: Global, run: &mut Run, number: usize) -> Result<bool, Fail> {
    match run.random.below(16) {
        0..7 => return write(alloc, run, number),
        7..12 => return place(alloc, run, number),
        12 => roll_back(run, number),
        13 => prune(run, number),
        _ => commit(run, number)?,
    }
    Ok(true)
}

/// A call, which may be that somebody begins.
fn call(alloc: Global, run: &mut Run) -> Result<bool, Fail> {
    match run.random.below(40) {
        0 => begin_anew(alloc, run)?,
        1..6 => begin(alloc, run)?,
        _ => {
            if let Some(number) = any_writer(run) {
                return call_of(alloc, run, number);
            }
            begin(alloc, run)?;
        }
    }
    Ok(true)
}

/// Whether so many calls agree, with writes refused among them.
fn calls_agree(alloc: Global, run: &mut Run) -> Result<bool, Fail> {
    for _call in 0..2000u32 {
        if !call(alloc, run)? || !all_agree(alloc, run)? {
            return Ok(false);
        }
    }
    Ok(run.refused > 50)
}

/// Whether a run of them does.
fn run_agrees(alloc: Global) -> Result<bool, Fail> {
    let mut run = start(alloc)?;
    calls_agree(alloc, &mut run)
}

#[test]
fn random_calls_agree_with_a_plain_list(rt: HostRuntime) -> Result<(), Fail> {
    assert!(rt; run_agrees(rt.alloc())?);
    Ok(())
}
