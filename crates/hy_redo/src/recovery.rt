//! The tables from a log.

ghost use Rattle.std.specs.Prelude.{◌≡◌, ◌≢◌, true, false, ℕ, ◌+◌, ◌<◌, ◌≤◌, ◌++◌, List, Some, None, Ok, Err, length, drop, min};
ghost use Rattle.std.specs.Prelude.{vec_len, IfOk, IfErr, IfSome, IfNone, OnOk, IsErrOf, MatchOption};
ghost use Rattle.hy_outside.specs.Faults.{Rose};
ghost use Rattle.hy_disk.specs.Calls.{IsDurable, Stays, Syncs};
ghost use Rattle.hy_journal.specs.declared.Entry.{Entry};
ghost use Rattle.hy_log_record.specs.Bodies.{IsBody};
ghost use Rattle.hy_redo.specs.Tables.{Held, Stands};
ghost use Rattle.hy_disk.specs.Bytes.{HasLength, ReachesTo, ReadsAt};
ghost use Rattle.hy_redo.specs.Logs.{header};
ghost use Rattle.hy_redo.specs.Recovery.{HasNoHeader, RecoversFrom, DamagedIn};
ghost use Rattle.hy_redo.specs.Tests.{IsStanding, IsNext, IsNoDamage, StopsAt, as_stop, stopped_at};
ghost use Rattle.hy_redo.specs.Tests.{IsRedone, IsFrontOf, BeginsWith};

use crate::RecoverError;
use crate::standing::{put_changes, stand};
use hy_disk::Disk;
use hy_journal::Entry;
use hy_log_record::{BodyError, HeldTable, HeldTables, bodies_are_one, decode, split_record};
use hy_value::Seq;
use std::alloc::Global;

/// How many bytes are read at first, and at least at once.
const PIECE: usize = 4096;

/// The first bytes of a log.
const HEADER: [u8; 8] = *b"HYREDO1\n";

/// The bytes behind the header, where it is there.
fn bytes_behind_header(bytes: &[u8]) -> Option<&[u8]>
    ensures { MatchOption result ((rest : List ℕ) → bytes.now ≢ header ++ rest) (λ rest. bytes.now ≡ header ++ rest.now) }
{
    bytes.strip_prefix(&HEADER)
}

/// The entry whose record is this body, where it stands next on the tables. Malformed where there is none.
fn entry_of_body(
    alloc: Global,
    tables: &[HeldTable],
    last: Option<u64>,
    body: &[u8],
) -> Result<Entry, BodyError>
    ensures found { IfOk result (λ entry. IsStanding tables.now last entry body.now) }
    ensures none { IsErrOf result BodyError.Malformed → (entry : Entry) → IsBody tables.now entry body.now → Stands tables.now last entry → ⊥ }
{
    bodies_are_one();
    let entry = decode(alloc, tables, body)?;
    if !stand(tables, last, entry.time, entry.notes.as_slice()) {
        return Err(BodyError::Malformed);
    }
    Ok(entry)
}

/// Why no entry was read.
#[derive(Clone, Copy, Debug, PartialEq, Eq)]
enum Stop {
    /// The gate is closed.
    Closed,
    /// The bytes end before the gate, or before the end of its record.
    Short,
    /// The record is of no entry that stands next.
    Broken,
    /// Memory ran out.
    OutOfMemory,
}

impl From<BodyError> for Stop {
    ghost from_gives = { λ from e. e ≡ as_stop from };

    fn from(error: BodyError) -> Stop {
        match error {
            BodyError::Malformed => Stop::Broken,
            BodyError::OutOfMemory => Stop::OutOfMemory,
        }
    }
}

/// The entry at the front of the bytes, behind an open gate, and the bytes behind it.
fn next_entry<'a>(
    alloc: Global,
    tables: &[HeldTable],
    last: Option<u64>,
    bytes: &'a [u8],
) -> Result<(Entry, &'a [u8]), Stop>
    ensures next { IfOk result (λ x. IsNext tables.now last bytes.now x.0 x.1.now) }
    ensures stop { IfErr result (StopsAt tables.now last bytes.now) }
{
    bodies_are_one();
    let Some((gate, record)) = bytes.split_first() else {
        return Err(Stop::Short);
    };
    if *gate == 0 {
        return Err(Stop::Closed);
    }
    let Some((body, rest)) = split_record(record) else {
        return Err(Stop::Short);
    };
    let entry = entry_of_body(alloc, tables, last, body)?;
    Ok((entry, rest))
}

/// What is done so far of a log.
#[derive(Drop)]
struct SoFar {
    /// The tables so far.
    tables: Vec<HeldTable>,
    /// The time of the last entry, where there was one.
    last: Option<u64>,
    /// Where the next gate stands, in bytes.
    gate: usize,
}

/// Redoes what the bytes have from the next gate on, and tells why it went no further.
fn redo(alloc: Global, bytes: &[u8], so_far: &mut SoFar) -> Stop
    requires within { so_far.old.gate ≤ length bytes.now }
    ensures redone { (first : Held) → IsRedone first bytes.now so_far.old.tables.items so_far.old.last so_far.old.gate
        → IsRedone first bytes.now so_far.new.tables.items so_far.new.last so_far.new.gate }
    ensures stop { StopsAt so_far.new.tables.items so_far.new.last (drop so_far.new.gate bytes.now) result }
    ensures inside { so_far.new.gate ≤ length bytes.now }
{
    let mut rest = &bytes[so_far.gate..];
    'entries: loop {
        match next_entry(alloc, so_far.tables.as_slice(), so_far.last, rest) {
            Ok((entry, behind)) => {
                so_far.last = Some(entry.time);
                put_changes(&mut so_far.tables, entry.notes);
                rest = behind;
            }
            Err(stop) => {
                so_far.gate = bytes.len() - rest.len();
                return stop;
            }
        }
    }
}

/// The header is done, and no entry yet. None where the bytes do not begin with it.
fn begin(bytes: &[u8], tables: HeldTables) -> Option<SoFar>
    ensures begun { IfSome result (λ so_far. IsRedone tables bytes.now so_far.tables.items so_far.last so_far.gate × (so_far.gate ≤ length bytes.now)) }
    ensures none { IfNone result (HasNoHeader bytes.now) }
{
    bytes_behind_header(bytes)?;
    Some(SoFar {
        tables: tables.into_vec(),
        last: None,
        gate: HEADER.len(),
    })
}

/// Whether these bytes are too short, and the disk has more.
fn wants_more(stop: Stop, read: usize, len: u64) -> bool
    ensures more { result ≡ true → read < len }
    ensures ended { result ≡ false → stop ≡ Stop.Short → len ≤ read }
{
    match stop {
        Stop::Short => (read as u64) < len,
        _ => false,
    }
}

/// What reading comes to where it stops.
fn result_of_stop(stop: Stop, so_far: SoFar) -> Result<HeldTables, RecoverError>
    ensures { result ≡ stopped_at stop so_far.tables.items so_far.gate }
{
    let SoFar {
        tables,
        last: _,
        gate,
    } = so_far;
    match stop {
        Stop::Closed => Ok(Seq::from_vec(tables)),
        Stop::Short | Stop::Broken => Err(RecoverError::Damaged { at: gate as u64 }),
        Stop::OutOfMemory => Err(RecoverError::OutOfMemory),
    }
}

/// So many bytes of the disk, from this offset on.
fn read_piece<D: Disk>(
    alloc: Global,
    disk: &mut D,
    start: u64,
    count: usize,
) -> Result<Vec<u8>, RecoverError>
    requires within { ReachesTo (D.held disk.old) (start + count) }
    ensures bytes { IfOk result (λ piece. ReadsAt (D.held disk.old) start piece.items) }
    ensures count { IfOk result (λ piece. length piece.items ≡ count) }
    ensures no_damage { IfErr result IsNoDamage }
    ensures held { D.held disk.new ≡ D.held disk.old }
    ensures stays { Stays D.clock D.image D.image_since disk.old disk.new }
    ensures fault { IsErrOf result RecoverError.DiskFault → Rose (D.faults disk.old) (D.faults disk.new) }
    ensures steady { ¬ IsErrOf result RecoverError.DiskFault → D.faults disk.new ≡ D.faults disk.old }
    ensures never_fell { D.faults disk.old ≤ D.faults disk.new }
{
    let mut piece = vec![in alloc; 0; count]?;
    disk.read(start, &mut piece)?;
    Ok(piece)
}

/// Reads on behind the first bytes of a disk that has so many: as many again, and a piece at least, as far as the disk goes.
fn read_on<D: Disk>(
    alloc: Global,
    disk: &mut D,
    len: u64,
    bytes: &mut Vec<u8>,
) -> Result<(), RecoverError>
    requires count { HasLength (D.held disk.old) len }
    requires within { length bytes.old.items ≤ len }
    requires front { IsFrontOf (D.held disk.old) bytes.old.items }
    ensures front { OnOk result (IsFrontOf (D.held disk.old) bytes.new.items) }
    ensures more { OnOk result (BeginsWith bytes.new.items bytes.old.items) }
    ensures longer { OnOk result (length bytes.old.items < len → length bytes.old.items < length bytes.new.items) }
    ensures long { OnOk result (min len PIECE ≤ length bytes.new.items) }
    ensures within { OnOk result (length bytes.new.items ≤ len) }
    ensures no_damage { IfErr result IsNoDamage }
    ensures held { D.held disk.new ≡ D.held disk.old }
    ensures stays { Stays D.clock D.image D.image_since disk.old disk.new }
    ensures fault { IsErrOf result RecoverError.DiskFault → Rose (D.faults disk.old) (D.faults disk.new) }
    ensures steady { ¬ IsErrOf result RecoverError.DiskFault → D.faults disk.new ≡ D.faults disk.old }
    ensures never_fell { D.faults disk.old ≤ D.faults disk.new }
{
    let start = bytes.len();
    let count = start.max(PIECE).min(len as usize - start);
    let piece = read_piece(alloc, disk, start as u64, count)?;
    bytes.extend_from_slice(&piece)?;
    Ok(())
}

/// The tables after the log on a disk, which is read as far as the closed gate, in pieces.
fn redo_disk<D: Disk>(
    alloc: Global,
    disk: &mut D,
    tables: HeldTables,
) -> Result<HeldTables, RecoverError>
    ensures found { IfOk result (λ found. RecoversFrom tables (D.held disk.old) (Ok found)) }
    ensures damaged { IfErr result (DamagedIn tables (D.held disk.old)) }
    ensures held { D.held disk.new ≡ D.held disk.old }
    ensures stays { Stays D.clock D.image D.image_since disk.old disk.new }
    ensures fault { IsErrOf result RecoverError.DiskFault → Rose (D.faults disk.old) (D.faults disk.new) }
    ensures steady { ¬ IsErrOf result RecoverError.DiskFault → D.faults disk.new ≡ D.faults disk.old }
    ensures never_fell { D.faults disk.old ≤ D.faults disk.new }
{
    let len = disk.len()?;
    let mut bytes = Vec::new(alloc);
    read_on(alloc, disk, len, &mut bytes)?;
    let Some(mut so_far) = begin(&bytes, tables) else {
        return Err(RecoverError::Damaged { at: 0 });
    };
    'pieces: loop {
        let stop = redo(alloc, &bytes, &mut so_far);
        if !wants_more(stop, bytes.len(), len) {
            return result_of_stop(stop, so_far);
        }
        read_on(alloc, disk, len, &mut bytes)?;
    }
}

/// The tables after the log on the disk, from those before it. What the bytes recover to is sure before it is read, and of
/// what follows the closed gate no more is read than a piece, or as much as stands before it.
pub fn recover<D: Disk>(
    alloc: Global,
    disk: &mut D,
    tables: HeldTables,
) -> Result<HeldTables, RecoverError>
    // What the bytes come to.
    ensures found { IfOk result (λ found. RecoversFrom tables (D.held disk.old) (Ok found)) }
    ensures damaged { IfErr result (DamagedIn tables (D.held disk.old)) }
    // What the call does to the disk: it syncs.
    ensures sure { ¬ IsErrOf result RecoverError.DiskFault → IsDurable (D.held disk.new) (D.image disk.new) }
    ensures held { D.held disk.new ≡ D.held disk.old }
    ensures syncs { Syncs D.held D.clock D.image D.image_since disk.old disk.new }
    // Faults of the disk.
    ensures fault { IsErrOf result RecoverError.DiskFault → Rose (D.faults disk.old) (D.faults disk.new) }
    ensures steady { ¬ IsErrOf result RecoverError.DiskFault → D.faults disk.new ≡ D.faults disk.old }
    ensures never_fell { D.faults disk.old ≤ D.faults disk.new }
{
    disk.sync()?;
    redo_disk(alloc, disk, tables)
}
