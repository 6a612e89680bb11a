//! The log on a disk.

ghost use Rattle.std.specs.Prelude.{◌≡◌, ℕ, ◌+◌, ◌^◌, ◌<◌, ◌≤◌, List, [], ◌∷◌, ◌++◌, length, option_map, IfSome, IfOk, OnOk, OnErr, IsErrOf};
ghost use Rattle.hy_outside.specs.Faults.{Rose};
ghost use Rattle.hy_journal.specs.declared.Entry.{Entry};
ghost use Rattle.hy_disk.specs.Bytes.{overwritten, ReachesTo};
ghost use Rattle.hy_disk.specs.Calls.{Stays, Writes, IsDurable};
ghost use Rattle.hy_redo.specs.Logs.{log_of, IsWholeLog, IsBatchOf};
ghost use Rattle.hy_redo.specs.Crashes.{next_gate, AreLogsOf, AreClosedAt, Appends, IsBegun, IsBegunAtMost};

use crate::{AppendError, CreateError};
use hy_disk::{Disk, DiskError};
use hy_journal::Entry;
use hy_log_record::encode;
use std::alloc::{AllocError, Global};
use std::marker::Model;

/// The first bytes of a log, with a closed gate behind them.
const EMPTY_LOG: [u8; 9] = *b"HYREDO1\n\0";

/// Where the closed gate stands behind those.
const FIRST_GATE: u64 = 8;

/// A gate that is open.
const OPEN: u8 = 1;

/// A gate that is closed.
const CLOSED: u8 = 0;

/// The most bytes that a log has.
const LONGEST: u64 = 1 << 63;

/// A log that is written. Contracts see the offset of its closed gate, in bytes.
#[derive(Drop, Debug)]
pub struct Log {
    gate: u64,
}

impl Model for Log {
    ghost use Rattle.std.specs.Prelude.{ℕ};

    ghost Value = { ℕ };

    ghost view = { λ log. log.gate };
}

/// Entries, at least one, as the bytes of a log that stand behind the gate of the first: to be appended together. Contracts
/// see the bytes.
#[derive(Drop, Debug)]
pub struct Batch {
    bytes: Vec<u8>,
}

impl Model for Batch {
    ghost use Rattle.std.specs.Prelude.{ℕ, List};

    ghost Value = { List ℕ };

    ghost view = { λ batch. batch.bytes.items };
}

/// Writes bytes at an offset, and makes them sure.
fn write_surely<D: Disk>(disk: &mut D, at: u64, from: &[u8]) -> Result<(), DiskError>
    requires within { ReachesTo (D.held disk.old) at }
    requires in_range { at + length from.now < 2 ^ 64 }
    ensures written { OnOk result (D.held disk.new ≡ option_map (λ bytes. overwritten bytes at from.now) (D.held disk.old)) }
    ensures durable { OnOk result (IsDurable (D.held disk.new) (D.image disk.new)) }
    ensures writes { Writes D.clock D.image D.image_since at (length from.now) disk.old disk.new }
    ensures stays { IsErrOf result DiskError.OutOfMemory → Stays D.clock D.image D.image_since disk.old disk.new }
    ensures kept { IsErrOf result DiskError.OutOfMemory → D.held disk.new ≡ D.held disk.old }
    ensures fault { IsErrOf result DiskError.Failed → Rose (D.faults disk.old) (D.faults disk.new) }
    ensures steady { ¬ IsErrOf result DiskError.Failed → D.faults disk.new ≡ D.faults disk.old }
    ensures never_fell { D.faults disk.old ≤ D.faults disk.new }
{
    disk.write_at(at, from)?;
    match disk.sync() {
        Ok(()) => Ok(()),
        Err(_) => Err(DiskError::Failed),
    }
}

/// Makes an empty log on an empty disk: the header and a closed gate.
pub fn create<D: Disk>(disk: &mut D) -> Result<Log, CreateError>
    // The log that is made.
    ensures logs { IfOk result (λ log. AreLogsOf (D.image disk.new) [] log) }
    ensures held { OnOk result (D.held disk.new ≡ option_map (λ _. log_of []) (D.held disk.old)) }
    ensures gate { IfOk result (λ log. log + 1 ≡ length (log_of [])) }
    // A disk that isn't empty is refused, and stays as it was.
    ensures empty { ¬ (IsErrOf result CreateError.NotEmpty) → ¬ (IsErrOf result CreateError.DiskFault) → IfSome (D.held disk.old) (λ bytes. bytes ≡ []) }
    ensures not_empty { IsErrOf result CreateError.NotEmpty → IfSome (D.held disk.old) (λ bytes. 0 < length bytes) }
    ensures untouched { IsErrOf result CreateError.NotEmpty → Stays D.clock D.image D.image_since disk.old disk.new }
    ensures as_it_was { IsErrOf result CreateError.NotEmpty → D.held disk.new ≡ D.held disk.old }
    // Where memory ran out the disk is as it was too.
    ensures unchanged { IsErrOf result CreateError.OutOfMemory → Stays D.clock D.image D.image_since disk.old disk.new }
    ensures kept { IsErrOf result CreateError.OutOfMemory → D.held disk.new ≡ D.held disk.old }
    // What a crash leaves at any moment of the call, where the log is made or the disk fails.
    ensures begun { OnOk result (IsBegun D.held D.clock D.image D.image_since disk.old disk.new) }
    ensures cut { IsErrOf result CreateError.DiskFault → IsBegunAtMost D.held D.clock D.image D.image_since disk.old disk.new }
    // The disk's clock and its faults.
    ensures later { D.clock disk.old ≤ D.clock disk.new }
    ensures fault { IsErrOf result CreateError.DiskFault → Rose (D.faults disk.old) (D.faults disk.new) }
    ensures steady { ¬ IsErrOf result CreateError.DiskFault → D.faults disk.new ≡ D.faults disk.old }
    ensures never_fell { D.faults disk.old ≤ D.faults disk.new }
{
    let len = disk.len()?;
    if len != 0 {
        return Err(CreateError::NotEmpty);
    }
    write_surely(disk, 0, &EMPTY_LOG)?;
    Ok(Log { gate: FIRST_GATE })
}

/// The offset of the last of so many bytes behind the gate at this offset. Where the log would grow past 2^63 bytes that
/// is want of memory.
fn last_behind(gate: u64, count: usize) -> Result<u64, AllocError>
    ensures last { IfOk result (λ last. last ≡ gate + count) }
    ensures within { OnOk result (gate + count < 2 ^ 63) }
    ensures past { OnErr result (2 ^ 63 ≤ gate + count) }
{
    match gate.checked_add(count as u64) {
        Some(last) if last < LONGEST => Ok(last),
        _ => Err(AllocError),
    }
}

/// Writes the bytes of a batch behind the closed gate at this offset, and opens that once they are sure. Gives the offset of
/// the new closed gate. Nothing is written where the log would grow past 2^63 bytes.
fn append_at<D: Disk>(gate: u64, disk: &mut D, bytes: &[u8]) -> Result<u64, AppendError>
    requires closed { AreClosedAt (D.image disk.old) gate }
    requires some { (more : List Entry) × IsBatchOf more bytes.now }
    ensures moments { (entries more : List Entry) → IsBatchOf more bytes.now → AreLogsOf (D.image disk.old) entries gate
        → Appends D.clock D.image_since entries more gate disk.old disk.new }
    ensures later { D.clock disk.old ≤ D.clock disk.new }
    ensures done { OnOk result ((entries more : List Entry) → IsBatchOf more bytes.now → AreLogsOf (D.image disk.old) entries gate
        → AreLogsOf (D.image disk.new) (entries ++ more) (next_gate gate more)) }
    ensures bytes { OnOk result ((entries more : List Entry) → IsBatchOf more bytes.now → IsWholeLog (D.held disk.old) entries gate
        → IsWholeLog (D.held disk.new) (entries ++ more) (next_gate gate more)) }
    ensures gate { IfOk result (λ next. (more : List Entry) → IsBatchOf more bytes.now → next ≡ next_gate gate more) }
    ensures still { IsErrOf result AppendError.OutOfMemory → (entries : List Entry) → AreLogsOf (D.image disk.old) entries gate
        → AreLogsOf (D.image disk.new) entries gate }
    ensures fault { IsErrOf result AppendError.DiskFault → Rose (D.faults disk.old) (D.faults disk.new) }
    ensures steady { ¬ IsErrOf result AppendError.DiskFault → D.faults disk.new ≡ D.faults disk.old }
    ensures never_fell { D.faults disk.old ≤ D.faults disk.new }
{
    let next = last_behind(gate, bytes.len())?;
    write_surely(disk, gate + 1, bytes)?;
    write_surely(disk, gate, &[OPEN])?;
    Ok(next)
}

/// The bytes of some entries. Err is for want of memory.
pub fn encode_batch(alloc: Global, more: &[Entry]) -> Result<Batch, AllocError>
    requires { 0 < length more.now }
    ensures { IfOk result (λ batch. IsBatchOf more.now batch) }
{
    let mut bytes = Vec::new(alloc);
    for entry in more {
        bytes.push(OPEN)?;
        encode(entry, &mut bytes)?;
    }
    bytes.push(CLOSED)?;
    // The first gate is opened last, by a write of its own.
    let _gate = bytes.remove(0);
    Ok(Batch { bytes })
}

/// Adds the entries of a batch at the end, all of them or none. It writes their records and a new closed gate behind the closed
/// one, and once they are sure it opens that: two syncs for however many. It takes no memory but what the disk takes. Of a disk
/// that has answered a fault no other entry may be added. Want of room is told as want of memory: OutOfMemory is the answer
/// where the log would grow past 2^63 bytes too, and then nothing was written.
pub fn append_batch<D: Disk>(log: &mut Log, disk: &mut D, batch: &Batch) -> Result<(), AppendError>
    requires closed { AreClosedAt (D.image disk.old) log.old }
    requires some { (more : List Entry) × IsBatchOf more batch.now }
    // A crash at any moment leaves the log as it was, or with all of the entries.
    ensures moments { (entries more : List Entry) → IsBatchOf more batch.now → AreLogsOf (D.image disk.old) entries log.old
        → Appends D.clock D.image_since entries more log.old disk.old disk.new }
    // The disk's clock goes on.
    ensures later { D.clock disk.old ≤ D.clock disk.new }
    // The log with the entries.
    ensures done { OnOk result ((entries more : List Entry) → IsBatchOf more batch.now → AreLogsOf (D.image disk.old) entries log.old
        → AreLogsOf (D.image disk.new) (entries ++ more) log.new) }
    ensures bytes { OnOk result ((entries more : List Entry) → IsBatchOf more batch.now → IsWholeLog (D.held disk.old) entries log.old
        → IsWholeLog (D.held disk.new) (entries ++ more) log.new) }
    ensures gate { OnOk result ((more : List Entry) → IsBatchOf more batch.now → log.new ≡ next_gate log.old more) }
    // After an error the log is as it was, and where memory ran out an append may follow.
    ensures same { OnErr result (log.new ≡ log.old) }
    ensures still { IsErrOf result AppendError.OutOfMemory → (entries : List Entry) → AreLogsOf (D.image disk.old) entries log.old
        → AreLogsOf (D.image disk.new) entries log.new }
    // Faults of the disk.
    ensures fault { IsErrOf result AppendError.DiskFault → Rose (D.faults disk.old) (D.faults disk.new) }
    ensures steady { ¬ IsErrOf result AppendError.DiskFault → D.faults disk.new ≡ D.faults disk.old }
    ensures never_fell { D.faults disk.old ≤ D.faults disk.new }
{
    log.gate = append_at(log.gate, disk, batch.bytes.as_slice())?;
    Ok(())
}

/// Adds entries at the end, all of them or none, as append_batch does: two syncs for however many. Nothing is written where there
/// is no entry. Of a disk that has answered a fault no other entry may be added. Want of room is told as want of memory:
/// OutOfMemory is the answer where the log would grow past 2^63 bytes too, and then nothing was written.
pub fn append<D: Disk>(
    alloc: Global,
    log: &mut Log,
    disk: &mut D,
    more: &[Entry],
) -> Result<(), AppendError>
    requires closed { AreClosedAt (D.image disk.old) log.old }
    // A crash at any moment leaves the log as it was, or with all of the entries.
    ensures moments { (entries : List Entry) → AreLogsOf (D.image disk.old) entries log.old
        → Appends D.clock D.image_since entries more.now log.old disk.old disk.new }
    // The disk's clock goes on.
    ensures later { D.clock disk.old ≤ D.clock disk.new }
    // The log with the entries.
    ensures done { OnOk result ((entries : List Entry) → AreLogsOf (D.image disk.old) entries log.old
        → AreLogsOf (D.image disk.new) (entries ++ more.now) log.new) }
    ensures bytes { OnOk result ((entries : List Entry) → IsWholeLog (D.held disk.old) entries log.old
        → IsWholeLog (D.held disk.new) (entries ++ more.now) log.new) }
    ensures gate { OnOk result (log.new ≡ next_gate log.old more.now) }
    // After an error the log is as it was, and where memory ran out an append may follow.
    ensures same { OnErr result (log.new ≡ log.old) }
    ensures still { IsErrOf result AppendError.OutOfMemory → (entries : List Entry) → AreLogsOf (D.image disk.old) entries log.old
        → AreLogsOf (D.image disk.new) entries log.new }
    // Faults of the disk.
    ensures fault { IsErrOf result AppendError.DiskFault → Rose (D.faults disk.old) (D.faults disk.new) }
    ensures steady { ¬ IsErrOf result AppendError.DiskFault → D.faults disk.new ≡ D.faults disk.old }
    ensures never_fell { D.faults disk.old ≤ D.faults disk.new }
{
    if more.is_empty() {
        return Ok(());
    }
    let batch = encode_batch(alloc, more)?;
    append_batch(log, disk, &batch)
}
