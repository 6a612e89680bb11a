//! Runs that keep a redo log, and the tables that one gives.

ghost use Rattle.std.specs.Prelude.{◌≡◌, ◌≢◌, ℕ, ◌≤◌, ◌⊎◌, false, true, List, [], None, Some, IsNone, IfOk, IfErr, OnErr, IsErrOf};
ghost use Rattle.hy_outside.specs.Faults.{Rose};
ghost use Rattle.hy_value.specs.declared.Value.{Value};
ghost use Rattle.hy_render.specs.Report.{text};
ghost use Rattle.hy_disk.specs.Bytes.{IsOwn};
ghost use Rattle.hy_disk.specs.Calls.{Syncs};
ghost use Rattle.hy_redo.specs.Crashes.{AreLogsOf};
ghost use Rattle.hy_redo.specs.Recovery.{DamagedIn};
ghost use Rattle.hy_recovery.specs.Recovered.{AreRecovered};
ghost use Rattle.hy_top.specs.Lines.{damaged_line};
ghost use Rattle.hy_top.specs.Program.{MayCome, names_at};
ghost use Rattle.hy_top.specs.Reports.{Writes, Runs, RunsLogged, FindsALog, Restores, GaveUp, LeavesLogOf, KeepsLogOf, rows_text, tables_at};
ghost use Rattle.hy_top.specs.Settings.{CanRun, IsUtf8Script};

use crate::lines::damage_line;
use crate::settings::{Given, given_and_catalog, given_of};
use crate::{Crew, DISK_FAULT, Mode, NO_MEMORY, Report, tell, without_outcome, write};
use hy_bound::StoredRows;
use hy_disk::Disk;
use hy_dump::dump;
use hy_machine::runs_are_steps;
use hy_outside::Sink;
use hy_recovery::recover_rows;
use hy_redo::{AppendError, CreateError, Log, RecoverError, create};
use hy_render::{Names, Outcome, render, render_tables};
use hy_schema::Catalog;
use hy_script::Script;
use hy_threads::Gate;
use hy_world::{World, run_threads_logged};
use std::alloc::{AllocError, Global};
use std::sync::Wait;
use std::thread::Threads;

/// What is written where a log was to be made on a disk that has bytes.
pub(crate) const NOT_EMPTY: &[u8] = b"log: not empty\n";

/// The status where the disk has bytes already, or bytes that are no log of the script's tables.
pub(crate) const BAD_LOG: u8 = 7;

/// Makes a log on the disk, runs a script with its commit order in the log, and writes the text of its outcome. By its schedule
/// each entry is in the log before another step is taken; on threads before its session goes on. Where the disk has bytes it says
/// so, nothing is run, and the disk stays.
pub(crate) fn run_logged<T: Threads + Wait + Sync, W: Sink, G: Gate, D: Disk + Send + Sync>(
    crew: &Crew<'_, T, G>,
    script: Script,
    mode: Mode,
    sink: &mut W,
    disk: &mut D,
) -> Report
    requires runs { CanRun script }
    requires texts { IsUtf8Script script }
    ensures run { GaveUp result.status × (sink.new ≡ sink.old) × IsNone result.outcome
        ⊎ (RunsLogged mode.threads script (D.held disk.old) result.status result.outcome (W.written sink.old) (W.written sink.new)
        ⊎ FindsALog (D.held disk.old) result.status result.outcome (W.written sink.old) (W.written sink.new)) }
    ensures leaves { LeavesLogOf D.held D.clock D.image D.image_since mode.threads script result.status result.outcome disk.old disk.new }
    ensures kept { result.status ≡ 7 → D.held disk.new ≡ D.held disk.old }
    ensures write_fault { result.status ≡ 4 → Rose (W.faults sink.old) (W.faults sink.new) }
    ensures sink_steady { result.status ≢ 4 → W.faults sink.new ≡ W.faults sink.old }
    ensures disk_fault { result.status ≡ 6 → Rose (D.faults disk.old) (D.faults disk.new) }
    ensures disk_steady { result.status ≢ 6 → D.faults disk.new ≡ D.faults disk.old }
{
    match create(disk) {
        Ok(log) => run_on_log(crew, script, mode, log, sink, disk),
        Err(CreateError::NotEmpty) => without_outcome(write(sink, NOT_EMPTY, BAD_LOG)),
        Err(CreateError::DiskFault) => without_outcome(DISK_FAULT),
        Err(CreateError::OutOfMemory) => without_outcome(NO_MEMORY),
    }
}

/// Runs a script with its commit order in this log, which is empty, and writes the text of its outcome.
fn run_on_log<T: Threads + Wait + Sync, W: Sink, G: Gate, D: Disk + Send + Sync>(
    crew: &Crew<'_, T, G>,
    script: Script,
    mode: Mode,
    log: Log,
    sink: &mut W,
    disk: &mut D,
) -> Report
    requires runs { CanRun script }
    requires texts { IsUtf8Script script }
    requires log { AreLogsOf (D.image disk.old) [] log }
    ensures run { GaveUp result.status × (sink.new ≡ sink.old) × IsNone result.outcome
        ⊎ Runs mode.threads script result.status result.outcome (W.written sink.old) (W.written sink.new) }
    ensures keeps { KeepsLogOf D.clock D.image D.image_since mode.threads script result.outcome disk.old disk.new }
    ensures write_fault { result.status ≡ 4 → Rose (W.faults sink.old) (W.faults sink.new) }
    ensures sink_steady { result.status ≢ 4 → W.faults sink.new ≡ W.faults sink.old }
    ensures disk_fault { result.status ≡ 6 → Rose (D.faults disk.old) (D.faults disk.new) }
    ensures disk_steady { result.status ≢ 6 → D.faults disk.new ≡ D.faults disk.old }
{
    match logged_text(crew, script, mode, log, disk) {
        Ok((outcome, written)) => tell(outcome, written.as_slice(), sink),
        Err(AppendError::DiskFault) => without_outcome(DISK_FAULT),
        Err(AppendError::OutOfMemory) => without_outcome(NO_MEMORY),
    }
}

/// The outcome of a script that is run with its commit order in this log, and its text.
fn logged_text<T: Threads + Wait + Sync, G: Gate, D: Disk + Send + Sync>(
    crew: &Crew<'_, T, G>,
    script: Script,
    mode: Mode,
    log: Log,
    disk: &mut D,
) -> Result<(Outcome, Vec<u8>), AppendError>
    requires runs { CanRun script }
    requires texts { IsUtf8Script script }
    requires log { AreLogsOf (D.image disk.old) [] log }
    ensures outcome { IfOk result (λ given. MayCome mode.threads script given.0 × (given.1.items ≡ text (names_at script) given.0)) }
    ensures keeps { IfOk result (λ given. KeepsLogOf D.clock D.image D.image_since mode.threads script (Some given.0) disk.old disk.new) }
    ensures cut { OnErr result (KeepsLogOf D.clock D.image D.image_since mode.threads script None disk.old disk.new) }
    ensures fault { IsErrOf result AppendError.DiskFault → Rose (D.faults disk.old) (D.faults disk.new) }
    ensures steady { ¬ IsErrOf result AppendError.DiskFault → D.faults disk.new ≡ D.faults disk.old }
{
    let (outcome, names) = logged_outcome(crew, script, mode, log, disk)?;
    let mut written = Vec::new(crew.alloc);
    render(&names, &outcome, &mut written)?;
    Ok((outcome, written))
}

/// The outcome of a script that is run with its commit order in this log, and the names that it is printed with.
fn logged_outcome<T: Threads + Wait + Sync, G: Gate, D: Disk + Send + Sync>(
    crew: &Crew<'_, T, G>,
    script: Script,
    mode: Mode,
    log: Log,
    disk: &mut D,
) -> Result<(Outcome, Names), AppendError>
    requires runs { CanRun script }
    requires texts { IsUtf8Script script }
    requires log { AreLogsOf (D.image disk.old) [] log }
    ensures outcome { IfOk result (λ given. MayCome mode.threads script given.0 × (given.1 ≡ names_at script)) }
    ensures keeps { IfOk result (λ given. KeepsLogOf D.clock D.image D.image_since mode.threads script (Some given.0) disk.old disk.new) }
    ensures cut { OnErr result (KeepsLogOf D.clock D.image D.image_since mode.threads script None disk.old disk.new) }
    ensures fault { IsErrOf result AppendError.DiskFault → Rose (D.faults disk.old) (D.faults disk.new) }
    ensures steady { ¬ IsErrOf result AppendError.DiskFault → D.faults disk.new ≡ D.faults disk.old }
{
    if mode.threads {
        logged_by_threads(crew, script, mode.prunes, log, disk)
    } else {
        logged_by_schedule(crew.alloc, script, mode.prunes, log, disk)
    }
}

/// The outcome of a script that is run by its schedule, with each entry of the commit order in this log before another step
/// is taken, and the names that it is printed with.
fn logged_by_schedule<D: Disk>(
    alloc: Global,
    script: Script,
    prunes: bool,
    log: Log,
    disk: &mut D,
) -> Result<(Outcome, Names), AppendError>
    requires runs { CanRun script }
    requires texts { IsUtf8Script script }
    requires log { AreLogsOf (D.image disk.old) [] log }
    ensures outcome { IfOk result (λ given. MayCome false script given.0 × (given.1 ≡ names_at script)) }
    ensures keeps { IfOk result (λ given. KeepsLogOf D.clock D.image D.image_since false script (Some given.0) disk.old disk.new) }
    ensures cut { OnErr result (KeepsLogOf D.clock D.image D.image_since false script None disk.old disk.new) }
    ensures fault { IsErrOf result AppendError.DiskFault → Rose (D.faults disk.old) (D.faults disk.new) }
    ensures steady { ¬ IsErrOf result AppendError.DiskFault → D.faults disk.new ≡ D.faults disk.old }
{
    let Given {
        setting,
        kinds,
        names,
        schedule,
    } = given_of(alloc, script)?;
    let world = World::open(alloc, setting, kinds.as_slice(), prunes)?;
    let outcome = world.run_logged(alloc, schedule.as_slice(), log, disk)?;
    Ok((outcome, names))
}

/// The outcome of a script whose sessions run on threads, each of which is told how a transaction ended
/// once its entry is in this log, and the names that it is printed with.
fn logged_by_threads<T: Threads + Wait + Sync, G: Gate, D: Disk + Send + Sync>(
    crew: &Crew<'_, T, G>,
    script: Script,
    prunes: bool,
    log: Log,
    disk: &mut D,
) -> Result<(Outcome, Names), AppendError>
    requires runs { CanRun script }
    requires texts { IsUtf8Script script }
    requires log { AreLogsOf (D.image disk.old) [] log }
    ensures outcome { IfOk result (λ given. MayCome true script given.0 × (given.1 ≡ names_at script)) }
    ensures keeps { IfOk result (λ given. KeepsLogOf D.clock D.image D.image_since true script (Some given.0) disk.old disk.new) }
    ensures cut { OnErr result (KeepsLogOf D.clock D.image D.image_since true script None disk.old disk.new) }
    ensures fault { IsErrOf result AppendError.DiskFault → Rose (D.faults disk.old) (D.faults disk.new) }
    ensures steady { ¬ IsErrOf result AppendError.DiskFault → D.faults disk.new ≡ D.faults disk.old }
{
    runs_are_steps();
    let Given {
        setting,
        kinds,
        names,
        schedule: _,
    } = given_of(crew.alloc, script)?;
    let (ran, back) = run_threads_logged(crew, setting, kinds.as_slice(), prunes, log, disk.take());
    *disk = back;
    Ok((ran?, names))
}

/// Writes the tables that the log on the disk makes of a script's first rows, as they are told or dumped, or where the log is
/// damaged.
pub(crate) fn recover_script<W: Sink, D: Disk>(
    alloc: Global,
    script: Script,
    dumps: bool,
    sink: &mut W,
    disk: &mut D,
) -> Report
    ensures restores { GaveUp result.status × (sink.new ≡ sink.old) × IsNone result.outcome
        ⊎ Restores dumps script (D.held disk.old) result.status result.outcome (W.written sink.old) (W.written sink.new) }
    ensures nothing { IsNone result.outcome }
    ensures held { D.held disk.new ≡ D.held disk.old }
    ensures syncs { Syncs D.held D.clock D.image D.image_since disk.old disk.new }
    ensures write_fault { result.status ≡ 4 → Rose (W.faults sink.old) (W.faults sink.new) }
    ensures sink_steady { result.status ≢ 4 → W.faults sink.new ≡ W.faults sink.old }
    ensures disk_fault { result.status ≡ 6 → Rose (D.faults disk.old) (D.faults disk.new) }
    ensures disk_steady { result.status ≢ 6 → D.faults disk.new ≡ D.faults disk.old }
{
    match restored_text(alloc, script, dumps, disk) {
        Ok(written) => without_outcome(write(sink, written.as_slice(), 0)),
        Err(RecoverError::Damaged { at }) => tell_damage(alloc, at, sink),
        Err(RecoverError::DiskFault) => without_outcome(DISK_FAULT),
        Err(RecoverError::OutOfMemory) => without_outcome(NO_MEMORY),
    }
}

/// The text of the tables that the log on the disk makes of a script's first rows, as they are told or dumped.
fn restored_text<D: Disk>(
    alloc: Global,
    script: Script,
    dumps: bool,
    disk: &mut D,
) -> Result<Vec<u8>, RecoverError>
    ensures text { IfOk result (λ written. (rows : List (List (List Value))) × (bytes : List ℕ) × IsOwn (D.held disk.old) bytes
        × AreRecovered (tables_at script) bytes rows × (written.items ≡ rows_text dumps script.catalog (names_at script) rows)) }
    ensures damaged { IfErr result (DamagedIn (tables_at script) (D.held disk.old)) }
    ensures held { D.held disk.new ≡ D.held disk.old }
    ensures syncs { Syncs D.held D.clock D.image D.image_since disk.old disk.new }
    ensures fault { IsErrOf result RecoverError.DiskFault → Rose (D.faults disk.old) (D.faults disk.new) }
    ensures steady { ¬ IsErrOf result RecoverError.DiskFault → D.faults disk.new ≡ D.faults disk.old }
{
    let (given, catalog) = given_and_catalog(alloc, script)?;
    let Given {
        setting,
        kinds,
        names,
        schedule: _,
    } = given;
    let rows = recover_rows(alloc, &setting, kinds.as_slice(), disk)?;
    Ok(text_of_rows(alloc, dumps, &catalog, &names, rows.as_slice())?)
}

/// The text of tables as that of an outcome ends with them, or the lines of a script that makes them.
fn text_of_rows(
    alloc: Global,
    dumps: bool,
    catalog: &Catalog,
    names: &Names,
    rows: &[StoredRows],
) -> Result<Vec<u8>, AllocError>
    ensures { IfOk result (λ written. written.items ≡ rows_text dumps catalog.now names.now rows.now) }
{
    let mut written = Vec::new(alloc);
    if dumps {
        dump(catalog, rows, &mut written)?;
    } else {
        render_tables(names, rows, &mut written)?;
    }
    Ok(written)
}

/// Writes where the log on the disk is damaged.
fn tell_damage<W: Sink>(alloc: Global, offset: u64, sink: &mut W) -> Report
    ensures writes { (result.status ≡ 5) × (sink.new ≡ sink.old)
        ⊎ Writes 7 result.status (W.written sink.old) (W.written sink.new) (damaged_line offset) }
    ensures nothing { IsNone result.outcome }
    ensures write_fault { result.status ≡ 4 → Rose (W.faults sink.old) (W.faults sink.new) }
    ensures sink_steady { result.status ≢ 4 → W.faults sink.new ≡ W.faults sink.old }
    ensures statuses { (result.status ≢ 6) }
{
    match damage_line(alloc, offset) {
        Ok(line) => without_outcome(write(sink, line.as_slice(), BAD_LOG)),
        Err(_) => without_outcome(NO_MEMORY),
    }
}
