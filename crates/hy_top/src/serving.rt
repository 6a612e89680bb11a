//! Lines that are served, with a redo log of what they commit or without one.

ghost use Rattle.std.specs.Prelude.{◌≡◌, ◌≢◌, ◌+◌, ◌≤◌, true, false, [], IsNone};
ghost use Rattle.hy_limits.specs.declared.TheConstants.{MOST_BYTES};
ghost use Rattle.hy_outside.specs.Faults.{Rose};
ghost use Rattle.hy_outside.specs.Telling.{GivesAtMost};
ghost use Rattle.hy_redo.specs.Crashes.{AreLogsOf};
ghost use Rattle.hy_service.specs.Logging.{LogsServing};
ghost use Rattle.hy_service.specs.Serves.{Serves};
ghost use Rattle.hy_service.specs.Service.{IsSized};
ghost use Rattle.hy_top.specs.Served.{IsServed, LeavesServed};

use crate::logs::{BAD_LOG, NOT_EMPTY};
use crate::{DISK_FAULT, NO_MEMORY, Report, without_outcome, write};
use hy_disk::{Disk, NoDisk};
use hy_outside::{Sink, Source};
use hy_redo::{CreateError, Log, create};
use hy_script::Options;
use hy_service::{Served, Server, serve};
use std::alloc::Global;

/// Serves the lines of a source, and keeps a log of what they commit or none. Where one is to be kept and the disk has bytes, it
/// says so, nothing is read, and the disk stays.
pub(crate) fn serve_source<R: Source, W: Sink, D: Disk>(
    alloc: Global,
    options: Options,
    keeps: bool,
    source: &mut R,
    sink: &mut W,
    disk: &mut D,
) -> Report
    requires { IsSized options }
    ensures served { IsServed (D.held disk.old) keeps options (R.rest source.old) (R.rest source.new) (W.written sink.old) (W.written sink.new)
        result.status result.outcome }
    ensures leaves { keeps ≡ true → LeavesServed D.held D.clock D.image D.image_since options (R.rest source.old) (R.rest source.new)
        result.status result.outcome disk.old disk.new }
    ensures untouched { keeps ≡ false → disk.new ≡ disk.old }
    ensures given { GivesAtMost (R.rest source.old) (R.rest source.new) (MOST_BYTES + 1) }
    ensures kept { result.status ≡ 7 → D.held disk.new ≡ D.held disk.old }
    ensures read_fault { result.status ≡ 3 → Rose (R.faults source.old) (R.faults source.new) × IsNone result.outcome }
    ensures write_fault { result.status ≡ 4 → Rose (W.faults sink.old) (W.faults sink.new) }
    ensures no_memory { result.status ≡ 5 → IsNone result.outcome }
    ensures disk_fault { result.status ≡ 6 → Rose (D.faults disk.old) (D.faults disk.new) × IsNone result.outcome }
    ensures source_steady { result.status ≢ 3 → R.faults source.new ≡ R.faults source.old }
    ensures sink_steady { result.status ≢ 4 → W.faults sink.new ≡ W.faults sink.old }
    ensures disk_steady { result.status ≢ 6 → D.faults disk.new ≡ D.faults disk.old }
    ensures statuses { (result.status ≢ 1) × (result.status ≤ 7) }
{
    if !keeps {
        return serve_unlogged(alloc, options, source, sink);
    }
    match create(disk) {
        Ok(log) => serve_on_log(alloc, options, log, source, sink, disk),
        Err(CreateError::NotEmpty) => without_outcome(write(sink, NOT_EMPTY, BAD_LOG)),
        Err(CreateError::DiskFault) => without_outcome(DISK_FAULT),
        Err(CreateError::OutOfMemory) => without_outcome(NO_MEMORY),
    }
}

/// Serves the lines of a source without a log. There is no disk that could fail.
fn serve_unlogged<R: Source, W: Sink>(
    alloc: Global,
    options: Options,
    source: &mut R,
    sink: &mut W,
) -> Report
    requires { IsSized options }
    ensures serves { Serves options (R.rest source.old) (R.rest source.new) (W.written sink.old) (W.written sink.new) result.status result.outcome }
    ensures read_fault { result.status ≡ 3 → Rose (R.faults source.old) (R.faults source.new) }
    ensures write_fault { result.status ≡ 4 → Rose (W.faults sink.old) (W.faults sink.new) }
    ensures source_steady { result.status ≢ 3 → R.faults source.new ≡ R.faults source.old }
    ensures sink_steady { result.status ≢ 4 → W.faults sink.new ≡ W.faults sink.old }
    ensures statuses { (result.status ≢ 1) × (result.status ≤ 5) }
{
    let server = Server::new(alloc, options, true, None);
    let Served { status, outcome } = serve(alloc, server, source, sink, &mut NoDisk);
    Report {
        status: without_disk(status),
        outcome,
        checked: None,
    }
}

/// The status where there is no disk: one that is not there has not failed, and so that is want of memory.
fn without_disk(status: u8) -> u8
    ensures failed { status ≡ 6 → result ≡ 5 }
    ensures other { status ≢ 6 → result ≡ status }
{
    if status == DISK_FAULT {
        NO_MEMORY
    } else {
        status
    }
}

/// Serves the lines of a source with what they commit in this log, which is empty.
fn serve_on_log<R: Source, W: Sink, D: Disk>(
    alloc: Global,
    options: Options,
    log: Log,
    source: &mut R,
    sink: &mut W,
    disk: &mut D,
) -> Report
    requires sized { IsSized options }
    requires log { AreLogsOf (D.image disk.old) [] log }
    ensures serves { Serves options (R.rest source.old) (R.rest source.new) (W.written sink.old) (W.written sink.new) result.status result.outcome }
    ensures logged { LogsServing D.clock D.image D.image_since options (R.rest source.old) (R.rest source.new) result.status result.outcome
        disk.old disk.new }
    ensures read_fault { result.status ≡ 3 → Rose (R.faults source.old) (R.faults source.new) }
    ensures write_fault { result.status ≡ 4 → Rose (W.faults sink.old) (W.faults sink.new) }
    ensures disk_fault { result.status ≡ 6 → Rose (D.faults disk.old) (D.faults disk.new) }
    ensures source_steady { result.status ≢ 3 → R.faults source.new ≡ R.faults source.old }
    ensures sink_steady { result.status ≢ 4 → W.faults sink.new ≡ W.faults sink.old }
    ensures disk_steady { result.status ≢ 6 → D.faults disk.new ≡ D.faults disk.old }
    ensures statuses { (result.status ≢ 1) × (result.status ≤ 6) }
{
    let server = Server::new(alloc, options, true, Some(log));
    let Served { status, outcome } = serve(alloc, server, source, sink, disk);
    Report {
        status,
        outcome,
        checked: None,
    }
}
