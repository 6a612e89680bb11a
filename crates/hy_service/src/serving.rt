//! The lines of a source, each answered to a sink before the source is read again.

ghost use Rattle.std.specs.Prelude.{◌≡◌, ◌≢◌, ◌⊎◌, ◌+◌, ◌<◌, ◌≤◌, ◌∷◌, ◌++◌, ℕ, true, List, [], length, Option, Some, IsNone, IfOk, is_some};
ghost use Rattle.hy_outside.specs.Faults.{Rose};
ghost use Rattle.hy_service.specs.Knowing.{Knows};
ghost use Rattle.hy_service.specs.Logging.{KeepsUp, LogsAt, LogsLines, LogsServing};
ghost use Rattle.hy_service.specs.Loops.{Answers, GoesOn, HasServed, HasStopped, UnlessCut, UnlessStopped};
ghost use Rattle.hy_script.specs.declared.Options.{Options};
ghost use Rattle.hy_service.specs.Serves.{Serves, Writes};
ghost use Rattle.hy_service.specs.Service.{after, closing, outcome_after};

use crate::Server;
use crate::laws::{lines_are_heard, logs_tell_outcomes, outcomes_are_lawful};
use hy_disk::Disk;
use hy_limits::MOST_BYTES;
use hy_lines::{Heard, Lines, NextError, lines_are_given, lines_stand_first};
use hy_outside::{Sink, Source, write_all};
use hy_redo::AppendError;
use hy_render::Outcome;
use std::alloc::{AllocError, Global};

/// What serving came to.
#[derive(Drop)]
pub struct Served {
    /// 0 at END or the end of the source, 2 where it has too many bytes, 3 where a read failed, 4 where a write failed, 5 for
    /// want of memory, 6 where the disk failed.
    pub status: u8,
    /// What the script comes to that the lines make, at 0 and 2, and at 4 where there was memory for it.
    pub outcome: Option<Outcome>,
}

/// Why no further line is heard.
enum Stop {
    /// END, or the end of the source.
    End,
    /// There are too many bytes.
    TooLong,
    /// A read failed.
    ReadFault,
    /// A write failed.
    WriteFault,
    /// The disk failed.
    DiskFault,
    /// Memory ran out.
    OutOfMemory,
}

/// What is written where there are too many bytes.
const TOO_LONG: &[u8] = b"refused E01\n";

/// Serves the lines of a source up to END, its end or one byte past the limit: each is answered to the sink before the
/// source is read again. Then what is open is dropped, and the sink gets what is told at the end. Where the server, which has
/// heard no line, keeps a log, what a line commits is in that before the line is answered. Without a log nothing is done with the
/// disk.
pub fn serve<R: Source, W: Sink, D: Disk>(
    alloc: Global,
    server: Server,
    source: &mut R,
    sink: &mut W,
    disk: &mut D,
) -> Served
    requires knows { Knows [] server }
    requires kept { KeepsUp D.image server disk.old }
    ensures serves { Serves server.options (R.rest source.old) (R.rest source.new) (W.written sink.old) (W.written sink.new) result.status result.outcome }
    ensures logged { is_some server.log ≡ true → LogsServing D.clock D.image D.image_since server.options (R.rest source.old) (R.rest source.new)
        result.status result.outcome disk.old disk.new }
    ensures read_fault { result.status ≡ 3 → Rose (R.faults source.old) (R.faults source.new) }
    ensures write_fault { result.status ≡ 4 → Rose (W.faults sink.old) (W.faults sink.new) }
    ensures disk_fault { result.status ≡ 6 → Rose (D.faults disk.old) (D.faults disk.new) }
    ensures source_steady { result.status ≢ 3 → R.faults source.new ≡ R.faults source.old }
    ensures sink_steady { result.status ≢ 4 → W.faults sink.new ≡ W.faults sink.old }
    ensures disk_steady { result.status ≢ 6 → D.faults disk.new ≡ D.faults disk.old }
    ensures statuses { (result.status ≢ 1) × (result.status ≤ 6) }
{
    let mut server = server;
    serve_lent(alloc, &mut server, source, sink, disk)
}

/// Does so with a server that is lent. A call of its own: where a server is owned, the proof of what each way out lets go takes minutes.
fn serve_lent<R: Source, W: Sink, D: Disk>(
    alloc: Global,
    server: &mut Server,
    source: &mut R,
    sink: &mut W,
    disk: &mut D,
) -> Served
    requires knows { Knows [] server.old }
    requires kept { KeepsUp D.image server.old disk.old }
    ensures serves { Serves server.old.options (R.rest source.old) (R.rest source.new) (W.written sink.old) (W.written sink.new) result.status result.outcome }
    ensures logged { is_some server.old.log ≡ true → LogsServing D.clock D.image D.image_since server.old.options (R.rest source.old) (R.rest source.new)
        result.status result.outcome disk.old disk.new }
    ensures read_fault { result.status ≡ 3 → Rose (R.faults source.old) (R.faults source.new) }
    ensures write_fault { result.status ≡ 4 → Rose (W.faults sink.old) (W.faults sink.new) }
    ensures disk_fault { result.status ≡ 6 → Rose (D.faults disk.old) (D.faults disk.new) }
    ensures source_steady { result.status ≢ 3 → R.faults source.new ≡ R.faults source.old }
    ensures sink_steady { result.status ≢ 4 → W.faults sink.new ≡ W.faults sink.old }
    ensures disk_steady { result.status ≢ 6 → D.faults disk.new ≡ D.faults disk.old }
    ensures statuses { (result.status ≢ 1) × (result.status ≤ 6) }
{
    lines_are_heard();
    outcomes_are_lawful();
    logs_tell_outcomes();
    match serve_lines(alloc, server, source, sink, disk) {
        Stop::End => end(alloc, server, &[], 0, sink),
        Stop::TooLong => end(alloc, server, TOO_LONG, 2, sink),
        Stop::ReadFault => without_outcome(3),
        Stop::WriteFault => Served {
            status: 4,
            outcome: server.close(alloc, &mut Vec::new(alloc)).ok(),
        },
        Stop::DiskFault => without_outcome(6),
        Stop::OutOfMemory => without_outcome(5),
    }
}

/// There is no outcome.
fn without_outcome(status: u8) -> Served
    ensures status { result.status ≡ status }
    ensures nothing { IsNone result.outcome }
{
    Served {
        status,
        outcome: None,
    }
}

/// Serves lines until no further one is heard.
fn serve_lines<R: Source, W: Sink, D: Disk>(
    alloc: Global,
    server: &mut Server,
    source: &mut R,
    sink: &mut W,
    disk: &mut D,
) -> Stop
    requires knows { Knows [] server.old }
    requires kept { KeepsUp D.image server.old disk.old }
    ensures stopped { HasStopped server.old.options (R.rest source.old) (R.rest source.new) (W.written sink.old) (W.written sink.new)
        (LogsLines D.clock D.image_since server.old.options disk.old disk.new) server.new result }
    ensures kept { UnlessCut result (KeepsUp D.image server.new disk.new) }
    ensures stays { is_some server.new.log ≡ is_some server.old.log }
    ensures read_fault { result ≡ Stop.ReadFault → Rose (R.faults source.old) (R.faults source.new) }
    ensures write_fault { result ≡ Stop.WriteFault → Rose (W.faults sink.old) (W.faults sink.new) }
    ensures disk_fault { result ≡ Stop.DiskFault → Rose (D.faults disk.old) (D.faults disk.new) }
    ensures source_steady { result ≢ Stop.ReadFault → R.faults source.new ≡ R.faults source.old }
    ensures sink_steady { result ≢ Stop.WriteFault → W.faults sink.new ≡ W.faults sink.old }
    ensures disk_steady { result ≢ Stop.DiskFault → D.faults disk.new ≡ D.faults disk.old }
{
    lines_are_given();
    let mut lines = Lines::new(alloc);
    // Each line took a byte at least.
    'turns: for _ in 0..MOST_BYTES + 2 {
        if let Some(stop) = serve_line(alloc, server, &mut lines, source, sink, disk) {
            return stop;
        }
    }
    unreachable!()
}

/// Serves the next line of a source, if there is one.
fn serve_line<R: Source, W: Sink, D: Disk>(
    alloc: Global,
    server: &mut Server,
    lines: &mut Lines,
    source: &mut R,
    sink: &mut W,
    disk: &mut D,
) -> Option<Stop>
    requires known { (known : List (List ℕ)) × Knows known server.old }
    requires kept { KeepsUp D.image server.old disk.old }
    ensures goes_on { (options : Options) (first before : Option (List ℕ)) (start : D)
        → HasServed options first (R.rest source.old) before (W.written sink.old) (LogsLines D.clock D.image_since options start disk.old) lines.old server.old
        → GoesOn options first (R.rest source.new) before (W.written sink.new) (LogsLines D.clock D.image_since options start disk.new) lines.new server.new
        result }
    ensures kept { UnlessStopped result (KeepsUp D.image server.new disk.new) }
    ensures stays { is_some server.new.log ≡ is_some server.old.log }
    // A line took a byte at least.
    ensures took { IsNone result → lines.old.taken + length lines.new.kept < lines.new.taken + length lines.old.kept }
    ensures read_fault { result ≡ Some Stop.ReadFault → Rose (R.faults source.old) (R.faults source.new) }
    ensures write_fault { result ≡ Some Stop.WriteFault → Rose (W.faults sink.old) (W.faults sink.new) }
    ensures disk_fault { result ≡ Some Stop.DiskFault → Rose (D.faults disk.old) (D.faults disk.new) }
    ensures source_steady { result ≢ Some Stop.ReadFault → R.faults source.new ≡ R.faults source.old }
    ensures sink_steady { result ≢ Some Stop.WriteFault → W.faults sink.new ≡ W.faults sink.old }
    ensures disk_steady { result ≢ Some Stop.DiskFault → D.faults disk.new ≡ D.faults disk.old }
{
    lines_are_given();
    lines_stand_first();
    lines_are_heard();
    match lines.next_line(alloc, source) {
        Ok(Heard::Line(line)) => answer_line(alloc, server, line.as_slice(), sink, disk),
        Ok(Heard::End) => Some(Stop::End),
        Ok(Heard::TooLong) => Some(Stop::TooLong),
        Err(NextError::ReadFault) => Some(Stop::ReadFault),
        Err(NextError::OutOfMemory) => Some(Stop::OutOfMemory),
    }
}

/// Hears a line, and writes its answer.
fn answer_line<W: Sink, D: Disk>(
    alloc: Global,
    server: &mut Server,
    line: &[u8],
    sink: &mut W,
    disk: &mut D,
) -> Option<Stop>
    requires known { (lines : List (List ℕ)) × Knows lines server.old }
    requires kept { KeepsUp D.image server.old disk.old }
    ensures hears { (lines : List (List ℕ)) → Knows lines server.old
        → Answers lines line.now server.old server.new (W.written sink.old) (W.written sink.new) result }
    ensures options { server.new.options ≡ server.old.options }
    ensures kept { UnlessStopped result (KeepsUp D.image server.new disk.new) }
    ensures stays { is_some server.new.log ≡ is_some server.old.log }
    ensures logs { (lines : List (List ℕ)) → Knows lines server.old
        → LogsAt D.clock D.image_since server.old.options (after server.old.options (lines ++ line.now ∷ [])) disk.old disk.new }
    ensures read { result ≢ Some Stop.ReadFault }
    ensures write_fault { result ≡ Some Stop.WriteFault → Rose (W.faults sink.old) (W.faults sink.new) }
    ensures disk_fault { result ≡ Some Stop.DiskFault → Rose (D.faults disk.old) (D.faults disk.new) }
    ensures sink_steady { result ≢ Some Stop.WriteFault → W.faults sink.new ≡ W.faults sink.old }
    ensures disk_steady { result ≢ Some Stop.DiskFault → D.faults disk.new ≡ D.faults disk.old }
{
    match server.hear(alloc, line, disk) {
        Ok(Some(answer)) => match write_all(sink, answer.as_slice()) {
            Ok(()) => None,
            Err(_) => Some(Stop::WriteFault),
        },
        Ok(None) => Some(Stop::End),
        Err(AppendError::DiskFault) => Some(Stop::DiskFault),
        Err(AppendError::OutOfMemory) => Some(Stop::OutOfMemory),
    }
}

/// Drops what is open, and writes these bytes and what is told at the end: the status is then the one for that, and 4 where a
/// write fails.
fn end<W: Sink>(alloc: Global, server: &mut Server, first: &[u8], done: u8, sink: &mut W) -> Served
    requires { (lines : List (List ℕ)) × Knows lines server.old }
    ensures ends { (lines : List (List ℕ)) → Knows lines server.old
        → ((result.status ≡ 5) × (sink.new ≡ sink.old) × IsNone result.outcome)
        ⊎ ((result.outcome ≡ Some (outcome_after server.old.options lines))
        × Writes done result.status (W.written sink.old) (W.written sink.new) (first.now ++ closing server.old.options lines)) }
    ensures statuses { (result.status ≡ done) ⊎ ((result.status ≡ 4) ⊎ (result.status ≡ 5)) }
    ensures write_fault { done ≢ 4 → result.status ≡ 4 → Rose (W.faults sink.old) (W.faults sink.new) }
    ensures sink_steady { result.status ≢ 4 → W.faults sink.new ≡ W.faults sink.old }
{
    match closing_text(alloc, server, first) {
        Ok((outcome, text)) => Served {
            status: match write_all(sink, text.as_slice()) {
                Ok(()) => done,
                Err(_) => 4,
            },
            outcome: Some(outcome),
        },
        Err(_) => without_outcome(5),
    }
}

/// What the lines come to, and these bytes with what is told at the end.
fn closing_text(
    alloc: Global,
    server: &mut Server,
    first: &[u8],
) -> Result<(Outcome, Vec<u8>), AllocError>
    requires { (lines : List (List ℕ)) × Knows lines server.old }
    ensures { (lines : List (List ℕ)) → Knows lines server.old → IfOk result (λ given. (given.0 ≡ outcome_after server.old.options lines)
        × (given.1.items ≡ first.now ++ closing server.old.options lines)) }
{
    let mut text = first.to_vec(alloc)?;
    let outcome = server.close(alloc, &mut text)?;
    Ok((outcome, text))
}
