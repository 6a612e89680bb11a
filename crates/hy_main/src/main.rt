//! The program `hy`: makes the real words, reader, writer and disk, ends with the status of the call, and says why it is not 0.
#![tactic(auto)]

ghost use Rattle.std.specs.Prelude.{◌≡◌, ◌≢◌, ◌≤◌, ◌⊎◌, true, false, Option, None, IsNone, IfSome, map};
ghost use Rattle.std.specs.Process.{exit_status};
ghost use Rattle.std.specs.String.{string_bytes};
ghost use Rattle.hy_disk.specs.Calls.{Syncs};
ghost use Rattle.hy_outside.specs.Faults.{Rose};
ghost use Rattle.hy_render.specs.declared.Outcome.{Outcome};
ghost use Rattle.hy_words.specs.Words.{command_of};
ghost use Rattle.hy_top.specs.Lines.{usage_line};
ghost use Rattle.hy_top.specs.Program.{does_serve, keeps_log, made_by, reads_script, served_by, uses_disk};
ghost use Rattle.hy_top.specs.Reports.{Writes, IsAnswered, Makes};
ghost use Rattle.hy_top.specs.Served.{IsServed, LeavesServed};

use hy_disk::{Disk, FileDisk, FileFault};
use hy_outside::{Sink, Source, StdSink, StdSource};
use hy_threads::TimedGate;
use std::alloc::{AllocError, Global};
use std::env::VarError;
use std::fmt::Display;
use std::process::ExitCode;
use std::rt::{Env, Runtime};
use std::sync::Wait;
use std::thread::Threads;
use std::time::Clock;
use std::{env, io, mem};

/// The variable that names the file of the log.
const LOG: &str = "HY_LOG";

/// The status where a read failed.
const READ_FAULT: u8 = 3;

/// The status where a write failed.
const WRITE_FAULT: u8 = 4;

/// The status where memory ran out.
const NO_MEMORY: u8 = 5;

/// The status where the file of the log failed.
const LOG_FAULT: u8 = 6;

/// The status where that file isn't the log that it should be.
const NO_LOG: u8 = 7;

/// Calls the program on the process's words, standard input, standard output, and the file of its log.
fn main(rt: HostRuntime) -> ExitCode {
    let (Ok(words), Ok(log)) = (words_of(&rt), log_of(&rt)) else {
        let _told = tell_memory(&rt);
        return ExitCode::from(NO_MEMORY);
    };
    match &log {
        Some(name) => call_over(&rt, &words, FileDisk::named(&rt, name)),
        None => call_over(&rt, &words, FileDisk::new(&rt)),
    }
}

/// Calls the program on these words, standard input, standard output, and a disk, and tells why it failed where it did.
fn call_over<T: Runtime + Threads + Wait + Sync + AllocGlobal>(
    rt: &T,
    words: &[String],
    mut disk: FileDisk<'_>,
) -> ExitCode {
    let mut source = StdSource::new(rt.reader());
    let mut sink = StdSink::new(io::writer(rt));
    let code = exit_code_of(rt, rt.alloc(), words, &mut source, &mut sink, &mut disk);
    let _told = tell_why(rt, code, words, &source, &sink, &disk);
    code
}

/// Writes the line to standard error that says why the call ended with a status of the outside. Where that fails too the
/// status tells it all the same.
fn tell_why<R, W>(
    rt: &impl Eprint,
    code: ExitCode,
    words: &[String],
    source: &StdSource<R>,
    sink: &StdSink<W>,
    disk: &FileDisk<'_>,
) -> io::Result<()> {
    if code == ExitCode::from(READ_FAULT) {
        tell_cause(rt, "standard input", source.cause())
    } else if code == ExitCode::from(WRITE_FAULT) {
        tell_cause(rt, "standard output", sink.cause())
    } else if code == ExitCode::from(NO_MEMORY) {
        tell_memory(rt)
    } else if code == ExitCode::from(LOG_FAULT) {
        match disk.cause() {
            Some(FileFault::Unnamed) => eprintln!(rt;
                "hy: {LOG}: empty or no UTF-8, and so no name of a file"
            ),
            cause => tell_cause(rt, disk.name(), cause),
        }
    } else if code == ExitCode::from(NO_LOG) {
        tell_cause(rt, disk.name(), Some(found_instead(words, disk)))
    } else {
        Ok(())
    }
}

/// Says in one line, whatever characters a name has, why something of the outside failed.
fn tell_cause(rt: &impl Eprint, what: &str, cause: Option<impl Display + Drop>) -> io::Result<()> {
    let what = what.escape_debug();
    match cause {
        Some(cause) => eprintln!(rt; "hy: {what}: {cause}"),
        None => Ok(()),
    }
}

/// Says that memory ran out.
fn tell_memory(rt: &impl Eprint) -> io::Result<()> {
    eprintln!(rt; "hy: not enough memory")
}

/// What the file of the log is, where it isn't what these words need.
fn found_instead(words: &[String], disk: &FileDisk<'_>) -> &'static str {
    let recovers = words.get(1).is_some_and(|word| word.as_str() == "recover");
    match (recovers, disk.is_open()) {
        (true, true) => "damaged, or not of these tables",
        (true, false) => "no such file",
        (false, _) => "not empty",
    }
}

/// Calls the program, and gives the code of its status.
fn exit_code_of<T: Threads + Wait + Clock + Sync, R: Source, W: Sink, D: Disk + Send + Sync>(
    rt: &T,
    alloc: Global,
    words: &[String],
    source: &mut R,
    sink: &mut W,
    disk: &mut D,
) -> ExitCode
    ensures words_refused { command_of (map string_bytes words.now) ≡ None
        → (exit_status result ≡ 5) ⊎ Writes 1 (exit_status result) (W.written sink.old) (W.written sink.new) usage_line }
    ensures usage { exit_status result ≡ 1 → command_of (map string_bytes words.now) ≡ None }

    // A command that reads a script is answered, one that makes its script runs that, and one that serves answers line by line.
    ensures answers { IfSome (command_of (map string_bytes words.now)) (λ command. reads_script command ≡ true → (exit_status result ≡ 3)
        ⊎ ((outcome : Option Outcome) × IsAnswered D.held D.clock D.image D.image_since command (R.rest source.old) (exit_status result) outcome
        (W.written sink.old) (W.written sink.new) disk.old disk.new)) }
    ensures made { IfSome (command_of (map string_bytes words.now)) (λ command. IfSome (made_by command) (λ script. (source.new ≡ source.old)
        × ((outcome : Option Outcome) × Makes command script (exit_status result) outcome (W.written sink.old) (W.written sink.new)))) }

    // What it leaves on the disk is told where it keeps a log.
    ensures serves { IfSome (command_of (map string_bytes words.now)) (λ command. IfSome (served_by command) (λ options. (outcome : Option Outcome)
        × IsServed (D.held disk.old) (keeps_log command) options (R.rest source.old) (R.rest source.new) (W.written sink.old) (W.written sink.new)
        (exit_status result) outcome
        × (keeps_log command ≡ true → LeavesServed D.held D.clock D.image D.image_since options (R.rest source.old) (R.rest source.new)
        (exit_status result) outcome disk.old disk.new))) }

    // A fault has its cause in the source, the sink or the disk, and is told. At 3, 5 and 6 nothing is written, but by a command
    // that serves.
    ensures read_fault { exit_status result ≡ 3 → Rose (R.faults source.old) (R.faults source.new) }
    ensures write_fault { exit_status result ≡ 4 → Rose (W.faults sink.old) (W.faults sink.new) }
    ensures unwritten { (exit_status result ≡ 3) ⊎ ((exit_status result ≡ 5) ⊎ (exit_status result ≡ 6))
        → does_serve (command_of (map string_bytes words.now)) ≡ false → sink.new ≡ sink.old }
    ensures disk_fault { exit_status result ≡ 6 → Rose (D.faults disk.old) (D.faults disk.new) }
    ensures source_steady { exit_status result ≢ 3 → R.faults source.new ≡ R.faults source.old }
    ensures sink_steady { exit_status result ≢ 4 → W.faults sink.new ≡ W.faults sink.old }
    ensures disk_steady { exit_status result ≢ 6 → D.faults disk.new ≡ D.faults disk.old }

    // What a command that keeps no log, or a status, leaves of the disk.
    ensures refused_disk { (exit_status result ≡ 1) ⊎ (exit_status result ≡ 2) ⊎ (exit_status result ≡ 3)
        → does_serve (command_of (map string_bytes words.now)) ≡ false → disk.new ≡ disk.old }
    ensures untouched { uses_disk (command_of (map string_bytes words.now)) ≡ false → disk.new ≡ disk.old }
    ensures held { IfSome (command_of (map string_bytes words.now)) (λ command. keeps_log command ≡ false → D.held disk.new ≡ D.held disk.old) }
    ensures syncs { IfSome (command_of (map string_bytes words.now)) (λ command. keeps_log command ≡ false
        → Syncs D.held D.clock D.image D.image_since disk.old disk.new) }
    ensures kept { exit_status result ≡ 7 → D.held disk.new ≡ D.held disk.old }
    ensures statuses { exit_status result ≤ 7 }
{
    let report = hy_top::run(rt, alloc, words, source, sink, &TimedGate::new(rt), disk);
    let status = report.status;
    // The process ends here, and with it the memory of what was read and told: no need to give it back row by row.
    mem::forget(report);
    ExitCode::from(status)
}

/// The process's words, the program's name first. Words that are no text are as good as none: they are
/// refused.
fn words_of(rt: &(impl Env + AllocGlobal)) -> Result<Vec<String>, AllocError> {
    match env::args(rt) {
        Ok(words) => words.collect(rt.alloc()),
        Err(error) if error.kind() == io::ErrorKind::OutOfMemory => Err(AllocError),
        Err(_) => Ok(Vec::new(rt.alloc())),
    }
}

/// The name that the environment gives the file of the log, where it gives one. What is no text names no file, as if it were
/// empty.
fn log_of(rt: &(impl Env + AllocGlobal)) -> Result<Option<String>, AllocError> {
    match env::var(rt, LOG) {
        Ok(name) => Ok(Some(name)),
        Err(VarError::NotPresent) => Ok(None),
        Err(VarError::NotUnicode) => Ok(Some(String::new(rt.alloc()))),
        Err(VarError::OutOfMemory) => Err(AllocError),
    }
}
