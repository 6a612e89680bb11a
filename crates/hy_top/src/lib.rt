//! The program as a call: from the words of a command and a source of bytes to a sink and a status.
#![tactic(auto)]

ghost use Rattle.std.specs.Prelude.{◌≡◌, ◌≢◌, ℕ, ◌+◌, ◌<◌, ◌≤◌, ◌⊎◌, true, false, List, Option, None, Some, IsNone, IsSome, IfSome, OnOk, IfOk, Ok, Err, map};
ghost use Rattle.std.specs.String.{string_bytes};
ghost use Rattle.hy_disk.specs.Calls.{Syncs};
ghost use Rattle.hy_outside.specs.Faults.{Rose};
ghost use Rattle.hy_outside.specs.Telling.{GivesAtMost};
ghost use Rattle.hy_render.specs.Report.{text};
ghost use Rattle.hy_render.specs.Summary.{summary_of};
ghost use Rattle.hy_words.specs.declared.Command.{Command};
ghost use Rattle.hy_words.specs.Words.{IsWithin, command_of};
ghost use Rattle.hy_gen.specs.Made.{made};
ghost use Rattle.hy_script.specs.Reading.{Reads};
ghost use Rattle.hy_script.specs.declared.Script.{Script};
ghost use Rattle.hy_top.specs.Lines.{usage_line, refusal_line_of, checked_line};
ghost use Rattle.hy_top.specs.Program.{MayCome, bytes_left, does_serve, keeps_log, options_by, made_by};
ghost use Rattle.hy_top.specs.Program.{names_at, reads_script, runs_threads, served_by, uses_disk};
ghost use Rattle.hy_top.specs.Served.{IsServed, LeavesServed};
ghost use Rattle.hy_top.specs.Settings.{CanRun, IsUtf8Script};
ghost use Rattle.hy_top.specs.Reports.{Writes, Answers, IsAnswered, Leaves, LeavesLogOf, Runs, Checks, Summarizes, GaveUp, Does, Makes};

mod laws;
mod lines;
mod logs;
mod serving;
mod settings;
mod steps;
mod typing;

use hy_bank::{made_outcomes_keep_the_money, made_scripts_fit, made_transactions_end_in_four_ways};
use hy_disk::Disk;
use hy_gen::make;
use hy_lawful::ends_are_lawful;
use hy_limits::MOST_BYTES;
use hy_machine::runs_are_steps;
use hy_outside::{ReadAllError, Sink, Source, read_all, write_all};
use hy_render::{Names, Outcome, render, summarize};
use hy_script::{Code, Options, ReadError, Refused, Script, read_once, what_is_read_fits};
use hy_threads::Gate;
use hy_words::{Command, WordsError};
use hy_world::Crew;
pub use laws::{one_text_is_of_one_outcome, what_is_read_is_named, what_is_read_is_utf8};
use lines::{check_line, refusal_line};
use logs::{recover_script, run_logged};
use serving::serve_source;
use settings::{Given, given_of};
use std::alloc::{AllocError, Global};
use std::sync::Wait;
use std::thread::Threads;
use steps::{explain_script, trace_script};
pub use typing::{what_is_made_is_typed, what_is_read_is_typed};

/// What a call of the program came to.
#[derive(Drop)]
pub struct Report {
    /// 0 done, 1 the words are refused, 2 the script is refused, 3 a read failed, 4 a write failed, 5 want
    /// of memory, 6 the disk failed, 7 the disk has bytes already, or what it has is no log of the script's tables.
    pub status: u8,
    /// What the run of the script came to, if there was one.
    pub outcome: Option<Outcome>,
    // The script that was checked, kept as long as the report: a process that ends with both need not let it go piece by piece.
    checked: Option<Script>,
}

/// How a script is run.
#[derive(Clone, Copy)]
struct Mode {
    /// Whether sessions run on threads, and not by the schedule.
    threads: bool,
    /// Whether chains of versions are pruned.
    prunes: bool,
}

/// The status where a read failed.
const READ_FAULT: u8 = 3;

/// The status where memory ran out.
const NO_MEMORY: u8 = 5;

/// The status where the disk failed.
const DISK_FAULT: u8 = 6;

/// What is written where the words are refused.
const USAGE: &[u8] = b"usage: hy run|check|gen\n";

/// Runs the command that these words are: `run` reads a script from the source, runs it, and writes the
/// text of its outcome to the sink; `check` reads a script and writes what it has; `gen` makes a script, runs it, and
/// writes a summary of its outcome. The first word is the program's name. With `--threads` sessions run on threads,
/// as `work` of hy_threads has them, and the gate is told of each visit; then the call waits for locks and for the threads' ends. With
/// `--log` a redo log is made on the disk, and has each entry of the commit order before another step is taken, or on threads
/// all of them before anything is written; `recover` reads a script, and writes the tables that the log on the disk makes of
/// its first rows, with `--script` as the lines of a script that makes them. `trace` reads a script, and writes the steps of its
/// run; `explain` reads and runs one, and writes which transactions were refused, and why. `serve` answers each line of the
/// source before it reads the next, and keeps a log too with `--log`. What is said of a sink's bytes and of crashes holds where
/// the sink and the disk tell them.
pub fn run<T: Threads + Wait + Sync, R: Source, W: Sink, G: Gate, D: Disk + Send + Sync>(
    rt: &T,
    alloc: Global,
    words: &[String],
    source: &mut R,
    sink: &mut W,
    gate: &G,
    disk: &mut D,
) -> Report
    // Where the words are refused the usage line is written, and the source is as it was.
    ensures words_refused { command_of (map string_bytes words.now) ≡ None → (source.new ≡ source.old)
        × ((result.status ≡ 5) ⊎ Writes 1 result.status (W.written sink.old) (W.written sink.new) usage_line) }
    ensures usage { result.status ≡ 1 → command_of (map string_bytes words.now) ≡ None }

    // Of a command that reads a script the bytes read are the source's whole rest, or its first 16,777,217.
    ensures bytes { IfSome (command_of (map string_bytes words.now)) (λ command. reads_script command ≡ true → IfSome (R.rest source.old) (λ all.
        (result.status ≡ 3) ⊎ (result.status ≡ 5) ⊎ (R.rest source.new ≡ Some (bytes_left all)))) }

    // Whatever the status, the source gave some first bytes, and no more than one past the limit.
    ensures given { GivesAtMost (R.rest source.old) (R.rest source.new) (MOST_BYTES + 1) }

    // Unless a read failed there are bytes that the source gave, its own where it tells them. Where these are refused the
    // refusal line is written. Where they spell a script it is run, and the text of its outcome is written: that is what the
    // machine's run of the script comes to, by its schedule or, on threads, by some order of steps; it is lawful, and it is
    // serializable in the order that it prints; or the script is checked. To trace writes the steps of the machine's run by the
    // schedule, and to explain has the outcome of that run, and writes the reasons for it. A run that keeps a log leaves that of the
    // outcome's order, which on threads is the order of a run by some schedule: what a crash after it leaves recovers to the
    // outcome's tables. Whatever the status, what a crash leaves at any moment is what one could leave before, what the making of
    // the log may leave, or the log of some first entries of the order.
    ensures answers { IfSome (command_of (map string_bytes words.now)) (λ command. reads_script command ≡ true → (result.status ≡ 3)
        ⊎ IsAnswered D.held D.clock D.image D.image_since command (R.rest source.old) result.status result.outcome
        (W.written sink.old) (W.written sink.new) disk.old disk.new) }

    // A command that makes its script runs that, and writes the summary of its outcome, which is lawful and
    // serializable, in which the money is kept, and whose transactions end in four ways; the source is as it was.
    ensures made { IfSome (command_of (map string_bytes words.now)) (λ command. IfSome (made_by command) (λ script.
        (source.new ≡ source.old) × Makes command script result.status result.outcome (W.written sink.old) (W.written sink.new))) }

    // A command that serves answers the lines that the source gives, each before the next is read, up to END, its end or one
    // byte past the limit. By the status the sink has all answers and what is told at the end, or the first of them. Where it was
    // to keep a log and the disk has bytes, it says so, and reads nothing.
    ensures serves { IfSome (command_of (map string_bytes words.now)) (λ command. IfSome (served_by command) (λ options.
        IsServed (D.held disk.old) (keeps_log command) options (R.rest source.old) (R.rest source.new) (W.written sink.old) (W.written sink.new)
        result.status result.outcome)) }

    // Where it keeps a log, what a crash leaves after it recovers to the outcome's tables, over those that the lines define. Whatever
    // the status, what a crash leaves at any moment is what one could leave before, what the making of the log may leave, or the
    // log of some first entries of the order that some first lines come to.
    ensures leaves { IfSome (command_of (map string_bytes words.now)) (λ command. IfSome (served_by command) (λ options. keeps_log command ≡ true
        → LeavesServed D.held D.clock D.image D.image_since options (R.rest source.old) (R.rest source.new) result.status result.outcome
        disk.old disk.new)) }

    // A fault has its cause in the source, the sink or the disk. At 3, 5 and 6 there is no outcome, and but by a command that
    // serves nothing is written.
    ensures read_fault { result.status ≡ 3 → Rose (R.faults source.old) (R.faults source.new) × IsNone result.outcome }
    ensures write_fault { result.status ≡ 4 → Rose (W.faults sink.old) (W.faults sink.new) }
    ensures no_memory { result.status ≡ 5 → IsNone result.outcome }
    ensures unwritten { (result.status ≡ 3) ⊎ ((result.status ≡ 5) ⊎ (result.status ≡ 6))
        → does_serve (command_of (map string_bytes words.now)) ≡ false → sink.new ≡ sink.old }
    ensures disk_fault { result.status ≡ 6 → Rose (D.faults disk.old) (D.faults disk.new) × IsNone result.outcome }

    // And a fault is told: at every other status the count of faults is as it was.
    ensures source_steady { result.status ≢ 3 → R.faults source.new ≡ R.faults source.old }
    ensures sink_steady { result.status ≢ 4 → W.faults sink.new ≡ W.faults sink.old }
    ensures disk_steady { result.status ≢ 6 → D.faults disk.new ≡ D.faults disk.old }

    // But by a command that serves, the disk is as it was where the words or the script are refused, or a read failed. Other
    // commands than those that keep a log or read one leave it so, and to recover leaves its bytes, and makes sure no others; at 7
    // they stay whatever the command.
    ensures refused_disk { (result.status ≡ 1) ⊎ (result.status ≡ 2) ⊎ (result.status ≡ 3)
        → does_serve (command_of (map string_bytes words.now)) ≡ false → disk.new ≡ disk.old }
    ensures untouched { uses_disk (command_of (map string_bytes words.now)) ≡ false → disk.new ≡ disk.old }
    ensures held { IfSome (command_of (map string_bytes words.now)) (λ command. keeps_log command ≡ false → D.held disk.new ≡ D.held disk.old) }
    ensures syncs { IfSome (command_of (map string_bytes words.now)) (λ command. keeps_log command ≡ false
        → Syncs D.held D.clock D.image D.image_since disk.old disk.new) }
    ensures kept { result.status ≡ 7 → D.held disk.new ≡ D.held disk.old }

    // Without words that are accepted there is no run, and no other status than 1, 4 or 5.
    ensures script_statuses { (result.status ≡ 0) ⊎ (result.status ≡ 2) ⊎ (result.status ≡ 3) ⊎ (6 ≤ result.status) ⊎ IsSome result.outcome
        → IsSome (command_of (map string_bytes words.now)) }
    ensures statuses { result.status ≤ 7 }
{
    let crew = Crew { rt, alloc, gate };
    match hy_words::command_of(alloc, words) {
        Ok(
            Command::Gen {
                seed,
                sessions,
                txns,
                threads,
            },
        ) => run_made(
            &crew,
            Making {
                seed,
                sessions,
                txns,
                threads,
            },
            sink,
        ),
        Ok(Command::Serve { log, chunks, rows }) => {
            let options = Options { chunks, rows };
            serve_source(alloc, options, log, source, sink, disk)
        }
        Ok(command) => run_command(&crew, command, source, sink, disk),
        Err(WordsError::Refused) => without_outcome(write(sink, USAGE, 1)),
        Err(WordsError::OutOfMemory) => Report {
            status: NO_MEMORY,
            outcome: None,
            checked: None,
        },
    }
}

/// The numbers that a script is made from, and how it is run.
#[derive(Clone, Copy)]
struct Making {
    seed: u32,
    sessions: u32,
    txns: u32,
    threads: bool,
}

/// The script that is made from these numbers.
fn make_script(alloc: Global, making: Making) -> Result<Script, AllocError>
    requires { (making.sessions ≤ 64) × (making.txns ≤ 1000) }
    ensures made { IfOk result (λ script. script ≡ made making.seed making.sessions making.txns) }
    ensures runs { IfOk result (λ script. CanRun script) }
{
    made_scripts_fit();
    what_is_made_is_typed();
    make(alloc, making.seed, making.sessions, making.txns)
}

/// Makes a script, runs it, and writes the summary of its outcome.
fn run_made<T: Threads + Wait + Sync, W: Sink, G: Gate>(
    crew: &Crew<'_, T, G>,
    making: Making,
    sink: &mut W,
) -> Report
    requires { (making.sessions ≤ 64) × (making.txns ≤ 1000) }
    ensures makes { Makes (Command.Gen making.seed making.sessions making.txns making.threads) (made making.seed making.sessions making.txns)
        result.status result.outcome (W.written sink.old) (W.written sink.new) }
    ensures write_fault { result.status ≡ 4 → Rose (W.faults sink.old) (W.faults sink.new) }
    ensures sink_steady { result.status ≢ 4 → W.faults sink.new ≡ W.faults sink.old }
    ensures no_memory { result.status ≡ 5 → (sink.new ≡ sink.old) × IsNone result.outcome }
    ensures statuses { (result.status ≢ 1) × (result.status ≢ 2) × (result.status ≢ 3) × (result.status ≤ 5) }
{
    made_outcomes_keep_the_money();
    made_transactions_end_in_four_ways();
    runs_are_steps();
    ends_are_lawful();
    match make_script(crew.alloc, making) {
        Ok(script) => summarize_script(crew, script, making.threads, sink),
        Err(_) => without_outcome(NO_MEMORY),
    }
}

/// A report of a status, with no outcome.
fn without_outcome(status: u8) -> Report
    ensures status { result.status ≡ status }
    ensures nothing { IsNone result.outcome }
{
    Report {
        status,
        outcome: None,
        checked: None,
    }
}

/// Writes a text whole: the status is then the one for that, and 4 where a write fails.
fn write<W: Sink>(sink: &mut W, bytes: &[u8], done: u8) -> u8
    ensures writes { Writes done result (W.written sink.old) (W.written sink.new) bytes.now }
    ensures fault { done ≢ 4 → result ≡ 4 → Rose (W.faults sink.old) (W.faults sink.new) }
    ensures steady { result ≢ 4 → W.faults sink.new ≡ W.faults sink.old }
{
    match write_all(sink, bytes) {
        Ok(()) => done,
        Err(_) => 4,
    }
}

/// Reads a script, and does what the command asks for.
fn run_command<T: Threads + Wait + Sync, R: Source, W: Sink, G: Gate, D: Disk + Send + Sync>(
    crew: &Crew<'_, T, G>,
    command: Command,
    source: &mut R,
    sink: &mut W,
    disk: &mut D,
) -> Report
    requires within { IsWithin command }
    requires script { does_serve (Some command) ≡ false }
    ensures bytes { IfSome (R.rest source.old) (λ all.
        (result.status ≡ 3) ⊎ (result.status ≡ 5) ⊎ (R.rest source.new ≡ Some (bytes_left all))) }
    ensures given { GivesAtMost (R.rest source.old) (R.rest source.new) (MOST_BYTES + 1) }
    ensures answers { (result.status ≡ 3) ⊎ IsAnswered D.held D.clock D.image D.image_since command (R.rest source.old) result.status result.outcome
        (W.written sink.old) (W.written sink.new) disk.old disk.new }
    ensures read_fault { result.status ≡ 3 → Rose (R.faults source.old) (R.faults source.new) × (sink.new ≡ sink.old) × IsNone result.outcome }
    ensures write_fault { result.status ≡ 4 → Rose (W.faults sink.old) (W.faults sink.new) }
    ensures no_memory { result.status ≡ 5 → (sink.new ≡ sink.old) × IsNone result.outcome }
    ensures source_steady { result.status ≢ 3 → R.faults source.new ≡ R.faults source.old }
    ensures sink_steady { result.status ≢ 4 → W.faults sink.new ≡ W.faults sink.old }
    ensures disk_fault { result.status ≡ 6 → Rose (D.faults disk.old) (D.faults disk.new) × (sink.new ≡ sink.old) × IsNone result.outcome }
    ensures disk_steady { result.status ≢ 6 → D.faults disk.new ≡ D.faults disk.old }
    ensures refused_disk { (result.status ≡ 2) ⊎ (result.status ≡ 3) → disk.new ≡ disk.old }
    ensures untouched { uses_disk (Some command) ≡ false → disk.new ≡ disk.old }
    ensures held { keeps_log command ≡ false → D.held disk.new ≡ D.held disk.old }
    ensures syncs { keeps_log command ≡ false → Syncs D.held D.clock D.image D.image_since disk.old disk.new }
    ensures kept { result.status ≡ 7 → D.held disk.new ≡ D.held disk.old }
    ensures statuses { (result.status ≢ 1) × (result.status ≤ 7) }
{
    read_once();
    match read_all(crew.alloc, source, MOST_BYTES) {
        Ok(bytes) => answer(crew, command, bytes.as_slice(), sink, disk),
        Err(ReadAllError::TooLong) => refuse(
            crew.alloc,
            Refused {
                line: 1,
                code: Code::TooLong,
            },
            sink,
        ),
        Err(ReadAllError::ReadFault) => without_outcome(READ_FAULT),
        Err(ReadAllError::OutOfMemory) => without_outcome(NO_MEMORY),
    }
}

/// Writes the refusal line.
fn refuse<W: Sink>(alloc: Global, refused: Refused, sink: &mut W) -> Report
    ensures writes { (result.status ≡ 5) ⊎ Writes 2 result.status (W.written sink.old) (W.written sink.new) (refusal_line_of refused) }
    ensures fault { result.status ≡ 4 → Rose (W.faults sink.old) (W.faults sink.new) }
    ensures steady { result.status ≢ 4 → W.faults sink.new ≡ W.faults sink.old }
    ensures no_memory { result.status ≡ 5 → sink.new ≡ sink.old }
    ensures statuses { (result.status ≢ 0) × (result.status ≢ 1) × (result.status ≢ 3) × (result.status ≤ 5) }
    ensures nothing { IsNone result.outcome }
{
    match refusal_line(alloc, refused) {
        Ok(line) => without_outcome(write(sink, line.as_slice(), 2)),
        Err(_) => without_outcome(NO_MEMORY),
    }
}

/// How a command reads a script.
fn options_of(command: Command) -> Options
    ensures { result ≡ options_by command }
{
    match command {
        Command::Run { chunks, rows, .. } => Options { chunks, rows },
        Command::Check { chunks, rows } => Options { chunks, rows },
        Command::Recover { chunks, rows, .. } => Options { chunks, rows },
        Command::Trace { chunks, rows, .. } => Options { chunks, rows },
        Command::Explain { chunks, rows, .. } => Options { chunks, rows },
        Command::Serve { chunks, rows, .. } => Options { chunks, rows },
        Command::Gen { .. } => Options {
            chunks: 4,
            rows: 16,
        },
    }
}

/// Does what a command asks for with the script that the bytes spell.
fn answer<T: Threads + Wait + Sync, W: Sink, G: Gate, D: Disk + Send + Sync>(
    crew: &Crew<'_, T, G>,
    command: Command,
    bytes: &[u8],
    sink: &mut W,
    disk: &mut D,
) -> Report
    requires within { IsWithin command }
    requires script { does_serve (Some command) ≡ false }
    ensures answers { Answers command bytes.now (D.held disk.old) result.status result.outcome (W.written sink.old) (W.written sink.new) }
    ensures write_fault { result.status ≡ 4 → Rose (W.faults sink.old) (W.faults sink.new) }
    ensures sink_steady { result.status ≢ 4 → W.faults sink.new ≡ W.faults sink.old }
    ensures no_memory { result.status ≡ 5 → (sink.new ≡ sink.old) × IsNone result.outcome }
    ensures disk_fault { result.status ≡ 6 → Rose (D.faults disk.old) (D.faults disk.new) × (sink.new ≡ sink.old) × IsNone result.outcome }
    ensures disk_steady { result.status ≢ 6 → D.faults disk.new ≡ D.faults disk.old }
    ensures leaves { keeps_log command ≡ true
        → Leaves D.held D.clock D.image D.image_since command bytes.now result.status result.outcome disk.old disk.new }
    ensures refused_disk { result.status ≡ 2 → disk.new ≡ disk.old }
    ensures untouched { uses_disk (Some command) ≡ false → disk.new ≡ disk.old }
    ensures held { keeps_log command ≡ false → D.held disk.new ≡ D.held disk.old }
    ensures syncs { keeps_log command ≡ false → Syncs D.held D.clock D.image D.image_since disk.old disk.new }
    ensures kept { result.status ≡ 7 → D.held disk.new ≡ D.held disk.old }
    ensures statuses { (result.status ≢ 1) × (result.status ≢ 3) × (result.status ≤ 7) }
{
    read_once();
    what_is_read_fits();
    what_is_read_is_typed();
    what_is_read_is_utf8();
    runs_are_steps();
    ends_are_lawful();
    match hy_script::read(crew.alloc, bytes, &options_of(command)) {
        Ok(script) => perform(crew, command, bytes, script, sink, disk),
        Err(ReadError::Refused(refused)) => refuse(crew.alloc, refused, sink),
        Err(ReadError::OutOfMemory) => without_outcome(NO_MEMORY),
    }
}

/// Does what a command asks for with a script, which these bytes spell.
fn perform<T: Threads + Wait + Sync, W: Sink, G: Gate, D: Disk + Send + Sync>(
    crew: &Crew<'_, T, G>,
    command: Command,
    bytes: &[u8],
    script: Script,
    sink: &mut W,
    disk: &mut D,
) -> Report
    requires spells { Reads bytes.now script.options (Ok script) }
    requires runs { CanRun script }
    requires texts { IsUtf8Script script }
    requires script { does_serve (Some command) ≡ false }
    ensures does { GaveUp result.status × (sink.new ≡ sink.old) × IsNone result.outcome
        ⊎ Does command script (D.held disk.old) result.status result.outcome (W.written sink.old) (W.written sink.new) }
    ensures write_fault { result.status ≡ 4 → Rose (W.faults sink.old) (W.faults sink.new) }
    ensures sink_steady { result.status ≢ 4 → W.faults sink.new ≡ W.faults sink.old }
    ensures disk_fault { result.status ≡ 6 → Rose (D.faults disk.old) (D.faults disk.new) }
    ensures disk_steady { result.status ≢ 6 → D.faults disk.new ≡ D.faults disk.old }
    ensures leaves { keeps_log command ≡ true
        → LeavesLogOf D.held D.clock D.image D.image_since (runs_threads command) script result.status result.outcome disk.old disk.new }
    ensures untouched { uses_disk (Some command) ≡ false → disk.new ≡ disk.old }
    ensures held { keeps_log command ≡ false → D.held disk.new ≡ D.held disk.old }
    ensures syncs { keeps_log command ≡ false → Syncs D.held D.clock D.image D.image_since disk.old disk.new }
    ensures kept { result.status ≡ 7 → D.held disk.new ≡ D.held disk.old }
{
    match command {
        Command::Run {
            threads,
            prune,
            log: true,
            ..
        } => {
            let mode = Mode {
                threads,
                prunes: prune,
            };
            run_logged(crew, script, mode, sink, disk)
        }
        Command::Run { threads, prune, .. } => {
            let mode = Mode {
                threads,
                prunes: prune,
            };
            run_script(crew, script, mode, sink)
        }
        Command::Check { .. } => check_script(crew.alloc, script, sink),
        Command::Recover { dumps, .. } => recover_script(crew.alloc, script, dumps, sink, disk),
        Command::Trace { prune, .. } => trace_script(crew.alloc, script, prune, sink),
        Command::Explain { prune, .. } => explain_script(crew.alloc, bytes, script, prune, sink),
        Command::Gen { threads, .. } => summarize_script(crew, script, threads, sink),
        Command::Serve { .. } => unreachable!(),
    }
}

/// Runs a script, in chunks that are pruned or not, and writes the text of its outcome.
fn run_script<T: Threads + Wait + Sync, W: Sink, G: Gate>(
    crew: &Crew<'_, T, G>,
    script: Script,
    mode: Mode,
    sink: &mut W,
) -> Report
    requires { CanRun script }
    ensures run { (result.status ≡ 5) × (sink.new ≡ sink.old) × IsNone result.outcome
        ⊎ Runs mode.threads script result.status result.outcome (W.written sink.old) (W.written sink.new) }
    ensures write_fault { result.status ≡ 4 → Rose (W.faults sink.old) (W.faults sink.new) }
    ensures sink_steady { result.status ≢ 4 → W.faults sink.new ≡ W.faults sink.old }
{
    match outcome_and_text(crew, script, mode) {
        Ok((outcome, written)) => tell(outcome, written.as_slice(), sink),
        Err(_) => without_outcome(NO_MEMORY),
    }
}

/// Runs a script, on threads or by its schedule, and writes the summary of its outcome.
fn summarize_script<T: Threads + Wait + Sync, W: Sink, G: Gate>(
    crew: &Crew<'_, T, G>,
    script: Script,
    threads: bool,
    sink: &mut W,
) -> Report
    requires { CanRun script }
    ensures run { (result.status ≡ 5) × (sink.new ≡ sink.old) × IsNone result.outcome
        ⊎ Summarizes threads script result.status result.outcome (W.written sink.old) (W.written sink.new) }
    ensures write_fault { result.status ≡ 4 → Rose (W.faults sink.old) (W.faults sink.new) }
    ensures sink_steady { result.status ≢ 4 → W.faults sink.new ≡ W.faults sink.old }
{
    match outcome_and_summary(crew, script, threads) {
        Ok((outcome, written)) => tell(outcome, written.as_slice(), sink),
        Err(_) => without_outcome(NO_MEMORY),
    }
}

/// Writes what tells an outcome.
fn tell<W: Sink>(outcome: Outcome, written: &[u8], sink: &mut W) -> Report
    ensures there { result.outcome ≡ Some outcome }
    ensures writes { Writes 0 result.status (W.written sink.old) (W.written sink.new) written.now }
    ensures write_fault { result.status ≡ 4 → Rose (W.faults sink.old) (W.faults sink.new) }
    ensures sink_steady { result.status ≢ 4 → W.faults sink.new ≡ W.faults sink.old }
{
    Report {
        status: write(sink, written, 0),
        outcome: Some(outcome),
        checked: None,
    }
}

/// Writes what a script has.
fn check_script<W: Sink>(alloc: Global, script: Script, sink: &mut W) -> Report
    ensures check { (result.status ≡ 5) × (sink.new ≡ sink.old) × IsNone result.outcome
        ⊎ Checks script result.status result.outcome (W.written sink.old) (W.written sink.new) }
    ensures write_fault { result.status ≡ 4 → Rose (W.faults sink.old) (W.faults sink.new) }
    ensures sink_steady { result.status ≢ 4 → W.faults sink.new ≡ W.faults sink.old }
{
    let status = match check_line(alloc, &script) {
        Ok(line) => write(sink, line.as_slice(), 0),
        Err(_) => NO_MEMORY,
    };
    Report {
        status,
        outcome: None,
        checked: Some(script),
    }
}

/// The outcome of a script that the engine runs, and the names that it is printed with.
fn named_outcome<T: Threads + Wait + Sync, G: Gate>(
    crew: &Crew<'_, T, G>,
    script: Script,
    mode: Mode,
) -> Result<(Outcome, Names), AllocError>
    requires { CanRun script }
    ensures { IfOk result (λ given. MayCome mode.threads script given.0 × (given.1 ≡ names_at script)) }
{
    let Given {
        setting,
        kinds,
        names,
        schedule,
    } = given_of(crew.alloc, script)?;
    let types = kinds.as_slice();
    let outcome = if mode.threads {
        hy_world::run_threads(crew.rt, crew.alloc, setting, types, mode.prunes, crew.gate)?
    } else {
        hy_world::run(crew.alloc, setting, types, mode.prunes, schedule.as_slice())?
    };
    Ok((outcome, names))
}

/// The outcome of a script that the engine runs, and its text.
fn outcome_and_text<T: Threads + Wait + Sync, G: Gate>(
    crew: &Crew<'_, T, G>,
    script: Script,
    mode: Mode,
) -> Result<(Outcome, Vec<u8>), AllocError>
    requires { CanRun script }
    ensures { IfOk result (λ given. MayCome mode.threads script given.0 × (given.1.items ≡ text (names_at script) given.0)) }
{
    let (outcome, names) = named_outcome(crew, script, mode)?;
    let mut written = Vec::new(crew.alloc);
    render(&names, &outcome, &mut written)?;
    Ok((outcome, written))
}

/// The outcome of a script that the engine runs, and its summary.
fn outcome_and_summary<T: Threads + Wait + Sync, G: Gate>(
    crew: &Crew<'_, T, G>,
    script: Script,
    threads: bool,
) -> Result<(Outcome, Vec<u8>), AllocError>
    requires { CanRun script }
    ensures { IfOk result (λ given. MayCome threads script given.0 × (given.1.items ≡ summary_of given.0)) }
{
    let mode = Mode {
        threads,
        prunes: true,
    };
    let (outcome, _) = named_outcome(crew, script, mode)?;
    let mut written = Vec::new(crew.alloc);
    summarize(&outcome, &mut written)?;
    Ok((outcome, written))
}
