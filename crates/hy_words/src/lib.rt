//! The words of the command line: which command they ask for.
#![tactic(auto)]

ghost use Rattle.std.specs.Prelude.{◌≡◌, ◌≤◌, Some, None, Err, IfOk, IfSome, map};
ghost use Rattle.std.specs.String.{string_bytes};
ghost use Rattle.clap.specs.Words.{found_of, rows_of, subcommand_rows_of};
ghost use Rattle.hy_words.specs.Words.{AreSizes, IsWithin, asked_by, check_by, command_of, explain_by, gen_by, number_in, number_within};
ghost use Rattle.hy_words.specs.Words.{recover_by, refusal_of, run_by, serve_by, sizes_in, trace_by, truth_in};

mod grammar;

use clap::ArgMatches;
use clap::error::ErrorKind;
use grammar::hy;
use std::alloc::{AllocError, Global};

/// What the words ask for.
#[derive(Clone, Copy, Debug, PartialEq, Eq)]
pub enum Command {
    /// Run a script.
    Run {
        /// Whether sessions run on threads.
        threads: bool,
        /// Whether chains of versions are pruned.
        prune: bool,
        /// Whether each entry of the commit order is kept in a redo log.
        log: bool,
        /// How many chunks a table has.
        chunks: u32,
        /// How many positions a chunk has.
        rows: u32,
    },
    /// Read a script and count what it has.
    Check {
        /// How many chunks a table has.
        chunks: u32,
        /// How many positions a chunk has.
        rows: u32,
    },
    /// Run a script and tell each step.
    Trace {
        /// Whether chains of versions are pruned.
        prune: bool,
        /// How many chunks a table has.
        chunks: u32,
        /// How many positions a chunk has.
        rows: u32,
    },
    /// Run a script and tell why transactions were refused.
    Explain {
        /// Whether chains of versions are pruned.
        prune: bool,
        /// How many chunks a table has.
        chunks: u32,
        /// How many positions a chunk has.
        rows: u32,
    },
    /// Serve sessions line by line.
    Serve {
        /// Whether each entry of the commit order is kept in a redo log.
        log: bool,
        /// How many chunks a table has.
        chunks: u32,
        /// How many positions a chunk has.
        rows: u32,
    },
    /// Make the tables of a script again from a redo log.
    Recover {
        /// Whether they are written as the lines of a script that makes them.
        dumps: bool,
        /// How many chunks a table has.
        chunks: u32,
        /// How many positions a chunk has.
        rows: u32,
    },
    /// Make a script, run it and summarize what it came to.
    Gen {
        /// The number that the script is made from.
        seed: u32,
        /// How many sessions it has.
        sessions: u32,
        /// How many transactions each has.
        txns: u32,
        /// Whether sessions run on threads.
        threads: bool,
    },
}

/// Why the words ask for nothing.
#[derive(Clone, Copy, Debug, PartialEq, Eq)]
pub enum WordsError {
    /// They are no command.
    Refused,
    /// There is no memory.
    OutOfMemory,
}

impl From<AllocError> for WordsError {
    ghost use Rattle.hy_words.specs.declared.WordsError.{WordsError};

    ghost from_gives = { λ _ e. e ≡ WordsError.OutOfMemory };

    fn from(_error: AllocError) -> WordsError {
        WordsError::OutOfMemory
    }
}

/// The command that these words are. The first word is the program's name.
pub fn command_of(alloc: Global, words: &[String]) -> Result<Command, WordsError>
    ensures accepted { IfOk result (λ command. command_of (map string_bytes words.now) ≡ Some command) }
    ensures within { IfOk result (λ command. IsWithin command) }
    ensures refused { result ≡ Err WordsError.Refused → command_of (map string_bytes words.now) ≡ None }
{
    match hy(alloc)?.try_get_matches_from(words) {
        Ok(matches) => asked(&matches).ok_or(WordsError::Refused),
        Err(error) => Err(refusal(error.kind())),
    }
}

/// What a failed parse comes to.
fn refusal(kind: ErrorKind) -> WordsError
    ensures { result ≡ refusal_of kind }
{
    match kind {
        ErrorKind::OutOfMemory => WordsError::OutOfMemory,
        _ => WordsError::Refused,
    }
}

/// The command that the matches name.
fn asked(matches: &ArgMatches<'_>) -> Option<Command>
    ensures asked { result ≡ asked_by (subcommand_rows_of matches.now) }
    ensures within { IfSome result (λ command. IsWithin command) }
{
    let Some((name, given)) = matches.subcommand() else {
        return None;
    };
    match name {
        "run" => run_asked(given),
        "check" => check_asked(given),
        "recover" => recover_asked(given),
        "trace" => trace_asked(given),
        "explain" => explain_asked(given),
        "serve" => serve_asked(given),
        "gen" => gen_asked(given),
        _ => None,
    }
}

/// What the matches of `run` ask for.
fn run_asked(given: &ArgMatches<'_>) -> Option<Command>
    ensures asked { result ≡ run_by (rows_of (found_of given.now)) }
    ensures within { IfSome result (λ command. IsWithin command) }
{
    let threads = truth(given, "threads")?;
    let keeps = truth(given, "no-prune")?;
    let log = truth(given, "log")?;
    let (chunks, rows) = sizes(given)?;
    Some(Command::Run {
        threads,
        prune: !keeps,
        log,
        chunks,
        rows,
    })
}

/// What the matches of `check` ask for.
fn check_asked(given: &ArgMatches<'_>) -> Option<Command>
    ensures asked { result ≡ check_by (rows_of (found_of given.now)) }
    ensures within { IfSome result (λ command. IsWithin command) }
{
    let (chunks, rows) = sizes(given)?;
    Some(Command::Check { chunks, rows })
}

/// What the matches of `recover` ask for.
fn recover_asked(given: &ArgMatches<'_>) -> Option<Command>
    ensures asked { result ≡ recover_by (rows_of (found_of given.now)) }
    ensures within { IfSome result (λ command. IsWithin command) }
{
    let dumps = truth(given, "script")?;
    let (chunks, rows) = sizes(given)?;
    Some(Command::Recover {
        dumps,
        chunks,
        rows,
    })
}

/// What the matches of `trace` ask for.
fn trace_asked(given: &ArgMatches<'_>) -> Option<Command>
    ensures asked { result ≡ trace_by (rows_of (found_of given.now)) }
    ensures within { IfSome result (λ command. IsWithin command) }
{
    let keeps = truth(given, "no-prune")?;
    let (chunks, rows) = sizes(given)?;
    Some(Command::Trace {
        prune: !keeps,
        chunks,
        rows,
    })
}

/// What the matches of `explain` ask for.
fn explain_asked(given: &ArgMatches<'_>) -> Option<Command>
    ensures asked { result ≡ explain_by (rows_of (found_of given.now)) }
    ensures within { IfSome result (λ command. IsWithin command) }
{
    let keeps = truth(given, "no-prune")?;
    let (chunks, rows) = sizes(given)?;
    Some(Command::Explain {
        prune: !keeps,
        chunks,
        rows,
    })
}

/// What the matches of `serve` ask for.
fn serve_asked(given: &ArgMatches<'_>) -> Option<Command>
    ensures asked { result ≡ serve_by (rows_of (found_of given.now)) }
    ensures within { IfSome result (λ command. IsWithin command) }
{
    let log = truth(given, "log")?;
    let (chunks, rows) = sizes(given)?;
    Some(Command::Serve { log, chunks, rows })
}

/// What the matches of `gen` ask for.
fn gen_asked(given: &ArgMatches<'_>) -> Option<Command>
    ensures asked { result ≡ gen_by (rows_of (found_of given.now)) }
    ensures within { IfSome result (λ command. IsWithin command) }
{
    let seed = number(given, "seed")?;
    let sessions = number_between(given, "sessions", 1, 64)?;
    let txns = number_between(given, "transactions", 1, 1000)?;
    let threads = truth(given, "threads")?;
    Some(Command::Gen {
        seed,
        sessions,
        txns,
        threads,
    })
}

/// How many chunks a table has and how many positions a chunk has, as the matches have them.
fn sizes(given: &ArgMatches<'_>) -> Option<(u32, u32)>
    ensures sizes { result ≡ sizes_in (rows_of (found_of given.now)) }
    ensures within { IfSome result (λ sizes. AreSizes sizes.0 sizes.1) }
{
    let chunks = number_between(given, "chunks", 1, 64)?;
    let rows = number_between(given, "rows", 1, 1024)?;
    Some((chunks, rows))
}

/// The number that the matches have for an option.
fn number(given: &ArgMatches<'_>, name: &str) -> Option<u32>
    ensures { result ≡ number_in name.now (rows_of (found_of given.now)) }
{
    given.get_one(name)
}

/// The number that the matches have for an option, where it lies within bounds. The option's parser lets no other
/// pass; that it is asked here again is what the contract knows it by.
fn number_between(given: &ArgMatches<'_>, name: &str, least: u32, most: u32) -> Option<u32>
    ensures number { result ≡ number_within least most name.now (rows_of (found_of given.now)) }
    ensures within { IfSome result (λ number. (least ≤ number) × (number ≤ most)) }
{
    let number = number(given, name)?;
    if least <= number && number <= most {
        Some(number)
    } else {
        None
    }
}

/// The truth value that the matches have for a flag.
fn truth(given: &ArgMatches<'_>, name: &str) -> Option<bool>
    ensures { result ≡ truth_in name.now (rows_of (found_of given.now)) }
{
    given.get_one(name)
}
