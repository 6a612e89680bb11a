//! The words that `hy` takes, as clap has them.
ghost use Rattle.std.specs.Prelude.{◌≡◌, ◌≤◌, ◌≤ℤ◌, pos, IfOk, false, []};
ghost use Rattle.clap.specs.Words.{app_of, rule_of, shape_of};
ghost use Rattle.clap.specs.declared.Command.TheViews.{out-Command as fields_of};
ghost use Rattle.hy_words.specs.Grammar.{bare, check, chunks, first_words, generate, hy, recover, rows, run, script_words, seed, serve, sessions, sized};
ghost use Rattle.hy_words.specs.Grammar.{explain, flag, needed_number, number_option, source_words, trace, transactions};

use clap::{Arg, ArgAction, Command, value_parser};
use std::alloc::{AllocError, Global};

/// The words that `hy` takes.
pub(crate) fn hy<'a>(alloc: Global) -> Result<Command<'a>, AllocError>
    ensures { IfOk result (λ c. app_of c ≡ hy) }
{
    source_words(alloc)?.subcommand(generate(alloc)?)
}

/// The words that take what the source gives: a script, or lines.
fn source_words<'a>(alloc: Global) -> Result<Command<'a>, AllocError>
    ensures app { IfOk result (λ c. app_of c ≡ source_words) }
    ensures local { IfOk result (λ c. (fields_of c).has_globals ≡ false) }
{
    script_words(alloc)?.subcommand(serve(alloc)?)
}

/// The words that take a script.
fn script_words<'a>(alloc: Global) -> Result<Command<'a>, AllocError>
    ensures app { IfOk result (λ c. app_of c ≡ script_words) }
    ensures local { IfOk result (λ c. (fields_of c).has_globals ≡ false) }
{
    first_words(alloc)?
        .subcommand(trace(alloc)?)?
        .subcommand(explain(alloc)?)
}

/// The first of them.
fn first_words<'a>(alloc: Global) -> Result<Command<'a>, AllocError>
    ensures app { IfOk result (λ c. app_of c ≡ first_words) }
    ensures local { IfOk result (λ c. (fields_of c).has_globals ≡ false) }
{
    bare(alloc)
        .subcommand(run(alloc)?)?
        .subcommand(check(alloc)?)?
        .subcommand(recover(alloc)?)
}

/// The program with no subcommand yet.
fn bare<'a>(alloc: Global) -> Command<'a>
    ensures app { app_of result ≡ record { top = bare; subs = [] } }
    ensures local { (fields_of result).has_globals ≡ false }
{
    Command::new(alloc, "hy")
        .subcommand_required(true)
        .disable_help_flag(true)
        .disable_help_subcommand(true)
        .disable_version_flag(true)
}

/// The words that `run` takes.
fn run<'a>(alloc: Global) -> Result<Command<'a>, AllocError>
    ensures shape { IfOk result (λ c. shape_of c ≡ run) }
    ensures local { IfOk result (λ c. (fields_of c).has_globals ≡ false) }
{
    let flags = Command::new(alloc, "run")
        .arg(flag(alloc, "threads"))?
        .arg(flag(alloc, "no-prune"))?
        .arg(flag(alloc, "log"))?;
    sized(alloc, flags)
}

/// The words that `check` takes.
fn check<'a>(alloc: Global) -> Result<Command<'a>, AllocError>
    ensures shape { IfOk result (λ c. shape_of c ≡ check) }
    ensures local { IfOk result (λ c. (fields_of c).has_globals ≡ false) }
{
    sized(alloc, Command::new(alloc, "check"))
}

/// The words that `recover` takes.
fn recover<'a>(alloc: Global) -> Result<Command<'a>, AllocError>
    ensures shape { IfOk result (λ c. shape_of c ≡ recover) }
    ensures local { IfOk result (λ c. (fields_of c).has_globals ≡ false) }
{
    let flags = Command::new(alloc, "recover").arg(flag(alloc, "script"))?;
    sized(alloc, flags)
}

/// The words that `trace` takes.
fn trace<'a>(alloc: Global) -> Result<Command<'a>, AllocError>
    ensures shape { IfOk result (λ c. shape_of c ≡ trace) }
    ensures local { IfOk result (λ c. (fields_of c).has_globals ≡ false) }
{
    let flags = Command::new(alloc, "trace").arg(flag(alloc, "no-prune"))?;
    sized(alloc, flags)
}

/// The words that `explain` takes.
fn explain<'a>(alloc: Global) -> Result<Command<'a>, AllocError>
    ensures shape { IfOk result (λ c. shape_of c ≡ explain) }
    ensures local { IfOk result (λ c. (fields_of c).has_globals ≡ false) }
{
    let flags = Command::new(alloc, "explain").arg(flag(alloc, "no-prune"))?;
    sized(alloc, flags)
}

/// The words that `serve` takes.
fn serve<'a>(alloc: Global) -> Result<Command<'a>, AllocError>
    ensures shape { IfOk result (λ c. shape_of c ≡ serve) }
    ensures local { IfOk result (λ c. (fields_of c).has_globals ≡ false) }
{
    let flags = Command::new(alloc, "serve").arg(flag(alloc, "log"))?;
    sized(alloc, flags)
}

/// A subcommand with the options for the sizes of a table added, behind its own.
#[tactic(auto, using(crate::proofs::Added::added_twice))]
fn sized<'a>(alloc: Global, command: Command<'a>) -> Result<Command<'a>, AllocError>
    ensures shape { IfOk result (λ c. shape_of c ≡ sized (shape_of command.entry)) }
    ensures local { (fields_of command.entry).has_globals ≡ false → IfOk result (λ c. (fields_of c).has_globals ≡ false) }
{
    command.arg(chunks(alloc))?.arg(rows(alloc))
}

/// The words that `gen` takes.
fn generate<'a>(alloc: Global) -> Result<Command<'a>, AllocError>
    ensures shape { IfOk result (λ c. shape_of c ≡ generate) }
    ensures local { IfOk result (λ c. (fields_of c).has_globals ≡ false) }
{
    Command::new(alloc, "gen")
        .arg(seed(alloc))?
        .arg(sessions(alloc))?
        .arg(transactions(alloc))?
        .arg(flag(alloc, "threads"))
}

/// A flag: it takes no value, and is true exactly where it is given.
fn flag<'a>(alloc: Global, name: &'a str) -> Arg<'a>
    ensures rule { rule_of result ≡ flag name.entry.now }
    ensures local { result.global ≡ false }
{
    Arg::new(alloc, name).long(name).action(ArgAction::SetTrue)
}

/// The option `--chunks`.
fn chunks<'a>(alloc: Global) -> Arg<'a>
    ensures rule { rule_of result ≡ chunks }
    ensures local { result.global ≡ false }
{
    number_option(alloc, "chunks", 64, "4")
}

/// The option `--rows`.
fn rows<'a>(alloc: Global) -> Arg<'a>
    ensures rule { rule_of result ≡ rows }
    ensures local { result.global ≡ false }
{
    number_option(alloc, "rows", 1024, "1024")
}

/// The option `--seed`.
fn seed<'a>(alloc: Global) -> Arg<'a>
    ensures rule { rule_of result ≡ seed }
    ensures local { result.global ≡ false }
{
    needed_number(alloc, "seed", 0, 4_294_967_295)
}

/// The option `--sessions`.
fn sessions<'a>(alloc: Global) -> Arg<'a>
    ensures rule { rule_of result ≡ sessions }
    ensures local { result.global ≡ false }
{
    needed_number(alloc, "sessions", 1, 64)
}

/// The option `--transactions`.
fn transactions<'a>(alloc: Global) -> Arg<'a>
    ensures rule { rule_of result ≡ transactions }
    ensures local { result.global ≡ false }
{
    needed_number(alloc, "transactions", 1, 1000)
}

/// An option that takes one number from `least` to `most` and has to be there.
fn needed_number<'a>(alloc: Global, name: &'a str, least: u32, most: u32) -> Arg<'a>
    requires { least ≤ most }
    ensures rule { rule_of result ≡ needed_number name.entry.now least most }
    ensures local { result.global ≡ false }
{
    Arg::new(alloc, name)
        .long(name)
        .action(ArgAction::Set)
        .value_parser(value_parser!(u32).range(i64::from(least)..=i64::from(most)))
        .required(true)
}

/// An option that takes one number from 1 to `most`.
fn number_option<'a>(alloc: Global, name: &'a str, most: i64, default: &'a str) -> Arg<'a>
    requires low { pos 1 ≤ℤ most }
    requires high { most ≤ℤ pos 4294967295 }
    ensures rule { rule_of result ≡ number_option name.entry.now most default.entry.now }
    ensures local { result.global ≡ false }
{
    Arg::new(alloc, name)
        .long(name)
        .action(ArgAction::Set)
        .value_parser(value_parser!(u32).range(1..=most))
        .default_value(default)
}
