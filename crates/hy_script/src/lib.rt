//! Scripts: from bytes to tables, first rows, sessions and a schedule, or to the first refusal.
#![tactic(auto)]

ghost use Rattle.std.specs.Prelude.{◌≡◌, ℕ, List, Result};
ghost use Rattle.hy_script.specs.declared.Options.{Options};
ghost use Rattle.hy_script.specs.declared.Script.{Script};
ghost use Rattle.hy_script.specs.declared.Refused.{Refused};
ghost use Rattle.hy_script.specs.Reading.{Reads, Answers, Says, error_of_halt};

use hy_ast::Statement;
use hy_bound::{Name, Schedule, StoredRows, Txns};
use hy_limits::MOST_BYTES;
use hy_schema::Catalog;
use hy_value::Seq;
use std::alloc::{AllocError, Global};

mod codes;
mod fitting;
mod judging;
mod keys;
mod laws;
mod reading;
mod savepoints;
mod sofar;
mod stocks;

pub use codes::Code;
pub use fitting::{
    accepted_definitions_fit, accepted_statements_suit, what_is_read_fits, what_is_read_is_bound,
};
pub use judging::{Standing, StandingRef, judge};
pub use laws::{
    accepted_scripts_are_sentences, reading_comes_to_an_answer, sentences_are_accepted,
};
use reading::{Halt, Step, line_of};
pub use sofar::SoFar;

/// The chunks of a table and the rows of a chunk.
#[derive(Clone, Copy, Debug, PartialEq, Eq)]
pub struct Options {
    /// How many chunks each table has.
    pub chunks: u32,
    /// How many rows each chunk has.
    pub rows: u32,
}

/// A session and its transactions.
#[derive(Drop)]
pub struct NamedTxns {
    /// The session's name.
    pub name: Name,
    /// Its transactions, in order.
    pub txns: Txns,
}

/// A script.
#[derive(Drop)]
pub struct Script {
    /// The tables.
    pub catalog: Catalog,
    /// Of each table its first rows.
    pub rows: Seq<StoredRows>,
    /// The sessions, by number.
    pub sessions: Seq<NamedTxns>,
    /// The schedule.
    pub schedule: Schedule,
    /// The chunks and rows of its tables.
    pub options: Options,
}

/// A refusal of a script.
#[derive(Clone, Copy, Debug, PartialEq, Eq)]
pub struct Refused {
    /// The line, from 1.
    pub line: u64,
    /// The cause.
    pub code: Code,
}

/// Why there is no script.
#[derive(Clone, Copy, Debug, PartialEq, Eq)]
pub enum ReadError {
    /// The script is refused.
    Refused(Refused),
    /// There is no memory.
    OutOfMemory,
}

impl From<AllocError> for ReadError {
    ghost use Rattle.std.specs.Prelude.{◌≡◌};
    ghost use Rattle.hy_script.specs.declared.ReadError.{ReadError};

    ghost from_gives = { λ _ error. error ≡ ReadError.OutOfMemory };

    fn from(_: AllocError) -> ReadError {
        ReadError::OutOfMemory
    }
}

/// What is read, and with which options.
#[derive(Clone, Copy)]
pub struct Input<'a> {
    /// The script.
    pub script: &'a [u8],
    /// The options.
    pub options: &'a Options,
}

/// The script that the bytes spell, or the first refusal.
pub fn read(alloc: Global, bytes: &[u8], options: &Options) -> Result<Script, ReadError>
    ensures { Answers result bytes.now options.now }
{
    if bytes.len() > MOST_BYTES {
        return Err(ReadError::Refused(Refused {
            line: 1,
            code: Code::TooLong,
        }));
    }
    if !simdutf8::is_utf8(bytes) {
        return Err(ReadError::Refused(Refused {
            line: 1,
            code: Code::NotUtf8,
        }));
    }
    statements(alloc, bytes, options)
}

/// Reads the statements of a script.
fn statements(alloc: Global, script: &[u8], options: &Options) -> Result<Script, ReadError>
    ensures { Says result script.now options.now }
{
    let input = Input { script, options };
    let mut sofar = SoFar::new(alloc);
    let mut room = Vec::new(alloc);
    let mut ast = Statement::End;
    let mut at = 0;
    loop {
        match sofar.step(alloc, &input, at, &mut room, &mut ast) {
            Ok(Step::GoOn(end)) => at = end,
            Ok(Step::End) => return Ok(sofar.into_script(alloc, options)?),
            Err(halt) => return Err(error_of(script, halt)),
        }
    }
}

/// The error that a halt is.
fn error_of(script: &[u8], halt: Halt) -> ReadError
    ensures { result ≡ error_of_halt script.now halt }
{
    match halt {
        Halt::Refused { code, at } => ReadError::Refused(Refused {
            line: line_of(script, at),
            code,
        }),
        Halt::OutOfMemory => ReadError::OutOfMemory,
    }
}

/// A law: reading bytes comes to one answer.
pub fn read_once()
    ensures { (bytes : List ℕ) (options : Options) (one other : Result Script Refused) → Reads bytes options one → Reads bytes options other → one ≡ other }
{}
