//! Reading a script statement by statement, up to END or to the first refusal.

ghost use Rattle.std.specs.Prelude.{◌≡◌, ◌<◌, ◌≤◌, Ok, length, count_by, IfOk};
ghost use Rattle.hy_ast.specs.Trees.{statement_of, Insert};
ghost use Rattle.hy_script.specs.Refusals.{refusal_in, insert_code_at};
ghost use Rattle.hy_script.specs.Growing.{nothing, after, with_insert, script_of, Takes};
ghost use Rattle.hy_script.specs.Reading.{may_stand_at, next_at, judged, taken, unless_refused, is_last_of, is_feed, at_end_of, line_at, Comes, Goes, Ends};
ghost use Rattle.hy_script.specs.declared.Script.{Script};
ghost use Rattle.hy_script.specs.declared.reading.Halt.{Halt};
ghost use Rattle.hy_token.specs.Token.{token_at};
ghost use Rattle.hy_parse.specs.Parsing.{Gives, parsed};

use crate::Input;
use crate::codes::Code;
use crate::sofar::{Section, SoFar};
use hy_ast::{Literal, Statement};
use hy_parse::{ParseError, Piece, parse_into, parsing_moves_on};
use hy_token::{Keyword, Span, Token, next};
use std::alloc::{AllocError, Global};

/// Why reading stops.
#[derive(Clone, Copy, Debug, PartialEq, Eq)]
pub enum Halt {
    /// The script is refused.
    Refused {
        /// The cause.
        code: Code,
        /// The offset.
        at: usize,
    },
    /// There is no memory.
    OutOfMemory,
}

impl From<AllocError> for Halt {
    ghost use Rattle.std.specs.Prelude.{◌≡◌};
    ghost use Rattle.hy_script.specs.declared.reading.Halt.{Halt};

    ghost from_gives = { λ _ halt. halt ≡ Halt.OutOfMemory };

    fn from(_: AllocError) -> Halt {
        Halt::OutOfMemory
    }
}

/// The halt that a refusal is.
fn refused(code: Code, at: usize) -> Halt
    ensures { result ≡ Halt.Refused code at }
{
    Halt::Refused { code, at }
}

/// What follows a statement.
#[derive(Clone, Copy, Debug, PartialEq, Eq)]
pub enum Step {
    /// Nothing: it was END.
    End,
    /// The next statement, from this offset on.
    GoOn(usize),
}

impl Section {
    /// Whether a statement that begins with this word may stand there.
    fn may_stand(&self, word: Keyword) -> bool
        ensures { result ≡ may_stand_at self.now word }
    {
        match self {
            Section::Defining => matches!(
                word,
                Keyword::Create
                    | Keyword::Insert
                    | Keyword::Session
                    | Keyword::Schedule
                    | Keyword::End
            ),
            Section::Between(_) => matches!(
                word,
                Keyword::Begin | Keyword::Session | Keyword::Schedule | Keyword::End
            ),
            Section::Within(_, _) => matches!(
                word,
                Keyword::Select
                    | Keyword::Insert
                    | Keyword::Update
                    | Keyword::Delete
                    | Keyword::Commit
                    | Keyword::Rollback
                    | Keyword::Savepoint
                    | Keyword::Release
            ),
            Section::Scheduled => matches!(word, Keyword::End),
        }
    }
}

impl SoFar {
    /// An INSERT, of a first row or of a transaction.
    fn insert(
        &mut self,
        alloc: Global,
        input: &Input,
        ast: &Statement,
        table: Span,
        values: &[Literal],
    ) -> Result<Option<Code>, AllocError>
        requires { statement_of ast.now ≡ Insert table values.now }
        ensures { IfOk result (λ code. Takes code (insert_code_at input.now.script.now input.now.options.now self.old self.old.section
            (statement_of ast.now) table values.now) self.new
            (with_insert input.now.script.now self.old self.old.section (statement_of ast.now) table values.now)) }
    {
        match self.section {
            Section::Within(_, _) => self.statement(alloc, input.script, ast),
            _ => self.first_row(alloc, input, ast, table, values),
        }
    }

    /// Takes a statement, or tells why it is refused.
    fn take(
        &mut self,
        alloc: Global,
        input: &Input,
        ast: &Statement,
    ) -> Result<Option<Code>, AllocError>
        ensures { IfOk result (λ code. Takes code (refusal_in input.now.script.now input.now.options.now self.old (statement_of ast.now)) self.new
            (after input.now.script.now self.old (statement_of ast.now))) }
    {
        match ast {
            Statement::Create { table, columns } => {
                self.create(alloc, input.script, *table, columns.as_slice())
            }
            Statement::Insert { table, values } => {
                self.insert(alloc, input, ast, *table, values.as_slice())
            }
            Statement::Session { name } => self.session(alloc, input.script, *name),
            Statement::Begin { read_only } => Ok(self.begin(alloc, *read_only)),
            Statement::Commit => {
                self.close(true)?;
                Ok(None)
            }
            Statement::Rollback => {
                self.close(false)?;
                Ok(None)
            }
            Statement::Schedule { turns } => self.schedule(alloc, input.script, turns.as_slice()),
            Statement::End => Ok(None),
            _ => self.statement(alloc, input.script, ast),
        }
    }

    /// Takes the statement that begins at an offset and ends at another.
    fn accept(
        &mut self,
        alloc: Global,
        input: &Input,
        ast: &Statement,
        at: usize,
        end: usize,
    ) -> Result<Step, Halt>
        requires { (at < end) × (end ≤ length input.now.script.now) }
        ensures comes { Comes result (unless_refused (refusal_in input.now.script.now input.now.options.now self.old (statement_of ast.now)) at
            (taken input.now.script.now input.now.options.now self.old (statement_of ast.now) end)) input.now.options.now self.new }
        ensures goes { IfOk result (λ step. Goes at (length input.now.script.now) step) }
    {
        if let Some(code) = self.take(alloc, input, ast)? {
            return Err(refused(code, at));
        }
        if is_last(ast) {
            at_end(input.script, end)?;
            return Ok(Step::End);
        }
        Ok(Step::GoOn(end))
    }

    /// Reads the statement that begins with this token.
    fn statement_at(
        &mut self,
        alloc: Global,
        input: &Input,
        first: Piece,
        room: &mut Vec<Piece>,
        ast: &mut Statement,
    ) -> Result<Step, Halt>
        requires in_range { first.span.start ≤ length input.now.script.now }
        requires found { token_at input.now.script.now first.span.start ≡ Ok (first.token, first.span) }
        ensures comes { Comes result (judged input.now.script.now input.now.options.now self.old first.span.start
            (parsed input.now.script.now first.span.start)) input.now.options.now self.new }
        ensures goes { IfOk result (λ step. Goes first.span.start (length input.now.script.now) step) }
    {
        match parse(alloc, input.script, first, room, ast) {
            Ok(end) => self.accept(alloc, input, ast, first.span.start, end),
            Err(ParseError::Syntax { at }) => Err(refused(Code::Syntax, at)),
            Err(ParseError::BadToken { at }) => Err(refused(Code::BadToken, at)),
            Err(ParseError::OutOfMemory) => Err(Halt::OutOfMemory),
        }
    }

    /// Reads the statement that stands at an offset. What `room` and `ast` hold doesn't matter: they serve for one after another.
    pub fn step(
        &mut self,
        alloc: Global,
        input: &Input,
        at: usize,
        room: &mut Vec<Piece>,
        ast: &mut Statement,
    ) -> Result<Step, Halt>
        requires { at ≤ length input.now.script.now }
        ensures comes { Comes result (next_at input.now.script.now input.now.options.now self.old at) input.now.options.now self.new }
        ensures goes { IfOk result (λ step. Goes at (length input.now.script.now) step) }
    {
        match next(input.script, at) {
            Err(bad) => Err(refused(Code::BadToken, bad.at)),
            Ok((Token::Reserved(word), span)) => {
                if self.section.may_stand(word) {
                    let token = Token::Reserved(word);
                    self.statement_at(alloc, input, Piece { token, span }, room, ast)
                } else {
                    Err(refused(Code::Syntax, span.start))
                }
            }
            Ok((Token::End, span)) => Err(refused(Code::NoEnd, span.start)),
            Ok((_, span)) => Err(refused(Code::Syntax, span.start)),
        }
    }
}

/// Reads the statement that begins with this token, and gives where it ends.
fn parse(
    alloc: Global,
    script: &[u8],
    first: Piece,
    room: &mut Vec<Piece>,
    into: &mut Statement,
) -> Result<usize, ParseError>
    requires in_range { first.span.start ≤ length script.now }
    requires found { token_at script.now first.span.start ≡ Ok (first.token, first.span) }
    ensures statement { Gives (λ end. (statement_of into.new, end)) result (parsed script.now first.span.start) }
    ensures moves { IfOk result (λ end. (first.span.start < end) × (end ≤ length script.now)) }
{
    parsing_moves_on();
    let Piece { token, span } = first;
    parse_into(alloc, script, span.start, Ok((token, span)), room, into)
}

/// Whether a statement is END.
fn is_last(ast: &Statement) -> bool
    ensures { result ≡ is_last_of (statement_of ast.now) }
{
    matches!(ast, Statement::End)
}

/// Nothing stands behind END, or the script is refused.
fn at_end(script: &[u8], end: usize) -> Result<(), Halt>
    requires { end ≤ length script.now }
    ensures { (read : Script) → Ends result (at_end_of (token_at script.now end) read) read }
{
    match next(script, end) {
        Err(bad) => Err(refused(Code::NoEnd, bad.at)),
        Ok((Token::End, _)) => Ok(()),
        Ok((_, span)) => Err(refused(Code::NoEnd, span.start)),
    }
}

/// How many line feeds there are.
fn feeds(bytes: &[u8]) -> usize
    ensures { result ≡ count_by is_feed bytes.now }
{
    bytes.iter().filter(|b| **b == 10).count()
}

/// The line of an offset.
#[tactic(auto, using(crate::proofs::Lines::whole))]
pub fn line_of(script: &[u8], at: usize) -> u64
    ensures { result ≡ line_at script.now at }
{
    let feeds = if at < script.len() {
        feeds(&script[..at])
    } else {
        feeds(script)
    };
    feeds as u64 + 1
}
