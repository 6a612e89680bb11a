//! Statements read from a script: the whole grammar, and the offset of the first token that does not fit.
#![tactic(auto)]

mod conditions;
mod cursor;
mod expressions;
mod laws;
mod lists;
mod operands;
mod pieces;
mod queries;
mod short;
mod statements;

ghost use Rattle.std.specs.Prelude.{◌≡◌, ◌≤◌, length};
ghost use Rattle.hy_ast.specs.Trees.{statement_of};
ghost use Rattle.hy_parse.specs.declared.ParseError.TheVariants.{OutOfMemory};
ghost use Rattle.hy_parse.specs.Parsing.{Gives, parsed, offset_of, fault_of, error_of};
ghost use Rattle.hy_token.specs.Token.{token_at};

use cursor::Halt;
use hy_ast::Statement;
use hy_token::{Bad, Span, Token};
pub use laws::{parsing_moves_on, reading_stops_first, scripts_are_parsed, sentences_are_read};
use std::alloc::{AllocError, Global};

/// A token with the span where it stands.
#[derive(Clone, Copy)]
pub struct Piece {
    /// The token.
    pub token: Token,
    /// Where it stands.
    pub span: Span,
}

/// What follows the pieces of a statement.
#[derive(Clone, Copy)]
pub enum Ending {
    /// The last piece is the `;` that ends the statement.
    Closed {
        /// The offset right behind it.
        at: usize,
    },
    /// No further token stands there, or none may: the script ends, or a statement has no more tokens.
    Cut {
        /// The offset of the end or of the token.
        at: usize,
    },
    /// A bad token.
    Bad {
        /// Its offset.
        at: usize,
    },
}

/// Why no statement is read.
#[derive(Clone, Copy, Debug, PartialEq, Eq)]
pub enum ParseError {
    /// The token that stands there does not fit.
    Syntax {
        /// A byte offset into the script.
        at: usize,
    },
    /// What stands there is no token.
    BadToken {
        /// A byte offset into the script.
        at: usize,
    },
    /// There was not enough memory.
    OutOfMemory,
}

impl From<AllocError> for ParseError {
    ghost from_gives = { λ _ e. e ≡ OutOfMemory };

    fn from(_error: AllocError) -> ParseError {
        ParseError::OutOfMemory
    }
}

/// The statement that begins at the first token from `at` on, which is `first`, and the offset right behind its
/// `;`. What `room` holds doesn't matter: its memory serves for the pieces of one statement after another.
pub fn parse_statement(
    alloc: Global,
    bytes: &[u8],
    at: usize,
    first: Result<(Token, Span), Bad>,
    room: &mut Vec<Piece>,
) -> Result<(Statement, usize), ParseError>
    requires in_range { at ≤ length bytes.now }
    requires found { first ≡ token_at bytes.now at }
    ensures { Gives (λ x. (statement_of x.0, x.1)) result (parsed bytes.now at) }
{
    let mut statement = Statement::End;
    let end = parse_into(alloc, bytes, at, first, room, &mut statement)?;
    Ok((statement, end))
}

/// The same with a place for the statement, which is large to hand on: only the offset is answered.
#[tactic(auto, unfolding(crate::specs::Parsing::parsed))]
pub fn parse_into(
    alloc: Global,
    bytes: &[u8],
    at: usize,
    first: Result<(Token, Span), Bad>,
    room: &mut Vec<Piece>,
    into: &mut Statement,
) -> Result<usize, ParseError>
    requires in_range { at ≤ length bytes.now }
    requires found { first ≡ token_at bytes.now at }
    ensures { Gives (λ end. (statement_of into.new, end)) result (parsed bytes.now at) }
{
    let ending = pieces::pieces(bytes, at, first, room)?;
    match statements::statement(alloc, room, into) {
        Ok(_) => Ok(ending.offset()),
        Err(Halt::Stuck(rest)) => Err(ending.fault_of(rest)),
        Err(Halt::OutOfMemory) => Err(ParseError::OutOfMemory),
    }
}

impl Ending {
    /// The offset.
    fn offset(self) -> usize
        ensures { result ≡ offset_of self }
    {
        match self {
            Ending::Closed { at } | Ending::Cut { at } | Ending::Bad { at } => at,
        }
    }

    /// The fault where the first of these pieces does not fit.
    fn fault_of(self, pieces: &[Piece]) -> ParseError
        ensures { result ≡ error_of (fault_of pieces.now self) }
    {
        match (pieces, self) {
            ([piece, ..], _) => ParseError::Syntax {
                at: piece.span.start,
            },
            ([], Ending::Bad { at }) => ParseError::BadToken { at },
            ([], Ending::Closed { at } | Ending::Cut { at }) => ParseError::Syntax { at },
        }
    }
}
