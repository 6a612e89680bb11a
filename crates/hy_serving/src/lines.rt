//! Where the statement of a line stands, and what it is.

ghost use Rattle.std.specs.Prelude.{◌≡◌, ◌<◌, ◌≤◌, length, slice_get, IfOk};
ghost use Rattle.hy_ast.specs.Trees.{statement_of};
ghost use Rattle.hy_parse.specs.Parsing.{Gives, parsed};
ghost use Rattle.hy_token.specs.Token.{token_at};
ghost use Rattle.hy_serving.specs.Lines.{alone, cause_behind, has_colon, heading_of, may_begin, one_statement, Finds, IsBehindName};

use hy_ast::Statement;
use hy_parse::{ParseError, parse_statement, parsing_moves_on};
use hy_script::Code;
use hy_token::{Bad, Keyword, Span, Token, next};
use std::alloc::{AllocError, Global};

/// What stands first in a line.
#[derive(Clone, Copy)]
pub enum Heading {
    /// Nothing but space and comments.
    Blank,
    /// What is no token.
    Bad,
    /// The name of a session, with a colon right behind it.
    Named(Span),
    /// Any other token.
    Bare,
}

/// The words with which a statement may begin.
#[derive(Clone, Copy)]
pub enum Words {
    /// Of a line without a name, before there is a session.
    Defining,
    /// Of a line without a name, from then on.
    Ending,
    /// Of a session's line.
    Session,
}

impl Words {
    /// Whether a statement may begin with this word.
    fn have(self, word: Keyword) -> bool
        ensures { result ≡ may_begin self word }
    {
        match self {
            Words::Defining => { matches!(word, Keyword::Create | Keyword::Insert | Keyword::End) }
            Words::Ending => matches!(word, Keyword::End),
            Words::Session => matches!(
                word,
                Keyword::Begin
                    | Keyword::Commit
                    | Keyword::Rollback
                    | Keyword::Select
                    | Keyword::Insert
                    | Keyword::Update
                    | Keyword::Delete
                    | Keyword::Savepoint
                    | Keyword::Release
            ),
        }
    }
}

/// Whether a colon stands at an offset.
fn is_colon(line: &[u8], at: usize) -> bool
    ensures { result ≡ has_colon (slice_get line.now at) }
{
    match line.get(at) {
        Some(byte) => *byte == b':',
        None => false,
    }
}

/// What stands first in a line.
#[tactic(auto, using(crate::proofs::Colons::colon_within))]
pub fn find_heading(line: &[u8]) -> Heading
    ensures heading { result ≡ heading_of line.now (token_at line.now 0) }
    ensures within { IsBehindName (length line.now) result }
{
    match next(line, 0) {
        Err(_) => Heading::Bad,
        Ok((Token::End, _)) => Heading::Blank,
        Ok((Token::Name, span)) => {
            if is_colon(line, span.end) {
                Heading::Named(span)
            } else {
                Heading::Bare
            }
        }
        Ok(_) => Heading::Bare,
    }
}

/// The one statement that stands in a line from an offset on, which begins with one of these words, or why there is none.
pub fn only_statement(
    alloc: Global,
    line: &[u8],
    from: usize,
    words: Words,
) -> Result<Result<Statement, Code>, AllocError>
    requires { from ≤ length line.now }
    ensures { IfOk result (λ found. Finds found (one_statement words line.now from)) }
{
    let first = next(line, from);
    match first {
        Err(_) => Ok(Err(Code::BadToken)),
        Ok((Token::Reserved(word), _)) => {
            if words.have(word) {
                parse_alone(alloc, line, from, first)
            } else {
                Ok(Err(Code::Syntax))
            }
        }
        Ok(_) => Ok(Err(Code::Syntax)),
    }
}

/// The statement that stands in a line from an offset on, behind which nothing may stand, or why there is none.
fn parse_alone(
    alloc: Global,
    line: &[u8],
    from: usize,
    first: Result<(Token, Span), Bad>,
) -> Result<Result<Statement, Code>, AllocError>
    requires in_range { from ≤ length line.now }
    requires found { first ≡ token_at line.now from }
    ensures { IfOk result (λ found. Finds found (alone line.now (parsed line.now from))) }
{
    match parse(alloc, line, from, first) {
        Ok((ast, end)) => match code_behind(line, end) {
            None => Ok(Ok(ast)),
            Some(code) => Ok(Err(code)),
        },
        Err(ParseError::Syntax { .. }) => Ok(Err(Code::Syntax)),
        Err(ParseError::BadToken { .. }) => Ok(Err(Code::BadToken)),
        Err(ParseError::OutOfMemory) => Err(AllocError),
    }
}

/// The statement that stands in a line from an offset on, and where it ends.
fn parse(
    alloc: Global,
    line: &[u8],
    from: usize,
    first: Result<(Token, Span), Bad>,
) -> Result<(Statement, usize), ParseError>
    requires in_range { from ≤ length line.now }
    requires found { first ≡ token_at line.now from }
    ensures statement { Gives (λ found. (statement_of found.0, found.1)) result (parsed line.now from) }
    ensures within { IfOk result (λ found. found.1 ≤ length line.now) }
{
    parsing_moves_on();
    let mut room = Vec::new(alloc);
    parse_statement(alloc, line, from, first, &mut room)
}

/// Why a line is refused whose statement ends at this offset, if it is: something stands behind it.
fn code_behind(line: &[u8], end: usize) -> Option<Code>
    requires { end ≤ length line.now }
    ensures { result ≡ cause_behind (token_at line.now end) }
{
    match next(line, end) {
        Err(_) => Some(Code::BadToken),
        Ok((Token::End, _)) => None,
        Ok(_) => Some(Code::Syntax),
    }
}
