// The next pieces. Each function gives what it read and the pieces behind it.

ghost use Rattle.std.specs.Prelude.{◌≡◌, Option, Some, None};
ghost use Rattle.hy_parse.specs.Reading.{Gives, Sees, seen, begins, after, flag_at, same, span_of, span_at, name_at};
ghost use Rattle.hy_parse.specs.declared.cursor.Halt.TheVariants.{OutOfMemory};

use crate::Piece;
use hy_token::{Span, Token};
use std::alloc::{AllocError, AllocFailed};

/// Why nothing was read.
#[derive(Clone, Copy)]
pub enum Halt<'a> {
    /// The first of these pieces does not fit, or no piece is left.
    Stuck(&'a [Piece]),
    /// There was not enough memory.
    OutOfMemory,
}

/// The pieces behind what is put into a place.
pub type Rest<'a> = Result<&'a [Piece], Halt<'a>>;

impl<'a> From<AllocError> for Halt<'a> {
    ghost from_gives = { λ _ e. e ≡ OutOfMemory };

    fn from(_error: AllocError) -> Halt<'a> {
        Halt::OutOfMemory
    }
}

impl<'a, T: Drop> From<AllocFailed<T>> for Halt<'a> {
    ghost from_gives = { λ _ e. e ≡ OutOfMemory };

    fn from(_failed: AllocFailed<T>) -> Halt<'a> {
        Halt::OutOfMemory
    }
}

/// Whether two tokens are the same.
pub fn is_same(a: Token, b: Token) -> bool
    ensures { result ≡ same a b }
{
    match (a, b) {
        (Token::Reserved(a), Token::Reserved(b)) => a == b,
        (Token::Sign(a), Token::Sign(b)) => a == b,
        (Token::Name, Token::Name) => true,
        (Token::Integer, Token::Integer) => true,
        (Token::Text, Token::Text) => true,
        (Token::End, Token::End) => true,
        _ => false,
    }
}

/// Whether the next piece is this token.
pub fn begins(pieces: &[Piece], token: Token) -> bool
    ensures { result ≡ begins token pieces.now }
{
    match pieces {
        [] => false,
        [piece, ..] => is_same(token, piece.token),
    }
}

/// The span of the next piece, if it is this token, and the pieces behind it.
pub fn next_span(pieces: &[Piece], token: Token) -> Option<(Span, &[Piece])>
    ensures { Sees (λ x. (x.0, x.1.now)) result (seen (span_of token) pieces.now) }
{
    match pieces {
        [piece, rest @ ..] if is_same(token, piece.token) => Some((piece.span, rest)),
        _ => None,
    }
}

/// The span of the next piece, which is this token.
#[tactic(auto, unfolding(crate::specs::Reading::piece_at))]
pub fn spanned(pieces: &[Piece], token: Token) -> Result<(Span, &[Piece]), Halt>
    ensures { Gives (λ x. (x.0, x.1.now)) result (span_at token pieces.now) }
{
    match next_span(pieces, token) {
        Some(found) => Ok(found),
        None => Err(Halt::Stuck(pieces)),
    }
}

/// A name.
pub fn name(pieces: &[Piece]) -> Result<(Span, &[Piece]), Halt>
    ensures { Gives (λ x. (x.0, x.1.now)) result (name_at pieces.now) }
{
    spanned(pieces, Token::Name)
}

/// The pieces behind these tokens, which are to come first.
pub fn expect<'a>(pieces: &'a [Piece], tokens: &[Token]) -> Result<&'a [Piece], Halt<'a>>
    ensures { Gives (λ rest. (tt, rest.now)) result (after tokens.now pieces.now) }
{
    let mut rest = pieces;
    for token in tokens {
        let (_, behind) = spanned(rest, *token)?;
        rest = behind;
    }
    Ok(rest)
}

/// Whether these tokens come first, as they must where the first of them does.
#[tactic(auto, unfolding(crate::specs::Reading::flag_at))]
pub fn flag<'a>(
    pieces: &'a [Piece],
    first: Token,
    others: &[Token],
) -> Result<(bool, &'a [Piece]), Halt<'a>>
    ensures { Gives (λ x. (x.0, x.1.now)) result (flag_at first others.now pieces.now) }
{
    if !begins(pieces, first) {
        return Ok((false, pieces));
    }
    let (_, rest) = spanned(pieces, first)?;
    let rest = expect(rest, others)?;
    Ok((true, rest))
}
