// The pieces of a statement.

ghost use Rattle.std.specs.Prelude.{◌≡◌, ◌≤◌, length, IfOk};
ghost use Rattle.hy_token.specs.Token.{token_at};
ghost use Rattle.hy_parse.specs.Pieces.{most_pieces, pieces_of};

use crate::cursor::is_same;
use crate::{Ending, Piece};
use hy_limits::MOST_TOKENS;
use hy_token::{Bad, Keyword, Sign, Span, Token, next, tokens_move_on};
use std::alloc::AllocError;

/// The most pieces that a statement may have in a script of this length, by its first token. No script
/// has more tokens than bytes.
#[tactic(auto, unfolding(crate::specs::Pieces::most_pieces))]
fn most_pieces(len: usize, first: Result<(Token, Span), Bad>) -> usize
    ensures { result ≡ most_pieces len first }
{
    match first {
        Ok((Token::Reserved(Keyword::Schedule), _)) => len,
        _ => MOST_TOKENS,
    }
}

/// Puts the pieces of the statement that begins at the first token from `at` on, which is `first`, in place of
/// those that are there, and gives what follows them.
#[inline(never)]
pub fn pieces(
    bytes: &[u8],
    at: usize,
    first: Result<(Token, Span), Bad>,
    pieces: &mut Vec<Piece>,
) -> Result<Ending, AllocError>
    requires in_range { at ≤ length bytes.now }
    requires found { first ≡ token_at bytes.now at }
    ensures { IfOk result (λ ending. (pieces.new.items ≡ (pieces_of bytes.now at).pieces) × (ending ≡ (pieces_of bytes.now at).ending)) }
{
    tokens_move_on();
    pieces.clear();
    let mut found = match first {
        Ok(found) => found,
        Err(bad) => return Ok(Ending::Bad { at: bad.at }),
    };
    for _ in 0..most_pieces(bytes.len(), first) {
        let (token, span) = found;
        if is_same(Token::End, token) {
            return Ok(Ending::Cut { at: span.start });
        }
        pieces.push(Piece { token, span })?;
        if is_same(Token::Sign(Sign::Semicolon), token) {
            return Ok(Ending::Closed { at: span.end });
        }
        found = match next(bytes, span.end) {
            Ok(found) => found,
            Err(bad) => return Ok(Ending::Bad { at: bad.at }),
        };
    }
    Ok(Ending::Cut { at: found.1.start })
}
