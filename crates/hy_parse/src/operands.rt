// Columns, literals and operands. Each function gives what it read and the pieces behind it.

ghost use Rattle.std.specs.Prelude.{◌≡◌};
ghost use Rattle.hy_parse.specs.Reading.{Gives, column_at, literal_at, negative_at, literal_of, operand_at};

use crate::Piece;
use crate::cursor::{Halt, begins, expect, name, spanned};
use crate::lists::Item;
use hy_ast::{ColumnRef, Literal, Operand, unqualified};
use hy_token::{Keyword, Sign, Token};

const DOT: Token = Token::Sign(Sign::Dot);

/// A column, with its table or without.
impl Item for ColumnRef {
    ghost read_at = { column_at };

    #[tactic(auto, unfolding(crate::specs::Reading::column_at))]
    fn read(pieces: &[Piece]) -> Result<(ColumnRef, &[Piece]), Halt> {
        let (first, rest) = name(pieces)?;
        if !begins(rest, DOT) {
            return Ok((unqualified(first), rest));
        }
        let rest = expect(rest, &[DOT])?;
        let (column, rest) = name(rest)?;
        let table = Some(first);
        Ok((ColumnRef { table, column }, rest))
    }
}

/// An integer behind a minus.
#[tactic(auto, unfolding(crate::specs::Reading::negative_at))]
fn negative(pieces: &[Piece]) -> Result<(Literal, &[Piece]), Halt>
    ensures { Gives (λ x. (x.0, x.1.now)) result (negative_at pieces.now) }
{
    let (minus, rest) = spanned(pieces, Token::Sign(Sign::Minus))?;
    let (digits, rest) = spanned(rest, Token::Integer)?;
    let literal = Literal::Integer {
        minus: Some(minus),
        digits,
    };
    Ok((literal, rest))
}

/// The literal of one piece.
fn literal_of(piece: Piece) -> Option<Literal>
    ensures { result ≡ literal_of piece }
{
    match piece.token {
        Token::Integer => Some(Literal::Integer {
            minus: None,
            digits: piece.span,
        }),
        Token::Text => Some(Literal::Text(piece.span)),
        Token::Reserved(Keyword::Null) => Some(Literal::Null(piece.span)),
        _ => None,
    }
}

/// A literal.
impl Item for Literal {
    ghost read_at = { literal_at };

    #[inline(always)]
    #[tactic(auto, unfolding(crate::specs::Reading::literal_at, crate::specs::Reading::piece_at))]
    fn read(pieces: &[Piece]) -> Result<(Literal, &[Piece]), Halt> {
        if begins(pieces, Token::Sign(Sign::Minus)) {
            return negative(pieces);
        }
        let [piece, rest @ ..] = pieces else {
            return Err(Halt::Stuck(pieces));
        };
        match literal_of(*piece) {
            Some(literal) => Ok((literal, rest)),
            None => Err(Halt::Stuck(pieces)),
        }
    }
}

/// A column or a literal.
#[inline(always)]
#[tactic(auto, unfolding(crate::specs::Reading::operand_at))]
pub fn operand(pieces: &[Piece]) -> Result<(Operand, &[Piece]), Halt>
    ensures { Gives (λ x. (x.0, x.1.now)) result (operand_at pieces.now) }
{
    if begins(pieces, Token::Name) {
        let (column, rest) = ColumnRef::read(pieces)?;
        return Ok((Operand::Column(column), rest));
    }
    let (literal, rest) = Literal::read(pieces)?;
    Ok((Operand::Literal(literal), rest))
}
