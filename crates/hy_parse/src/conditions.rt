// Conditions. Each function gives what it read and the pieces behind it.
// Each turn of a loop takes a piece, so that there are no more turns than pieces.

ghost use Rattle.std.specs.Prelude.{◌≡◌};
ghost use Rattle.std.specs.Option.{option_map};
ghost use Rattle.hy_ast.specs.Trees.{test_of};
ghost use Rattle.hy_parse.specs.Reading.{Gives, cmp_of, comparison_of, is_null_at, compared_at, comparison_at, unit_at, conjunction_by, test_at, condition_at};

use crate::Piece;
use crate::cursor::{Halt, begins, expect, flag, next_span, spanned};
use crate::lists::Item;
use crate::operands::operand;
use hy_ast::{ColumnRef, Test};
use hy_limits::MOST_LEVELS;
use hy_token::{Keyword, Sign, Token};
use hy_value::Cmp;
use std::alloc::Global;

const AND: Token = Token::Reserved(Keyword::And);

const OR: Token = Token::Reserved(Keyword::Or);

const NOT: Token = Token::Reserved(Keyword::Not);

/// What a token compares by.
fn cmp_of(token: Token) -> Option<Cmp>
    ensures { result ≡ cmp_of token }
{
    match token {
        Token::Sign(Sign::Equal) => Some(Cmp::Eq),
        Token::Sign(Sign::NotEqual) => Some(Cmp::Ne),
        Token::Sign(Sign::Less) => Some(Cmp::Lt),
        Token::Sign(Sign::LessEqual) => Some(Cmp::Le),
        Token::Sign(Sign::Greater) => Some(Cmp::Gt),
        Token::Sign(Sign::GreaterEqual) => Some(Cmp::Ge),
        _ => None,
    }
}

/// IS NULL or IS NOT NULL behind a column.
#[tactic(auto, unfolding(crate::specs::Reading::is_null_at))]
fn is_null<'a>(column: ColumnRef, pieces: &'a [Piece]) -> Result<(Test, &'a [Piece]), Halt<'a>>
    ensures { Gives (λ x. (test_of x.0, x.1.now)) result (is_null_at column pieces.now) }
{
    let (at, rest) = spanned(pieces, Token::Reserved(Keyword::Is))?;
    let (negated, rest) = flag(rest, NOT, &[])?;
    let rest = expect(rest, &[Token::Reserved(Keyword::Null)])?;
    let condition = Test::IsNull {
        column,
        at,
        negated,
    };
    Ok((condition, rest))
}

/// A comparison and its right side behind a column.
#[inline(always)]
#[tactic(auto, unfolding(crate::specs::Reading::compared_at, crate::specs::Reading::piece_at))]
fn compared<'a>(left: ColumnRef, pieces: &'a [Piece]) -> Result<(Test, &'a [Piece]), Halt<'a>>
    ensures { Gives (λ x. (test_of x.0, x.1.now)) result (compared_at left pieces.now) }
{
    let [piece, rest @ ..] = pieces else {
        return Err(Halt::Stuck(pieces));
    };
    let Some(op) = cmp_of(piece.token) else {
        return Err(Halt::Stuck(pieces));
    };
    let (right, rest) = operand(rest)?;
    let condition = Test::Compare {
        left,
        op,
        at: piece.span,
        right,
    };
    Ok((condition, rest))
}

/// A column compared with a column or a literal, or tested for NULL.
#[inline(always)]
#[tactic(auto, unfolding(crate::specs::Reading::comparison_at))]
fn comparison(pieces: &[Piece]) -> Result<(Test, &[Piece]), Halt>
    ensures { Gives (λ x. (test_of x.0, x.1.now)) result (comparison_at pieces.now) }
{
    let (column, rest) = ColumnRef::read(pieces)?;
    if begins(rest, Token::Reserved(Keyword::Is)) {
        return is_null(column, rest);
    }
    compared(column, rest)
}

/// A chain of AND.
#[cycle(condition)]
#[tactic(auto, unfolding(crate::specs::Reading::conjunction_by))]
fn conjunction(alloc: Global, levels: u32, pieces: &[Piece]) -> Result<(Test, &[Piece]), Halt>
    ensures { Gives (λ x. (test_of x.0, x.1.now)) result (conjunction_by (unit_at levels) pieces.now) }
{
    let (mut left, mut rest) = unit(alloc, levels, pieces)?;
    for _ in 0..rest.len() {
        let Some((at, behind)) = next_span(rest, AND) else {
            return Ok((left, rest));
        };
        let (right, behind) = unit(alloc, levels, behind)?;
        left = Test::and(alloc, left, at, right)?;
        rest = behind;
    }
    Ok((left, rest))
}

/// A condition that opens at most this many levels at once: a chain of OR.
#[cycle(condition)]
#[tactic(auto, unfolding(crate::specs::Reading::test_by))]
fn condition(alloc: Global, levels: u32, pieces: &[Piece]) -> Result<(Test, &[Piece]), Halt>
    ensures { Gives (λ x. (test_of x.0, x.1.now)) result (test_at levels pieces.now) }
{
    let (mut left, mut rest) = conjunction(alloc, levels, pieces)?;
    for _ in 0..rest.len() {
        let Some((at, behind)) = next_span(rest, OR) else {
            return Ok((left, rest));
        };
        let (right, behind) = conjunction(alloc, levels, behind)?;
        left = Test::or(alloc, left, at, right)?;
        rest = behind;
    }
    Ok((left, rest))
}

/// NOT with its unit, a condition in parentheses, or a comparison. The first two open a level.
#[cycle(condition)]
#[tactic(auto, unfolding(crate::specs::Reading::unit_at))]
fn unit(alloc: Global, levels: u32, pieces: &[Piece]) -> Result<(Test, &[Piece]), Halt>
    ensures { Gives (λ x. (test_of x.0, x.1.now)) result (unit_at levels pieces.now) }
{
    if levels == 0 {
        return comparison(pieces);
    }
    if begins(pieces, NOT) {
        let (at, rest) = spanned(pieces, NOT)?;
        let (inner, rest) = unit(alloc, levels - 1, rest)?;
        let condition = Box::new(alloc, inner)?;
        return Ok((Test::Not { at, condition }, rest));
    }
    if begins(pieces, Token::Sign(Sign::LeftParen)) {
        let rest = expect(pieces, &[Token::Sign(Sign::LeftParen)])?;
        let (inner, rest) = condition(alloc, levels - 1, rest)?;
        let rest = expect(rest, &[Token::Sign(Sign::RightParen)])?;
        return Ok((Test::Nested(Box::new(alloc, inner)?), rest));
    }
    comparison(pieces)
}

/// WHERE and its condition, if it comes first.
#[tactic(auto, unfolding(crate::specs::Reading::condition_at))]
pub fn where_clause(alloc: Global, pieces: &[Piece]) -> Result<(Option<Test>, &[Piece]), Halt>
    ensures { Gives (λ x. (option_map test_of x.0, x.1.now)) result (condition_at pieces.now) }
{
    if !begins(pieces, Token::Reserved(Keyword::Where)) {
        return Ok((None, pieces));
    }
    let rest = expect(pieces, &[Token::Reserved(Keyword::Where)])?;
    let (condition, rest) = condition(alloc, MOST_LEVELS, rest)?;
    Ok((Some(condition), rest))
}
