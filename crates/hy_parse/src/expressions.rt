// Expressions and assignments. Each function gives what it read and the pieces behind it.
// Each turn of a loop takes a piece, so that there are no more turns than pieces.

ghost use Rattle.std.specs.Prelude.{◌≡◌, [], map};
ghost use Rattle.hy_ast.specs.Trees.{formula_of, set_clause_of};
ghost use Rattle.hy_parse.specs.Reading.{Gives, Sees, seen, addition_of, addition, plain_at, factor_at, term_by, formula_at, set_clause_at, items_at};

use crate::Piece;
use crate::cursor::{Halt, begins, expect, name, next_span};
use crate::operands::operand;
use hy_ast::{Formula, Operator, SetClause};
use hy_limits::MOST_LEVELS;
use hy_token::{Sign, Span, Token};
use hy_value::Seq;
use std::alloc::Global;

/// `+` or `-`.
fn addition_of(token: Token) -> Option<Operator>
    ensures { result ≡ addition_of token }
{
    match token {
        Token::Sign(Sign::Plus) => Some(Operator::Plus),
        Token::Sign(Sign::Minus) => Some(Operator::Minus),
        _ => None,
    }
}

/// A column or a literal.
#[inline(always)]
#[tactic(auto, unfolding(crate::specs::Reading::plain_at))]
fn plain(pieces: &[Piece]) -> Result<(Formula, &[Piece]), Halt>
    ensures { Gives (λ x. (formula_of x.0, x.1.now)) result (plain_at pieces.now) }
{
    let (operand, rest) = operand(pieces)?;
    Ok((Formula::Plain(operand), rest))
}

/// The next piece if it is `+` or `-`, and the pieces behind it.
pub fn next_addition(pieces: &[Piece]) -> Option<(Operator, Span, &[Piece])>
    ensures { Sees (λ x. ((x.0, x.1), x.2.now)) result (seen addition pieces.now) }
{
    let [piece, rest @ ..] = pieces else {
        return None;
    };
    let op = addition_of(piece.token)?;
    Some((op, piece.span, rest))
}

/// A chain of `*`.
#[inline(always)]
#[cycle(expression)]
#[tactic(auto, unfolding(crate::specs::Reading::term_by))]
fn term(alloc: Global, levels: u32, pieces: &[Piece]) -> Result<(Formula, &[Piece]), Halt>
    ensures { Gives (λ x. (formula_of x.0, x.1.now)) result (term_by (factor_at levels) pieces.now) }
{
    let (mut left, mut rest) = factor(alloc, levels, pieces)?;
    for _ in 0..rest.len() {
        let Some((at, behind)) = next_span(rest, Token::Sign(Sign::Star)) else {
            return Ok((left, rest));
        };
        let (right, behind) = factor(alloc, levels, behind)?;
        left = Formula::binary(alloc, left, Operator::Times, at, right)?;
        rest = behind;
    }
    Ok((left, rest))
}

/// An expression that opens at most this many levels at once: a chain of `+` and `-`.
#[cycle(expression)]
#[tactic(auto, unfolding(crate::specs::Reading::formula_by))]
fn expression(alloc: Global, levels: u32, pieces: &[Piece]) -> Result<(Formula, &[Piece]), Halt>
    ensures { Gives (λ x. (formula_of x.0, x.1.now)) result (formula_at levels pieces.now) }
{
    let (mut left, mut rest) = term(alloc, levels, pieces)?;
    for _ in 0..rest.len() {
        let Some((op, at, behind)) = next_addition(rest) else {
            return Ok((left, rest));
        };
        let (right, behind) = term(alloc, levels, behind)?;
        left = Formula::binary(alloc, left, op, at, right)?;
        rest = behind;
    }
    Ok((left, rest))
}

/// An expression in parentheses, which opens a level, a column or a literal.
#[inline(always)]
#[cycle(expression)]
#[tactic(auto, unfolding(crate::specs::Reading::factor_at))]
fn factor(alloc: Global, levels: u32, pieces: &[Piece]) -> Result<(Formula, &[Piece]), Halt>
    ensures { Gives (λ x. (formula_of x.0, x.1.now)) result (factor_at levels pieces.now) }
{
    if levels == 0 || !begins(pieces, Token::Sign(Sign::LeftParen)) {
        return plain(pieces);
    }
    let rest = expect(pieces, &[Token::Sign(Sign::LeftParen)])?;
    let (inner, rest) = expression(alloc, levels - 1, rest)?;
    let rest = expect(rest, &[Token::Sign(Sign::RightParen)])?;
    Ok((Formula::Bracket(Box::new(alloc, inner)?), rest))
}

/// An assignment.
#[inline(always)]
#[tactic(auto, unfolding(crate::specs::Reading::set_clause_at))]
fn assignment(alloc: Global, pieces: &[Piece]) -> Result<(SetClause, &[Piece]), Halt>
    ensures { Gives (λ x. (set_clause_of x.0, x.1.now)) result (set_clause_at pieces.now) }
{
    let (column, rest) = name(pieces)?;
    let rest = expect(rest, &[Token::Sign(Sign::Equal)])?;
    let (value, rest) = expression(alloc, MOST_LEVELS, rest)?;
    Ok((SetClause { column, value }, rest))
}

/// Assignments with commas between.
#[tactic(auto, unfolding(crate::specs::Reading::items_at))]
pub fn assignments(alloc: Global, pieces: &[Piece]) -> Result<(Seq<SetClause>, &[Piece]), Halt>
    ensures { Gives (λ x. (map set_clause_of x.0, x.1.now)) result (items_at [] set_clause_at pieces.now) }
{
    let (first, mut rest) = assignment(alloc, pieces)?;
    let mut sets = Seq::new(alloc);
    sets.push(first)?;
    for _ in 0..rest.len() {
        let Some((_, behind)) = next_span(rest, Token::Sign(Sign::Comma)) else {
            return Ok((sets, rest));
        };
        let (set, behind) = assignment(alloc, behind)?;
        sets.push(set)?;
        rest = behind;
    }
    Ok((sets, rest))
}
