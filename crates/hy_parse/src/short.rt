// Short statements, read at once. Where pieces are no short statement, the rules of any are asked.

ghost use Rattle.std.specs.Prelude.{◌≡◌, ◌∷◌, [], Some, IfOk};
ghost use Rattle.hy_token.specs.declared.Span.{Span};
ghost use Rattle.hy_ast.specs.Trees.{Update, clause_of_short, selection_of_short, test_of_short};
ghost use Rattle.hy_parse.specs.Reading.{Done, changed_at, condition_at, items_at, selection_at, set_clause_at};

use crate::Piece;
use crate::cursor::{Halt, begins, name, spanned};
use crate::expressions::next_addition;
use hy_ast::{ShortSelection, ShortSet, ShortTest};
use hy_token::{Keyword, Sign, Span, Token};

const WHERE: Token = Token::Reserved(Keyword::Where);

/// WHERE with a short condition, which `;` follows.
#[inline(always)]
#[tactic(auto, using(crate::proofs::ShortForms::short_test))]
pub fn short_test(pieces: &[Piece]) -> Result<(ShortTest, &[Piece]), Halt>
    ensures { IfOk result (λ x. condition_at pieces.now ≡ Done (Some (test_of_short x.0)) x.1.now) }
{
    let (_, rest) = spanned(pieces, WHERE)?;
    let (column, rest) = name(rest)?;
    let (at, rest) = spanned(rest, Token::Sign(Sign::Equal))?;
    let (digits, rest) = spanned(rest, Token::Integer)?;
    if !begins(rest, Token::Sign(Sign::Semicolon)) {
        return Err(Halt::Stuck(rest));
    }
    Ok((ShortTest { column, at, digits }, rest))
}

/// A short assignment, which WHERE follows.
#[inline(always)]
#[tactic(auto, using(crate::proofs::ShortForms::short_set))]
pub fn short_set(pieces: &[Piece]) -> Result<(ShortSet, &[Piece]), Halt>
    ensures { IfOk result (λ x. items_at [] set_clause_at pieces.now ≡ Done (clause_of_short x.0 ∷ []) x.1.now) }
{
    let (column, rest) = name(pieces)?;
    let (_, rest) = spanned(rest, Token::Sign(Sign::Equal))?;
    let (left, rest) = name(rest)?;
    let Some((op, at, rest)) = next_addition(rest) else {
        return Err(Halt::Stuck(rest));
    };
    let (digits, rest) = spanned(rest, Token::Integer)?;
    if !begins(rest, WHERE) {
        return Err(Halt::Stuck(rest));
    }
    let set = ShortSet {
        column,
        left,
        op,
        at,
        digits,
    };
    Ok((set, rest))
}

/// A short assignment, and WHERE with a short condition.
#[inline(always)]
pub fn short_change(pieces: &[Piece]) -> Result<(ShortSet, ShortTest, &[Piece]), Halt>
    ensures { IfOk result (λ x. (table : Span) → changed_at table pieces.now
        ≡ Done (Update table (clause_of_short x.0 ∷ []) (Some (test_of_short x.1))) x.2.now) }
{
    let (set, rest) = short_set(pieces)?;
    let (test, rest) = short_test(rest)?;
    Ok((set, test, rest))
}

/// A SELECT of a column by a short condition on one table.
#[inline(always)]
#[tactic(auto, using(crate::proofs::ShortForms::short_selection))]
pub fn short_selection(pieces: &[Piece]) -> Result<(ShortSelection, &[Piece]), Halt>
    ensures { IfOk result (λ x. selection_at pieces.now ≡ Done (selection_of_short x.0) x.1.now) }
{
    let (column, rest) = name(pieces)?;
    let (_, rest) = spanned(rest, Token::Reserved(Keyword::From))?;
    let (table, rest) = name(rest)?;
    if !begins(rest, WHERE) {
        return Err(Halt::Stuck(rest));
    }
    let (test, rest) = short_test(rest)?;
    let short = ShortSelection {
        column,
        table,
        test,
    };
    Ok((short, rest))
}
