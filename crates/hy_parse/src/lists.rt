// Lists with commas between. Each function gives what it read and the pieces behind it.
// Each turn of a loop takes a piece, so that there are no more turns than pieces.

ghost use Rattle.std.specs.Prelude.{◌≡◌, List, [], ◌∷◌, ◌++◌};
ghost use Rattle.hy_parse.specs.declared.Piece.{Piece};
ghost use Rattle.hy_parse.specs.Reading.{Read, Gives, items_at, links_at, span_of};

use crate::Piece;
use crate::cursor::{Halt, next_span};
use hy_token::{Sign, Token};
use hy_value::Seq;

/// What may stand in a list.
pub trait Item: Copy {
    ghost read_at: { List Piece → Read Self };

    /// The item that comes first.
    fn read(pieces: &[Piece]) -> Result<(Self, &[Piece]), Halt>
        ensures { Gives (λ x. (x.0, x.1.now)) result (read_at pieces.now) };
}

/// An item and the others behind commas, after those before.
#[tactic(auto, unfolding(crate::specs::Reading::items_at))]
pub fn items<'a, T: Item>(
    mut items: Seq<T>,
    pieces: &'a [Piece],
) -> Result<(Seq<T>, &'a [Piece]), Halt<'a>>
    ensures { Gives (λ x. (x.0, x.1.now)) result (items_at items T.read_at pieces.now) }
{
    let (first, rest) = T::read(pieces)?;
    items.push(first)?;
    others(Token::Sign(Sign::Comma), items, rest)
}

/// The items that stand behind this token each, after those before.
pub fn others<'a, T: Item>(
    before: Token,
    mut items: Seq<T>,
    pieces: &'a [Piece],
) -> Result<(Seq<T>, &'a [Piece]), Halt<'a>>
    ensures { Gives (λ x. (x.0, x.1.now)) result
        (links_at (span_of before) (λ items _ item. items ++ item ∷ []) T.read_at items pieces.now) }
{
    let mut rest = pieces;
    for _ in 0..pieces.len() {
        let Some((_, behind)) = next_span(rest, before) else {
            return Ok((items, rest));
        };
        let (item, behind) = T::read(behind)?;
        items.push(item)?;
        rest = behind;
    }
    Ok((items, rest))
}
