// SELECT. Each function gives what it read and the pieces behind it.

ghost use Rattle.std.specs.Prelude.{◌≡◌};
ghost use Rattle.hy_ast.specs.Trees.{statement_of};
ghost use Rattle.hy_parse.specs.Reading.{Gives, sum_at, from_at, joined_at, joins_at, rows_at, count_at};
ghost use Rattle.hy_parse.specs.Reading.{groups_at, second_at, columns_at, selection_at, selected};

use crate::Piece;
use crate::conditions::where_clause;
use crate::cursor::{Halt, Rest, begins, expect, name};
use crate::lists::{Item, items, others};
use hy_ast::{ColumnRef, Join, Listed, Selection, Statement, Total};
use hy_token::{Keyword, Sign, Span, Token};
use hy_value::Seq;
use std::alloc::Global;

const COUNT: Token = Token::Reserved(Keyword::Count);

const GROUP: Token = Token::Reserved(Keyword::Group);

const SUM: Token = Token::Reserved(Keyword::Sum);

/// `COUNT ( * )`.
const COUNT_OF_ALL: [Token; 4] = [
    COUNT,
    Token::Sign(Sign::LeftParen),
    Token::Sign(Sign::Star),
    Token::Sign(Sign::RightParen),
];

/// SUM of a column.
#[tactic(auto, unfolding(crate::specs::Reading::sum_at))]
fn sum(pieces: &[Piece]) -> Result<(ColumnRef, &[Piece]), Halt>
    ensures { Gives (λ x. (x.0, x.1.now)) result (sum_at pieces.now) }
{
    let rest = expect(pieces, &[SUM, Token::Sign(Sign::LeftParen)])?;
    let (column, rest) = ColumnRef::read(rest)?;
    let rest = expect(rest, &[Token::Sign(Sign::RightParen)])?;
    Ok((column, rest))
}

/// FROM and the table.
#[tactic(auto, unfolding(crate::specs::Reading::from_at))]
pub fn from_table(pieces: &[Piece]) -> Result<(Span, &[Piece]), Halt>
    ensures { Gives (λ x. (x.0, x.1.now)) result (from_at pieces.now) }
{
    let rest = expect(pieces, &[Token::Reserved(Keyword::From)])?;
    name(rest)
}

/// What follows JOIN.
impl Item for Join {
    ghost read_at = { joined_at };

    #[tactic(auto, unfolding(crate::specs::Reading::joined_at))]
    fn read(pieces: &[Piece]) -> Result<(Join, &[Piece]), Halt> {
        let (table, rest) = name(pieces)?;
        let rest = expect(rest, &[Token::Reserved(Keyword::On)])?;
        let (left, rest) = ColumnRef::read(rest)?;
        let rest = expect(rest, &[Token::Sign(Sign::Equal)])?;
        let (right, rest) = ColumnRef::read(rest)?;
        Ok((Join { table, left, right }, rest))
    }
}

/// The tables that are joined.
fn joins(alloc: Global, pieces: &[Piece]) -> Result<(Seq<Join>, &[Piece]), Halt>
    ensures { Gives (λ x. (x.0, x.1.now)) result (joins_at pieces.now) }
{
    others(Token::Reserved(Keyword::Join), Seq::new(alloc), pieces)
}

/// What follows the items of a SELECT of rows.
#[tactic(auto, unfolding(crate::specs::Reading::rows_at))]
fn rows<'a>(alloc: Global, listed: Listed, pieces: &'a [Piece], into: &mut Statement) -> Rest<'a>
    ensures { Gives (λ rest. (statement_of into.new, rest.now)) result (selected (rows_at listed pieces.now)) }
{
    let (table, rest) = from_table(pieces)?;
    let (joins, rest) = joins(alloc, rest)?;
    let (condition, rest) = where_clause(alloc, rest)?;
    *into = Statement::Select(Selection::Rows {
        listed,
        table,
        joins,
        condition,
    });
    Ok(rest)
}

/// A count of the rows of a table.
#[tactic(auto, unfolding(crate::specs::Reading::count_at))]
fn count<'a>(alloc: Global, pieces: &'a [Piece], into: &mut Statement) -> Rest<'a>
    ensures { Gives (λ rest. (statement_of into.new, rest.now)) result (selected (count_at pieces.now)) }
{
    let rest = expect(pieces, &COUNT_OF_ALL)?;
    let (table, rest) = from_table(rest)?;
    let (condition, rest) = where_clause(alloc, rest)?;
    *into = Statement::Select(Selection::Count { table, condition });
    Ok(rest)
}

/// What follows the items of a SELECT of groups.
#[tactic(auto, unfolding(crate::specs::Reading::groups_at))]
fn groups<'a>(
    alloc: Global,
    listed: ColumnRef,
    total: Total,
    pieces: &'a [Piece],
    into: &mut Statement,
) -> Rest<'a>
    ensures { Gives (λ rest. (statement_of into.new, rest.now)) result (selected (groups_at listed total pieces.now)) }
{
    let (table, rest) = from_table(pieces)?;
    let (condition, rest) = where_clause(alloc, rest)?;
    let rest = expect(rest, &[GROUP, Token::Reserved(Keyword::By)])?;
    let (key, rest) = ColumnRef::read(rest)?;
    *into = Statement::Select(Selection::Groups {
        column: listed,
        total,
        table,
        condition,
        key,
    });
    Ok(rest)
}

/// What follows a first column and a comma.
#[tactic(auto, unfolding(crate::specs::Reading::second_at))]
fn second<'a>(
    alloc: Global,
    column: ColumnRef,
    pieces: &'a [Piece],
    into: &mut Statement,
) -> Rest<'a>
    ensures { Gives (λ rest. (statement_of into.new, rest.now)) result (selected (second_at column pieces.now)) }
{
    if begins(pieces, COUNT) {
        let rest = expect(pieces, &COUNT_OF_ALL)?;
        return groups(alloc, column, Total::Count, rest, into);
    }
    if begins(pieces, SUM) {
        let (summed, rest) = sum(pieces)?;
        return groups(alloc, column, Total::Sum(summed), rest, into);
    }
    let first = Seq::from_slice(alloc, &[column])?;
    let (columns, rest) = items(first, pieces)?;
    rows(alloc, Listed::Columns(columns), rest, into)
}

/// A SELECT that lists a column first.
#[tactic(auto, unfolding(crate::specs::Reading::columns_at))]
fn columns<'a>(alloc: Global, pieces: &'a [Piece], into: &mut Statement) -> Rest<'a>
    ensures { Gives (λ rest. (statement_of into.new, rest.now)) result (selected (columns_at pieces.now)) }
{
    let (column, rest) = ColumnRef::read(pieces)?;
    if begins(rest, Token::Sign(Sign::Comma)) {
        let rest = expect(rest, &[Token::Sign(Sign::Comma)])?;
        return second(alloc, column, rest, into);
    }
    let only = Seq::from_slice(alloc, &[column])?;
    rows(alloc, Listed::Columns(only), rest, into)
}

/// What follows SELECT.
#[tactic(auto, unfolding(crate::specs::Reading::selection_at))]
pub fn query<'a>(alloc: Global, pieces: &'a [Piece], into: &mut Statement) -> Rest<'a>
    ensures { Gives (λ rest. (statement_of into.new, rest.now)) result (selected (selection_at pieces.now)) }
{
    if begins(pieces, Token::Sign(Sign::Star)) {
        let rest = expect(pieces, &[Token::Sign(Sign::Star)])?;
        return rows(alloc, Listed::All, rest, into);
    }
    if begins(pieces, SUM) {
        let (column, rest) = sum(pieces)?;
        return rows(alloc, Listed::Sum(column), rest, into);
    }
    if begins(pieces, COUNT) {
        return count(alloc, pieces, into);
    }
    columns(alloc, pieces, into)
}
