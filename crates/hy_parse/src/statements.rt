// Statements. Each function gives what it read and the pieces behind it.

ghost use Rattle.std.specs.Prelude.{◌≡◌, [], ◌∷◌};
ghost use Rattle.hy_ast.specs.Trees as tree;
ghost use Rattle.hy_ast.specs.Trees.{statement_of};
ghost use Rattle.hy_token.specs.declared.Keyword.TheVariants as words;
ghost use Rattle.hy_parse.specs.Reading.{Gives, piece_at, kind_of, column_def_at, create_at, insert_at, session_at, begin_at};
ghost use Rattle.hy_parse.specs.Reading.{alone_at, changed_at, select_at, selected, selection_at, release_at};
ghost use Rattle.hy_parse.specs.Reading.{savepoint_at, back_at, rollback_at, update_at, delete_at, turns_at, schedule_at, body_at, read_statement};

use crate::Piece;
use crate::conditions::where_clause;
use crate::cursor::{Halt, Rest, begins, expect, flag, name, next_span};
use crate::expressions::assignments;
use crate::lists::{Item, items};
use crate::queries::{from_table, query};
use crate::short::{short_change, short_selection};
use hy_ast::{ColumnDef, Statement, Turn};
use hy_token::{Keyword, Sign, Span, Token};
use hy_value::{Kind, Seq};
use std::alloc::Global;

const CREATE: Token = Token::Reserved(Keyword::Create);

const INSERT: Token = Token::Reserved(Keyword::Insert);

const KEY: Token = Token::Reserved(Keyword::Key);

const ONLY: Token = Token::Reserved(Keyword::Only);

const LEFT_PAREN: Token = Token::Sign(Sign::LeftParen);

const RIGHT_PAREN: Token = Token::Sign(Sign::RightParen);

/// INT or TEXT.
fn kind_of(piece: Piece) -> Option<Kind>
    ensures { result ≡ kind_of piece }
{
    match piece.token {
        Token::Reserved(Keyword::Int) => Some(Kind::Int),
        Token::Reserved(Keyword::Text) => Some(Kind::Str),
        _ => None,
    }
}

/// The type of a column.
#[tactic(auto, unfolding(crate::specs::Reading::piece_at))]
fn kind(pieces: &[Piece]) -> Result<(Kind, &[Piece]), Halt>
    ensures { Gives (λ x. (x.0, x.1.now)) result (piece_at kind_of pieces.now) }
{
    let [piece, rest @ ..] = pieces else {
        return Err(Halt::Stuck(pieces));
    };
    match kind_of(*piece) {
        Some(kind) => Ok((kind, rest)),
        None => Err(Halt::Stuck(pieces)),
    }
}

/// A column of a new table.
impl Item for ColumnDef {
    ghost read_at = { column_def_at };

    #[tactic(auto, unfolding(crate::specs::Reading::column_def_at))]
    fn read(pieces: &[Piece]) -> Result<(ColumnDef, &[Piece]), Halt> {
        let (name, rest) = name(pieces)?;
        let (kind, rest) = kind(rest)?;
        let (key, rest) = flag(rest, Token::Reserved(Keyword::Primary), &[KEY])?;
        Ok((ColumnDef { name, kind, key }, rest))
    }
}

/// CREATE TABLE.
#[tactic(auto, unfolding(crate::specs::Reading::create_at))]
fn create<'a>(alloc: Global, pieces: &'a [Piece], into: &mut Statement) -> Rest<'a>
    ensures { Gives (λ rest. (statement_of into.new, rest.now)) result (create_at pieces.now) }
{
    let rest = expect(pieces, &[CREATE, Token::Reserved(Keyword::Table)])?;
    let (table, rest) = name(rest)?;
    let rest = expect(rest, &[LEFT_PAREN])?;
    let (columns, rest) = items(Seq::new(alloc), rest)?;
    *into = Statement::Create { table, columns };
    expect(rest, &[RIGHT_PAREN])
}

/// INSERT INTO.
#[tactic(auto, unfolding(crate::specs::Reading::insert_at))]
fn insert<'a>(alloc: Global, pieces: &'a [Piece], into: &mut Statement) -> Rest<'a>
    ensures { Gives (λ rest. (statement_of into.new, rest.now)) result (insert_at pieces.now) }
{
    let rest = expect(pieces, &[INSERT, Token::Reserved(Keyword::Into)])?;
    let (table, rest) = name(rest)?;
    let rest = expect(rest, &[Token::Reserved(Keyword::Values), LEFT_PAREN])?;
    let (values, rest) = items(Seq::new(alloc), rest)?;
    *into = Statement::Insert { table, values };
    expect(rest, &[RIGHT_PAREN])
}

/// SESSION.
#[tactic(auto, unfolding(crate::specs::Reading::session_at))]
fn session<'a>(pieces: &'a [Piece], into: &mut Statement) -> Rest<'a>
    ensures { Gives (λ rest. (statement_of into.new, rest.now)) result (session_at pieces.now) }
{
    let rest = expect(pieces, &[Token::Reserved(Keyword::Session)])?;
    let (name, rest) = name(rest)?;
    *into = Statement::Session { name };
    Ok(rest)
}

/// BEGIN.
#[tactic(auto, unfolding(crate::specs::Reading::begin_at))]
fn begin<'a>(pieces: &'a [Piece], into: &mut Statement) -> Rest<'a>
    ensures { Gives (λ rest. (statement_of into.new, rest.now)) result (begin_at pieces.now) }
{
    let rest = expect(pieces, &[Token::Reserved(Keyword::Begin)])?;
    let (read_only, rest) = flag(rest, Token::Reserved(Keyword::Read), &[ONLY])?;
    *into = Statement::Begin { read_only };
    Ok(rest)
}

/// COMMIT.
#[tactic(auto, unfolding(crate::specs::Reading::alone_at))]
fn commit<'a>(pieces: &'a [Piece], into: &mut Statement) -> Rest<'a>
    ensures { Gives (λ rest. (statement_of into.new, rest.now)) result (alone_at words.Commit tree.Commit pieces.now) }
{
    *into = Statement::Commit;
    expect(pieces, &[Token::Reserved(Keyword::Commit)])
}

/// END.
#[tactic(auto, unfolding(crate::specs::Reading::alone_at))]
fn end<'a>(pieces: &'a [Piece], into: &mut Statement) -> Rest<'a>
    ensures { Gives (λ rest. (statement_of into.new, rest.now)) result (alone_at words.End tree.End pieces.now) }
{
    *into = Statement::End;
    expect(pieces, &[Token::Reserved(Keyword::End)])
}

/// SAVEPOINT.
#[tactic(auto, unfolding(crate::specs::Reading::savepoint_at))]
fn savepoint<'a>(pieces: &'a [Piece], into: &mut Statement) -> Rest<'a>
    ensures { Gives (λ rest. (statement_of into.new, rest.now)) result (savepoint_at pieces.now) }
{
    let rest = expect(pieces, &[Token::Reserved(Keyword::Savepoint)])?;
    let (name, rest) = name(rest)?;
    *into = Statement::Savepoint { name };
    Ok(rest)
}

/// RELEASE.
#[tactic(auto, unfolding(crate::specs::Reading::release_at))]
fn release<'a>(pieces: &'a [Piece], into: &mut Statement) -> Rest<'a>
    ensures { Gives (λ rest. (statement_of into.new, rest.now)) result (release_at pieces.now) }
{
    let rest = expect(pieces, &[Token::Reserved(Keyword::Release)])?;
    let (name, rest) = name(rest)?;
    *into = Statement::Release { name };
    Ok(rest)
}

/// What follows ROLLBACK: TO and the name of a savepoint, or nothing.
#[tactic(auto, unfolding(crate::specs::Reading::back_at))]
fn back<'a>(pieces: &'a [Piece], into: &mut Statement) -> Rest<'a>
    ensures { Gives (λ rest. (statement_of into.new, rest.now)) result (back_at pieces.now) }
{
    if !begins(pieces, Token::Reserved(Keyword::To)) {
        *into = Statement::Rollback;
        return Ok(pieces);
    }
    let rest = expect(pieces, &[Token::Reserved(Keyword::To)])?;
    let (name, rest) = name(rest)?;
    *into = Statement::RollbackTo { name };
    Ok(rest)
}

/// ROLLBACK, or ROLLBACK TO.
#[tactic(auto, unfolding(crate::specs::Reading::rollback_at))]
fn rollback<'a>(pieces: &'a [Piece], into: &mut Statement) -> Rest<'a>
    ensures { Gives (λ rest. (statement_of into.new, rest.now)) result (rollback_at pieces.now) }
{
    let rest = expect(pieces, &[Token::Reserved(Keyword::Rollback)])?;
    back(rest, into)
}

/// What follows SELECT. Most are short, and read without what lists ask for.
fn selection<'a>(alloc: Global, pieces: &'a [Piece], into: &mut Statement) -> Rest<'a>
    ensures { Gives (λ rest. (statement_of into.new, rest.now)) result (selected (selection_at pieces.now)) }
{
    if let Ok((short, rest)) = short_selection(pieces) {
        *into = Statement::ShortSelect(short);
        return Ok(rest);
    }
    query(alloc, pieces, into)
}

/// SELECT.
#[tactic(auto, unfolding(crate::specs::Reading::select_at))]
fn select<'a>(alloc: Global, pieces: &'a [Piece], into: &mut Statement) -> Rest<'a>
    ensures { Gives (λ rest. (statement_of into.new, rest.now)) result (select_at pieces.now) }
{
    let rest = expect(pieces, &[Token::Reserved(Keyword::Select)])?;
    selection(alloc, rest, into)
}

/// What follows SET of an UPDATE of this table. Most are short, and read without what lists ask for.
fn changed<'a>(alloc: Global, table: Span, pieces: &'a [Piece], into: &mut Statement) -> Rest<'a>
    ensures { Gives (λ rest. (statement_of into.new, rest.now)) result (changed_at table pieces.now) }
{
    if let Ok((set, test, rest)) = short_change(pieces) {
        *into = Statement::ShortUpdate { table, set, test };
        return Ok(rest);
    }
    let (sets, rest) = assignments(alloc, pieces)?;
    let (condition, rest) = where_clause(alloc, rest)?;
    *into = Statement::Update {
        table,
        sets,
        condition,
    };
    Ok(rest)
}

/// UPDATE.
#[tactic(auto, unfolding(crate::specs::Reading::update_at))]
fn update<'a>(alloc: Global, pieces: &'a [Piece], into: &mut Statement) -> Rest<'a>
    ensures { Gives (λ rest. (statement_of into.new, rest.now)) result (update_at pieces.now) }
{
    let rest = expect(pieces, &[Token::Reserved(Keyword::Update)])?;
    let (table, rest) = name(rest)?;
    let rest = expect(rest, &[Token::Reserved(Keyword::Set)])?;
    changed(alloc, table, rest, into)
}

/// DELETE FROM.
#[tactic(auto, unfolding(crate::specs::Reading::delete_at))]
fn delete<'a>(alloc: Global, pieces: &'a [Piece], into: &mut Statement) -> Rest<'a>
    ensures { Gives (λ rest. (statement_of into.new, rest.now)) result (delete_at pieces.now) }
{
    let rest = expect(pieces, &[Token::Reserved(Keyword::Delete)])?;
    let (table, rest) = from_table(rest)?;
    let (condition, rest) = where_clause(alloc, rest)?;
    *into = Statement::Delete { table, condition };
    Ok(rest)
}

/// The turns of a schedule.
fn turns(alloc: Global, pieces: &[Piece]) -> Result<(Seq<Turn>, &[Piece]), Halt>
    ensures { Gives (λ x. (x.0, x.1.now)) result (turns_at pieces.now) }
{
    let mut turns = Seq::new(alloc);
    let mut rest = pieces;
    // Each turn takes a piece.
    for _ in 0..pieces.len() {
        let Some((session, behind)) = next_span(rest, Token::Name) else {
            return Ok((turns, rest));
        };
        let (whole, behind) = flag(behind, Token::Sign(Sign::Bang), &[])?;
        turns.push(Turn { session, whole })?;
        rest = behind;
    }
    Ok((turns, rest))
}

/// SCHEDULE.
#[tactic(auto, unfolding(crate::specs::Reading::schedule_at))]
fn schedule<'a>(alloc: Global, pieces: &'a [Piece], into: &mut Statement) -> Rest<'a>
    ensures { Gives (λ rest. (statement_of into.new, rest.now)) result (schedule_at pieces.now) }
{
    let rest = expect(pieces, &[Token::Reserved(Keyword::Schedule)])?;
    let (turns, rest) = turns(alloc, rest)?;
    *into = Statement::Schedule { turns };
    Ok(rest)
}

/// A statement up to its `;`.
#[tactic(auto, unfolding(crate::specs::Reading::body_at))]
fn body<'a>(alloc: Global, pieces: &'a [Piece], into: &mut Statement) -> Rest<'a>
    ensures { Gives (λ rest. (statement_of into.new, rest.now)) result (body_at pieces.now) }
{
    let [piece, ..] = pieces else {
        return end(pieces, into);
    };
    match piece.token {
        Token::Reserved(Keyword::Create) => create(alloc, pieces, into),
        Token::Reserved(Keyword::Insert) => insert(alloc, pieces, into),
        Token::Reserved(Keyword::Session) => session(pieces, into),
        Token::Reserved(Keyword::Begin) => begin(pieces, into),
        Token::Reserved(Keyword::Commit) => commit(pieces, into),
        Token::Reserved(Keyword::Rollback) => rollback(pieces, into),
        Token::Reserved(Keyword::Select) => select(alloc, pieces, into),
        Token::Reserved(Keyword::Update) => update(alloc, pieces, into),
        Token::Reserved(Keyword::Delete) => delete(alloc, pieces, into),
        Token::Reserved(Keyword::Schedule) => schedule(alloc, pieces, into),
        Token::Reserved(Keyword::Savepoint) => savepoint(pieces, into),
        Token::Reserved(Keyword::Release) => release(pieces, into),
        _ => end(pieces, into),
    }
}

/// Puts a statement with its `;` where the caller has room for it, since it is large to hand on.
#[tactic(auto, unfolding(crate::specs::Reading::read_statement))]
pub fn statement<'a>(alloc: Global, pieces: &'a [Piece], into: &mut Statement) -> Rest<'a>
    ensures { Gives (λ rest. (statement_of into.new, rest.now)) result (read_statement pieces.now) }
{
    let rest = body(alloc, pieces, into)?;
    expect(rest, &[Token::Sign(Sign::Semicolon)])
}
