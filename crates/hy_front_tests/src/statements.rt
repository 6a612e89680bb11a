//! Tokens, the end of a statement or the first token that doesn't fit, and the catalog.

use hy_parse::{ParseError, parse_statement};
use hy_schema::{AddError, Catalog, Column, TableDef};
use hy_token::{Bad, Keyword, Sign, Span, Token};
use hy_value::{Kind, Seq, Text};
use std::alloc::Global;
use std::test::Fail;

#[test]
fn tokens_are_found(rt: HostRuntime) {
    assert_eq!(rt;
        hy_token::next(b"  <= 5", 0),
        Ok((Token::Sign(Sign::LessEqual), Span { start: 2, end: 4 }))
    );
    assert_eq!(rt; hy_token::next(b"#", 0), Err(Bad { at: 0 }));
    assert_eq!(rt;
        hy_token::next(b"", 0),
        Ok((Token::End, Span { start: 0, end: 0 }))
    );
    assert_eq!(rt;
        hy_token::next(b"-- x\n sElEcT", 0),
        Ok((Token::Reserved(Keyword::Select), Span { start: 6, end: 12 }))
    );
    assert_eq!(rt;
        hy_token::next(b"'it''s'x", 0),
        Ok((Token::Text, Span { start: 0, end: 7 }))
    );
    assert_eq!(rt; hy_token::next(b"'it", 0), Err(Bad { at: 0 }));
    assert_eq!(rt;
        hy_token::next(b"007a", 0),
        Ok((Token::Integer, Span { start: 0, end: 3 }))
    );
}

/// Where a statement ends or what is wrong with it: 0 for its end, 1 for a token that doesn't fit, 2 for a bad
/// one.
fn stop_of(alloc: Global, text: &str) -> (u8, usize) {
    let bytes = text.as_bytes();
    match parse_statement(
        alloc,
        bytes,
        0,
        hy_token::next(bytes, 0),
        &mut Vec::new(alloc),
    ) {
        Ok((_, end)) => (0, end),
        Err(ParseError::Syntax { at }) => (1, at),
        Err(ParseError::BadToken { at }) => (2, at),
        Err(ParseError::OutOfMemory) => (3, 0),
    }
}

#[test]
fn statements_are_parsed(rt: HostRuntime) {
    for (text, stop) in [
        ("DELETE FROM t;", (0, 14)),
        ("DELETE t;", (1, 7)),
        ("DELETE FROM #", (2, 12)),
        ("DELETE FROM", (1, 11)),
        ("SELECT COUNT(*) FROM t JOIN u ON a = b;", (1, 23)),
        ("SELECT a, SUM(b) FROM t WHERE a = 'x' GROUP BY a;", (0, 49)),
        ("SELECT a, COUNT(*) FROM t;", (1, 25)),
        (
            "UPDATE t SET a = a * (b + 2) - 3, b = NULL WHERE a > 2;",
            (0, 55),
        ),
        ("INSERT INTO t VALUES (1, 'a', NULL, -4);", (0, 40)),
        ("SCHEDULE ! ;", (1, 9)),
    ] {
        assert_eq!(rt; stop_of(rt.alloc(), text), stop, "{text}");
    }
}

/// A table of this name with one column, its key.
fn keyed(alloc: Global, name: &[u8]) -> Result<TableDef, Fail> {
    let mut columns = Seq::new(alloc);
    columns.push(Column {
        name: Text::new(alloc, "id")?,
        kind: Kind::Int,
    })?;
    Ok(TableDef {
        name: Text::from_bytes(alloc, name)?,
        columns,
        key: Some(0),
    })
}

#[test]
fn a_catalog_numbers_its_tables(rt: HostRuntime) -> Result<(), Fail> {
    let alloc = rt.alloc();
    let mut catalog = Catalog::new(alloc);
    for letter in b"abcdefghijklmnop" {
        assert!(rt; catalog.add(alloc, keyed(alloc, &[*letter])?).is_ok());
    }
    assert!(rt;
        matches!(
            catalog.add(alloc, keyed(alloc, b"p")?),
            Err(AddError::Duplicate)
        )
    );
    assert!(rt;
        matches!(
            catalog.add(alloc, keyed(alloc, b"q")?),
            Err(AddError::Limit)
        )
    );
    assert_eq!(rt; catalog.find(b"a"), Some(0));
    assert_eq!(rt; catalog.find(b"p"), Some(15));
    assert_eq!(rt; catalog.find(b"q"), None);
    Ok(())
}
