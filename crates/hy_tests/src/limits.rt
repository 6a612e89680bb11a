//! What a script may have at most, at each limit and one beyond.

use crate::refusals::{checks, says, written};
use std::alloc::{AllocError, Global};
use std::sync::Wait;
use std::test::Fail;
use std::thread::Threads;

/// What `check` writes for a table, a session and a transaction.
const ONE_OF_EACH: &str = "ok tables 1 rows 0 sessions 1 transactions 1 items 0\n";

/// A text with a piece so many times in the middle.
fn repeated(
    alloc: Global,
    head: &str,
    piece: &str,
    times: usize,
    tail: &str,
) -> Result<String, AllocError> {
    let mut text = String::from_str(alloc, head)?;
    for _ in 0..times {
        text.push_str(piece)?;
    }
    text.push_str(tail)?;
    Ok(text)
}

/// A text with so many pieces in the middle, each with its number, from 0, between these two texts.
fn numbered(
    alloc: Global,
    head: &str,
    piece: (&str, &str),
    times: u32,
    tail: &str,
) -> Result<String, AllocError> {
    let (before, after) = piece;
    let mut text = String::from_str(alloc, head)?;
    for number in 0..times {
        let middle = format!(in alloc; "{before}{number}{after}")?;
        text.push_str(middle.as_str())?;
    }
    text.push_str(tail)?;
    Ok(text)
}

/// Whether so many pieces are the most that `hy check` takes between a script's head and its tail. It writes the
/// first line at the limit, and the second one beyond.
fn is_most<T: Threads + Wait + Sync + AllocGlobal>(
    rt: &T,
    script: (&str, &str, &str),
    most: u32,
    lines: (&str, &str),
) -> Result<bool, AllocError> {
    let (head, piece, tail) = script;
    let (taken, refused) = lines;
    let alloc = rt.alloc();
    let at = repeated(alloc, head, piece, most as usize, tail)?;
    let beyond = repeated(alloc, head, piece, most as usize + 1, tail)?;
    Ok(checks(rt, at.as_str(), taken)? && checks(rt, beyond.as_str(), refused)?)
}

/// Whether so many numbered pieces are the most that `hy check` takes, with these two lines.
fn is_most_numbered<T: Threads + Wait + Sync + AllocGlobal>(
    rt: &T,
    script: (&str, (&str, &str), &str),
    most: u16,
    lines: (&str, &str),
) -> Result<bool, AllocError> {
    let (head, piece, tail) = script;
    let (taken, refused) = lines;
    let alloc = rt.alloc();
    let at = numbered(alloc, head, piece, u32::from(most), tail)?;
    let beyond = numbered(alloc, head, piece, u32::from(most) + 1, tail)?;
    Ok(checks(rt, at.as_str(), taken)? && checks(rt, beyond.as_str(), refused)?)
}

#[test]
fn tables_columns_and_sessions(rt: HostRuntime) -> Result<(), Fail> {
    let tables = ("", ("CREATE TABLE t", " (n INT);\n"), "END;");
    let lines = (
        "ok tables 16 rows 0 sessions 0 transactions 0 items 0\n",
        "line 17: E09\n",
    );
    assert!(rt; is_most_numbered(&rt, tables, 16, lines)?);
    // One more column stands behind these.
    let columns = ("\nCREATE TABLE t (", ("c", " INT,\n"), "c INT); END;");
    let lines = (
        "ok tables 1 rows 0 sessions 0 transactions 0 items 0\n",
        "line 2: E09\n",
    );
    assert!(rt; is_most_numbered(&rt, columns, 31, lines)?);
    let sessions = ("", ("SESSION s", ";\n"), "END;");
    let lines = (
        "ok tables 0 rows 0 sessions 64 transactions 0 items 0\n",
        "line 65: E09\n",
    );
    assert!(rt; is_most_numbered(&rt, sessions, 64, lines)?);
    Ok(())
}

#[test]
fn tables_in_from(rt: HostRuntime) -> Result<(), Fail> {
    let head = "CREATE TABLE t (n INT); CREATE TABLE u0 (a INT); CREATE TABLE u1 (b INT); \
CREATE TABLE u2 (c INT); CREATE TABLE u3 (d INT); SESSION a; BEGIN;\nSELECT * FROM t";
    let script = (head, (" JOIN u", " ON n = n"), "; COMMIT; END;");
    let lines = (
        "ok tables 5 rows 0 sessions 1 transactions 1 items 0\n",
        "line 2: E09\n",
    );
    assert!(rt; is_most_numbered(&rt, script, 3, lines)?);
    Ok(())
}

#[test]
fn statements_of_a_transaction(rt: HostRuntime) -> Result<(), Fail> {
    let head = "CREATE TABLE t (n INT); SESSION a; BEGIN;\n";
    let script = (head, "SELECT n FROM t;\n", "COMMIT; END;");
    let lines = (
        "ok tables 1 rows 0 sessions 1 transactions 1 items 0\n",
        "line 258: E09\n",
    );
    assert!(rt; is_most(&rt, script, 256, lines)?);
    Ok(())
}

#[test]
fn open_savepoints(rt: HostRuntime) -> Result<(), Fail> {
    let script = (
        "CREATE TABLE t (n INT); SESSION a; BEGIN;\n",
        "SAVEPOINT s; ",
        "\nCOMMIT; END;",
    );
    let lines = (ONE_OF_EACH, "line 2: E09\n");
    assert!(rt; is_most(&rt, script, 16, lines)?);
    Ok(())
}

#[test]
fn bytes_of_texts_and_words(rt: HostRuntime) -> Result<(), Fail> {
    let head = "CREATE TABLE t (s TEXT);\nINSERT INTO t VALUES ('";
    let lines = (
        "ok tables 1 rows 1 sessions 0 transactions 0 items 0\n",
        "line 2: E09\n",
    );
    assert!(rt; is_most(&rt, (head, "a", "'); END;"), 255, lines)?);
    // Two quotes are one byte, and this letter is two.
    assert!(rt; is_most(&rt, (head, "''", "'); END;"), 255, lines)?);
    assert!(rt; is_most(&rt, (head, "é", "a'); END;"), 127, lines)?);
    let lines = (
        "ok tables 1 rows 0 sessions 0 transactions 0 items 0\n",
        "line 2: E03\n",
    );
    assert!(rt; is_most(&rt, ("CREATE TABLE\n", "n", " (n INT); END;"), 32, lines)?);
    Ok(())
}

#[test]
fn first_rows(rt: HostRuntime) -> Result<(), Fail> {
    let alloc = rt.alloc();
    let head = "CREATE TABLE t (n INT);\n";
    let row = "INSERT INTO t VALUES (1);\n";
    let lines = (
        "ok tables 1 rows 4 sessions 0 transactions 0 items 0\n",
        "line 6: E09\n",
    );
    assert!(rt; is_most(&rt, (head, row, "END;"), 4, lines)?);
    // Three chunks of two rows each.
    let words = ["hy", "check", "--rows", "2", "--chunks", "3"];
    let full = repeated(alloc, head, row, 6, "END;")?;
    let (_, text) = written(&rt, &words, full.as_bytes().to_vec(alloc)?)?;
    assert_eq!(rt;
        text.as_slice(),
        b"ok tables 1 rows 6 sessions 0 transactions 0 items 0\n".as_slice()
    );
    let over = repeated(alloc, head, row, 7, "END;")?;
    let (_, text) = written(&rt, &words, over.as_bytes().to_vec(alloc)?)?;
    assert_eq!(rt; text.as_slice(), b"line 8: E09\n".as_slice());
    Ok(())
}

#[test]
fn open_levels(rt: HostRuntime) -> Result<(), Fail> {
    let alloc = rt.alloc();
    let lines = (ONE_OF_EACH, "line 66: E04\n");
    let head = "CREATE TABLE t (n INT); SESSION a; BEGIN; DELETE FROM t WHERE\n";
    assert!(rt; is_most(&rt, (head, "NOT\n", "n = 1; COMMIT; END;"), 64, lines)?);
    let closed = repeated(alloc, "n = 1", ")", 64, "; COMMIT; END;")?;
    assert!(rt; is_most(&rt, (head, "(\n", closed.as_str()), 64, lines)?);
    let head = "CREATE TABLE t (n INT); SESSION a; BEGIN; UPDATE t SET n =\n";
    let closed = repeated(alloc, "1", ")", 64, "; COMMIT; END;")?;
    assert!(rt; is_most(&rt, (head, "(\n", closed.as_str()), 64, lines)?);
    // Parentheses and NOT count together.
    let head = "CREATE TABLE t (n INT); SESSION a; BEGIN; DELETE FROM t WHERE NOT\n";
    let closed = repeated(alloc, "n = 1", ")", 63, "; COMMIT; END;")?;
    let lines = (ONE_OF_EACH, "line 65: E04\n");
    assert!(rt; is_most(&rt, (head, "(\n", closed.as_str()), 63, lines)?);
    // Those that are closed don't count.
    let head = "CREATE TABLE t (n INT); SESSION a; BEGIN; DELETE FROM t WHERE ";
    let many = repeated(alloc, head, "NOT (n = 1) OR ", 65, "n = 1; COMMIT; END;")?;
    assert!(rt; checks(&rt, many.as_str(), ONE_OF_EACH)?);
    Ok(())
}

#[test]
fn tokens_of_a_statement(rt: HostRuntime) -> Result<(), Fail> {
    let alloc = rt.alloc();
    // SELECT, two tokens in each repetition, eight, and the semicolon; then one more.
    let head = "CREATE TABLE t (n INT); SESSION a; BEGIN;\nSELECT ";
    let tail = "n FROM t WHERE n IS NOT NULL\n; COMMIT; END;";
    let most = repeated(alloc, head, "n,", 2_043, tail)?;
    assert!(rt; checks(&rt, most.as_str(), ONE_OF_EACH)?);
    let tail = "n FROM t WHERE NOT n IS NOT NULL\n; COMMIT; END;";
    let over = repeated(alloc, head, "n,", 2_043, tail)?;
    assert!(rt; checks(&rt, over.as_str(), "line 3: E04\n")?);
    // SCHEDULE has no such limit.
    let turns = repeated(alloc, "SESSION a; SCHEDULE ", "a!", 2_100, "; END;")?;
    let counts = "ok tables 0 rows 0 sessions 1 transactions 0 items 2100\n";
    assert!(rt; checks(&rt, turns.as_str(), counts)?);
    Ok(())
}

#[test]
fn transactions_of_a_session(rt: HostRuntime) -> Result<(), Fail> {
    let script = ("SESSION a;\n", "BEGIN; COMMIT;\n", "END;");
    let lines = (
        "ok tables 0 rows 0 sessions 1 transactions 65535 items 0\n",
        "line 65537: E09\n",
    );
    assert!(rt; is_most(&rt, script, 65_535, lines)?);
    Ok(())
}

// The tests below are for the compiled tests alone: `rt try` gives them neither the time nor the stack.

#[test]
fn items_of_a_schedule(rt: HostRuntime) -> Result<(), Fail> {
    let script = ("SESSION a;\nSCHEDULE ", "a ", "; END;");
    let lines = (
        "ok tables 0 rows 0 sessions 1 transactions 0 items 1000000\n",
        "line 2: E09\n",
    );
    assert!(rt; is_most(&rt, script, 1_000_000, lines)?);
    Ok(())
}

#[test]
fn bytes_of_a_script(rt: HostRuntime) -> Result<(), Fail> {
    let script = ("", " ", "END;");
    let lines = (
        "ok tables 0 rows 0 sessions 0 transactions 0 items 0\n",
        "line 1: E01\n",
    );
    assert!(rt; is_most(&rt, script, 16_777_212, lines)?);
    Ok(())
}

#[test]
fn a_long_schedule_of_a_session_that_has_nothing_to_do(rt: HostRuntime) -> Result<(), Fail> {
    let alloc = rt.alloc();
    let head = "CREATE TABLE t (n INT); INSERT INTO t VALUES (1); \
SESSION a; BEGIN; UPDATE t SET n = 5 WHERE n = 1; COMMIT; SESSION b; ";
    let text = "txn a.1 start 0\nupdated 1\ncommitted 0\nwrote t 0\n\
order 1\nentry 0 a.1\nchange t 0 from 1 to 5\ntable t 1\nrow 5\nend\n";
    let without = repeated(alloc, head, "", 0, "END;")?;
    assert!(rt; says(&rt, "run", without.as_str(), text)?);
    let begun = repeated(alloc, head, "", 0, "SCHEDULE ")?;
    let items = repeated(alloc, begun.as_str(), "b ", 1_000_000, "; END;")?;
    assert!(rt; says(&rt, "run", items.as_str(), text)?);
    Ok(())
}

/// Whether `hy run` writes this for a script of one session, by its schedule and on a thread.
fn runs<T: Threads + Wait + Sync + AllocGlobal>(
    rt: &T,
    script: &str,
    text: &str,
) -> Result<bool, AllocError> {
    let bytes = script.as_bytes();
    let (status, wrote) = written(rt, &["hy", "run", "--threads"], bytes.to_vec(rt.alloc())?)?;
    let threads = status == 0 && wrote.as_slice() == text.as_bytes();
    Ok(threads && says(rt, "run", script, text)?)
}

/// The text of a transaction that sets the one row of a table from 1 to 2.
const SET_TO_TWO: &str = "txn a.1 start 0\nupdated 1\ncommitted 0\nwrote t 0\n\
order 1\nentry 0 a.1\nchange t 0 from 1 to 2\ntable t 1\nrow 2\nend\n";

#[test]
fn long_chains_of_conditions(rt: HostRuntime) -> Result<(), Fail> {
    let alloc = rt.alloc();
    let head = "CREATE TABLE t (n INT); INSERT INTO t VALUES (1); SESSION a; BEGIN;\n\
UPDATE t SET n = 2 WHERE n = 1 AND ";
    let tail = "n = 1; COMMIT; END;";
    let most = repeated(alloc, head, "n = 1 AND n = 2 OR ", 510, tail)?;
    assert!(rt; runs(&rt, most.as_str(), SET_TO_TWO)?);
    Ok(())
}

#[test]
fn long_chains_of_operators(rt: HostRuntime) -> Result<(), Fail> {
    let alloc = rt.alloc();
    let head = "CREATE TABLE t (n INT); INSERT INTO t VALUES (1); SESSION a; BEGIN;\n\
UPDATE t SET n = ";
    let most = repeated(alloc, head, "n+", 2_044, "n; COMMIT; END;")?;
    let text = "txn a.1 start 0\nupdated 1\ncommitted 0\nwrote t 0\n\
order 1\nentry 0 a.1\nchange t 0 from 1 to 2045\ntable t 1\nrow 2045\nend\n";
    assert!(rt; runs(&rt, most.as_str(), text)?);
    Ok(())
}

#[test]
fn deepest_nesting(rt: HostRuntime) -> Result<(), Fail> {
    let alloc = rt.alloc();
    let head = "CREATE TABLE t (n INT); INSERT INTO t VALUES (1); SESSION a; BEGIN;\n\
UPDATE t SET n = ";
    let set = repeated(alloc, head, "(", 64, "n + 1")?;
    let set = repeated(alloc, set.as_str(), ")", 64, " WHERE ")?;
    let denied = repeated(alloc, set.as_str(), "NOT ", 64, "n = 1; COMMIT; END;")?;
    assert!(rt; runs(&rt, denied.as_str(), SET_TO_TWO)?);
    let nested = repeated(alloc, set.as_str(), "(", 64, "n = 1")?;
    let nested = repeated(alloc, nested.as_str(), ")", 64, "; COMMIT; END;")?;
    assert!(rt; runs(&rt, nested.as_str(), SET_TO_TWO)?);
    Ok(())
}
