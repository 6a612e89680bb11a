//! Words and scripts that must be refused, by each cause.

use crate::runs::{OLD_SNAPSHOT, words_of, written_beside};
use hy_disk::NoDisk;
use hy_outside::{MemSink, MemSource, read_all};
use hy_threads::OpenGate;
use std::alloc::{AllocError, Global};
use std::process::Abort;
use std::sync::Wait;
use std::test::Fail;
use std::thread::Threads;

/// The status and the text of a command on a script of these bytes.
pub fn written<T: Threads + Wait + Sync + AllocGlobal>(
    rt: &T,
    words: &[&str],
    script: Vec<u8>,
) -> Result<(u8, Vec<u8>), AllocError> {
    written_beside(rt, &OpenGate, words, script)
}

/// Whether a command writes this for a script, where a table has room for four rows. Status 2 goes with the line
/// of a refusal, and 0 with any other text.
pub fn says<T: Threads + Wait + Sync + AllocGlobal>(
    rt: &T,
    command: &str,
    script: &str,
    text: &str,
) -> Result<bool, AllocError> {
    let words = ["hy", command, "--chunks", "1", "--rows", "4"];
    let (status, wrote) = written(rt, &words, script.as_bytes().to_vec(rt.alloc())?)?;
    let wanted = if text.starts_with("line ") { 2 } else { 0 };
    Ok(status == wanted && wrote.as_slice() == text.as_bytes())
}

/// Whether `hy check` writes this line for a script, refused or not.
pub fn checks<T: Threads + Wait + Sync + AllocGlobal>(
    rt: &T,
    script: &str,
    line: &str,
) -> Result<bool, AllocError> {
    says(rt, "check", script, line)
}

/// A table, and a transaction of one statement.
fn alone(alloc: Global, begin: &str, statement: &str) -> Result<String, AllocError> {
    let mut text = String::from_str(
        alloc,
        "CREATE TABLE acc (id INT PRIMARY KEY, bal INT);\nCREATE TABLE own (aid INT, who TEXT);\nSESSION a;\n",
    )?;
    text.push_str(begin)?;
    text.push_str(";\n")?;
    text.push_str(statement)?;
    text.push_str("; COMMIT; END;")?;
    Ok(text)
}

/// `check` writes this for a transaction of one statement.
fn refuses(rt: &(impl Abort + Threads + Wait + Sync + AllocGlobal), statement: &str, line: &str) {
    let answers = match alone(rt.alloc(), "BEGIN", statement) {
        Ok(script) => checks(rt, script.as_str(), line).unwrap_or(false),
        Err(_) => false,
    };
    assert!(rt; answers, "{statement}");
}

#[test]
fn names(rt: HostRuntime) {
    for (statement, line) in [
        ("DELETE FROM x", "line 5: E05\n"),
        ("SELECT * FROM acc JOIN x ON id = id", "line 5: E05\n"),
        ("DELETE FROM acc WHERE y = 1", "line 5: E06\n"),
        (
            "SELECT id FROM acc JOIN own ON id = own.id",
            "line 5: E06\n",
        ),
        ("SELECT id FROM acc JOIN acc ON id = id", "line 5: E08\n"),
        ("UPDATE acc SET bal = 1, bal = 2", "line 5: E08\n"),
        ("SAVEPOINT s; RELEASE s; ROLLBACK TO s", "line 5: E21\n"),
        ("SAVEPOINT s;\nRELEASE t", "line 6: E21\n"),
        (
            "SAVEPOINT s; ROLLBACK TO s; RELEASE s",
            "ok tables 2 rows 0 sessions 1 transactions 1 items 0\n",
        ),
    ] {
        refuses(&rt, statement, line);
    }
}

#[test]
fn types_and_keys(rt: HostRuntime) {
    for (statement, line) in [
        ("DELETE FROM acc WHERE id = 'a'", "line 5: E07\n"),
        ("INSERT INTO acc VALUES (1)", "line 5: E07\n"),
        ("SELECT SUM(who) FROM own", "line 5: E07\n"),
        ("SELECT aid FROM acc JOIN own ON id = who", "line 5: E07\n"),
        ("UPDATE own SET who = 'a' + 'b'", "line 5: E07\n"),
        ("UPDATE acc SET id = 1", "line 5: E12\n"),
        ("INSERT INTO acc VALUES (NULL, 1)", "line 5: E16\n"),
        (
            "SELECT who, COUNT(*) FROM own GROUP BY who",
            "line 5: E17\n",
        ),
        (
            "DELETE FROM acc WHERE id = 9223372036854775808",
            "line 5: E14\n",
        ),
        (
            "DELETE FROM acc WHERE id = -9223372036854775808",
            "ok tables 2 rows 0 sessions 1 transactions 1 items 0\n",
        ),
    ] {
        refuses(&rt, statement, line);
    }
}

#[test]
fn read_only_transactions(rt: HostRuntime) -> Result<(), Fail> {
    let alloc = rt.alloc();
    let script = alone(alloc, "BEGIN READ ONLY", "DELETE FROM own")?;
    assert!(rt; checks(&rt, script.as_str(), "line 5: E11\n")?);
    let script = alone(
        alloc,
        "BEGIN READ ONLY",
        "SELECT aid, COUNT(*) FROM own GROUP BY who",
    )?;
    assert!(rt; checks(&rt, script.as_str(), "line 5: E18\n")?);
    let script = alone(
        alloc,
        "BEGIN READ ONLY",
        "SELECT who, SUM(aid) FROM own GROUP BY who",
    )?;
    assert!(rt;
        checks(
            &rt,
            script.as_str(),
            "ok tables 2 rows 0 sessions 1 transactions 1 items 0\n"
        )?
    );
    Ok(())
}

#[test]
fn tokens_and_grammar(rt: HostRuntime) {
    for (statement, line) in [
        ("DELETE FROM\n#", "line 6: E03\n"),
        ("DELETE\nacc #", "line 6: E04\n"),
        (
            "SELECT COUNT(*) FROM acc\nJOIN own ON id = aid",
            "line 6: E04\n",
        ),
        ("SAVEPOINT 1", "line 5: E04\n"),
        ("ROLLBACK TO 1", "line 5: E04\n"),
        (
            "DELETE FROM acc WHERE bal IS NOT NULL AND NOT bal = 3 OR id < 2",
            "ok tables 2 rows 0 sessions 1 transactions 1 items 0\n",
        ),
    ] {
        refuses(&rt, statement, line);
    }
}

/// Scripts that are refused, and what `check` writes for each.
const SCRIPTS: [(&str, &str); 19] = [
    ("CREATE TABLE t (n INT);\n", "line 2: E10\n"),
    ("END;\nx", "line 2: E10\n"),
    ("END", "line 1: E04\n"),
    ("BEGIN; COMMIT; END;", "line 1: E04\n"),
    ("SESSION a;\nROLLBACK TO s; END;", "line 2: E04\n"),
    ("SESSION a;\nCREATE TABLE t (n INT); END;", "line 2: E04\n"),
    ("SESSION a; BEGIN;\nBEGIN; COMMIT; END;", "line 2: E04\n"),
    ("SESSION a; BEGIN;\nEND;", "line 2: E04\n"),
    ("SESSION a; SCHEDULE;\nSESSION b; END;", "line 2: E04\n"),
    ("SCHEDULE a; END;", "line 1: E13\n"),
    ("CREATE TABLE t (n INT, n INT); END;", "line 1: E08\n"),
    (
        "CREATE TABLE t (n INT PRIMARY KEY, m INT PRIMARY KEY); END;",
        "line 1: E08\n",
    ),
    (
        "CREATE TABLE t (n INT);\nCREATE TABLE t (m INT); END;",
        "line 2: E08\n",
    ),
    (
        "CREATE TABLE t (n INT);\nINSERT INTO u VALUES (1); END;",
        "line 2: E05\n",
    ),
    (
        "CREATE TABLE t (n INT);\nINSERT INTO t VALUES ('x'); END;",
        "line 2: E07\n",
    ),
    (
        "CREATE TABLE t (n INT);\nINSERT INTO t VALUES (9223372036854775808); END;",
        "line 2: E14\n",
    ),
    (
        "CREATE TABLE t (k INT PRIMARY KEY);\nINSERT INTO t VALUES (NULL); END;",
        "line 2: E16\n",
    ),
    (
        "CREATE TABLE t (k INT PRIMARY KEY);\nINSERT INTO t VALUES (1);\nINSERT INTO t VALUES (1); END;",
        "line 3: E15\n",
    ),
    (
        "CREATE TABLE t (n INT); CREATE TABLE u (n INT); SESSION a; BEGIN;\nSELECT t.n FROM t JOIN u ON n = u.n; COMMIT; END;",
        "line 2: E06\n",
    ),
];

#[test]
fn whole_scripts(rt: HostRuntime) -> Result<(), Fail> {
    let alloc = rt.alloc();
    for (script, line) in SCRIPTS {
        assert!(rt; checks(&rt, script, line)?, "{script}");
    }
    let (status, text) = written(&rt, &["hy", "check"], [255u8].to_vec(alloc)?)?;
    assert_eq!(rt; status, 2);
    assert_eq!(rt; text.as_slice(), b"line 1: E02\n".as_slice());
    Ok(())
}

/// A worked script over several lines.
const LINES: &str = "CREATE TABLE t (n INT);\nINSERT INTO t VALUES (1);\n\nSESSION a;\nBEGIN;\n\
UPDATE t SET n = 5 WHERE n = 1;\nCOMMIT;\n\nSESSION b;\nBEGIN;\nSELECT n FROM t WHERE n > 0;\nCOMMIT;\n\n\
SCHEDULE b! a! a! a! b!;\nEND;";

#[test]
fn every_beginning_of_a_script(rt: HostRuntime) -> Result<(), Fail> {
    let alloc = rt.alloc();
    let text = LINES.as_bytes();
    for len in 0..text.len() {
        let bytes = &text[..len];
        // What is missing is missed at the end: END where a statement could follow, else the rest of one.
        let feeds = bytes.iter().filter(|byte| **byte == b'\n').count();
        let line = feeds.saturating_add(1);
        let cause = match bytes.trim_ascii_end().last() {
            None | Some(b';') => "E10",
            _ => "E04",
        };
        let wanted = format!(in alloc; "line {line}: {cause}\n")?;
        let (status, wrote) = written(&rt, &["hy", "check"], bytes.to_vec(alloc)?)?;
        assert_eq!(rt; status, 2);
        assert!(rt; wrote.as_slice() == wanted.as_bytes(), "{len}");
    }
    Ok(())
}

/// Whether the words are refused with the usage line, and the source keeps its bytes.
fn are_refused<T: Threads + Wait + Sync + AllocGlobal>(
    rt: &T,
    words: &[&str],
) -> Result<bool, Fail> {
    let alloc = rt.alloc();
    let words = words_of(alloc, words)?;
    let mut source = MemSource::new(OLD_SNAPSHOT.as_bytes().to_vec(alloc)?, 7, Vec::new(alloc));
    let mut sink = MemSink::new(alloc, 100, Vec::new(alloc))?;
    let report = hy_top::run(
        rt,
        alloc,
        &words,
        &mut source,
        &mut sink,
        &OpenGate,
        &mut NoDisk,
    );
    let left = read_all(alloc, &mut source, 10_000)
        .ok()
        .ok_or("the source has its bytes")?;
    Ok(
        report.status == 1
            && report.outcome.is_none()
            && sink.bytes() == b"usage: hy run|check|gen\n".as_slice()
            && left.as_slice() == OLD_SNAPSHOT.as_bytes(),
    )
}

#[test]
fn other_words(rt: HostRuntime) -> Result<(), Fail> {
    assert!(rt; are_refused(&rt, &["hy", "fly"])?);
    assert!(rt; are_refused(&rt, &["hy"])?);
    assert!(rt; are_refused(&rt, &[])?);
    assert!(rt; are_refused(&rt, &["hy", "run", "run"])?);
    assert!(rt; are_refused(&rt, &["hy", "run", "--chunks", "65"])?);
    assert!(rt; are_refused(&rt, &["hy", "check", "--rows", "0"])?);
    assert!(rt; are_refused(&rt, &["hy", "trace", "--threads"])?);
    assert!(rt; are_refused(&rt, &["hy", "trace", "--rows", "1025"])?);
    assert!(rt; are_refused(&rt, &["hy", "explain", "--log"])?);
    assert!(rt; are_refused(&rt, &["hy", "explain", "--chunks", "65"])?);
    assert!(rt; are_refused(&rt, &["hy", "check", "--threads"])?);
    Ok(())
}

#[test]
fn options_at_their_limits(rt: HostRuntime) -> Result<(), Fail> {
    let alloc = rt.alloc();
    for (words, status) in [
        (["hy", "run", "--chunks", "1"], 0),
        (["hy", "run", "--chunks", "64"], 0),
        (["hy", "run", "--chunks", "0"], 1),
        (["hy", "check", "--chunks", "65"], 1),
        (["hy", "check", "--rows", "1"], 0),
        (["hy", "check", "--rows", "1024"], 0),
        (["hy", "check", "--rows", "0"], 1),
        (["hy", "run", "--rows", "1025"], 1),
        (["hy", "run", "--no-prune", "--rows=4"], 0),
        (["hy", "run", "--no-prune", "--threads"], 0),
        (["hy", "check", "--no-prune", "--rows=4"], 1),
    ] {
        let (came_to, _) = written(&rt, &words, b"END;".to_vec(alloc)?)?;
        assert!(rt; came_to == status, "{words:?}");
    }
    Ok(())
}
