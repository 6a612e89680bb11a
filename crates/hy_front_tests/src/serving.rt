//! Lines of serving: which are refused, and what the others say.

use hy_script::Options;
use hy_serving::{Desk, Saying, answer, named};
use std::alloc::{AllocError, Global};
use std::process::Abort;
use std::test::Fail;

/// The session that a line is for, and what that does, where its answer is not in its text alone.
fn deed_of(saying: &Saying) -> Option<(usize, &'static str)> {
    match saying {
        Saying::Begins { number, .. } => Some((*number, " begins")),
        Saying::Says { number, .. } => Some((*number, " says")),
        Saying::Closes { number, commits } => {
            Some((*number, if *commits { " commits" } else { " rolls back" }))
        }
        _ => None,
    }
}

/// What is told of what a line says, without the line feed at its end: the answer that it has by its text alone, or a word.
fn told(alloc: Global, saying: &Saying) -> Result<Vec<u8>, AllocError> {
    let mut out = Vec::new(alloc);
    if let Some((number, word)) = deed_of(saying) {
        out.extend_from_slice(number.to_string(alloc)?.as_bytes())?;
        out.extend_from_slice(word.as_bytes())?;
        return Ok(out);
    }
    if let Saying::Ends = saying {
        out.extend_from_slice(b"END")?;
        return Ok(out);
    }
    answer(saying, &mut out)?;
    out.pop();
    Ok(out)
}

/// What a line is told.
fn heard(alloc: Global, desk: &mut Desk, line: &[u8]) -> Result<Vec<u8>, AllocError> {
    let options = Options {
        chunks: 4,
        rows: 1024,
    };
    let saying = desk.hear(alloc, &options, line)?;
    told(alloc, &saying)
}

/// Hears lines, one after another; behind a bar stands what each is told.
fn hear_all(rt: &(impl Abort + AllocGlobal), desk: &mut Desk, lines: &str) -> Result<(), Fail> {
    for line in lines.lines() {
        let (typed, told) = line.split_once('|').unwrap_or((line, ""));
        let heard = heard(rt.alloc(), desk, typed.as_bytes())?;
        assert!(rt; heard.as_slice() == told.as_bytes(), "{line}");
    }
    Ok(())
}

/// The same of a desk that has heard nothing.
fn hear_first(rt: &(impl Abort + AllocGlobal), lines: &str) -> Result<(), Fail> {
    let mut desk = Desk::new(rt.alloc());
    hear_all(rt, &mut desk, lines)
}

/// Appends a text so many times.
fn repeat(text: &str, count: usize, out: &mut String) -> Result<(), AllocError> {
    for _ in 0..count {
        out.push_str(text)?;
    }
    Ok(())
}

/// Lines that define something, and those that can't.
const DEFINING: &str = "-- a comment|
|
  -- another|
CREATE TABLE t (n INT PRIMARY KEY, s TEXT);|ok
CREATE TABLE t (n INT);|refused E08
CREATE TABLE u (m INT); END;|refused E04
CREATE TABLE u (m INT); ?|refused E03
CREATE TABLE u (m INT)|refused E04
INSERT INTO t VALUES (1, 'a');|ok
INSERT INTO t VALUES (1, 'b');|refused E15
INSERT INTO x VALUES (1);|refused E05
INSERT INTO t VALUES (2);|refused E07
SELECT * FROM t;|refused E04";

/// Lines whose head is wrong.
const HEADS: &str = "?|refused E03
'a|refused E03
a ?|refused E04
a: ?|a: refused E03
a :BEGIN;|refused E04
SELECT: BEGIN;|refused E04
abcdefghijklmnopqrstuvwxyzabcdefg: BEGIN;|refused E03";

/// Lines of a session that has no transaction open.
const UNOPENED: &str = "a:|a: refused E04
a: SELECT n FROM t;|a: refused E19
a: COMMIT;|a: refused E19
a: CREATE TABLE v (n INT);|a: refused E04
a: BEGIN; COMMIT;|a: refused E04
a: BEGIN READ;|a: refused E04
a: BEGIN; ?|a: refused E03";

/// Lines of a transaction, and lines beside it.
const OPENED: &str = "a: BEGIN;|0 begins
a: BEGIN;|a: refused E20
CREATE TABLE u (m INT);|refused E04
INSERT INTO t VALUES (3, 'a');|refused E04
a: UPDATE t SET n = 5;|a: refused E12
a: UPDATE t SET s = 'x';|0 says
a: UPDATE t SET s = 7;|a: refused E07
a: SELECT n FROM x;|a: refused E05
a: ROLLBACK TO s;|a: refused E21
a: SAVEPOINT s;|0 says
a: RELEASE s;|0 says
a: RELEASE s;|a: refused E21
a: SELECT n, COUNT(*) FROM t GROUP BY n;|a: refused E17";

/// Lines of a READ ONLY transaction, and of ends.
const READING: &str = "b: BEGIN READ ONLY;|1 begins
b: DELETE FROM t;|b: refused E11
b: SELECT n, COUNT(*) FROM t GROUP BY n;|1 says
b:COMMIT;|1 commits
b: COMMIT;|b: refused E19
a:ROLLBACK;|0 rolls back
a: SAVEPOINT s;|a: refused E19";

/// Lines that end everything, and those that can't.
const ENDING: &str = "a: END;|a: refused E04
a: SESSION b;|a: refused E04
c: SESSION b;|c: refused E04
SESSION c;|refused E04
END; END;|refused E04
END; ?|refused E03
END|refused E04
END;|END";

#[test]
fn lines_say_what_they_say(rt: HostRuntime) -> Result<(), Fail> {
    let mut lines = String::new(rt.alloc());
    for part in [DEFINING, HEADS, UNOPENED, OPENED, READING, ENDING] {
        lines.push_str(part)?;
        lines.push_str("\n")?;
    }
    hear_first(&rt, lines.as_str())
}

#[test]
fn sixteen_savepoints_are_open(rt: HostRuntime) -> Result<(), Fail> {
    let mut lines = String::from_str(rt.alloc(), "a: BEGIN;|0 begins\n")?;
    repeat("a: SAVEPOINT s;|0 says\n", 16, &mut lines)?;
    lines.push_str("a: SAVEPOINT s;|a: refused E09")?;
    hear_first(&rt, lines.as_str())
}

#[test]
fn sessions_are_sixty_four(rt: HostRuntime) -> Result<(), Fail> {
    let alloc = rt.alloc();
    let mut lines = String::new(alloc);
    for number in 0..64 {
        let digits = number.to_string(alloc)?;
        for text in [
            "s",
            digits.as_str(),
            ": BEGIN;|",
            digits.as_str(),
            " begins\n",
        ] {
            lines.push_str(text)?;
        }
    }
    lines.push_str("t: BEGIN;|t: refused E09\ns9: BEGIN;|s9: refused E20\ns9: COMMIT;|9 commits")?;
    hear_first(&rt, lines.as_str())
}

#[test]
fn what_is_no_text_names_nobody(rt: HostRuntime) -> Result<(), Fail> {
    let mut desk = Desk::new(rt.alloc());
    let heard = heard(rt.alloc(), &mut desk, b"a: BEGIN; -- \xFF")?;
    assert!(rt; heard.as_slice() == b"refused E02".as_slice());
    assert!(rt; desk.sofar.names.len() == 0);
    Ok(())
}

#[test]
fn a_transaction_may_be_ended_from_outside(rt: HostRuntime) -> Result<(), Fail> {
    let mut desk = Desk::new(rt.alloc());
    hear_all(&rt, &mut desk, "a: BEGIN;|0 begins")?;
    desk.end(0);
    assert!(rt; !desk.is_open(0));
    hear_all(&rt, &mut desk, "a: COMMIT;|a: refused E19")
}

#[test]
fn a_name_stands_before_each_line(rt: HostRuntime) -> Result<(), Fail> {
    let mut out = Vec::new(rt.alloc());
    named(b"a", b"rows 1\nrow 2\n", &mut out)?;
    assert!(rt; out.as_slice() == b"a: rows 1\na: row 2\n".as_slice());
    named(b"b", b"", &mut out)?;
    assert!(rt; out.as_slice() == b"a: rows 1\na: row 2\n".as_slice());
    Ok(())
}
