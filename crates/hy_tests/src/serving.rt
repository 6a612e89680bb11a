//! Lines that are served. The expected text comes from an independent program.

use crate::runs::words_of;
use hy_disk::{MemDisk, NoDisk};
use hy_outside::{MemSink, MemSource, StdSink, StdSource};
use hy_threads::OpenGate;
use std::alloc::{AllocError, Global};
use std::cell::RefCell;
use std::io;
use std::io::{ErrorKind, Read, Write};
use std::sync::Wait;
use std::test::Fail;
use std::thread::Threads;

/// A savepoint, a conflict, and a session whose transaction ended with that.
const LINES: &str =
    "CREATE TABLE t (n INT);\nINSERT INTO t VALUES (1);\na: BEGIN;\nb: BEGIN;\na: SAVEPOINT s;\n\
a: UPDATE t SET n = 5;\na: ROLLBACK TO s;\nb: UPDATE t SET n = 7;\na: COMMIT;\nb: COMMIT;\nEND;\n";

/// What is answered.
const ANSWERS: &str =
    "ok\nok\na: begun 0\nb: begun 0\na: saved\na: updated 1\na: back\nb: conflict t 0 a.1\n\
a: committed 0\nb: refused E19\norder 1\nentry 0 a.1\nchange t 0 from 1 to 1\ntable t 1\nrow 1\nend\n";

/// What a terminal shows: each line as it is typed, and its answer.
const TERMINAL: &str =
    "CREATE TABLE t (n INT);\nok\nINSERT INTO t VALUES (1);\nok\na: BEGIN;\na: begun 0\n\
b: BEGIN;\nb: begun 0\na: SAVEPOINT s;\na: saved\na: UPDATE t SET n = 5;\na: updated 1\n\
a: ROLLBACK TO s;\na: back\nb: UPDATE t SET n = 7;\nb: conflict t 0 a.1\na: COMMIT;\na: committed 0\n\
b: COMMIT;\nb: refused E19\nEND;\n\
order 1\nentry 0 a.1\nchange t 0 from 1 to 1\ntable t 1\nrow 1\nend\n";

/// Adds bytes to a list that a reader and a writer share.
fn show(list: &RefCell<Vec<u8>>, bytes: &[u8]) -> io::Result<()> {
    match list.try_borrow_mut() {
        Ok(mut shown) => {
            shown.extend_from_slice(bytes)?;
            Ok(())
        }
        Err(_) => Err(io::Error::from(ErrorKind::Other)),
    }
}

/// What is typed: a byte is read at a time, and then stands in the list.
#[derive(Drop)]
struct Keyboard<'a> {
    left: &'a [u8],
    list: &'a RefCell<Vec<u8>>,
}

impl Read for Keyboard<'_> {
    fn read(&mut self, buf: &mut [u8]) -> io::Result<usize> {
        let Some((byte, left)) = self.left.split_first() else {
            return Ok(0);
        };
        match buf.first_mut() {
            Some(first) => {
                *first = *byte;
                self.left = left;
                show(self.list, &[*byte])?;
                Ok(1)
            }
            None => Ok(0),
        }
    }
}

/// What is printed stands in the list at once.
#[derive(Drop)]
struct Screen<'a> {
    list: &'a RefCell<Vec<u8>>,
}

impl Write for Screen<'_> {
    fn write(&mut self, buf: &[u8]) -> io::Result<usize> {
        show(self.list, buf)?;
        Ok(buf.len())
    }

    fn flush(&mut self) -> io::Result<()> {
        Ok(())
    }
}

/// The first lines of a text, so many.
fn first_lines(text: &[u8], count: usize) -> &[u8] {
    let mut seen = 0usize;
    for index in 0..text.len() {
        if seen == count {
            return &text[..index];
        }
        if text[index] == b'\n' {
            seen = seen.saturating_add(1);
        }
    }
    text
}

/// What the call came to: its status, whether there is an outcome, and the text.
fn served<T: Threads + Wait + Sync + AllocGlobal>(
    rt: &T,
    lines: &[u8],
    piece: usize,
    fails: u64,
    room: usize,
) -> Result<(u8, bool, Vec<u8>), AllocError> {
    let alloc = rt.alloc();
    let words = words_of(alloc, &["hy", "serve", "--chunks", "1", "--rows", "4"])?;
    let mut source = MemSource::new(lines.to_vec(alloc)?, piece.max(1), [fails].to_vec(alloc)?);
    let mut sink = MemSink::new(alloc, room, Vec::new(alloc))?;
    let report = hy_top::run(
        rt,
        alloc,
        &words,
        &mut source,
        &mut sink,
        &OpenGate,
        &mut NoDisk,
    );
    Ok((
        report.status,
        report.outcome.is_some(),
        sink.bytes().to_vec(alloc)?,
    ))
}

#[test]
fn lines_are_answered_in_pieces_of_any_size(rt: HostRuntime) -> Result<(), Fail> {
    for piece in [1, 2, 7, 4096] {
        let (status, outcome, text) = served(&rt, LINES.as_bytes(), piece, 0, 10_000)?;
        assert_eq!(rt; status, 0);
        assert!(rt; outcome);
        assert_eq!(rt; text.as_slice(), ANSWERS.as_bytes());
    }
    Ok(())
}

#[test]
fn what_is_open_at_the_end_is_dropped(rt: HostRuntime) -> Result<(), Fail> {
    let lines = "CREATE TABLE t (n INT);\nINSERT INTO t VALUES (1);\na: BEGIN;\na: RELEASE s;";
    let told = "ok\nok\na: begun 0\na: refused E21\na: dropped\norder 0\ntable t 1\nrow 1\nend\n";
    let (status, _, text) = served(&rt, lines.as_bytes(), 4096, 0, 10_000)?;
    assert_eq!(rt; status, 0);
    assert_eq!(rt; text.as_slice(), told.as_bytes());
    Ok(())
}

#[test]
fn no_line_at_all_is_an_end(rt: HostRuntime) -> Result<(), Fail> {
    let (status, outcome, text) = served(&rt, b"", 4096, 0, 10_000)?;
    assert_eq!(rt; status, 0);
    assert!(rt; outcome);
    assert_eq!(rt; text.as_slice(), b"order 0\nend\n".as_slice());
    Ok(())
}

#[test]
fn each_answer_stands_before_the_next_read(rt: HostRuntime) -> Result<(), Fail> {
    let alloc = rt.alloc();
    let words = words_of(alloc, &["hy", "serve", "--chunks", "1", "--rows", "4"])?;
    let list = RefCell::new(Vec::new(alloc));
    let mut source = StdSource::new(Keyboard {
        left: LINES.as_bytes(),
        list: &list,
    });
    let mut sink = StdSink::new(Screen { list: &list });
    let report = hy_top::run(
        &rt,
        alloc,
        &words,
        &mut source,
        &mut sink,
        &OpenGate,
        &mut NoDisk,
    );
    assert_eq!(rt; report.status, 0);
    drop(source);
    drop(sink);
    assert_eq!(rt; list.into_inner().as_slice(), TERMINAL.as_bytes());
    Ok(())
}

#[test]
fn lines_before_a_read_fault_are_answered(rt: HostRuntime) -> Result<(), Fail> {
    // Each byte comes by a call of its own, so a line is whole behind as many calls as it ends at.
    let lines = LINES.as_bytes();
    let mut whole = 0usize;
    for read in 0..lines.len() {
        let call = (read as u64).saturating_add(1);
        let (status, outcome, text) = served(&rt, lines, 1, call, 10_000)?;
        assert_eq!(rt; status, 3);
        assert!(rt; !outcome);
        assert_eq!(rt; text.as_slice(), first_lines(ANSWERS.as_bytes(), whole));
        if lines[read] == b'\n' {
            whole = whole.saturating_add(1);
        }
    }
    Ok(())
}

#[test]
fn sixty_four_sessions_are_served(rt: HostRuntime) -> Result<(), Fail> {
    let alloc = rt.alloc();
    let mut lines = Vec::new(alloc);
    let mut told = Vec::new(alloc);
    for number in 0..64u32 {
        let line = format!(in alloc; "s{number}: BEGIN;\n")?;
        lines.extend_from_slice(line.as_bytes())?;
        let answer = format!(in alloc; "s{number}: begun 0\n")?;
        told.extend_from_slice(answer.as_bytes())?;
    }
    lines.extend_from_slice(b"t: BEGIN;\ns63: COMMIT;\ns63: ROLLBACK;\nEND;\n")?;
    told.extend_from_slice(b"t: refused E09\ns63: read\ns63: refused E19\n")?;
    for number in 0..63u32 {
        let dropped = format!(in alloc; "s{number}: dropped\n")?;
        told.extend_from_slice(dropped.as_bytes())?;
    }
    told.extend_from_slice(b"order 0\nend\n")?;
    let (status, outcome, text) = served(&rt, lines.as_slice(), 4096, 0, 10_000)?;
    assert_eq!(rt; status, 0);
    assert!(rt; outcome);
    assert_eq!(rt; text.as_slice(), told.as_slice());
    Ok(())
}

#[test]
fn a_sink_of_every_smaller_room_has_the_first_bytes(rt: HostRuntime) -> Result<(), Fail> {
    let told = ANSWERS.as_bytes();
    for room in 0..told.len() {
        let (status, outcome, text) = served(&rt, LINES.as_bytes(), 60, 0, room)?;
        assert_eq!(rt; status, 4);
        assert!(rt; outcome);
        assert_eq!(rt; text.as_slice(), &told[..room]);
    }
    Ok(())
}

#[test]
fn too_many_bytes_are_an_end_of_their_own(rt: HostRuntime) -> Result<(), Fail> {
    let alloc = rt.alloc();
    let mut lines = b"a: BEGIN;\n".to_vec(alloc)?;
    for _ in lines.len()..16_777_217 {
        lines.push(b'-')?;
    }
    let (status, outcome, text) = served(&rt, lines.as_slice(), 4096, 0, 10_000)?;
    assert_eq!(rt; status, 2);
    assert!(rt; outcome);
    assert_eq!(rt;
        text.as_slice(),
        b"a: begun 0\nrefused E01\na: dropped\norder 0\nend\n".as_slice()
    );
    Ok(())
}

/// Two commits, between which a session reads the table as it was, and an open transaction at the end.
const LOGGED: &str =
    "CREATE TABLE t (n INT);\nINSERT INTO t VALUES (1);\na: BEGIN;\na: UPDATE t SET n = 5;\n\
a: COMMIT;\nb: BEGIN;\nb: INSERT INTO t VALUES (2);\nb: COMMIT;\na: BEGIN;\na: DELETE FROM t;\n";

/// What is answered.
const LOGGED_ANSWERS: &str =
    "ok\nok\na: begun 0\na: updated 1\na: committed 0\nb: begun 1\nb: inserted\nb: committed 1\n\
a: begun 2\na: deleted 2\na: dropped\norder 2\nentry 0 a.1\nchange t 0 from 1 to 5\nentry 1 b.1\n\
change t 1 from none to 2\ntable t 2\nrow 2\nrow 5\nend\n";

/// The script of the lines that define something.
const DEFINED: &str = "CREATE TABLE t (n INT); INSERT INTO t VALUES (1); END;";

/// The status and the text of a command over this input, with a disk.
fn with_disk<T: Threads + Wait + Sync + AllocGlobal>(
    rt: &T,
    words: &[&str],
    input: &str,
    disk: &mut MemDisk,
) -> Result<(u8, Vec<u8>), AllocError> {
    let alloc = rt.alloc();
    let words = words_of(alloc, words)?;
    let bytes = input.as_bytes().to_vec(alloc)?;
    let mut source = MemSource::new(bytes, 4096, Vec::new(alloc));
    let mut sink = MemSink::new(alloc, 10_000, Vec::new(alloc))?;
    let report = hy_top::run(rt, alloc, &words, &mut source, &mut sink, &OpenGate, disk);
    Ok((report.status, sink.bytes().to_vec(alloc)?))
}

#[test]
fn what_is_served_is_logged_and_recovered(rt: HostRuntime) -> Result<(), Fail> {
    let alloc = rt.alloc();
    let mut disk = MemDisk::new(alloc, Vec::new(alloc), Vec::new(alloc))?;
    let (status, text) = with_disk(&rt, &["hy", "serve", "--log"], LOGGED, &mut disk)?;
    assert_eq!(rt; status, 0);
    assert_eq!(rt; text.as_slice(), LOGGED_ANSWERS.as_bytes());
    let (status, text) = with_disk(&rt, &["hy", "recover"], DEFINED, &mut disk)?;
    assert_eq!(rt; status, 0);
    assert_eq!(rt;
        text.as_slice(),
        "table t 2\nrow 2\nrow 5\nend\n".as_bytes()
    );
    let (status, text) = with_disk(&rt, &["hy", "serve", "--log"], LOGGED, &mut disk)?;
    assert_eq!(rt; status, 7);
    assert_eq!(rt; text.as_slice(), "log: not empty\n".as_bytes());
    Ok(())
}

#[test]
fn a_line_whose_entry_is_not_logged_is_not_answered(rt: HostRuntime) -> Result<(), Fail> {
    // The log is made by three calls, and each of the two entries is appended by four.
    let alloc = rt.alloc();
    let told = LOGGED_ANSWERS.as_bytes();
    for call in 1..=11u64 {
        let mut disk = MemDisk::new(alloc, Vec::new(alloc), [call].to_vec(alloc)?)?;
        let (status, text) = with_disk(&rt, &["hy", "serve", "--log"], LOGGED, &mut disk)?;
        assert_eq!(rt; status, 6);
        let answered = if call <= 3 {
            0
        } else if call <= 7 {
            4
        } else {
            7
        };
        assert_eq!(rt; text.as_slice(), first_lines(told, answered));
    }
    Ok(())
}
