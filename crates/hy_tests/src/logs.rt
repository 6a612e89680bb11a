//! Runs that keep a redo log on a disk in memory, crashes of it, and what is recovered. The expected texts and lengths come
//! from outside.

use crate::runs::{OLD_SNAPSHOT, OLD_SNAPSHOT_TEXT, words_of};
use hy_disk::MemDisk;
use hy_outside::{MemSink, MemSource};
use hy_threads::{Gate, Moment, OpenGate, PieceGate, Point};
use std::alloc::{AllocError, Global};
use std::sync::Wait;
use std::sync::atomic::{AtomicBool, AtomicU64, Ordering};
use std::test::Fail;
use std::thread::Threads;

/// The tables before the commit, as `recover` writes them.
const BEFORE: &[u8] = b"table t 1\nrow 1\nend\n";

/// And after it.
const AFTER: &[u8] = b"table t 1\nrow 5\nend\n";

/// And after it, as `recover --script` writes them.
const DUMPED: &[u8] = b"CREATE TABLE t (n INT);\nINSERT INTO t VALUES (5);\n";

/// A script whose tables have a key, a NULL, a quote, an empty text, the least number, and no rows.
const KEPT: &[u8] =
    b"CREATE TABLE acc (id INT PRIMARY KEY, who TEXT, bal INT); CREATE TABLE none (n INT); \
INSERT INTO acc VALUES (7, 'o''hara', NULL); SESSION a; BEGIN; \
INSERT INTO acc VALUES (-9223372036854775808, '', 1); UPDATE acc SET bal = -5 WHERE id = 7; \
UPDATE acc SET bal = NULL WHERE who = ''; COMMIT; END;";

/// Its tables at the end.
const KEPT_TABLES: &[u8] =
    b"table acc 2\nrow -9223372036854775808|''|NULL\nrow 7|'o''hara'|-5\ntable none 0\nend\n";

/// The time of the disk once a log is made: a write and a sync.
const MADE: u64 = 2;

/// A disk of these bytes, of which the calls of these numbers fail.
fn disk_of(alloc: Global, bytes: &[u8], fails: &[u64]) -> Result<MemDisk, AllocError> {
    MemDisk::new(alloc, bytes.to_vec(alloc)?, fails.to_vec(alloc)?)
}

/// The status and the text of a command on the script of an old snapshot.
fn came_to<T: Threads + Wait + Sync + AllocGlobal>(
    rt: &T,
    words: &[&str],
    disk: &mut MemDisk,
) -> Result<(u8, Vec<u8>), AllocError> {
    came_of(rt, words, OLD_SNAPSHOT.as_bytes(), disk)
}

/// The status and the text of a command on a script.
fn came_of<T: Threads + Wait + Sync + AllocGlobal>(
    rt: &T,
    words: &[&str],
    script: &[u8],
    disk: &mut MemDisk,
) -> Result<(u8, Vec<u8>), AllocError> {
    came_beside(rt, &OpenGate, words, script, disk)
}

/// The same with a gate, which is told of visits where sessions run on threads.
fn came_beside<T: Threads + Wait + Sync + AllocGlobal, G: Gate>(
    rt: &T,
    gate: &G,
    words: &[&str],
    script: &[u8],
    disk: &mut MemDisk,
) -> Result<(u8, Vec<u8>), AllocError> {
    let alloc = rt.alloc();
    let words = words_of(alloc, words)?;
    let mut source = MemSource::new(script.to_vec(alloc)?, 4096, Vec::new(alloc));
    let mut sink = MemSink::new(alloc, 10_000, Vec::new(alloc))?;
    let report = hy_top::run(rt, alloc, &words, &mut source, &mut sink, gate, disk);
    Ok((report.status, sink.bytes().to_vec(alloc)?))
}

/// How many sessions commit at once.
const WRITERS: u64 = 8;

/// The number of the log's part beside a table of one chunk for each of them: the core stands before it.
const LOG_PART: usize = 9;

/// Whoever is first to hold the log waits there until each session has left its transaction.
#[derive(Drop)]
struct AllLeave {
    /// A bit for each session that has.
    left: AtomicU64,
    /// A wait took too many turns.
    is_late: AtomicBool,
}

impl AllLeave {
    fn has_all(&self) -> bool {
        self.left.load(Ordering::SeqCst).count_ones() as u64 == WRITERS
    }

    /// Waits until all have left.
    fn wait(&self) {
        for _ in 0..1_000_000_000u32 {
            if self.has_all() {
                return;
            }
        }
        self.is_late.store(true, Ordering::SeqCst);
    }
}

impl PieceGate for AllLeave {
    fn piece(&self, _piece: usize) {}
}

impl Gate for AllLeave {
    fn pass(&self, point: &Point) {
        match (point.part, point.txn, point.moment) {
            (LOG_PART, _, Moment::Held) => self.wait(),
            (_, 2, Moment::Before) => {
                self.left
                    .fetch_or(1 << (point.session % 64), Ordering::SeqCst);
            }
            _ => {}
        }
    }
}

/// Whether `recover` makes one of these texts of each of these images.
fn each_recovers<T: Threads + Wait + Sync + AllocGlobal>(
    rt: &T,
    images: &[Vec<u8>],
    texts: &[&[u8]],
) -> Result<bool, AllocError> {
    for image in images {
        let mut disk = disk_of(rt.alloc(), image.as_slice(), &[])?;
        let (status, text) = came_to(rt, &["hy", "recover"], &mut disk)?;
        if status != 0 || !texts.iter().any(|wanted| *wanted == text.as_slice()) {
            return Ok(false);
        }
    }
    Ok(true)
}

#[test]
fn a_log_is_kept_and_recovered(rt: HostRuntime) -> Result<(), Fail> {
    let mut disk = disk_of(rt.alloc(), &[], &[])?;
    let (status, text) = came_to(&rt, &["hy", "run", "--log"], &mut disk)?;
    assert_eq!(rt; status, 0);
    assert_eq!(rt; text.as_slice(), OLD_SNAPSHOT_TEXT.as_bytes());
    assert_eq!(rt; disk.bytes().len(), 74);
    let (status, text) = came_to(&rt, &["hy", "recover"], &mut disk)?;
    assert_eq!(rt; (status, text.as_slice()), (0, AFTER));
    let (status, text) = came_to(&rt, &["hy", "recover", "--script"], &mut disk)?;
    assert_eq!(rt; (status, text.as_slice()), (0, DUMPED));
    let (status, text) = came_to(&rt, &["hy", "run", "--log"], &mut disk)?;
    assert_eq!(rt;
        (status, text.as_slice()),
        (7, b"log: not empty\n".as_slice())
    );
    let mut front = disk.bytes().to_vec(rt.alloc())?;
    front.truncate(40);
    let mut cut = disk_of(rt.alloc(), front.as_slice(), &[])?;
    let (status, text) = came_to(&rt, &["hy", "recover"], &mut cut)?;
    assert_eq!(rt;
        (status, text.as_slice()),
        (7, b"log: damaged at 8\n".as_slice())
    );
    Ok(())
}

#[test]
fn what_is_dumped_is_read_back(rt: HostRuntime) -> Result<(), Fail> {
    let alloc = rt.alloc();
    let mut disk = disk_of(alloc, &[], &[])?;
    let (status, _) = came_of(&rt, &["hy", "run", "--log"], KEPT, &mut disk)?;
    assert_eq!(rt; status, 0);
    let (status, told) = came_of(&rt, &["hy", "recover"], KEPT, &mut disk)?;
    assert_eq!(rt; (status, told.as_slice()), (0, KEPT_TABLES));
    let (_, mut dumped) = came_of(&rt, &["hy", "recover", "--script"], KEPT, &mut disk)?;
    dumped.extend_from_slice(b"END;")?;
    let (status, text) = came_of(&rt, &["hy", "run"], dumped.as_slice(), &mut disk)?;
    assert_eq!(rt; status, 0);
    let mut wanted = b"order 0\n".to_vec(alloc)?;
    wanted.extend_from_slice(KEPT_TABLES)?;
    assert_eq!(rt; text.as_slice(), wanted.as_slice());
    Ok(())
}

/// The status of the call where a call of the disk fails, one after another, each before the text is written: it is 6, and what
/// a crash leaves recovers to the tables before the commit, or where the last call failed to those after it. The log is made by
/// three calls, and the one entry is appended by four.
fn is_told_of_each_fault<T: Threads + Wait + Sync + AllocGlobal>(
    rt: &T,
    words: &[&str],
) -> Result<bool, AllocError> {
    for call in 1..=7u64 {
        let mut disk = disk_of(rt.alloc(), &[], &[call])?;
        let (status, text) = came_to(rt, words, &mut disk)?;
        if status != 6 || !text.is_empty() {
            return Ok(false);
        }
        if call > 3 {
            let images = disk.images(rt.alloc(), MADE)?;
            let texts: &[&[u8]] = if call < 7 {
                &[BEFORE]
            } else {
                &[BEFORE, AFTER]
            };
            if images.is_empty() || !each_recovers(rt, images.as_slice(), texts)? {
                return Ok(false);
            }
        }
    }
    Ok(true)
}

#[test]
fn a_fault_at_each_call_of_the_disk(rt: HostRuntime) -> Result<(), Fail> {
    assert!(rt; is_told_of_each_fault(&rt, &["hy", "run", "--log"])?);
    assert!(rt; is_told_of_each_fault(&rt, &["hy", "run", "--log", "--threads"])?);
    Ok(())
}

#[test]
fn one_session_on_a_thread_leaves_the_same_log(rt: HostRuntime) -> Result<(), Fail> {
    let alloc = rt.alloc();
    let mut alone = disk_of(alloc, &[], &[])?;
    let (status, told) = came_of(&rt, &["hy", "run", "--log"], KEPT, &mut alone)?;
    assert_eq!(rt; status, 0);
    let mut disk = disk_of(alloc, &[], &[])?;
    let words = ["hy", "run", "--log", "--threads"];
    let (status, text) = came_of(&rt, &words, KEPT, &mut disk)?;
    assert_eq!(rt; (status, text.as_slice()), (0, told.as_slice()));
    assert!(rt; disk.bytes() == alone.bytes());
    let (status, text) = came_of(&rt, &words, KEPT, &mut disk)?;
    assert_eq!(rt;
        (status, text.as_slice()),
        (7, b"log: not empty\n".as_slice())
    );
    Ok(())
}

#[test]
fn sessions_on_threads_leave_a_log_of_their_order(rt: HostRuntime) -> Result<(), Fail> {
    let alloc = rt.alloc();
    let mut script = String::from_str(alloc, "CREATE TABLE t (n INT); INSERT INTO t VALUES (0); ")?;
    for number in 1..=16u32 {
        let session = format!(in alloc;
            "SESSION s{number}; BEGIN; UPDATE t SET n = {number}; COMMIT; "
        )?;
        script.push_str(session.as_str())?;
    }
    script.push_str("END;")?;
    let script = script.as_bytes();
    let mut disk = disk_of(alloc, &[], &[])?;
    let words = ["hy", "run", "--threads", "--log"];
    let (status, text) = came_of(&rt, &words, script, &mut disk)?;
    assert_eq!(rt; status, 0);
    let (status, tables) = came_of(&rt, &["hy", "recover"], script, &mut disk)?;
    assert_eq!(rt; status, 0);
    assert!(rt; text.as_slice().ends_with(tables.as_slice()));
    Ok(())
}

/// The first entry is appended alone, and the seven that come meanwhile together: with the making of the log that takes eleven
/// calls of the disk, the twelfth of which would fail.
#[test]
fn entries_that_wait_share_an_append(rt: HostRuntime) -> Result<(), Fail> {
    let alloc = rt.alloc();
    let mut script = String::new(alloc);
    for number in 0..WRITERS {
        let table = format!(in alloc;
            "CREATE TABLE t{number} (n INT); INSERT INTO t{number} VALUES (0); "
        )?;
        script.push_str(table.as_str())?;
    }
    for number in 0..WRITERS {
        let session = format!(in alloc;
            "SESSION s{number}; BEGIN; UPDATE t{number} SET n = 1; COMMIT; "
        )?;
        script.push_str(session.as_str())?;
    }
    script.push_str("END;")?;
    let mut disk = disk_of(alloc, &[], &[12])?;
    let gate = AllLeave {
        left: AtomicU64::new(0),
        is_late: AtomicBool::new(false),
    };
    let words = [
        "hy",
        "run",
        "--threads",
        "--log",
        "--chunks",
        "1",
        "--rows",
        "1",
    ];
    let (status, _) = came_beside(&rt, &gate, &words, script.as_bytes(), &mut disk)?;
    assert_eq!(rt; status, 0);
    assert!(rt; !gate.is_late.load(Ordering::SeqCst));
    Ok(())
}
