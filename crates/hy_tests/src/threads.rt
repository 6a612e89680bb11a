//! Sessions on threads of their own. The expected texts come from outside, and hold whatever the order of the threads.

use crate::made::AUDIT_TEXT;
use crate::runs::written_beside;
use hy_threads::{Gate, Moment, OpenGate, PieceGate, Point};
use std::alloc::{AllocError, Global};
use std::sync::Wait;
use std::sync::atomic::{AtomicBool, Ordering};
use std::test::Fail;
use std::thread::Threads;

/// Two accounts with 100 each.
const ACCOUNTS: &str = "CREATE TABLE acc (id INT PRIMARY KEY, bal INT); \
INSERT INTO acc VALUES (1,100); INSERT INTO acc VALUES (2,100);";

/// How often a wait looks at its flag at most.
const MOST_TURNS: u32 = 1_000_000_000;

/// A flag that one thread raises and another one waits for.
#[derive(Drop)]
struct Flag {
    raised: AtomicBool,
}

impl Flag {
    fn new() -> Flag {
        Flag {
            raised: AtomicBool::new(false),
        }
    }

    fn raise(&self) {
        self.raised.store(true, Ordering::SeqCst);
    }

    fn is_raised(&self) -> bool {
        self.raised.load(Ordering::SeqCst)
    }

    /// Waits until it is raised. False where that takes too many turns.
    fn wait(&self) -> bool {
        for _ in 0..MOST_TURNS {
            if self.is_raised() {
                return true;
            }
        }
        false
    }
}

/// One of two sessions that meet.
#[derive(Drop)]
struct Guest {
    /// It holds its chunk.
    holds: Flag,
    /// It saw that the other one holds its own.
    met: Flag,
}

impl Guest {
    fn new() -> Guest {
        Guest {
            holds: Flag::new(),
            met: Flag::new(),
        }
    }

    /// Holds its chunk until the other one holds its own.
    fn meet(&self, other: &Guest) {
        self.holds.raise();
        if other.holds.wait() {
            self.met.raise();
        }
    }
}

/// Session 0 reads table 0, and session 1 reads table 1, of one chunk each. Each holds its chunk until the other one holds
/// its own.
#[derive(Drop)]
struct Meeting {
    first: Guest,
    second: Guest,
}

impl PieceGate for Meeting {
    fn piece(&self, _piece: usize) {}
}

impl Gate for Meeting {
    fn pass(&self, point: &Point) {
        if point.moment != Moment::Held {
            return;
        }
        match (point.session, point.part) {
            (0, 0) => self.first.meet(&self.second),
            (1, 1) => self.second.meet(&self.first),
            _ => {}
        }
    }
}

/// Session 0 reads two chunks. Session 1 begins once the first of them was read, and the second one is read once session 1's
/// COMMIT is answered.
#[derive(Drop)]
struct OldReader {
    /// The first chunk was read.
    has_read: Flag,
    /// The other session's COMMIT is answered.
    has_committed: Flag,
    /// A wait took too many turns.
    is_late: Flag,
}

impl OldReader {
    fn new() -> OldReader {
        OldReader {
            has_read: Flag::new(),
            has_committed: Flag::new(),
            is_late: Flag::new(),
        }
    }

    fn wait_for(&self, flag: &Flag) {
        if !flag.wait() {
            self.is_late.raise();
        }
    }
}

impl PieceGate for OldReader {
    fn piece(&self, _piece: usize) {}
}

impl Gate for OldReader {
    fn pass(&self, point: &Point) {
        match (point.session, point.statement, point.moment) {
            (1, 0, Moment::Before) => self.wait_for(&self.has_read),
            (0, 1, Moment::After) if point.part == 0 => {
                self.has_read.raise();
                self.wait_for(&self.has_committed);
            }
            (1, 2, Moment::After) if point.answered => self.has_committed.raise(),
            _ => {}
        }
    }
}

/// Session 0 stands between its entry and its leave until session 1's BEGIN has come back unanswered: it was blocked.
#[derive(Drop)]
struct BlockedBegin {
    /// The first session's entry was made.
    has_entered: Flag,
    /// The other session's BEGIN was blocked.
    was_blocked: Flag,
    /// A wait took too many turns.
    is_late: Flag,
}

impl BlockedBegin {
    fn new() -> BlockedBegin {
        BlockedBegin {
            has_entered: Flag::new(),
            was_blocked: Flag::new(),
            is_late: Flag::new(),
        }
    }

    fn wait_for(&self, flag: &Flag) {
        if !flag.wait() {
            self.is_late.raise();
        }
    }
}

impl PieceGate for BlockedBegin {
    fn piece(&self, _piece: usize) {}
}

impl Gate for BlockedBegin {
    fn pass(&self, point: &Point) {
        match (point.session, point.statement, point.moment) {
            // The first visit that its COMMIT makes enters it; those behind it wait for nothing.
            (0, 2, Moment::After) if !point.answered => {
                self.has_entered.raise();
                self.wait_for(&self.was_blocked);
            }
            (1, 0, Moment::Before) => self.wait_for(&self.has_entered),
            (1, 0, Moment::After) if !point.answered => self.was_blocked.raise(),
            _ => {}
        }
    }
}

/// The first two shares of a visit's work, each of which waits for the other one to begin.
#[derive(Drop)]
struct SharesMeet {
    first: Guest,
    second: Guest,
}

impl PieceGate for SharesMeet {
    fn piece(&self, piece: usize) {
        match piece {
            0 => self.first.meet(&self.second),
            1 => self.second.meet(&self.first),
            _ => {}
        }
    }
}

impl Gate for SharesMeet {
    fn pass(&self, _point: &Point) {}
}

/// A script of so many rows in 7 groups, which a session counts and sums.
fn grouped_script(alloc: Global, rows: u32) -> Result<String, AllocError> {
    let mut script = String::new(alloc);
    script.push_str("CREATE TABLE t (id INT PRIMARY KEY, kind INT, bal INT); ")?;
    for id in 0..rows {
        let row = format!(in alloc; "INSERT INTO t VALUES ({id},{},{id}); ", id % 7)?;
        script.push_str(row.as_str())?;
    }
    script.push_str("SESSION a; BEGIN READ ONLY; ")?;
    script.push_str("SELECT kind, COUNT(*) FROM t GROUP BY kind; ")?;
    script.push_str("SELECT kind, SUM(bal) FROM t GROUP BY kind; COMMIT; END;")?;
    Ok(script)
}

/// The status and the text of a run on threads of two accounts and this rest of a script. A table has so many chunks of so
/// many rows.
fn ran<T: Threads + Wait + Sync + AllocGlobal, G: Gate>(
    rt: &T,
    gate: &G,
    layout: (&str, &str),
    rest: &str,
) -> Result<(u8, Vec<u8>), AllocError> {
    let alloc = rt.alloc();
    let (chunks, rows) = layout;
    let words = ["hy", "run", "--threads", "--chunks", chunks, "--rows", rows];
    let script = format!(in alloc; "{ACCOUNTS} {rest} END;")?;
    written_beside(rt, gate, &words, script.as_bytes().to_vec(alloc)?)
}

/// The status and the text of `gen` on threads.
fn made<T: Threads + Wait + Sync + AllocGlobal>(
    rt: &T,
    seed: &str,
    sessions: &str,
    transactions: &str,
) -> Result<(u8, Vec<u8>), AllocError> {
    let words = [
        "hy",
        "gen",
        "--seed",
        seed,
        "--sessions",
        sessions,
        "--transactions",
        transactions,
        "--threads",
    ];
    written_beside(rt, &OpenGate, &words, Vec::new(rt.alloc()))
}

/// How many transactions are committed, by the text of a run.
fn committed(text: &str) -> Option<u32> {
    for line in text.lines() {
        if let Some(count) = line.strip_prefix("order ") {
            return count.parse().ok();
        }
    }
    None
}

#[test]
fn a_session_reads_its_own_write(rt: HostRuntime) -> Result<(), Fail> {
    let session = "SESSION a; BEGIN; SELECT * FROM acc; UPDATE acc SET bal = 90 WHERE id = 1; \
SELECT bal FROM acc WHERE id = 1; COMMIT;";
    let (status, text) = ran(&rt, &OpenGate, ("1", "4"), session)?;
    assert_eq!(rt; status, 0);
    assert_eq!(rt;
        text.as_slice(),
        b"txn a.1 start 0\nrows 2\nrow 1|100\nrow 2|100\nupdated 1\nrows 1\nrow 90\ncommitted 0\nwrote acc 0\n\
order 1\nentry 0 a.1\nchange acc 0 from 1|100 to 1|90\ntable acc 2\nrow 1|90\nrow 2|100\nend\n"
            .as_slice()
    );
    Ok(())
}

#[test]
fn two_sessions_hold_a_chunk_each(rt: HostRuntime) -> Result<(), Fail> {
    let sessions = "CREATE TABLE note (n INT); SESSION a; BEGIN; SELECT * FROM acc; COMMIT; \
SESSION b; BEGIN; SELECT * FROM note; COMMIT;";
    let meeting = Meeting {
        first: Guest::new(),
        second: Guest::new(),
    };
    let (status, _) = ran(&rt, &meeting, ("1", "4"), sessions)?;
    assert_eq!(rt; status, 0);
    assert!(rt; meeting.first.met.is_raised());
    assert!(rt; meeting.second.met.is_raised());
    Ok(())
}

#[test]
fn shares_of_a_visit_meet_and_groups_are_the_same(rt: HostRuntime) -> Result<(), Fail> {
    let alloc = rt.alloc();
    let layout = ["--chunks", "8", "--rows", "1000"];
    let script = grouped_script(alloc, 8000)?;
    let alone = ["hy", "run", layout[0], layout[1], layout[2], layout[3]];
    let (status, expected) = written_beside(
        &rt,
        &OpenGate,
        &alone,
        script.as_bytes().to_vec(alloc)?,
    )?;
    assert_eq!(rt; status, 0);
    let gate = SharesMeet {
        first: Guest::new(),
        second: Guest::new(),
    };
    let beside = [
        "hy",
        "run",
        "--threads",
        layout[0],
        layout[1],
        layout[2],
        layout[3],
    ];
    let (status, text) = written_beside(&rt, &gate, &beside, script.as_bytes().to_vec(alloc)?)?;
    assert_eq!(rt; status, 0);
    assert!(rt; gate.first.met.is_raised());
    assert!(rt; gate.second.met.is_raised());
    assert!(rt; text.as_slice() == expected.as_slice());
    Ok(())
}

#[test]
fn a_reader_keeps_its_snapshot(rt: HostRuntime) -> Result<(), Fail> {
    let sessions = "SESSION a; BEGIN READ ONLY; SELECT SUM(bal) FROM acc; COMMIT; \
SESSION b; BEGIN; UPDATE acc SET bal = 0 WHERE id = 2; COMMIT;";
    let reader = OldReader::new();
    let (status, text) = ran(&rt, &reader, ("2", "1"), sessions)?;
    assert_eq!(rt; status, 0);
    assert!(rt; !reader.is_late.is_raised());
    assert_eq!(rt;
        text.as_slice(),
        b"txn a.1 start 0\nvalue 200\nread\ntxn b.1 start 0\nupdated 1\ncommitted 0\nwrote acc 1\n\
order 1\nentry 0 b.1\nchange acc 1 from 2|100 to 2|0\ntable acc 2\nrow 1|100\nrow 2|0\nend\n"
            .as_slice()
    );
    Ok(())
}

#[test]
fn a_blocked_session_goes_on_once_the_other_has_left(rt: HostRuntime) -> Result<(), Fail> {
    let sessions = "SESSION c; BEGIN; UPDATE acc SET bal = 90 WHERE id = 1; COMMIT; \
SESSION d; BEGIN; UPDATE acc SET bal = 110 WHERE id = 2; COMMIT;";
    let blocked = BlockedBegin::new();
    let (status, text) = ran(&rt, &blocked, ("1", "4"), sessions)?;
    assert_eq!(rt; status, 0);
    assert!(rt; blocked.was_blocked.is_raised());
    assert!(rt; !blocked.is_late.is_raised());
    assert_eq!(rt;
        text.as_slice(),
        b"txn c.1 start 0\nupdated 1\ncommitted 0\nwrote acc 0\ntxn d.1 start 1\nupdated 1\ncommitted 1\nwrote acc 1\n\
order 2\nentry 0 c.1\nchange acc 0 from 1|100 to 1|90\nentry 1 d.1\nchange acc 1 from 2|100 to 2|110\ntable acc 2\nrow 1|90\nrow 2|110\nend\n"
            .as_slice()
    );
    Ok(())
}

#[test]
fn an_audit_on_a_thread(rt: HostRuntime) -> Result<(), Fail> {
    let (status, text) = made(&rt, "1", "1", "1")?;
    assert_eq!(rt; status, 0);
    assert_eq!(rt; text.as_slice(), AUDIT_TEXT.as_bytes());
    Ok(())
}

#[test]
fn as_many_writers_of_one_row_as_there_may_be(rt: HostRuntime) -> Result<(), Fail> {
    let alloc = rt.alloc();
    let mut sessions = String::new(alloc);
    for number in 1..=64u32 {
        let session = format!(in alloc;
            "SESSION s{number}; BEGIN; UPDATE acc SET bal = 1 WHERE id = 1; COMMIT; "
        )?;
        sessions.push_str(session.as_str())?;
    }
    let (status, text) = ran(&rt, &OpenGate, ("1", "4"), sessions.as_str())?;
    assert_eq!(rt; status, 0);
    let text = str::from_utf8(text.as_slice())?;
    assert!(rt; matches!(committed(text), Some(1..=64)));
    assert!(rt; text.ends_with("table acc 2\nrow 1|1\nrow 2|100\nend\n"));
    Ok(())
}

#[test]
fn a_bank_keeps_its_money(rt: HostRuntime) -> Result<(), Fail> {
    let (status, text) = made(&rt, "7", "8", "100")?;
    assert_eq!(rt; status, 0);
    let text = str::from_utf8(text.as_slice())?;
    assert!(rt; text.lines().any(|line| line == "transactions 800"));
    assert!(rt; text.lines().any(|line| line == "total 64000"));
    Ok(())
}
