//! A script and its text, the words of a command, and its run. The expected text comes from an independent program.

use hy_disk::NoDisk;
use hy_outside::{MemSink, MemSource};
use hy_threads::Gate;
use std::alloc::{AllocError, Global};
use std::sync::Wait;
use std::thread::Threads;

/// What a reader sees that began before the writer's commit.
pub const OLD_SNAPSHOT: &str = "CREATE TABLE t (n INT); INSERT INTO t VALUES (1); \
SESSION a; BEGIN; UPDATE t SET n = 5 WHERE n = 1; COMMIT; \
SESSION b; BEGIN; SELECT n FROM t WHERE n > 0; COMMIT; \
SCHEDULE b! a! a! a! b!; END;";

/// Its text.
pub const OLD_SNAPSHOT_TEXT: &str = "txn a.1 start 0\nupdated 1\ncommitted 0\nwrote t 0\n\
txn b.1 start 0\nrows 1\nrow 1\nread\n\
order 1\nentry 0 a.1\nchange t 0 from 1 to 5\ntable t 1\nrow 5\nend\n";

/// Words of a command.
pub fn words_of(alloc: Global, words: &[&str]) -> Result<Vec<String>, AllocError> {
    let mut all = Vec::new(alloc);
    for word in words {
        all.push(String::from_str(alloc, word)?)?;
    }
    Ok(all)
}

/// The status and the text of a command on a script of these bytes. The gate is told of visits where sessions run on
/// threads.
pub fn written_beside<T: Threads + Wait + Sync + AllocGlobal, G: Gate>(
    rt: &T,
    gate: &G,
    words: &[&str],
    script: Vec<u8>,
) -> Result<(u8, Vec<u8>), AllocError> {
    let alloc = rt.alloc();
    let words = words_of(alloc, words)?;
    let room = script.len().saturating_mul(2).saturating_add(10_000);
    let mut source = MemSource::new(script, 4096, Vec::new(alloc));
    let mut sink = MemSink::new(alloc, room, Vec::new(alloc))?;
    let report = hy_top::run(rt, alloc, &words, &mut source, &mut sink, gate, &mut NoDisk);
    Ok((report.status, sink.bytes().to_vec(alloc)?))
}
