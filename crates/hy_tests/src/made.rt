//! What `gen` writes. The expected summaries come from an independent program.

use crate::runs::words_of;
use hy_disk::NoDisk;
use hy_outside::{MemSink, MemSource};
use hy_threads::OpenGate;
use std::alloc::AllocError;
use std::sync::Wait;
use std::test::Fail;
use std::thread::Threads;

/// What `gen` writes of one audit.
pub const AUDIT_TEXT: &str =
    "transactions 1\ncommitted 0\nread 1\nconflict 0\ninvalid 0\ntotal 64000\nend\n";

/// The status and the text of `gen` with this seed, of one session of one transaction, and the bytes that stay in
/// the source.
fn summary<T: Threads + Wait + Sync + AllocGlobal>(
    rt: &T,
    seed: &str,
) -> Result<(u8, Vec<u8>, usize), AllocError> {
    let alloc = rt.alloc();
    let words = words_of(
        alloc,
        &[
            "hy",
            "gen",
            "--seed",
            seed,
            "--sessions",
            "1",
            "--transactions",
            "1",
        ],
    )?;
    let mut source = MemSource::new(b"END;".to_vec(alloc)?, 7, Vec::new(alloc));
    let mut sink = MemSink::new(alloc, 10_000, Vec::new(alloc))?;
    let report = hy_top::run(
        rt,
        alloc,
        &words,
        &mut source,
        &mut sink,
        &OpenGate,
        &mut NoDisk,
    );
    let wrote = sink.bytes().to_vec(alloc)?;
    let left = hy_outside::read_all(alloc, &mut source, 100);
    let left = match left {
        Ok(bytes) => bytes.len(),
        Err(_) => 0,
    };
    Ok((report.status, wrote, left))
}

#[test]
fn a_transfer_commits_and_keeps_the_sum(rt: HostRuntime) -> Result<(), Fail> {
    let (status, text, left) = summary(&rt, "0")?;
    assert_eq!(rt; (status, left), (0, 4));
    assert_eq!(rt;
        text.as_slice(),
        b"transactions 1\ncommitted 1\nread 0\nconflict 0\ninvalid 0\ntotal 64000\nend\n".as_slice()
    );
    Ok(())
}

#[test]
fn an_audit_only_reads(rt: HostRuntime) -> Result<(), Fail> {
    let (status, text, _) = summary(&rt, "1")?;
    assert_eq!(rt; status, 0);
    assert_eq!(rt; text.as_slice(), AUDIT_TEXT.as_bytes());
    Ok(())
}
