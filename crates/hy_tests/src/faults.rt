//! Reads that fail, and sinks that are too small.

use crate::runs::{OLD_SNAPSHOT, OLD_SNAPSHOT_TEXT, words_of};
use hy_disk::NoDisk;
use hy_outside::{MemSink, MemSource};
use hy_threads::OpenGate;
use std::test::Fail;

#[test]
fn a_read_fault_at_each_call(rt: HostRuntime) -> Result<(), Fail> {
    let alloc = rt.alloc();
    let words = words_of(alloc, &["hy", "run"])?;
    // Each byte comes by a call of its own, and one more call finds the end.
    let calls = (OLD_SNAPSHOT.len() as u64).saturating_add(1);
    for call in 1..=calls.saturating_add(1) {
        let bytes = OLD_SNAPSHOT.as_bytes().to_vec(alloc)?;
        let mut source = MemSource::new(bytes, 1, [call].to_vec(alloc)?);
        let mut sink = MemSink::new(alloc, 10_000, Vec::new(alloc))?;
        let report = hy_top::run(
            &rt,
            alloc,
            &words,
            &mut source,
            &mut sink,
            &OpenGate,
            &mut NoDisk,
        );
        if call <= calls {
            assert_eq!(rt; report.status, 3);
            assert!(rt; report.outcome.is_none());
            assert!(rt; sink.bytes().is_empty());
        } else {
            assert_eq!(rt; report.status, 0);
        }
    }
    Ok(())
}

#[test]
fn a_sink_of_every_smaller_room(rt: HostRuntime) -> Result<(), Fail> {
    let alloc = rt.alloc();
    let words = words_of(alloc, &["hy", "run"])?;
    let text = OLD_SNAPSHOT_TEXT.as_bytes();
    for room in 0..text.len() {
        let bytes = OLD_SNAPSHOT.as_bytes().to_vec(alloc)?;
        let mut source = MemSource::new(bytes, 60, Vec::new(alloc));
        let mut sink = MemSink::new(alloc, room, Vec::new(alloc))?;
        let report = hy_top::run(
            &rt,
            alloc,
            &words,
            &mut source,
            &mut sink,
            &OpenGate,
            &mut NoDisk,
        );
        assert_eq!(rt; report.status, 4);
        assert!(rt; report.outcome.is_some());
        assert_eq!(rt; sink.bytes(), &text[..room]);
    }
    Ok(())
}
