//! Runs `hy`, and tells on standard error how long its sessions ran on threads, without what is read before and told behind.
//!
//! The first word is how many transactions each session has, and the others are those of `hy`. A line of four numbers is
//! told, nanoseconds all of them: of the sessions by the clock and by the processor, and of the whole call by both.
#![tactic(auto)]

use hy_disk::NoDisk;
use hy_outside::{StdSink, StdSource};
use hy_threads::{Gate, Moment, PieceGate, Point};
use std::process::ExitCode;
use std::rt::Runtime;
use std::sync::Wait;
use std::sync::atomic::{AtomicU64, Ordering};
use std::thread::Threads;
use std::time::{Clock, CpuClock, Duration};
use std::{env, io};

/// What both clocks showed, in nanoseconds; 0 where they were not read.
#[derive(Drop)]
struct Reading {
    clock: AtomicU64,
    processor: AtomicU64,
}

impl Reading {
    /// Clocks that were not read.
    fn new() -> Reading {
        Reading {
            clock: AtomicU64::new(0),
            processor: AtomicU64::new(0),
        }
    }

    /// Reads both clocks.
    fn take(&self, clocks: &(impl Clock + CpuClock)) {
        let read = nanos(clocks.monotonic());
        self.clock.store(read, Ordering::SeqCst);
        let read = nanos(clocks.process_cpu_time());
        self.processor.store(read, Ordering::SeqCst);
    }

    /// Whether the clocks were read.
    fn is_taken(&self) -> bool {
        self.clock.load(Ordering::SeqCst) != 0
    }

    /// How long after an earlier reading by the clock, and by the processor.
    fn since(&self, earlier: &Reading) -> (u64, u64) {
        (
            between(&earlier.clock, &self.clock),
            between(&earlier.processor, &self.processor),
        )
    }
}

/// How far the second is above the first.
fn between(first: &AtomicU64, second: &AtomicU64) -> u64 {
    let first = first.load(Ordering::SeqCst);
    second.load(Ordering::SeqCst).saturating_sub(first)
}

/// A time in nanoseconds; 0 where a clock told none.
fn nanos(time: io::Result<Duration>) -> u64 {
    match time {
        Ok(time) => u64::try_from(time.as_nanos()).unwrap_or(u64::MAX),
        Err(_) => 0,
    }
}

/// Notes when the first visit begins, and when each visit of a session's last transaction has ended.
#[derive(Drop)]
struct Watch<'a, C> {
    clocks: &'a C,
    /// How many transactions each session has.
    last: u32,
    began: Reading,
    ended: Reading,
}

impl<C: Clock + CpuClock + Sync> PieceGate for Watch<'_, C> {
    fn piece(&self, _piece: usize) {}
}

impl<C: Clock + CpuClock + Sync> Gate for Watch<'_, C> {
    fn pass(&self, point: &Point) {
        match point.moment {
            Moment::Before if !self.began.is_taken() => self.began.take(self.clocks),
            Moment::After if point.txn >= self.last => self.ended.take(self.clocks),
            _ => {}
        }
    }
}

/// Runs `hy` with the words behind the first two, and tells how long it took.
fn main(rt: HostRuntime) -> io::Result<ExitCode> {
    let mut words: Vec<String> = env::args(&rt)?.collect(rt.alloc())?;
    let Some(last) = number_in(&mut words) else {
        eprintln!(rt; "usage: hy_timed TRANSACTIONS run|check|gen")?;
        return Ok(ExitCode::from(1));
    };
    let watch = Watch {
        clocks: &rt,
        last,
        began: Reading::new(),
        ended: Reading::new(),
    };
    let status = run_watched(&rt, &words, &watch)?;
    Ok(ExitCode::from(status))
}

/// The number that the second word is, which is taken out. None where it is no number.
fn number_in(words: &mut Vec<String>) -> Option<u32> {
    if words.len() < 2 {
        return None;
    }
    words.remove(1).parse().ok()
}

/// Runs `hy` with these words beside a watch, tells how long it took, and gives its status.
fn run_watched<T: Runtime + CpuClock + Threads + Wait + Sync + AllocGlobal>(
    rt: &T,
    words: &[String],
    watch: &Watch<'_, T>,
) -> io::Result<u8> {
    let mut source = StdSource::new(rt.reader());
    let mut sink = StdSink::new(io::writer(rt));
    let before = Reading::new();
    let after = Reading::new();
    before.take(rt);
    let status = hy_top::run(
        rt,
        rt.alloc(),
        words,
        &mut source,
        &mut sink,
        watch,
        &mut NoDisk,
    )
    .status;
    after.take(rt);
    let (clock, processor) = watch.ended.since(&watch.began);
    let (whole_clock, whole_processor) = after.since(&before);
    eprintln!(rt; "{clock} {processor} {whole_clock} {whole_processor}")?;
    Ok(status)
}
