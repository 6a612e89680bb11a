//! Workers, each on a thread of its own, or together on one.

use crate::counting::{Adder, Counter, Counting};
use hy_threads::{Gate, Moment, OpenGate, PieceGate, Point, Ran, run_all};
use std::alloc::AllocError;
use std::sync::Wait;
use std::sync::atomic::{AtomicBool, AtomicU64, Ordering};
use std::test::Fail;
use std::thread::Threads;

/// A session that adds 1 so many times.
fn adder(number: u32, turns: u32) -> Adder {
    Adder {
        number,
        turns: Some(turns),
        awaits: 0,
        starves: false,
        offers: 0,
        commits: false,
        owes: None,
    }
}

/// How often a wait looks at its flag at most.
const MOST_TURNS: u32 = 1_000_000_000;

/// Session 1 begins once session 0 has found no memory, and its visits are counted.
#[derive(Drop)]
struct OneStarves {
    has_starved: AtomicBool,
    visits: AtomicU64,
}

impl OneStarves {
    /// Waits until session 0 has found no memory, or for too many turns.
    fn wait(&self) {
        for _ in 0..MOST_TURNS {
            if self.has_starved.load(Ordering::SeqCst) {
                return;
            }
        }
    }
}

impl PieceGate for OneStarves {
    fn piece(&self, _piece: usize) {}
}

impl Gate for OneStarves {
    fn pass(&self, point: &Point) {
        match (point.session, point.moment) {
            (0, Moment::After) => self.has_starved.store(true, Ordering::SeqCst),
            (1, Moment::Before) => self.wait(),
            (1, Moment::After) => {
                self.visits.fetch_add(1, Ordering::SeqCst);
            }
            _ => {}
        }
    }
}

/// Notes which shares are begun: the share of a number adds 1 at the digit of that number.
#[derive(Drop)]
struct Shares {
    begun: AtomicU64,
}

impl PieceGate for Shares {
    fn piece(&self, piece: usize) {
        let digit = match piece {
            0 => 1,
            1 => 10,
            2 => 100,
            _ => 1000,
        };
        self.begun.fetch_add(digit, Ordering::SeqCst);
    }
}

impl Gate for Shares {
    fn pass(&self, _point: &Point) {}
}

/// Tells a time that moves on by so much at each look, and notes which sessions visit: a digit each, one more than its number.
#[derive(Drop)]
struct Watched {
    time: AtomicU64,
    step: u64,
    visitors: AtomicU64,
}

impl Watched {
    /// Nothing was noted.
    fn new(step: u64) -> Watched {
        Watched {
            time: AtomicU64::new(0),
            step,
            visitors: AtomicU64::new(0),
        }
    }
}

impl PieceGate for Watched {
    fn piece(&self, _piece: usize) {}
}

impl Gate for Watched {
    fn pass(&self, point: &Point) {
        if point.moment == Moment::After {
            let before = self.visitors.load(Ordering::SeqCst).wrapping_mul(10);
            let now = before
                .wrapping_add(u64::from(point.session))
                .wrapping_add(1);
            self.visitors.store(now, Ordering::SeqCst);
        }
    }

    fn nanos(&self) -> Option<u64> {
        Some(self.time.fetch_add(self.step, Ordering::SeqCst))
    }
}

/// In its last turn each of two sessions waits until the other one is in its last turn too. Two milliseconds pass at each look.
#[derive(Drop)]
struct LastTurnsMeet {
    time: AtomicU64,
    /// A bit for each session that is in its last turn.
    last: AtomicU64,
    /// A wait took too many turns.
    is_late: AtomicBool,
}

impl LastTurnsMeet {
    /// Waits for both, or for too many turns.
    fn wait(&self) {
        for _ in 0..MOST_TURNS {
            if self.last.load(Ordering::SeqCst) == 3 {
                return;
            }
        }
        self.is_late.store(true, Ordering::SeqCst);
    }
}

impl PieceGate for LastTurnsMeet {
    fn piece(&self, _piece: usize) {}
}

impl Gate for LastTurnsMeet {
    fn pass(&self, point: &Point) {
        if point.statement == 1 && point.moment == Moment::Before {
            self.last
                .fetch_or(1 << (point.session % 64), Ordering::SeqCst);
            self.wait();
        }
    }

    fn nanos(&self) -> Option<u64> {
        Some(self.time.fetch_add(2_000_000, Ordering::SeqCst))
    }
}

/// Two sessions run over a counter that begins at 0.
fn run_two<T: Threads + Wait + Sync + AllocGlobal, G: Gate>(
    rt: &T,
    gate: &G,
    first: Adder,
    second: Adder,
) -> Result<Ran<Counting>, AllocError> {
    let alloc = rt.alloc();
    let mut counters = Vec::new(alloc);
    counters.push(Counter { count: 0, sure: 0 })?;
    let mut sessions = Vec::new(alloc);
    sessions.push(first)?;
    sessions.push(second)?;
    Ok(run_all::<T, Counting, G>(rt, alloc, counters, sessions, gate))
}

/// What the one counter stands at. Where there is another number of counters: 0.
fn count_of(counters: &[Counter]) -> u64 {
    match counters {
        [counter] => counter.count,
        _ => 0,
    }
}

/// What a counter that begins at 0 comes to where two sessions run over it.
fn counted<T: Threads + Wait + Sync + AllocGlobal, G: Gate>(
    rt: &T,
    gate: &G,
    first: Adder,
    second: Adder,
) -> Result<u64, AllocError> {
    let ran = run_two(rt, gate, first, second)?;
    if ran.is_starved {
        return Err(AllocError);
    }
    Ok(count_of(&ran.parts))
}

#[test]
fn two_sessions_add_to_a_counter(rt: HostRuntime) -> Result<(), Fail> {
    assert_eq!(rt; counted(&rt, &OpenGate, adder(0, 5), adder(1, 5))?, 10);
    Ok(())
}

#[test]
fn shares_are_made_ahead_of_each_visit(rt: HostRuntime) -> Result<(), Fail> {
    let gate = Shares {
        begun: AtomicU64::new(0),
    };
    let offering = Adder {
        offers: 3,
        ..adder(0, 2)
    };
    assert_eq!(rt; counted(&rt, &gate, offering, adder(1, 5))?, 7);
    assert_eq!(rt; gate.begun.load(Ordering::SeqCst), 222);
    Ok(())
}

#[test]
fn a_blocked_session_goes_on_once_the_counter_has_come_so_far(rt: HostRuntime) -> Result<(), Fail> {
    let behind = Adder {
        awaits: 5,
        ..adder(0, 5)
    };
    assert_eq!(rt; counted(&rt, &OpenGate, behind, adder(1, 5))?, 10);
    Ok(())
}

#[test]
fn the_others_end_where_one_finds_no_memory(rt: HostRuntime) -> Result<(), Fail> {
    let gate = OneStarves {
        has_starved: AtomicBool::new(false),
        visits: AtomicU64::new(0),
    };
    let starving = Adder {
        starves: true,
        ..adder(0, 1)
    };
    let ran = run_two(&rt, &gate, starving, adder(1, 5))?;
    assert!(rt; ran.is_starved);
    assert_eq!(rt; count_of(&ran.parts), 5);
    assert!(rt; gate.has_starved.load(Ordering::SeqCst));
    assert_eq!(rt; gate.visits.load(Ordering::SeqCst), 5);
    Ok(())
}

#[test]
fn sessions_that_soon_wait_go_on_together(rt: HostRuntime) -> Result<(), Fail> {
    // On one thread the order is known: each adds, the first makes sure of both sums, and each goes on once it is told.
    let gate = Watched::new(0);
    let first = Adder {
        commits: true,
        ..adder(0, 4)
    };
    let second = Adder {
        commits: true,
        ..adder(1, 4)
    };
    assert_eq!(rt; counted(&rt, &gate, first, second)?, 4);
    assert_eq!(rt; gate.visitors.load(Ordering::SeqCst), 12_112_212);
    Ok(())
}

#[test]
fn a_blocked_session_gets_a_thread_of_its_own(rt: HostRuntime) -> Result<(), Fail> {
    let behind = Adder {
        awaits: 5,
        ..adder(0, 5)
    };
    assert_eq!(rt; counted(&rt, &Watched::new(0), behind, adder(1, 5))?, 10);
    Ok(())
}

#[test]
fn sessions_that_never_wait_get_threads_of_their_own(rt: HostRuntime) -> Result<(), Fail> {
    let gate = LastTurnsMeet {
        time: AtomicU64::new(0),
        last: AtomicU64::new(0),
        is_late: AtomicBool::new(false),
    };
    assert_eq!(rt; counted(&rt, &gate, adder(0, 300), adder(1, 300))?, 600);
    assert!(rt; !gate.is_late.load(Ordering::SeqCst));
    Ok(())
}
