//! How threads wait for what takes long, as a sync does, and what one of them does for all: they are a group, and that one leads
//! (group commit: DeWitt, Katz, Olken, Shapiro, Stonebraker, Wood, "Implementation Techniques for Main Memory Database Systems",
//! SIGMOD 1984). The others sleep until it has done. Before it begins, the leader lets those come who are at work: else one half
//! of them would begin while the other half waits, and each would be told in twice the time.
//!
//! Nothing here is part of the rule, as where threads wait at a part: a leader that nobody joins does its own work, and who wakes
//! for no reason looks again.

use crate::waiting::Turn;
use std::sync::Wait;
use std::sync::atomic::{AtomicU64, Ordering};
use std::thread::yield_now;

/// How often a leader looks whether all have come before it asks whether anybody has. It leaves the processor to others between.
const LOOKS_A_ROUND: u32 = 400;

/// How many rounds it waits while somebody comes in each.
const MOST_ROUNDS: u32 = 10;

/// How many leaders don't wait behind one for whom nobody came: the others may work for long.
const SPARED: u64 = 4;

/// Those who wait at a part for how far it comes.
#[derive(Drop)]
pub(crate) struct Group {
    // Announced where a leader has done.
    done: Turn,
    // How far the part has come.
    reached: AtomicU64,
    // 1 while somebody leads, else 0.
    led: AtomicU64,
    // How many wait that have come since the last leader had done.
    come: AtomicU64,
    // How many leaders to come don't wait for others.
    spared: AtomicU64,
}

impl Group {
    /// Nobody waits.
    pub(crate) fn new() -> Group {
        Group {
            done: Turn::new(),
            reached: AtomicU64::new(0),
            led: AtomicU64::new(0),
            come: AtomicU64::new(0),
            spared: AtomicU64::new(0),
        }
    }

    /// Waits until the part has come as far as is awaited, or the caller leads, and tells whether it does. The crowd is how many
    /// workers there are, the caller among them.
    pub(crate) fn join<T: Wait>(&self, rt: &T, awaited: u64, crowd: &AtomicU64) -> bool {
        for _ in rt.forever() {
            if self.has_reached(awaited) {
                return false;
            }
            if self.begin_to_lead() {
                self.gather(crowd);
                return true;
            }
            self.wait_behind(rt, awaited);
        }
        unreachable!()
    }

    /// The leader has done: the part has come so far, where that is known, and somebody else may lead.
    pub(crate) fn end_lead(&self, reached: Option<u64>) {
        if let Some(reached) = reached {
            self.reached.store(reached, Ordering::SeqCst);
        }
        self.come.store(0, Ordering::SeqCst);
        self.led.store(0, Ordering::SeqCst);
        self.done.announce();
    }

    /// Whether the part has come as far as is awaited.
    pub(crate) fn has_reached(&self, awaited: u64) -> bool {
        self.reached.load(Ordering::SeqCst) >= awaited
    }

    fn begin_to_lead(&self) -> bool {
        self.led
            .compare_exchange(0, 1, Ordering::SeqCst, Ordering::SeqCst)
            .is_ok()
    }

    // Sleeps until the leader has done. It looks whether there is one after it was noted as blocked, and that one announces its end
    // after it leads no more: so none is missed. It may return earlier.
    fn wait_behind<T: Wait>(&self, rt: &T, awaited: u64) {
        self.done.begin_blocked();
        let count = self.done.count();
        if self.led.load(Ordering::SeqCst) != 0 && !self.has_reached(awaited) {
            self.come.fetch_add(1, Ordering::SeqCst);
            self.done.sleep(rt, count);
        }
        self.done.end_blocked();
    }

    // Whether all but the leader have come.
    fn are_all_here(&self, crowd: &AtomicU64) -> bool {
        self.come.load(Ordering::SeqCst) >= crowd.load(Ordering::SeqCst).saturating_sub(1)
    }

    // Looks for a while whether all have come.
    fn look(&self, crowd: &AtomicU64) -> bool {
        for _ in 0..LOOKS_A_ROUND {
            if self.are_all_here(crowd) {
                return true;
            }
            yield_now();
        }
        false
    }

    // Lets those come who are at work, as long as some do.
    fn gather(&self, crowd: &AtomicU64) {
        let spared = self.spared.load(Ordering::SeqCst);
        if spared > 0 {
            self.spared.store(spared - 1, Ordering::SeqCst);
            return;
        }
        let first = self.come.load(Ordering::SeqCst);
        let mut before = first;
        for _ in 0..MOST_ROUNDS {
            if self.look(crowd) {
                return;
            }
            let come = self.come.load(Ordering::SeqCst);
            if come == before {
                break;
            }
            before = come;
        }
        if before == first {
            self.spared.store(SPARED, Ordering::SeqCst);
        }
    }
}
