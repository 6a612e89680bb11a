//! How threads wait at a part, and when they are woken.
//!
//! Most visits are shorter than a call of the system. So a thread that waits looks for a while before it sleeps, and who gives
//! a part calls the system only where a thread may sleep. Where there are more threads than processors, who has the part may
//! stand behind the one that looks: so it lets others go on now and then.
//!
//! Nothing here is part of the rule: a thread that wakes for no reason looks again, and one that is never woken only
//! waits. So these are plain atomics, of which no clause knows what they contain.

use crate::group::Group;
use std::hint;
use std::sync::Wait;
use std::sync::atomic::{AtomicU64, Ordering};
use std::thread::yield_now;

/// How often a thread looks before it sleeps.
pub(crate) const LOOKS: u32 = 16000;

/// How often it looks in a row: longer than a visit that goes on takes. What is looked for longer may need the processor.
const LOOKS_IN_A_ROW: u32 = 512;

/// Lets a moment pass behind a look, and leaves the processor to others behind so many in a row.
pub(crate) fn pause(look: u32) {
    if look % LOOKS_IN_A_ROW == LOOKS_IN_A_ROW - 1 {
        yield_now();
    } else {
        hint::spin_loop();
    }
}

/// What is waited for at a part by those who are blocked there: that it is announced.
#[derive(Drop)]
pub(crate) struct Turn {
    // How many threads look at the count, or may sleep on it.
    blocked: AtomicU64,
    // How many threads may sleep on the count.
    dozers: AtomicU64,
    // How often it was announced while somebody was blocked. Who sleeps on it compares its lower half.
    count: AtomicU64,
}

impl Turn {
    /// Nobody waits.
    pub(crate) fn new() -> Turn {
        Turn {
            blocked: AtomicU64::new(0),
            dozers: AtomicU64::new(0),
            count: AtomicU64::new(0),
        }
    }

    /// The caller is blocked from now on. It reads the count after this.
    pub(crate) fn begin_blocked(&self) {
        self.blocked.fetch_add(1, Ordering::SeqCst);
    }

    /// The caller is not blocked any more.
    pub(crate) fn end_blocked(&self) {
        self.blocked.fetch_sub(1, Ordering::SeqCst);
    }

    /// The count, which who is blocked reads before it visits the part again.
    pub(crate) fn count(&self) -> u32 {
        (self.count.load(Ordering::SeqCst) % 0x1_0000_0000) as u32
    }

    /// Sleeps until the count is another one. It may return earlier.
    pub(crate) fn sleep<T: Wait>(&self, rt: &T, count: u32) {
        // Whoever changes the count reads that of the dozers after that, and a thread sleeps only while the count is as it was.
        self.dozers.fetch_add(1, Ordering::SeqCst);
        self.count.park(rt, count);
        self.dozers.fetch_sub(1, Ordering::SeqCst);
    }

    /// Looks for a while whether the count is another one.
    pub(crate) fn look(&self, count: u32) -> bool {
        for look in 0..LOOKS {
            if self.count() != count {
                return true;
            }
            pause(look);
        }
        false
    }

    /// The next count, where somebody is blocked; whoever sleeps on it is woken.
    pub(crate) fn announce(&self) {
        if self.blocked.load(Ordering::SeqCst) != 0 {
            self.count.fetch_add(1, Ordering::SeqCst);
            if self.dozers.load(Ordering::SeqCst) != 0 {
                self.count.wake_all();
            }
        }
    }
}

/// Who waits at a part: for its word, for a change of it, or in a group.
#[derive(Drop)]
pub(crate) struct Waiting {
    // How many threads may sleep on the part's word.
    sleepers: AtomicU64,
    pub(crate) change: Turn,
    pub(crate) group: Group,
}

impl Waiting {
    /// Nobody waits.
    pub(crate) fn new() -> Waiting {
        Waiting {
            sleepers: AtomicU64::new(0),
            change: Turn::new(),
            group: Group::new(),
        }
    }

    /// The caller may sleep on the word from now on. It reads the word after this.
    pub(crate) fn begin_sleep(&self) {
        self.sleepers.fetch_add(1, Ordering::SeqCst);
    }

    /// The caller does not sleep any more.
    pub(crate) fn end_sleep(&self) {
        self.sleepers.fetch_sub(1, Ordering::SeqCst);
    }

    /// Whether a thread may sleep on the word. Who gives the part asks after the word was stored.
    pub(crate) fn has_sleepers(&self) -> bool {
        self.sleepers.load(Ordering::SeqCst) != 0
    }
}
