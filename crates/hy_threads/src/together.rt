//! Workers together on one thread, as long as they do well there.
//!
//! A thread that sleeps takes longer to wake than a short transaction takes, and threads that commit short transactions hold each
//! other up (Stonebraker, Madden, Abadi, Harizopoulos, Hachem, Helland, "The End of an Architectural Era", VLDB 2007). So where
//! sessions wait for a sync, and do little between two syncs, one thread runs them one after another, and leads them all.
//! Where they do more, each gets a thread of its own.
//!
//! Nothing here is part of the rule: wherever that ends, each worker goes on from where it stands.

ghost use Rattle.std.specs.Prelude.{◌≡◌, ◌<◌, ◌≤◌, ℕ, All, length, slice_index_or};
ghost use Rattle.hy_threads.specs.Tasks.{Task, Fits, IsSameWorker};

use crate::Parts;
use crate::gate::Gate;
use crate::worked::Worked;
use crate::worker::Worker;
use std::alloc::Global;
use std::sync::Wait;
use std::thread::Threads;

/// How many visits a session makes before its stint ends at the next statement.
pub(crate) const VISITS_A_STINT: u32 = 256;

/// How many visits it makes in a stint at most.
pub(crate) const MOST_VISITS: u32 = 1_000_000_000;

/// The nanoseconds for which a worker may work in a round: about as long as its thread would need to wake and to get a turn.
const NANOS_A_STINT: u64 = 25_000;

/// By how many nanoseconds rounds may take longer than that, one with another. What else the processor does may take as long.
const MOST_DEBT: u64 = 10_000_000;

/// For how many nanoseconds a session may go on while no other one waits.
const NANOS_WITHOUT_WAIT: u64 = 1_000_000;

/// Why a stint ended.
#[derive(Clone, Copy, Debug, PartialEq, Eq)]
pub(crate) enum StintEnd {
    /// The session is at its end, or its worker found no memory.
    Stopped,
    /// The session waits for what takes long.
    Waiting,
    /// The session is blocked.
    Blocked,
    /// The session could go on.
    Going,
}

/// How workers do together.
#[derive(Drop)]
struct Pace {
    /// The nanoseconds that a round may take.
    allowed: u64,
    /// The clock, when it was looked at last.
    now: u64,
    /// The clock, when a session was seen to wait, or one had led.
    waited: u64,
    /// How long this round has taken, without what its leader did.
    spent: u64,
    /// By how much the rounds before took longer than they may.
    debt: u64,
    /// Whether all wait that have not stopped, so that one of them is to lead.
    all_wait: bool,
    /// Of this round: whether a session waits, or could go on.
    some_wait: bool,
    some_go: bool,
    /// Whether a session is blocked, or none has waited for long.
    is_at_odds: bool,
}

impl Pace {
    /// So many workers begin at this time.
    fn new(workers: usize, now: u64) -> Pace {
        Pace {
            allowed: NANOS_A_STINT.saturating_mul(workers as u64),
            now,
            waited: now,
            spent: 0,
            debt: 0,
            all_wait: false,
            some_wait: false,
            some_go: false,
            is_at_odds: false,
        }
    }

    /// A stint has ended at this time. What a leader does takes as long on any thread.
    fn note(&mut self, end: StintEnd, has_led: bool, now: u64) {
        if has_led || end == StintEnd::Waiting {
            self.waited = now;
        }
        if !has_led {
            self.spent = self.spent.saturating_add(now.saturating_sub(self.now));
        }
        self.now = now;
        match end {
            StintEnd::Stopped => {}
            StintEnd::Waiting => self.some_wait = true,
            StintEnd::Blocked => self.is_at_odds = true,
            StintEnd::Going => {
                self.some_go = true;
                self.is_at_odds |= now.saturating_sub(self.waited) > NANOS_WITHOUT_WAIT;
            }
        }
    }

    /// By how much the rounds have taken longer than they may.
    fn debt_with_this(&self) -> u64 {
        self.debt
            .saturating_add(self.spent)
            .saturating_sub(self.allowed)
    }

    /// Whether threads of their own would be better.
    fn is_bad(&self) -> bool {
        self.is_at_odds || self.debt_with_this() > MOST_DEBT
    }

    /// A round has ended: whether there is to be another one.
    fn end_round(&mut self) -> bool {
        let goes_on = (self.some_wait || self.some_go) && !self.is_bad();
        self.debt = self.debt_with_this();
        self.spent = 0;
        self.all_wait = !self.some_go;
        self.some_wait = false;
        self.some_go = false;
        goes_on
    }
}

// A stint of each worker, as long as they do well.
fn run_round<T: Threads + Wait + Sync, P: Worked + Send + Sync, G: Gate>(
    rt: &T,
    alloc: Global,
    parts: &Parts<P>,
    workers: &mut [Worker<P>],
    gate: &G,
    pace: &mut Pace,
)
    requires { All (Fits P.width_of parts.now) workers.old }
    ensures { (k : ℕ) (d : Task P.Session) → k < length workers.old
        → IsSameWorker P.width_of (slice_index_or workers.old k d) (slice_index_or workers.new k d) }
{
    for k in 0..workers.len() {
        let worker = &mut workers[k];
        let leads = pace.all_wait && worker.has_to_wait(parts);
        let end = worker.run_stint(rt, alloc, parts, gate, leads);
        pace.note(end, leads, gate.nanos().unwrap_or(u64::MAX));
        if pace.is_bad() {
            return;
        }
    }
}

/// Runs workers one after another on this thread, round after round, as long as they do well there. It runs none where their sessions
/// never wait for what takes long, where the gate tells no time, and where there is one worker alone.
pub(crate) fn run_together<T: Threads + Wait + Sync, P: Worked + Send + Sync, G: Gate>(
    rt: &T,
    alloc: Global,
    parts: &Parts<P>,
    workers: &mut [Worker<P>],
    gate: &G,
)
    requires { All (Fits P.width_of parts.now) workers.old }
    ensures { (k : ℕ) (d : Task P.Session) → k < length workers.old
        → IsSameWorker P.width_of (slice_index_or workers.old k d) (slice_index_or workers.new k d) }
{
    let Some(now) = gate.nanos() else {
        return;
    };
    if !P::may_await() || workers.len() < 2 {
        return;
    }
    let mut pace = Pace::new(workers.len(), now);
    parts.enter();
    for _ in rt.forever() {
        run_round(rt, alloc, parts, workers, gate, &mut pace);
        if !pace.end_round() {
            break;
        }
    }
    parts.leave();
}
