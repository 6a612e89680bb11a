//! Every worker runs to its end, in a thread of its own, or on one with the others.
ghost use Rattle.std.specs.Prelude.{◌≡◌, ◌<◌, ℕ, All, Any, length, slice_index_or, OnOk, OnErr};
ghost use Rattle.std.specs.List.{AllZip, list_any};
ghost use Rattle.hy_threads.specs.Tasks.{Task, Fits, IsSameWorker, Stops, HasEnded, HasStarved, HasStopped};

use crate::Parts;
use crate::gate::Gate;
use crate::together::run_together;
use crate::worked::Worked;
use crate::worker::Worker;
use std::alloc::{AllocError, Global};
use std::sync::Wait;
use std::thread::{Threads, for_each_mut};

// How many threads workers need that go on: none beside this one where all have stopped.
fn threads_for<P: Worked>(workers: &[Worker<P>]) -> usize
    ensures { 0 < result }
{
    if workers.iter().all(|worker| worker.has_stopped()) {
        1
    } else {
        workers.len().max(1)
    }
}

// Runs each worker, together with the others as long as they do well so, and then in a thread of its own.
fn run_each<T: Threads + Wait + Sync, P: Worked + Send + Sync, G: Gate>(
    rt: &T,
    alloc: Global,
    parts: &Parts<P>,
    workers: &mut [Worker<P>],
    gate: &G,
)
    requires { All (Fits P.width_of parts.now) workers.old }
    ensures { (k : ℕ) (d : Task P.Session) → k < length workers.old
        → Stops P.width_of P.point_of (slice_index_or workers.old k d) (slice_index_or workers.new k d) }
{
    run_together(rt, alloc, parts, workers, gate);
    let threads = threads_for(workers);
    for_each_mut(
        rt,
        workers,
        threads,
        &|_, worker: &mut Worker<P>|
            requires { Fits P.width_of parts.now worker.old }
            ensures { Stops P.width_of P.point_of worker.old worker.new }
        { worker.run(rt, alloc, parts, gate) },
    );
}

// Whether some worker found no memory.
fn any_starved<P: Worked>(workers: &[Worker<P>]) -> bool
    ensures { result ≡ list_any (λ w. w.starved) workers.now }
{
    workers.iter().any(|worker| worker.is_starved())
}

/// Runs each worker until its session is at its end, each in a thread of its own; where the gate tells the time, together on one
/// thread before, as long as they do well there. One whose session is blocked gives its part back as it was, sleeps until a change
/// of that part is announced, and tries again. One that finds no memory gives its part back as it was and stops before that visit;
/// the others go on to their ends, and where they were together it tries once more behind them. The answer is then Err. Workers that
/// stopped so may be run again.
///
/// Nothing is said of progress. A worker that is blocked, where the system gives too few threads, by one that has not
/// begun, sleeps for ever; and so does one that waits for a session whose worker found no memory. So the visits of a
/// session that others may wait for are to take none.
pub fn work<T: Threads + Wait + Sync, P: Worked + Send + Sync, G: Gate>(
    rt: &T,
    alloc: Global,
    parts: &Parts<P>,
    workers: &mut [Worker<P>],
    gate: &G,
) -> Result<(), AllocError>
    requires { All (Fits P.width_of parts.now) workers.old }
    ensures same { AllZip (IsSameWorker P.width_of) workers.old workers.new }
    ensures stopped { All (HasStopped P.point_of) workers.new }
    ensures ended { OnOk result (All (HasEnded P.point_of) workers.new) }
    ensures starved { OnErr result (Any (HasStarved P.point_of) workers.new) }
{
    run_each(rt, alloc, parts, workers, gate);
    if any_starved(workers) {
        return Err(AllocError);
    }
    Ok(())
}
