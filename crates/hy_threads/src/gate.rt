//! Where a visit stands, and who is told of it.

use std::time::Clock;

/// When a gate is told of a visit.
#[derive(Clone, Copy, Debug, PartialEq, Eq)]
pub enum Moment {
    /// Before the part is taken.
    Before,
    /// While the worker has the part.
    Held,
    /// After it was given back.
    After,
}

/// A visit at a moment.
#[derive(Clone, Copy, Debug, PartialEq, Eq)]
pub struct Point {
    /// The number of the session, from 0.
    pub session: u32,
    /// The number of its transaction, from 1.
    pub txn: u32,
    /// The number of the statement that it works on. BEGIN is 0; COMMIT and ROLLBACK have the number after the last
    /// statement.
    pub statement: u32,
    /// The number of the part that it visits.
    pub part: usize,
    /// The moment.
    pub moment: Moment,
    /// Whether the visit answered the statement. False before it was made.
    pub answered: bool,
}

/// Told of the shares of a visit's work that are made ahead of it, by each share's thread before the share is begun. It is
/// shared by all these threads, and a thread goes on once the call returns. A gate that holds a share up until another one
/// is begun holds it up for ever where the system gives no thread for the other.
pub trait PieceGate: Sync {
    /// The share of this number is begun.
    fn piece(&self, piece: usize);
}

/// Told of each visit of every worker, at three moments. It is shared by all workers, and a worker goes on once the
/// call returns: one that holds a worker up while it has a part holds up all who need the part.
pub trait Gate: PieceGate {
    /// A worker stands at this point.
    fn pass(&self, point: &Point);

    /// The nanoseconds of a clock, by which it is seen whether workers do well on one thread. None where each is to have a thread of
    /// its own from the beginning: else, where sessions may await something, a gate that holds one up may hold up all.
    fn nanos(&self) -> Option<u64> {
        None
    }
}

/// A gate that holds no one up.
#[derive(Clone, Copy, Debug)]
pub struct OpenGate;

impl PieceGate for OpenGate {
    fn piece(&self, _piece: usize) {}
}

impl Gate for OpenGate {
    fn pass(&self, _point: &Point) {}
}

/// A gate that holds no one up, and tells the time of a clock.
#[derive(Clone, Copy, Debug)]
pub struct TimedGate<'a, C> {
    clock: &'a C,
}

impl<'a, C: Clock> TimedGate<'a, C> {
    /// The gate that tells this clock's time.
    pub fn new(clock: &'a C) -> TimedGate<'a, C> {
        TimedGate { clock }
    }
}

impl<C: Clock + Sync> PieceGate for TimedGate<'_, C> {
    fn piece(&self, _piece: usize) {}
}

impl<C: Clock + Sync> Gate for TimedGate<'_, C> {
    fn pass(&self, _point: &Point) {}

    fn nanos(&self) -> Option<u64> {
        let time = self.clock.monotonic().ok()?;
        u64::try_from(time.as_nanos()).ok()
    }
}
