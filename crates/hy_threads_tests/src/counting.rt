//! An engine of one counter: each session adds 1 to it, so many times, and some make sure of what they added before they go on.

ghost use Rattle.std.specs.Prelude.{◌≡◌};
ghost use Rattle.hy_threads.specs.Shares.{AreShares};
ghost use Rattle.hy_threads_tests.specs.Counting.{IsNumbered, point_of};

use hy_threads::{Moment, Parted, Point, Visited, Worked};
use std::alloc::{AllocError, Global};

/// What sessions add to.
#[derive(Drop)]
pub struct Counter {
    /// The sum so far.
    pub count: u64,
    /// Up to which sum it was made sure.
    pub sure: u64,
}

/// A session that adds 1 in each turn, or in every second one.
#[derive(Drop)]
pub struct Adder {
    /// Its number.
    pub number: u32,
    /// How many turns are left, 1 at least. None at its end.
    pub turns: Option<u32>,
    /// It is blocked until the counter has come so far.
    pub awaits: u64,
    /// It finds no memory for its last turn.
    pub starves: bool,
    /// So many shares of each turn's work are made ahead of it.
    pub offers: usize,
    /// Behind each turn in which it adds there is one in which the sum is made sure.
    pub commits: bool,
    /// The sum that has to be sure before it goes on, in such a turn.
    pub owes: Option<u64>,
}

/// The engine.
#[derive(Drop)]
pub struct Counting;

impl Parted for Counting {
    ghost use Rattle.hy_threads_tests.specs.Counting.{Anything, AnyNear, AnyChange, near_follows, change_keeps};

    type Part = Counter;

    type Session = Adder;

    ghost fact = { Anything };

    ghost near = { AnyNear };

    ghost event = { AnyChange };

    ghost near_follows = { near_follows };

    ghost event_keeps = { change_keeps };
}

impl Worked for Counting {
    ghost use Rattle.hy_threads_tests.specs.Counting.{HasToWait, IsNumbered, point_of, width_of};
    ghost use Rattle.hy_threads_tests.specs.Counting.{points_come_before, points_lie_within, changes_keep_width};

    ghost point_of = { point_of };

    ghost width_of = { width_of };

    ghost is_blocked = { HasToWait };

    ghost point_is_before = { points_come_before };

    ghost part_is_below = { points_lie_within };

    ghost width_stays = { changes_keep_width };

    type Share = usize;

    ghost is_share = { IsNumbered };

    fn make_ready(_alloc: Global, _session: &mut Adder) {}

    fn shares(session: &Adder) -> usize {
        match session.turns {
            Some(_) => session.offers,
            None => 0,
        }
    }

    fn share(_alloc: Global, _session: &Adder, number: usize) -> usize {
        number
    }

    fn take_shares(_alloc: Global, session: &mut Adder, shares: Vec<usize>)
        requires { AreShares IsNumbered session.old shares.items }
        ensures { session.new ≡ session.old }
    {
        // It has no use for them: which ones were begun, the gate is told.
        let _ = (session.offers, shares.len());
    }

    fn awaited(session: &Adder) -> Option<u64> {
        session.owes
    }

    fn may_await() -> bool {
        true
    }

    fn reached(counter: &Counter) -> Option<u64> {
        Some(counter.sure)
    }

    fn is_leading(_session: &Adder) -> bool {
        false
    }

    fn need(session: &Adder) -> Option<Point> {
        next_point(session)
    }

    fn visit(
        _alloc: Global,
        _number: usize,
        session: &mut Adder,
        counter: &mut Counter,
    ) -> Result<Visited, AllocError> {
        if counter.count < session.awaits {
            return Ok(Visited::Blocked);
        }
        let left = session.turns.unwrap_or(0).saturating_sub(1);
        if session.starves && left == 0 {
            return Err(AllocError);
        }
        session.owes = if session.owes.is_some() {
            counter.sure = counter.count;
            None
        } else {
            counter.count = counter.count.saturating_add(1);
            session.commits.then_some(counter.count)
        };
        session.turns = if left == 0 { None } else { Some(left) };
        Ok(Visited::Moved)
    }
}

/// The next visit of a session, as a gate is told of it.
fn next_point(session: &Adder) -> Option<Point>
    ensures { result ≡ point_of session.now }
{
    let turns = session.turns?;
    Some(Point {
        session: session.number,
        txn: 1,
        statement: turns,
        part: 0,
        moment: Moment::Before,
        answered: false,
    })
}
