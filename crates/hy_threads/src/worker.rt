//! A session with its seat, and its way to the end.
ghost use Rattle.std.specs.Prelude.{◌≡◌, ◌<◌, false, Some, MatchBool};
ghost use Rattle.hy_threads.specs.Seats.{number_of};
ghost use Rattle.hy_threads.specs.Tasks.{IsReady, Fits, IsSameWorker, HasStopped};

use crate::ahead::prepare;
use crate::gate::{Gate, Moment, PieceGate, Point};
use crate::together::{MOST_VISITS, StintEnd, VISITS_A_STINT};
use crate::worked::{Visited, Worked};
use crate::{Parts, Seat};
use std::alloc::Global;
use std::marker::Model;
use std::sync::Wait;
use std::thread::Threads;

/// A session, the seat that knows it and has no part, and whether its last run ended because it found no memory. A clause
/// sees it as its `Task`.
#[derive(Drop)]
pub struct Worker<P: Worked> {
    seat: Seat<P>,
    session: P::Session,
    starved: bool,
    // The count of the turn that it waits behind, where its session is blocked at the part that the session needs.
    blocked: Option<u32>,
    // Whether it leads those who wait long.
    leads: bool,
}

impl<P: Worked> Model for Worker<P> {
    ghost use Rattle.hy_threads.specs.Seats.{number_of};
    ghost use Rattle.hy_threads.specs.Tasks.{Task, IsReady};

    ghost Value = { Task P.Session };

    ghost view = { λ w. record { home = w.seat.home; number = number_of w.seat.knows; session = w.session; starved = w.starved } };

    ghost invariant = { λ w. IsReady w.seat.knows w.session };
}

impl<P: Worked> Worker<P> {
    /// A worker of the session that this seat knows.
    pub fn new(seat: Seat<P>, session: P::Session) -> Worker<P>
        requires { IsReady seat.knows session }
        ensures seat { (result.home ≡ seat.home) × (result.number ≡ number_of seat.knows) }
        ensures session { (result.session ≡ session) × (result.starved ≡ false) }
    {
        Worker {
            seat,
            session,
            starved: false,
            blocked: None,
            leads: false,
        }
    }

    /// The session's number.
    pub fn number(&self) -> u64
        ensures { result ≡ self.now.number }
    {
        self.seat.number()
    }

    /// Whether its last run ended because it found no memory.
    pub fn is_starved(&self) -> bool
        ensures { result ≡ self.now.starved }
    {
        self.starved
    }

    /// Takes it apart: the seat knows the session, and has no part.
    pub fn end(self) -> (Seat<P>, P::Session)
        ensures ready { IsReady result.0.knows result.1 }
        ensures seat { (result.0.home ≡ self.home) × (number_of result.0.knows ≡ self.number) }
        ensures session { result.1 ≡ self.session }
    {
        let Worker {
            seat,
            session,
            starved: _,
            blocked: _,
            leads: _,
        } = self;
        (seat, session)
    }

    /// Whether its session waits for what takes long, and it doesn't lead those who do.
    pub(crate) fn has_to_wait(&self, parts: &Parts<P>) -> bool
        requires { Fits P.width_of parts.now self.now }
    {
        let Some(awaited) = P::awaited(&self.session) else {
            return false;
        };
        match P::need(&self.session) {
            Some(point) => !self.leads && parts.has_to_wait(point.part, awaited),
            None => false,
        }
    }

    /// Whether its session is at the end, or it found no memory.
    pub(crate) fn has_stopped(&self) -> bool {
        self.starved || P::need(&self.session).is_none()
    }

    // One visit of the part that the session needs. False where it needs none, or finds no memory for that visit.
    fn visit_once<T: Wait, G: Gate>(
        &mut self,
        rt: &T,
        alloc: Global,
        parts: &Parts<P>,
        gate: &G,
    ) -> bool
        requires fits { Fits P.width_of parts.now self.old }
        requires fed { self.old.starved ≡ false }
        ensures same { IsSameWorker P.width_of self.old self.new }
        ensures more { MatchBool result (self.new.starved ≡ false) (HasStopped P.point_of self.new) }
    {
        match P::need(&self.session) {
            Some(point) => self.visit_at(rt, alloc, parts, gate, point),
            None => false,
        }
    }

    // The visit of the part that the session needs, which is at this point. False where it finds no memory.
    fn visit_at<T: Wait, G: Gate>(
        &mut self,
        rt: &T,
        alloc: Global,
        parts: &Parts<P>,
        gate: &G,
        point: Point,
    ) -> bool
        requires next { P.point_of self.old.session ≡ Some point }
        requires fits { Fits P.width_of parts.now self.old }
        requires fed { self.old.starved ≡ false }
        ensures same { IsSameWorker P.width_of self.old self.new }
        ensures more { MatchBool result (self.new.starved ≡ false) (HasStopped P.point_of self.new) }
    {
        gate.pass(&point);
        self.leads |= parts.join_group(rt, point.part, P::awaited(&self.session));
        let mut part = parts.take(rt, &mut self.seat, point.part);
        gate.pass(&Point {
            moment: Moment::Held,
            ..point
        });
        let visited = P::visit(alloc, point.part, &mut self.session, &mut part);
        let reached = P::reached(&part);
        parts.give(&mut self.seat, &self.session, point.part, part);
        let is_blocked = matches!(visited, Ok(Visited::Blocked));
        if !is_blocked {
            self.tell_change(parts, point.part);
        }
        self.end_lead(parts, point.part, reached);
        gate.pass(&Point {
            moment: Moment::After,
            answered: matches!(visited, Ok(Visited::Answered)),
            ..point
        });
        if is_blocked {
            self.wait_behind(rt, parts, point.part);
        }
        self.starved = visited.is_err();
        !self.starved
    }

    // The session is blocked no longer, and may have changed this part: the others who are blocked there look again.
    fn tell_change(&mut self, parts: &Parts<P>, part: usize)
        requires { part < parts.now.slots }
        ensures { self.new ≡ self.old }
    {
        if self.blocked.is_some() {
            self.blocked = None;
            parts.end_blocked(part);
        }
        parts.announce(part);
    }

    // Where it leads those who wait at this part and has done what they wait for, or can't, it leads no more.
    fn end_lead(&mut self, parts: &Parts<P>, part: usize, reached: Option<u64>)
        requires { part < parts.now.slots }
        ensures { self.new ≡ self.old }
    {
        if self.leads && !P::is_leading(&self.session) {
            self.leads = false;
            parts.end_lead(part, reached);
        }
    }

    // The session is blocked at this part. It visits the part once more after its worker was noted as blocked, and before the
    // worker sleeps: so it misses no change.
    fn wait_behind<T: Wait>(&mut self, rt: &T, parts: &Parts<P>, part: usize)
        requires { part < parts.now.slots }
        ensures { self.new ≡ self.old }
    {
        let count = match self.blocked {
            Some(count) => parts.next_turn(rt, part, count),
            None => parts.begin_blocked(part),
        };
        self.blocked = Some(count);
    }
}

impl<P: Worked + Send + Sync> Worker<P> {
    // Lets shares of the next visit's work be made ahead of it.
    fn prepare<T: Threads + Sync, G: PieceGate>(&mut self, rt: &T, alloc: Global, gate: &G)
        ensures { self.new ≡ self.old }
    {
        prepare::<T, P, G>(rt, alloc, &mut self.session, gate);
    }

    /// Visits what the session needs for a stint, which ends between two statements, or where the session is blocked or has to wait,
    /// and tells why it ended: so no other session waits for this one. It may begin as one who leads those who wait.
    pub(crate) fn run_stint<T: Threads + Wait + Sync, G: Gate>(
        &mut self,
        rt: &T,
        alloc: Global,
        parts: &Parts<P>,
        gate: &G,
        leads: bool,
    ) -> StintEnd
        requires { Fits P.width_of parts.now self.old }
        ensures { IsSameWorker P.width_of self.old self.new }
    {
        if self.starved {
            return StintEnd::Stopped;
        }
        let mut begun = None;
        for visit in 0..MOST_VISITS {
            let Some(point) = P::need(&self.session) else {
                return StintEnd::Stopped;
            };
            let statement = Some((point.txn, point.statement));
            if visit >= VISITS_A_STINT && statement != begun {
                return StintEnd::Going;
            }
            if self.has_to_wait(parts) && !(leads && visit == 0) {
                return StintEnd::Waiting;
            }
            begun = statement;
            self.prepare(rt, alloc, gate);
            if !self.visit_at(rt, alloc, parts, gate, point) {
                return StintEnd::Stopped;
            }
            if self.blocked.is_some() {
                return StintEnd::Blocked;
            }
        }
        StintEnd::Going
    }

    /// Visits what the session needs, until it is at its end or finds no memory.
    pub(crate) fn run<T: Threads + Wait + Sync, G: Gate>(
        &mut self,
        rt: &T,
        alloc: Global,
        parts: &Parts<P>,
        gate: &G,
    )
        requires { Fits P.width_of parts.now self.old }
        ensures same { IsSameWorker P.width_of self.old self.new }
        ensures stopped { HasStopped P.point_of self.new }
    {
        self.starved = false;
        parts.enter();
        for _ in rt.forever() {
            self.prepare(rt, alloc, gate);
            if !self.visit_once(rt, alloc, parts, gate) {
                parts.leave();
                return;
            }
        }
        unreachable!()
    }
}
