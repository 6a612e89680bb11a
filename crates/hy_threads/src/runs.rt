//! A whole run: from parts and sessions to parts and sessions.
ghost use Rattle.std.specs.Prelude.{◌≡◌, ◌<◌, ◌≤◌, ◌^◌, false, All, IfOk, vec_len, vec_capacity, map, replicate, Some, None, length, []};
ghost use Rattle.hy_threads.specs.Knowledge.{First, keeper, first_of};
ghost use Rattle.hy_threads.specs.Tasks.{AreOf, session_of};

use crate::gate::Gate;
use crate::parted::Parted;
use crate::threads::work;
use crate::worked::Worked;
use crate::worker::Worker;
use crate::{Parts, Seat};
use std::alloc::{AllocError, Global};
use std::sync::Wait;
use std::thread::Threads;

/// What a run came to: the parts and the sessions, in order, and whether memory ran out.
#[derive(Drop)]
pub struct Ran<P: Parted> {
    /// The parts.
    pub parts: Vec<P::Part>,
    /// The sessions.
    pub sessions: Vec<P::Session>,
    /// Memory ran out: before the run, where nothing changed, or in a visit.
    pub is_starved: bool,
}

// Empty lists, with room for so many workers and for so many sessions.
fn make_rooms<P: Worked>(
    alloc: Global,
    count: usize,
) -> Result<(Vec<Worker<P>>, Vec<P::Session>), AllocError>
    ensures workers { IfOk result (λ r. (r.0.items ≡ []) × (count ≤ vec_capacity r.0)) }
    ensures sessions { IfOk result (λ r. (r.1.items ≡ []) × (count ≤ vec_capacity r.1)) }
{
    let workers = Vec::with_capacity(alloc, count)?;
    let sessions = Vec::with_capacity(alloc, count)?;
    Ok((workers, sessions))
}

// A worker for each session, in order, in the empty list, which has room for them.
fn seat_all<P: Worked>(
    parts: &Parts<P>,
    first: &mut Seat<P>,
    sessions: Vec<P::Session>,
    room: Vec<Worker<P>>,
) -> Vec<Worker<P>>
    requires ours { (first.old.home ≡ parts.now) × (0 < parts.now.slots) }
    requires fresh { first.old.knows ≡ first_of sessions.items }
    requires room { (room.items ≡ []) × (vec_len sessions ≤ vec_capacity room) }
    ensures ours { first.new.home ≡ parts.now }
    ensures first { first.new.knows ≡ First (keeper (vec_len sessions) (replicate (length sessions.items) None)) }
    ensures workers { AreOf parts.now 0 result.items × (map session_of result.items ≡ sessions.items) }
{
    let mut workers = room;
    for session in sessions {
        let seat = parts.split(first);
        workers.push_reserved(Worker::new(seat, session));
    }
    workers
}

// Joins each worker's seat to the first, and puts the sessions into the empty list, which has room for them.
fn join_all<P: Worked>(
    parts: &Parts<P>,
    first: &mut Seat<P>,
    workers: Vec<Worker<P>>,
    room: Vec<P::Session>,
) -> Vec<P::Session>
    requires ours { (first.old.home ≡ parts.now) × (0 < parts.now.slots) }
    requires first { first.old.knows ≡ First (keeper (vec_len workers) (replicate (length workers.items) None)) }
    requires workers { AreOf parts.now 0 workers.items }
    requires room { (room.items ≡ []) × (vec_len workers ≤ vec_capacity room) }
    ensures ours { first.new.home ≡ parts.now }
    ensures first { first.new.knows ≡ First (keeper (vec_len workers) (map Some result.items)) }
    ensures sessions { result.items ≡ map session_of workers.items }
{
    let mut sessions = room;
    for worker in workers {
        let (seat, session) = worker.end();
        parts.join(first, seat);
        sessions.push_reserved(session);
    }
    sessions
}

/// Runs each session over the parts to its end, on threads as `work` does, and gives the parts and the sessions
/// back, in order. Where memory runs out they come back too: before the run as they were, and in a visit as the others, each
/// of which that found memory ran to its end, have left them. After the run it takes none. See `work` on threads.
pub fn run_all<T: Threads + Wait + Sync, P: Worked + Send + Sync, G: Gate>(
    rt: &T,
    alloc: Global,
    parts: Vec<P::Part>,
    sessions: Vec<P::Session>,
    gate: &G,
) -> Ran<P>
    requires some { 0 < vec_len parts }
    requires few { vec_len sessions < 2 ^ 31 }
    requires fact { P.fact parts.items sessions.items }
    requires wide { All (λ s. P.width_of s ≤ vec_len parts) sessions.items }
    ensures fact { P.fact result.parts.items result.sessions.items }
    ensures count { (vec_len result.parts ≡ vec_len parts) × (vec_len result.sessions ≡ vec_len sessions) }
    ensures ended { result.is_starved ≡ false → All (λ s. P.point_of s ≡ None) result.sessions.items }
{
    let Ok((seats, room)) = make_rooms::<P>(alloc, sessions.len()) else {
        return Ran {
            parts,
            sessions,
            is_starved: true,
        };
    };
    let (parts, mut first) = match Parts::<P>::new(alloc, parts, sessions.as_slice()) {
        Ok(made) => made,
        Err(parts) => {
            return Ran {
                parts,
                sessions,
                is_starved: true,
            };
        }
    };
    let mut workers = seat_all(&parts, &mut first, sessions, seats);
    let ended = work(rt, alloc, &parts, workers.as_mut_slice(), gate);
    let sessions = join_all(&parts, &mut first, workers, room);
    Ran {
        parts: parts.close(first),
        sessions,
        is_starved: ended.is_err(),
    }
}
