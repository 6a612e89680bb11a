//! The parts, and the seats that take them.
ghost use Rattle.std.specs.Prelude.{◌≡◌, ◌⊎◌, ℕ, ◌*◌, ◌<◌, ◌≤◌, ◌^◌, List, [], map, length, replicate, vec_len, vec_capacity, IfSome, IfNone, IfOk, IfErr};
ghost use mathlib.Core.Option.{some};
ghost use lib.ListN.{get_elem?};
ghost use Rattle.hy_threads.specs.Knowledge.{Keeper, Visitor, First, Seated, shown, first_of};
ghost use Rattle.hy_threads.specs.Knowledge.{holding, refused, settled, parent, child, joined};
ghost use Rattle.hy_threads.specs.Seats.{number_of};
ghost use Rattle.hy_threads.specs.Rule.{AreHome};

use crate::known::Known;
use crate::parted::Parted;
use crate::rule::{Giving, Joining, PartsRule, Splitting, Taking, Telling};
use crate::waiting::{LOOKS, Waiting, pause};
use atomic_table::{Refused, Seat as TableSeat, Table};
use crossbeam_utils::CachePadded;
use std::alloc::{AllocError, Global};
use std::marker::{Brand, Model};
use std::snapshot::Snapshot;
use std::sync::Wait;
use std::sync::atomic::{AtomicU64, Ordering};

type Slot<P> = Option<CachePadded<<P as Parted>::Part>>;

type KnownOf<P> = Known<<P as Parted>::Session, <P as Parted>::Part>;

type Opening<P> = Vec<Snapshot<<P as Parted>::Session>>;

// How many words of the table fill a cache line. The word of the part k is the word `LINE * k`, so that each has a line
// of its own.
const LINE: usize = 8;

// A snapshot of each session, in order.
fn snapshots_of<S>(alloc: Global, sessions: &[S]) -> Result<Vec<Snapshot<S>>, AllocError>
    ensures { IfOk result (λ v. map shown v.items ≡ sessions.now) }
{
    let mut list = Vec::new(alloc);
    for session in sessions {
        list.push(Snapshot::of(session))?;
    }
    Ok(list)
}

// Puts each part into a slot, in order, in the empty list, which has room for them.
fn put_in_slots<D: Drop>(
    room: Vec<Option<CachePadded<D>>>,
    parts: Vec<D>,
) -> Vec<Option<CachePadded<D>>>
    requires { (room.items ≡ []) × (vec_len parts ≤ vec_capacity room) }
    ensures { (vec_len result ≡ vec_len parts) × AreHome result.items parts.items }
{
    let mut slots = room;
    for part in parts {
        slots.push_reserved(Some(CachePadded::new(part)));
    }
    slots
}

// Takes each part out of its slot again, in order, into the empty list, which has room for them.
fn take_from_slots<D: Drop>(slots: Vec<Option<CachePadded<D>>>, room: Vec<D>) -> Vec<D>
    requires home { (parts : List D) × AreHome slots.items parts }
    requires room { (room.items ≡ []) × (vec_len slots ≤ vec_capacity room) }
    ensures { AreHome slots.items result.items }
{
    let mut parts = room;
    for slot in slots {
        let Some(part) = slot else { unreachable!() };
        parts.push_reserved(part.into_inner());
    }
    parts
}

// Of each part, that nobody waits at it, on cache lines of its own.
fn none_waiting(alloc: Global, count: usize) -> Result<Vec<CachePadded<Waiting>>, AllocError>
    ensures { IfOk result (λ v. vec_len v ≡ count) }
{
    let mut waiting = Vec::with_capacity(alloc, count)?;
    for _ in 0..count {
        waiting.push(CachePadded::new(Waiting::new()))?;
    }
    Ok(waiting)
}

// The memory of parts, which is taken before any of them is moved.
#[derive(Drop)]
struct Rooms<P: Parted> {
    words: Vec<u64>,
    // Empty, with room for the slot of each part.
    slots: Vec<Slot<P>>,
    // Empty, with room for each part.
    spare: Vec<P::Part>,
    waiting: Vec<CachePadded<Waiting>>,
    opening: Opening<P>,
}

// The memory of so many parts, and of these sessions' snapshots.
fn make_rooms<P: Parted>(
    alloc: Global,
    count: usize,
    sessions: &[P::Session],
) -> Result<Rooms<P>, AllocError>
    ensures words { IfOk result (λ r. (r.words.items ≡ replicate (8 * count) 0) × (8 * count < 2 ^ 64)) }
    ensures slots { IfOk result (λ r. (r.slots.items ≡ []) × (count ≤ vec_capacity r.slots)) }
    ensures spare { IfOk result (λ r. (r.spare.items ≡ []) × (count ≤ vec_capacity r.spare)) }
    ensures waiting { IfOk result (λ r. vec_len r.waiting ≡ count) }
    ensures opening { IfOk result (λ r. map shown r.opening.items ≡ sessions.now) }
{
    let Some(size) = count.checked_mul(LINE) else {
        return Err(AllocError);
    };
    Ok(Rooms {
        words: vec![in alloc; 0u64; size]?,
        slots: Vec::with_capacity(alloc, count)?,
        spare: Vec::with_capacity(alloc, count)?,
        waiting: none_waiting(alloc, count)?,
        opening: snapshots_of(alloc, sessions)?,
    })
}

/// Parts that seats take and give back, shared by all threads. A clause sees them as their `Home`, in which `slots` is
/// how many they are.
#[derive(Drop)]
pub struct Parts<P: Parted> {
    table: Table<Slot<P>, KnownOf<P>, Opening<P>, PartsRule<P>, Global>,
    // Empty, with room for each part, so that `close` needs no memory.
    spare: Vec<P::Part>,
    // Who waits at each part. It is no part of the rule: it only says when to wake.
    waiting: Vec<CachePadded<Waiting>>,
    // How many workers run. It is no part of the rule either.
    crowd: CachePadded<AtomicU64>,
}

impl<P: Parted> Model for Parts<P> {
    ghost use Rattle.std.specs.Prelude.{◌≡◌, ◌≤◌, ◌<◌, ◌*◌, ◌^◌, vec_len, vec_capacity};
    ghost use Rattle.atomic_table.specs.Seated.{TableId, table_id_coded};

    ghost Value = { TableId };

    ghost coded = { table_id_coded };

    ghost view = { λ p. p.table.shared.table_id };

    ghost invariant = { λ p. (vec_len p.spare ≡ 0)
        × (p.table.shared.table_id.slots ≤ vec_capacity p.spare)
        × (p.table.shared.table_id.words ≡ 8 * p.table.shared.table_id.slots)
        × (p.table.shared.table_id.words < 2 ^ 64)
        × (vec_len p.waiting ≡ p.table.shared.table_id.slots) };
}

/// What a thread takes parts with: the first seat, which makes the others and takes them back, or the seat of one
/// session, which has one part at most. A clause sees it as its `SeatData`.
#[derive(Drop)]
pub struct Seat<P: Parted> {
    at_table: TableSeat<Slot<P>, KnownOf<P>>,
    number: u64,
}

impl<P: Parted> Model for Seat<P> {
    ghost use Rattle.hy_threads.specs.Knowledge.{Knowledge};
    ghost use Rattle.hy_threads.specs.Seats.{SeatData, IsSound};

    ghost Value = { SeatData (Knowledge P.Session P.Part) };

    ghost view = { λ s. record { home = s.at_table.table_id; id = s.at_table.id; knows = s.at_table.me.0 } };

    ghost invariant = { λ s. IsSound s.number s.at_table.me };
}

impl<P: Parted> Seat<P> {
    /// The number of its session; of the first seat, how many seats it made.
    pub fn number(&self) -> u64
        ensures { result ≡ number_of self.now.knows }
    {
        self.number
    }
}

impl<P: Parted> Parts<P> {
    /// The parts, all at home, and the first seat, which has made no other seat. The sessions are only looked at: each
    /// stays with its owner, who tells what it has become at each give. Err is for want of memory: the parts come back.
    pub fn new(
        alloc: Global,
        parts: Vec<P::Part>,
        sessions: &[P::Session],
    ) -> Result<(Parts<P>, Seat<P>), Vec<P::Part>>
        requires few { length sessions.now < 2 ^ 31 }
        requires fact { P.fact parts.items sessions.now }
        ensures ok { IfOk result (λ r. (r.0.slots ≡ vec_len parts) × (r.1.home ≡ r.0) × (r.1.knows ≡ first_of sessions.now)) }
        ensures err { IfErr result (λ back. back.items ≡ parts.items) }
    {
        let Ok(rooms) = make_rooms::<P>(alloc, parts.len(), sessions) else {
            return Err(parts);
        };
        let Rooms {
            words,
            slots,
            spare,
            waiting,
            opening,
        } = rooms;
        let slots = put_in_slots(slots, parts);
        match Table::new(alloc, words.as_slice(), slots, &opening) {
            Ok((table, at_table)) => {
                Ok((
                    Parts {
                        table,
                        spare,
                        waiting,
                        crowd: CachePadded::new(AtomicU64::new(0)),
                    },
                    Seat {
                        at_table,
                        number: 0,
                    },
                ))
            }
            Err(Refused { slots }) => Err(take_from_slots(slots, spare)),
        }
    }

    /// The parts as they stand, once every seat was joined to the first: the fact holds of them and of the sessions
    /// that the first seat has. It takes no memory.
    pub fn close(self, first: Seat<P>) -> Vec<P::Part>
        requires ours { first.home ≡ self }
        requires all { (r : Keeper P.Session) × (sessions : List P.Session) × (first.knows ≡ First r) × (r.kept ≡ map Some sessions) }
        ensures count { vec_len result ≡ self.slots }
        ensures fact { (r : Keeper P.Session) (sessions : List P.Session) → first.knows ≡ First r → r.kept ≡ map Some sessions
            → P.fact result.items sessions }
    {
        let Parts {
            table,
            spare,
            waiting: _,
            crowd: _,
        } = self;
        let Seat {
            at_table,
            number: _,
        } = first;
        let mut closed = table.close_with(at_table);
        let mut parts = spare;
        let mut k = 0;
        while k < closed.slot_count() {
            let Some(part) = closed.take(k) else {
                unreachable!()
            };
            let Ok(()) = parts.push(part.into_inner()) else {
                unreachable!()
            };
            k += 1;
        }
        closed.free();
        parts
    }

    /// Takes the part k where it is at home, by one compare-and-exchange. None is for a part that is out; the seat
    /// notes that it was refused.
    pub fn try_take(&self, seat: &mut Seat<P>, k: usize) -> Option<P::Part>
        requires ours { seat.old.home ≡ self.now }
        requires below { k < self.now.slots }
        requires free { (o : Visitor P.Session P.Part) × (seat.old.knows ≡ Seated o) × (o.held ≡ None) }
        ensures same { (seat.new.home ≡ seat.old.home) × (seat.new.id ≡ seat.old.id) }
        ensures won { IfSome result (λ p. (o : Visitor P.Session P.Part) → seat.old.knows ≡ Seated o
            → (seat.new.knows ≡ Seated (holding o k p)) × P.near k o.session p) }
        ensures lost { IfNone result ((o : Visitor P.Session P.Part) → seat.old.knows ≡ Seated o → seat.new.knows ≡ Seated (refused o k 1)) }
    {
        let found = self
            .table
            .shared
            .compare_exchange::<Taking<P>>(&mut seat.at_table, LINE * k, 0, seat.number + 1);
        if found != 0 {
            return None;
        }
        let Some(part) = self.table.shared.exchange(&mut seat.at_table, k, None) else {
            unreachable!()
        };
        Some(part.into_inner())
    }

    /// Gives the part k back, with the session that the seat has from now on. The two are those that were taken, or
    /// changed by an event. One thread that sleeps on the part is woken.
    pub fn give(&self, seat: &mut Seat<P>, session: &P::Session, k: usize, part: P::Part)
        requires ours { seat.old.home ≡ self.now }
        requires below { k < self.now.slots }
        requires held { (o : Visitor P.Session P.Part) × (p : P.Part) × (seat.old.knows ≡ Seated o) × (o.held ≡ Some (k, p))
            × (P.event k o.session p session.now part ⊎ ((session.now ≡ o.session) × (part ≡ p))) }
        ensures same { (seat.new.home ≡ seat.old.home) × (seat.new.id ≡ seat.old.id) }
        ensures given { (o : Visitor P.Session P.Part) → seat.old.knows ≡ Seated o → seat.new.knows ≡ Seated (settled o session.now) }
    {
        self.give_as::<Brand>(seat, session, k, part);
    }

    // The same, where J tells the session.
    fn give_as<J: Telling<P::Session>>(
        &self,
        seat: &mut Seat<P>,
        session: &P::Session,
        k: usize,
        part: P::Part,
    )
        requires told { J.session ≡ Some session.now }
        requires ours { seat.old.home ≡ self.now }
        requires below { k < self.now.slots }
        requires held { (o : Visitor P.Session P.Part) × (p : P.Part) × (seat.old.knows ≡ Seated o) × (o.held ≡ Some (k, p))
            × (P.event k o.session p session.now part ⊎ ((session.now ≡ o.session) × (part ≡ p))) }
        ensures same { (seat.new.home ≡ seat.old.home) × (seat.new.id ≡ seat.old.id) }
        ensures given { (o : Visitor P.Session P.Part) → seat.old.knows ≡ Seated o → seat.new.knows ≡ Seated (settled o session.now) }
    {
        let _ = session;
        let part = CachePadded::new(part);
        self.table
            .shared
            .exchange(&mut seat.at_table, k, Some(part));
        self.table
            .shared
            .store::<Giving<J>>(&mut seat.at_table, LINE * k, 0);
        if self.waiting[k].has_sleepers() {
            self.table.shared.wake_one(LINE * k);
        }
    }

    /// Waits until the part k is at home, and takes it. The seat notes each time that it was refused before.
    pub fn take<T: Wait>(&self, rt: &T, seat: &mut Seat<P>, k: usize) -> P::Part
        requires ours { seat.old.home ≡ self.now }
        requires below { k < self.now.slots }
        requires free { (o : Visitor P.Session P.Part) × (seat.old.knows ≡ Seated o) × (o.held ≡ None) }
        ensures same { (seat.new.home ≡ seat.old.home) × (seat.new.id ≡ seat.old.id) }
        ensures taken { (o : Visitor P.Session P.Part) → seat.old.knows ≡ Seated o
            → (n : ℕ) × (seat.new.knows ≡ Seated (holding (refused o k n) k result)) × P.near k o.session result }
    {
        // This call, `next_turn` and `join_group` wait: every other one takes a number of steps that is known when it begins. Who waits in
        // either has no part, so whoever has one doesn't wait here.
        for _ in rt.forever() {
            if let Some(part) = self.try_take(seat, k) {
                return part;
            }
            self.rest(rt, k);
        }
        unreachable!()
    }

    /// Looks for a while whether the part k is at home.
    fn look(&self, k: usize) -> bool
        requires { k < self.now.slots }
    {
        for look in 0..LOOKS {
            if self.table.shared.peek(LINE * k) == 0 {
                return true;
            }
            pause(look);
        }
        false
    }

    /// Looks for a while whether the part k is at home, and sleeps where it is still out. It may return earlier.
    fn rest<T: Wait>(&self, rt: &T, k: usize)
        requires { k < self.now.slots }
    {
        if self.look(k) {
            return;
        }
        let waiting = &self.waiting[k];
        waiting.begin_sleep();
        let found = self.table.shared.peek(LINE * k);
        if found != 0 {
            // A thread sleeps on the lower half of the word, which has all of it.
            self.table
                .shared
                .park(rt, LINE * k, (found % 0x1_0000_0000) as u32);
        }
        waiting.end_sleep();
    }

    /// Notes that the caller is blocked at the part k, and gives the count of the turn that it waits for. Who visits the part after
    /// this, and finds that it is blocked still, may wait for another count and misses nothing that is announced.
    pub(crate) fn begin_blocked(&self, k: usize) -> u32
        requires { k < self.now.slots }
    {
        let turn = &self.waiting[k].change;
        turn.begin_blocked();
        turn.count()
    }

    /// Waits until the turn's count at the part k is another one, and gives that. It may return earlier.
    pub(crate) fn next_turn<T: Wait>(&self, rt: &T, k: usize, count: u32) -> u32
        requires { k < self.now.slots }
    {
        let turn = &self.waiting[k].change;
        if !turn.look(count) {
            turn.sleep(rt, count);
        }
        turn.count()
    }

    /// Notes that the caller is not blocked at the part k any more.
    pub(crate) fn end_blocked(&self, k: usize)
        requires { k < self.now.slots }
    {
        self.waiting[k].change.end_blocked();
    }

    /// Announces that the part k was changed, once it was given back: all who are blocked look again.
    pub(crate) fn announce(&self, k: usize)
        requires { k < self.now.slots }
    {
        self.waiting[k].change.announce();
    }

    /// Waits until the part k has come as far as is awaited, if something is, or the caller leads those who wait there, and tells
    /// whether it does.
    pub(crate) fn join_group<T: Wait>(&self, rt: &T, k: usize, awaited: Option<u64>) -> bool
        requires { k < self.now.slots }
    {
        match awaited {
            Some(awaited) => self.waiting[k].group.join(rt, awaited, &self.crowd),
            None => false,
        }
    }

    /// Whether the part k has not come as far as is awaited there.
    pub(crate) fn has_to_wait(&self, k: usize, awaited: u64) -> bool
        requires { k < self.now.slots }
    {
        !self.waiting[k].group.has_reached(awaited)
    }

    /// Who led those who wait at the part k has done, and the part has come so far, where that is known.
    pub(crate) fn end_lead(&self, k: usize, reached: Option<u64>)
        requires { k < self.now.slots }
    {
        self.waiting[k].group.end_lead(reached);
    }

    /// A worker begins to run.
    pub(crate) fn enter(&self) {
        self.crowd.fetch_add(1, Ordering::SeqCst);
    }

    /// A worker runs no more.
    pub(crate) fn leave(&self) {
        self.crowd.fetch_sub(1, Ordering::SeqCst);
    }

    /// The next session's seat. Who has it has to have that session.
    pub fn split(&self, first: &mut Seat<P>) -> Seat<P>
        requires ours { (first.old.home ≡ self.now) × (0 < self.now.slots) }
        requires next { (r : Keeper P.Session) × (s : P.Session) × (first.old.knows ≡ First r) × (get_elem? r.kept r.made ≡ some (Some s)) }
        ensures same { (first.new.home ≡ first.old.home) × (first.new.id ≡ first.old.id) × (result.home ≡ self.now) }
        ensures parent { first.new.knows ≡ parent first.old.knows }
        ensures child { result.knows ≡ child first.old.knows }
    {
        let at_table = self
            .table
            .shared
            .split_seat::<Splitting>(&mut first.at_table);
        let number = first.number;
        first.number += 1;
        Seat { at_table, number }
    }

    /// Joins a seat that has no part to the first, which has its session from now on.
    pub fn join(&self, first: &mut Seat<P>, other: Seat<P>)
        requires ours { (first.old.home ≡ self.now) × (other.home ≡ self.now) × (0 < self.now.slots) }
        requires first { (r : Keeper P.Session) × (first.old.knows ≡ First r) }
        requires free { (o : Visitor P.Session P.Part) × (other.knows ≡ Seated o) × (o.held ≡ None) }
        ensures same { (first.new.home ≡ first.old.home) × (first.new.id ≡ first.old.id) }
        ensures joined { first.new.knows ≡ joined first.old.knows other.knows }
    {
        let Seat {
            at_table,
            number: _,
        } = other;
        self.table
            .shared
            .join_seat::<Joining>(&mut first.at_table, at_table);
    }
}
