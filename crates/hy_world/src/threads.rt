//! A run with sessions on threads: each takes the part that it needs, visits it and gives it back, with one lock word per chunk
//! and one for the core.

ghost use Rattle.std.specs.Prelude.{◌≡◌, ℕ, IfOk, List, None};
ghost use Rattle.std.specs.List.{All};
ghost use Rattle.hy_value.specs.declared.Kind.{Kind};
ghost use Rattle.hy_machine.specs.declared.Setting.{Setting};
ghost use Rattle.hy_machine.specs.States.{State};
ghost use Rattle.hy_session.specs.Ahead.{IsShareAhead};
ghost use Rattle.hy_stepping.specs.Runnable.{IsRunnable};
ghost use Rattle.hy_stepping.specs.Typed.{AreTyped};
ghost use Rattle.hy_threads.specs.Shares.{AreShares};
ghost use Rattle.hy_world.specs.LoggedRuns.{IsLastCore};
ghost use Rattle.hy_world.specs.Shared.{AreShared};
ghost use Rattle.hy_world.specs.Points.{point_of, visited_of};
ghost use Rattle.hy_world.specs.SomeRuns.{IsSomeRun, ShowsSomeRun};
ghost use Rattle.hy_world.specs.Worlds.{ShowsState};

use crate::opening::{Opened, open_all};
use crate::shared::{SharedPart, share, unshare, visit_part};
use crate::{Kinds, World};
use hy_bound::Shapes;
use hy_gathered::GroupTally;
use hy_machine::Setting;
use hy_protocol::Progress;
use hy_render::Outcome;
use hy_session::{Session, Standing};
use hy_threads::{Gate, Moment, Parted, Point, Visited, Worked, run_all};
use std::alloc::{AllocError, Global};
use std::marker::{Brand, PhantomData};
use std::sync::Wait;
use std::thread::Threads;

/// The setting of a run, the types of its tables' columns and what its disk was before, for types alone: what holds of shared parts
/// speaks of them.
pub(crate) trait Case {
    ghost setting: { Setting };

    ghost kinds: { List (List Kind) };

    // The time of a disk before the run, the images that crashes may have left until then, and its faults, where a log is kept.
    ghost time: { ℕ };

    ghost before: { ℕ → List ℕ → Type 0 };

    ghost failed: { ℕ };
}

impl Case for Brand {
    ghost use Rattle.std.specs.Prelude.{[]};

    ghost setting = { record { chunks = 0; rows = 0; shapes = []; first = []; programs = [] } };

    ghost kinds = { [] };

    ghost time = { 0 };

    ghost before = { λ time bytes. ⊥ };

    ghost failed = { 0 };
}

/// Parts and sessions that show a state which the machine comes to in a setting.
#[derive(Drop)]
pub(crate) struct Shown<K> {
    of: PhantomData<K>,
}

impl<K: Case> Parted for Shown<K> {
    ghost use Rattle.hy_world.specs.Shared.{AreShared, IsNear, IsVisit};
    ghost use Rattle.hy_world.specs.SharedLaws.{near_follows, visit_keeps};

    type Part = SharedPart;

    type Session = Session;

    ghost fact = { AreShared K.setting K.kinds };

    ghost near = { IsNear };

    ghost event = { IsVisit };

    ghost near_follows = { near_follows K.setting K.kinds };

    ghost event_keeps = { visit_keeps K.setting K.kinds };
}

impl<K: Case> Worked for Shown<K> {
    ghost use Rattle.hy_world.specs.Shared.{HasToWait};
    ghost use Rattle.hy_session.specs.Ahead.{IsShareAhead};
    ghost use Rattle.hy_session.specs.Standing.{width_of};
    ghost use Rattle.hy_world.specs.Points.{point_of, points_come_before, points_lie_within, visits_keep_width};

    ghost point_of = { point_of };

    ghost width_of = { width_of };

    ghost is_blocked = { HasToWait };

    ghost point_is_before = { points_come_before };

    ghost part_is_below = { points_lie_within };

    ghost width_stays = { visits_keep_width };

    type Share = Option<GroupTally>;

    ghost is_share = { IsShareAhead };

    fn make_ready(alloc: Global, session: &mut Session) {
        session.make_ready(alloc);
    }

    fn shares(session: &Session) -> usize {
        session.shares()
    }

    fn share(alloc: Global, session: &Session, number: usize) -> Option<GroupTally> {
        session.make_share(alloc, number)
    }

    fn take_shares(alloc: Global, session: &mut Session, shares: Vec<Option<GroupTally>>)
        requires { AreShares IsShareAhead session.old shares.items }
        ensures { session.new ≡ session.old }
    {
        session.take_shares(alloc, shares.as_slice());
    }

    fn awaited(_session: &Session) -> Option<u64> {
        None
    }

    fn may_await() -> bool {
        false
    }

    fn reached(_part: &SharedPart) -> Option<u64> {
        None
    }

    fn is_leading(_session: &Session) -> bool {
        false
    }

    fn need(session: &Session) -> Option<Point> {
        next_point(session)
    }

    fn visit(
        alloc: Global,
        number: usize,
        session: &mut Session,
        part: &mut SharedPart,
    ) -> Result<Visited, AllocError> {
        let _ = number;
        Ok(to_visited(visit_part(alloc, session, part)?))
    }
}

/// The next visit of a session, as a gate is told of it.
fn next_point(session: &Session) -> Option<Point>
    ensures { result ≡ point_of session.entry.now }
{
    let part = session.needed_part()?;
    let Standing {
        session: number,
        txn,
        statement,
    } = session.standing();
    Some(Point {
        session: number,
        txn,
        statement,
        part,
        moment: Moment::Before,
        answered: false,
    })
}

/// What a visit came to.
pub(crate) fn to_visited(progress: Progress) -> Visited
    ensures { result ≡ visited_of progress }
{
    match progress {
        Progress::Moved | Progress::Ended => Visited::Moved,
        Progress::Answered => Visited::Answered,
        Progress::Blocked { .. } => Visited::Blocked,
    }
}

/// The world of parts and sessions that come back from the threads.
pub(crate) fn world_of<K: Case>(
    alloc: Global,
    shapes: Shapes,
    per_table: u32,
    parts: Vec<SharedPart>,
    sessions: Vec<Session>,
) -> Result<World, AllocError>
    requires shared { AreShared K.setting K.kinds parts.items sessions.items }
    requires shapes { shapes ≡ K.setting.shapes }
    requires per_table { per_table ≡ K.setting.chunks }
    ensures shows { IfOk result (λ world. (state : State) × ShowsState K.setting state world) }
    ensures sessions { IfOk result (λ world. world.sessions ≡ sessions.items) }
    ensures core { IfOk result (λ world. IsLastCore parts.items world.core) }
{
    let (chunks, core) = unshare(alloc, parts)?;
    let tables = shapes.len() as u32;
    Ok(World {
        shapes,
        tables,
        per_table,
        chunks,
        core,
        sessions,
    })
}

/// Runs sessions on threads over shared parts, until all are at their end.
fn run_shared<K: Case + Send + Sync, T: Threads + Wait + Sync, G: Gate>(
    rt: &T,
    alloc: Global,
    parts: Vec<SharedPart>,
    sessions: Vec<Session>,
    gate: &G,
) -> Result<(Vec<SharedPart>, Vec<Session>), AllocError>
    requires { AreShared K.setting K.kinds parts.items sessions.items }
    ensures shared { IfOk result (λ given. AreShared K.setting K.kinds given.0.items given.1.items) }
    ensures ended { IfOk result (λ given. All (λ session. point_of session ≡ None) given.1.items) }
{
    let ran = run_all::<T, Shown<K>, G>(rt, alloc, parts, sessions, gate);
    if ran.is_starved {
        return Err(AllocError);
    }
    Ok((ran.parts, ran.sessions))
}

/// Runs a setting with its sessions on threads, where the setting is told by a type.
fn run_case<K: Case + Send + Sync, T: Threads + Wait + Sync, G: Gate>(
    rt: &T,
    alloc: Global,
    setting: Setting,
    kinds: &[Kinds],
    prunes: bool,
    gate: &G,
) -> Result<World, AllocError>
    requires setting { setting ≡ K.setting }
    requires kinds { kinds.now ≡ K.kinds }
    requires runnable { IsRunnable setting }
    requires typed { AreTyped kinds.now setting.shapes setting.first setting.programs }
    ensures { IfOk result (λ world. ShowsSomeRun setting world) }
{
    hy_refinement::the_opening_is_shown();
    hy_stepping::cores_are_near();
    hy_stepping::needed_chunks_are_there();
    hy_stepping::chunks_are_near();
    hy_stepping::visits_are_steps();
    hy_stepping::ends_are_the_machines();
    let Opened {
        shapes,
        per_table,
        chunks,
        core,
        sessions,
    } = open_all(alloc, setting, kinds, prunes)?;
    let parts = share(alloc, chunks, core)?;
    let (parts, sessions) = run_shared::<K, T, G>(rt, alloc, parts, sessions, gate)?;
    world_of::<K>(alloc, shapes, per_table, parts, sessions)
}

/// The world of a setting after a run with its sessions on threads, until every session has ended. It shows what
/// the snapshot machine comes to by some schedule, whether chunks are pruned or not: by which one, the threads decide. The
/// gate is told of each visit. It waits for locks and for the threads' ends. Err is for want of memory: the session that
/// finds none stops before its step, the others go on to their end, and there is no world.
pub fn world_by_threads<T: Threads + Wait + Sync, G: Gate>(
    rt: &T,
    alloc: Global,
    setting: Setting,
    kinds: &[Kinds],
    prunes: bool,
    gate: &G,
) -> Result<World, AllocError>
    requires runnable { IsRunnable setting }
    requires typed { AreTyped kinds.now setting.shapes setting.first setting.programs }
    ensures { IfOk result (λ world. ShowsSomeRun setting world) }
{
    run_case::<Brand, T, G>(rt, alloc, setting, kinds, prunes, gate)
}

/// What a run comes to with sessions on threads, as `world_by_threads` runs them: an outcome that the
/// snapshot machine comes to by some steps. Err is for want of memory, and then there is no outcome.
pub fn run_threads<T: Threads + Wait + Sync, G: Gate>(
    rt: &T,
    alloc: Global,
    setting: Setting,
    kinds: &[Kinds],
    prunes: bool,
    gate: &G,
) -> Result<Outcome, AllocError>
    requires runnable { IsRunnable setting }
    requires typed { AreTyped kinds.now setting.shapes setting.first setting.programs }
    ensures { IfOk result (λ outcome. IsSomeRun setting outcome) }
{
    hy_stepping::ends_are_the_machines();
    hy_machine::runs_are_steps();
    world_by_threads(rt, alloc, setting, kinds, prunes, gate)?.finish(alloc)
}
