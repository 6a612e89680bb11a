//! A run with sessions on threads that keeps a log: each session is told how a transaction ended once what that
//! stands on is in the log, and several share an append.

ghost use Rattle.std.specs.Prelude.{◌≡◌, ◌+◌, ◌++◌, ◌∷◌, ◌<◌, ◌≤◌, ℕ, suc, List, [], length, map, All};
ghost use Rattle.std.specs.Prelude.{None, Ok, IfOk, IfErr, IsErrOf, false, vec_len, vec_capacity};
ghost use Rattle.std.specs.List.{AllByRecursion};
ghost use Rattle.hy_machine.specs.States.{State};
ghost use Rattle.hy_outside.specs.Faults.{Rose};
ghost use Rattle.hy_redo.specs.Crashes.{AreLogsOf};
ghost use Rattle.hy_session.specs.Standing.{needed_number, number_within};
ghost use Rattle.hy_stepping.specs.Outcomes.{told_entry};
ghost use Rattle.hy_stepping.specs.Runnable.{IsRunnable};
ghost use Rattle.hy_stepping.specs.Typed.{AreTyped};
ghost use Rattle.hy_world.specs.Follows.{Tells};
ghost use Rattle.hy_threads.specs.Shares.{AreShares};
ghost use Rattle.hy_world.specs.Grouped.{AreLogged, IsShareLogged, logged_number, logged_point, session_in, shared_in};
ghost use Rattle.hy_world.specs.LoggedRuns.{AreWithLog, IsBefore, IsEmptyLog, IsLastCore, IsNoLog, IsReady, IsWorldLogged, RanLogged, fresh_sessions};
ghost use Rattle.hy_world.specs.Shared.{AreShared};
ghost use Rattle.hy_world.specs.Worlds.{WorldData, ShowsState};
ghost use Rattle.hy_world.specs.declared.grouped.KeptLog.{KeptLog};
ghost use Rattle.hy_world.specs.declared.grouped.LoggedPart.{LoggedPart};
ghost use Rattle.hy_world.specs.declared.grouped.LoggedPart.TheVariants as part;

use crate::grouped::{Durability, KeptLog, LoggedPart, LoggedSession, Stage, visit_logged};
use crate::opening::{Opened, open_all};
use crate::shared::{SharedPart, share};
use crate::threads::{Case, world_of};
use crate::{Kinds, World};
use hy_bound::Shapes;
use hy_disk::Disk;
use hy_gathered::GroupTally;
use hy_machine::Setting;
use hy_redo::{AppendError, Log};
use hy_render::Outcome;
use hy_session::{Session, Standing};
use hy_threads::{Gate, Moment, Parted, Point, Ran, Visited, Worked, run_all};
use std::alloc::{AllocError, Global};
use std::marker::{Brand, PhantomData};
use std::sync::Wait;
use std::thread::Threads;

/// What sessions on threads are run with.
#[derive(Drop)]
pub struct Crew<'a, T, G> {
    /// What starts threads and waits for them.
    pub rt: &'a T,
    /// What gives memory.
    pub alloc: Global,
    /// The gate that is told of each visit.
    pub gate: &'a G,
}

/// Parts and sessions that keep a log, and without it show a state which the machine comes to in a setting.
#[derive(Drop)]
struct ShownLogged<K, D> {
    of: PhantomData<K>,
    on: PhantomData<D>,
}

impl<K: Case, D: Disk + Send + Sync> Parted for ShownLogged<K, D> {
    ghost use Rattle.hy_world.specs.Grouped.{AreLogged, IsLoggedNear, IsLoggedVisit};
    ghost use Rattle.hy_world.specs.GroupedLaws.{logged_near, logged_keeps};

    type Part = LoggedPart<D>;

    type Session = LoggedSession;

    ghost fact = { AreLogged D.clock D.image D.image_since D.faults K.setting K.kinds K.time K.before K.failed };

    ghost near = { IsLoggedNear D.image };

    ghost event = { IsLoggedVisit D.clock D.image D.image_since D.faults };

    ghost near_follows = { logged_near D.clock D.image D.image_since D.faults K.time K.before K.failed K.setting K.kinds };

    ghost event_keeps = { logged_keeps D.clock D.image D.image_since D.faults K.time K.before K.failed K.setting K.kinds };
}

impl<K: Case, D: Disk + Send + Sync> Worked for ShownLogged<K, D> {
    ghost use Rattle.hy_world.specs.Grouped.{HasToWaitLogged, IsShareLogged, logged_point, logged_width};
    ghost use Rattle.hy_world.specs.GroupedLaws.{logged_points_come_before, logged_points_lie_within, logged_visits_keep_width};

    ghost point_of = { logged_point };

    ghost width_of = { logged_width };

    ghost is_blocked = { HasToWaitLogged };

    ghost point_is_before = { logged_points_come_before };

    ghost part_is_below = { logged_points_lie_within };

    ghost width_stays = { logged_visits_keep_width D.clock D.image D.image_since D.faults };

    type Share = Option<GroupTally>;

    ghost is_share = { IsShareLogged };

    fn make_ready(alloc: Global, session: &mut LoggedSession) {
        session.session.make_ready(alloc);
    }

    fn shares(session: &LoggedSession) -> usize {
        session.session.shares()
    }

    fn share(alloc: Global, session: &LoggedSession, number: usize) -> Option<GroupTally> {
        session.session.make_share(alloc, number)
    }

    fn take_shares(alloc: Global, session: &mut LoggedSession, shares: Vec<Option<GroupTally>>)
        requires { AreShares IsShareLogged session.old shares.items }
        ensures { session.new ≡ session.old }
    {
        session.session.take_shares(alloc, shares.as_slice());
    }

    fn awaited(session: &LoggedSession) -> Option<u64> {
        match session.stage {
            Stage::Running if session.awaits() => Some(session.owed as u64),
            _ => None,
        }
    }

    fn may_await() -> bool {
        true
    }

    fn reached(part: &LoggedPart<D>) -> Option<u64> {
        let LoggedPart::Core(_, durability) = part else {
            return None;
        };
        // Where the log is broken all are to come, and stop.
        Some(if durability.is_broken {
            u64::MAX
        } else {
            durability.durable as u64
        })
    }

    fn is_leading(session: &LoggedSession) -> bool {
        matches!(session.stage, Stage::Appending { .. } | Stage::Reporting(_))
    }

    fn need(session: &LoggedSession) -> Option<Point> {
        next_point(session)
    }

    fn visit(
        alloc: Global,
        number: usize,
        session: &mut LoggedSession,
        part: &mut LoggedPart<D>,
    ) -> Result<Visited, AllocError> {
        visit_logged(alloc, number, session, part)
    }
}

/// The part that a session needs next without a log, if that is one of those.
fn own_part(session: &LoggedSession) -> Option<usize>
    ensures { result ≡ number_within (suc session.now.core_part) (needed_number session.now.session) }
{
    let part = session.session.needed_part()?;
    if part <= session.core_part as usize {
        Some(part)
    } else {
        None
    }
}

/// The number of the part that a session needs next.
fn needed_part(session: &LoggedSession) -> Option<usize>
    ensures { result ≡ logged_number session.now }
{
    match &session.stage {
        Stage::Running if session.awaits() => Some(session.core_part as usize),
        Stage::Running => own_part(session),
        Stage::Appending { .. } => Some(session.core_part as usize + 1),
        Stage::Reporting(_) => Some(session.core_part as usize),
        Stage::Stopped => None,
    }
}

/// The next visit of a session, as a gate is told of it.
fn next_point(session: &LoggedSession) -> Option<Point>
    ensures { result ≡ logged_point session.now }
{
    let part = needed_part(session)?;
    let Standing {
        session: number,
        txn,
        statement,
    } = session.session.standing();
    Some(Point {
        session: number,
        txn,
        statement,
        part,
        moment: Moment::Before,
        answered: false,
    })
}

/// Sessions before they have done anything, beside so many chunks.
fn begin_sessions(
    alloc: Global,
    sessions: Vec<Session>,
    core_part: u32,
) -> Result<Vec<LoggedSession>, AllocError>
    ensures { IfOk result (λ all. all.items ≡ fresh_sessions core_part sessions.items) }
{
    let mut all = Vec::new(alloc);
    for session in sessions {
        all.push(LoggedSession::new(session, core_part))?;
    }
    Ok(all)
}

/// The sessions without what they keep of a log.
fn end_sessions(alloc: Global, sessions: Vec<LoggedSession>) -> Result<Vec<Session>, AllocError>
    ensures { IfOk result (λ all. all.items ≡ map session_in sessions.items) }
{
    let mut all = Vec::new(alloc);
    for session in sessions {
        all.push(session.session)?;
    }
    Ok(all)
}

/// Chunks as parts that keep a log, with room for the core and the log behind them. Err is for want of memory.
fn chunk_parts<D: Disk>(
    alloc: Global,
    parts: Vec<SharedPart>,
) -> Result<Vec<LoggedPart<D>>, AllocError>
    ensures parts { IfOk result (λ all. all.items ≡ map part.Chunk parts.items) }
    ensures room { IfOk result (λ all. vec_len all + 2 ≤ vec_capacity all) }
{
    let mut all = Vec::new(alloc);
    for part in parts {
        all.push(LoggedPart::Chunk(part))?;
    }
    all.reserve(2)?;
    Ok(all)
}

/// Adds a log behind parts, the last of which is the core. Where memory runs out the log comes back.
fn add_log<D: Disk>(
    alloc: Global,
    parts: Vec<SharedPart>,
    log: KeptLog<D>,
) -> Result<Vec<LoggedPart<D>>, KeptLog<D>>
    requires { 0 < length parts.items }
    ensures parts { IfOk result (λ all. AreWithLog parts.items log all.items) }
    ensures back { IfErr result (λ back. back ≡ log) }
{
    let mut parts = parts;
    let Some(core) = parts.pop() else {
        unreachable!()
    };
    let Ok(mut all) = chunk_parts(alloc, parts) else {
        return Err(log);
    };
    let durability = Durability {
        durable: 0,
        is_appending: false,
        is_broken: false,
    };
    all.push_reserved(LoggedPart::Core(core, durability));
    all.push_reserved(LoggedPart::Log(log));
    Ok(all)
}

/// Parts without a log. Err is for want of memory.
fn parts_before<D: Disk>(
    alloc: Global,
    parts: Vec<LoggedPart<D>>,
) -> Result<Vec<SharedPart>, AllocError>
    requires { AllByRecursion IsNoLog parts.items }
    ensures { IfOk result (λ all. all.items ≡ map shared_in parts.items) }
{
    let mut all = Vec::new(alloc);
    for part in parts {
        let (LoggedPart::Chunk(part) | LoggedPart::Core(part, _)) = part else {
            unreachable!()
        };
        all.push(part)?;
    }
    Ok(all)
}

/// The log behind parts, and the parts before it.
fn take_log<D: Disk>(parts: Vec<LoggedPart<D>>) -> (Vec<LoggedPart<D>>, KeptLog<D>)
    requires { (front : List (LoggedPart D)) × (log : KeptLog D) × (parts.items ≡ front ++ part.Log log ∷ []) }
    ensures { parts.items ≡ result.0.items ++ part.Log result.1 ∷ [] }
{
    let mut parts = parts;
    let Some(LoggedPart::Log(log)) = parts.pop() else {
        unreachable!()
    };
    (parts, log)
}

/// Parts without a log and sessions, at the beginning of a run, and what its world has beside them.
#[derive(Drop)]
struct Ready {
    shapes: Shapes,
    per_table: u32,
    parts: Vec<SharedPart>,
    sessions: Vec<LoggedSession>,
}

/// The parts and sessions of a setting, which is told by a type, before anything has happened. Err is for want of memory.
fn make_ready<K: Case>(
    alloc: Global,
    setting: Setting,
    kinds: &[Kinds],
    prunes: bool,
) -> Result<Ready, AllocError>
    requires setting { setting ≡ K.setting }
    requires kinds { kinds.now ≡ K.kinds }
    requires runnable { IsRunnable setting }
    requires typed { AreTyped kinds.now setting.shapes setting.first setting.programs }
    ensures { IfOk result (λ made. IsReady K.setting K.kinds made) }
{
    hy_refinement::the_opening_is_shown();
    hy_stepping::cores_are_near();
    hy_stepping::needed_chunks_are_there();
    hy_stepping::chunks_are_near();
    hy_stepping::visits_are_steps();
    let Opened {
        shapes,
        per_table,
        chunks,
        core,
        sessions,
    } = open_all(alloc, setting, kinds, prunes)?;
    let core_part = chunks.len() as u32;
    let parts = share(alloc, chunks, core)?;
    let sessions = begin_sessions(alloc, sessions, core_part)?;
    Ok(Ready {
        shapes,
        per_table,
        parts,
        sessions,
    })
}

/// Runs sessions on threads over parts that keep a log, until all are at their end. One that finds no memory stops before
/// its visit, and where the log is broken all stop.
fn run_shared<K: Case + Send + Sync, D: Disk + Send + Sync, T: Threads + Wait + Sync, G: Gate>(
    crew: &Crew<'_, T, G>,
    parts: Vec<LoggedPart<D>>,
    sessions: Vec<LoggedSession>,
) -> Ran<ShownLogged<K, D>>
    requires { AreLogged D.clock D.image D.image_since D.faults K.setting K.kinds K.time K.before K.failed parts.items sessions.items }
    ensures shared { AreLogged D.clock D.image D.image_since D.faults K.setting K.kinds K.time K.before K.failed result.parts.items result.sessions.items }
    ensures ended { result.is_starved ≡ false → All (λ session. logged_point session ≡ None) result.sessions.items }
{
    run_all::<T, ShownLogged<K, D>, G>(crew.rt, crew.alloc, parts, sessions, crew.gate)
}

/// The world of parts before a log and of sessions, as they come back from the threads. Err is for want of memory.
fn world_back<K: Case, D: Disk>(
    alloc: Global,
    shapes: Shapes,
    per_table: u32,
    parts: Vec<LoggedPart<D>>,
    sessions: Vec<LoggedSession>,
) -> Result<World, AllocError>
    requires parts { AllByRecursion IsNoLog parts.items }
    requires shared { AreShared K.setting K.kinds (map shared_in parts.items) (map session_in sessions.items) }
    requires shapes { shapes ≡ K.setting.shapes }
    requires per_table { per_table ≡ K.setting.chunks }
    ensures shows { IfOk result (λ world. (state : State) × ShowsState K.setting state world) }
    ensures sessions { IfOk result (λ world. world.sessions ≡ map session_in sessions.items) }
    ensures core { IfOk result (λ world. IsLastCore (map shared_in parts.items) world.core) }
{
    let parts = parts_before(alloc, parts)?;
    let sessions = end_sessions(alloc, sessions)?;
    world_of::<K>(alloc, shapes, per_table, parts, sessions)
}

/// What comes back of a run: the world, where no session found no memory and the log isn't broken, and the disk.
#[tactic(none)]
fn come_back<K: Case, D: Disk>(
    alloc: Global,
    shapes: Shapes,
    per_table: u32,
    parts: Vec<LoggedPart<D>>,
    sessions: Vec<LoggedSession>,
    is_starved: bool,
) -> (Result<World, AppendError>, D)
    requires shared { AreLogged D.clock D.image D.image_since D.faults K.setting K.kinds K.time K.before K.failed parts.items sessions.items }
    requires ended { is_starved ≡ false → All (λ session. logged_point session ≡ None) sessions.items }
    requires shapes { shapes ≡ K.setting.shapes }
    requires per_table { per_table ≡ K.setting.chunks }
    ensures ran { (before : D) → IsBefore D.clock D.image_since D.faults K.time K.before K.failed before → (gate : ℕ) → AreLogsOf (D.image before) [] gate
        → IsWorldLogged D.clock D.image D.image_since K.setting K.kinds result.0 before result.1 }
    ensures fault { IsErrOf result.0 AppendError.DiskFault → Rose K.failed (D.faults result.1) }
    ensures steady { ¬ IsErrOf result.0 AppendError.DiskFault → D.faults result.1 ≡ K.failed }
{
    hy_stepping::ends_are_the_machines();
    hy_stepping::logs_recover_tables();
    hy_refinement::entries_tell_changes();
    let (parts, log) = take_log(parts);
    let KeptLog {
        log: _,
        disk,
        count: _,
        is_broken,
    } = log;
    if is_broken {
        return (Err(AppendError::DiskFault), disk);
    }
    if is_starved {
        return (Err(AppendError::OutOfMemory), disk);
    }
    match world_back::<K, D>(alloc, shapes, per_table, parts, sessions) {
        Ok(world) => (Ok(world), disk),
        Err(_) => (Err(AppendError::OutOfMemory), disk),
    }
}

/// Runs a setting, which is told by a type, with its sessions on threads and its commit order in a log.
#[tactic(none)]
fn run_case<K: Case + Send + Sync, D: Disk + Send + Sync, T: Threads + Wait + Sync, G: Gate>(
    crew: &Crew<'_, T, G>,
    setting: Setting,
    kinds: &[Kinds],
    prunes: bool,
    log: KeptLog<D>,
) -> (Result<World, AppendError>, D)
    requires setting { setting ≡ K.setting }
    requires kinds { kinds.now ≡ K.kinds }
    requires before { IsBefore D.clock D.image_since D.faults K.time K.before K.failed log.disk }
    requires runnable { IsRunnable setting }
    requires typed { AreTyped kinds.now setting.shapes setting.first setting.programs }
    requires empty { IsEmptyLog D.image log }
    ensures ran { IsWorldLogged D.clock D.image D.image_since setting kinds.now result.0 log.disk result.1 }
    ensures fault { IsErrOf result.0 AppendError.DiskFault → Rose (D.faults log.disk) (D.faults result.1) }
    ensures steady { ¬ IsErrOf result.0 AppendError.DiskFault → D.faults result.1 ≡ D.faults log.disk }
{
    let alloc = crew.alloc;
    let Ok(made) = make_ready::<K>(alloc, setting, kinds, prunes) else {
        return (Err(AppendError::OutOfMemory), log.disk);
    };
    let Ready {
        shapes,
        per_table,
        parts,
        sessions,
    } = made;
    let parts = match add_log(alloc, parts, log) {
        Ok(parts) => parts,
        Err(log) => return (Err(AppendError::OutOfMemory), log.disk),
    };
    let Ran {
        parts,
        sessions,
        is_starved,
    } = run_shared::<K, D, T, G>(crew, parts, sessions);
    come_back::<K, D>(alloc, shapes, per_table, parts, sessions, is_starved)
}

/// What a world tells at the end of a run, where there is one.
fn finish(alloc: Global, world: Result<World, AppendError>) -> Result<Outcome, AppendError>
    ensures outcome { IfOk result (λ outcome. (world' : WorldData) × (world ≡ Ok world') × Tells world' outcome
        × (outcome.order ≡ map told_entry world'.core.entries)) }
    ensures fault { IsErrOf result AppendError.DiskFault → IsErrOf world AppendError.DiskFault }
    ensures broken { IsErrOf world AppendError.DiskFault → IsErrOf result AppendError.DiskFault }
{
    Ok(world?.finish(alloc)?)
}

/// Runs a setting with its sessions on threads and its commit order in this log, in which nothing is: each session is told how
/// a transaction ended once what that reads and wrote is in the log, and several share an append. The outcome is what the snapshot machine
/// comes to by some schedule, which the threads decide, and what a crash leaves at any moment recovers to the tables after some first entries
/// of its commit order. It waits for locks and for the threads' ends. Err is for a fault of the disk, or for want of memory: then each
/// session stops before a step, and what a crash leaves is the same of some run. The disk comes back.
#[tactic(none)]
pub fn run_threads_logged<T: Threads + Wait + Sync, G: Gate, D: Disk + Send + Sync>(
    crew: &Crew<'_, T, G>,
    setting: Setting,
    kinds: &[Kinds],
    prunes: bool,
    log: Log,
    disk: D,
) -> (Result<Outcome, AppendError>, D)
    requires runnable { IsRunnable setting }
    requires typed { AreTyped kinds.now setting.shapes setting.first setting.programs }
    requires log { AreLogsOf (D.image disk) [] log }
    ensures ran { RanLogged D.clock D.image D.image_since setting kinds.now result.0 disk result.1 }
    ensures fault { IsErrOf result.0 AppendError.DiskFault → Rose (D.faults disk) (D.faults result.1) }
    ensures steady { ¬ IsErrOf result.0 AppendError.DiskFault → D.faults result.1 ≡ D.faults disk }
{
    hy_stepping::ends_are_the_machines();
    hy_stepping::logs_recover_tables();
    hy_machine::runs_are_steps();
    let log = KeptLog {
        log,
        disk,
        count: 0,
        is_broken: false,
    };
    let (world, disk) = run_case::<Brand, D, T, G>(crew, setting, kinds, prunes, log);
    (finish(crew.alloc, world), disk)
}
