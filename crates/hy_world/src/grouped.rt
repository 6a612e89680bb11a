//! Group commit: a session is told how its transaction ended once what that stands on is in the redo log, and several sessions
//! share an append. Whoever waits first takes all entries that are not in the log yet and appends them by one call, while the
//! others go on (group commit: DeWitt, Katz, Olken, Shapiro, Stonebraker, Wood, "Implementation Techniques for Main Memory
//! Database Systems", SIGMOD 1984).
//!
//! The core's part knows how many entries are durable, and the log is a part of its own: it is appended to while others visit
//! the core. A session that has taken entries appends them, and reports what came of it to the core; it finds no want of memory
//! and waits for nobody in between, so that those who wait for its report wait for nothing else.

ghost use Rattle.std.specs.Prelude.{◌≡◌, ◌≤◌, ◌<◌, ◌&&◌, ◌==◌, ℕ, List, Some, true, false, IfOk, OnErr, length, drop, if◌then◌else◌};
ghost use Rattle.hy_journal.specs.declared.Entry.{Entry};
ghost use Rattle.hy_event.specs.Needs.{need_of};
ghost use Rattle.hy_redo.specs.Crashes.{AreClosedAt};
ghost use Rattle.hy_redo.specs.Logs.{IsBatchOf};
ghost use Rattle.hy_threads.specs.Visits.{Visits};
ghost use Rattle.hy_world.specs.Grouped.{awaits, is_over, entries_in, fresh_session, logged_number, reported};
ghost use Rattle.hy_world.specs.Grouped.{AppendsEntries, CoreComesTo, HasToWaitLogged, HoldsCore, IsAppended, IsLoggedVisit};
ghost use Rattle.hy_world.specs.Grouped.{MayAppend, MayVisitCore, MayVisitLogged};
ghost use Rattle.hy_world.specs.Shared.{MayVisit};

use crate::shared::{PartKind, SharedPart, visit_part};
use crate::threads::to_visited;
use hy_disk::Disk;
use hy_event::Need;
use hy_journal::Entry;
use hy_redo::{AppendError, Batch, Log, append_batch, encode_batch};
use hy_session::Session;
use hy_threads::Visited;
use std::alloc::{AllocError, Global};

/// What the core knows of the log.
#[derive(Clone, Copy, Debug, PartialEq, Eq)]
pub(crate) struct Durability {
    /// How many entries of the commit order are in the log.
    pub(crate) durable: usize,
    /// Whether a session has taken entries, and has not reported what came of them.
    pub(crate) is_appending: bool,
    /// Whether the disk failed: nobody is told anything from then on.
    pub(crate) is_broken: bool,
}

/// A log, and the disk that it is on.
#[derive(Drop)]
pub(crate) struct KeptLog<D> {
    pub(crate) log: Log,
    pub(crate) disk: D,
    /// How many entries it has.
    pub(crate) count: usize,
    /// Whether the disk failed.
    pub(crate) is_broken: bool,
}

/// A part that sessions share which keep a log.
#[derive(Drop)]
pub(crate) enum LoggedPart<D> {
    /// A chunk of a table.
    Chunk(SharedPart),
    /// The core, and what it knows of the log.
    Core(SharedPart, Durability),
    /// The log.
    Log(KeptLog<D>),
}

/// What came of entries that a session took.
#[derive(Clone, Copy, Debug, PartialEq, Eq)]
pub(crate) enum Report {
    /// So many entries of the commit order are in the log.
    Durable(usize),
    /// Memory ran out: the log is as it was.
    Short,
    /// The disk failed.
    Failed,
}

/// Where a session stands that keeps a log.
#[derive(Drop)]
pub(crate) enum Stage {
    /// It visits what its script needs, or waits until what it owes is durable.
    Running,
    /// It has taken the entries that were not durable, up to so many of the commit order, and appends them.
    Appending {
        /// How many entries the log has with them.
        upto: usize,
        /// The entries.
        batch: Batch,
    },
    /// It reports to the core what came of them.
    Reporting(Report),
    /// The log is broken, and it goes on no more.
    Stopped,
}

/// A session that keeps a log.
#[derive(Drop)]
pub(crate) struct LoggedSession {
    pub(crate) session: Session,
    /// How many entries of the commit order have to be durable before it is told how its present transaction ended: those that
    /// the transaction reads, and its own.
    pub(crate) owed: usize,
    pub(crate) stage: Stage,
    /// The number of the core among the parts; that of the log comes next.
    pub(crate) core_part: u32,
}

/// Whether a session has no transaction open, or is at its end.
fn is_over(session: &Session) -> bool
    ensures { result ≡ is_over session.entry.now }
{
    !session.is_open() || matches!(session.next(), Need::Done)
}

impl LoggedSession {
    /// A session before it has done anything.
    pub(crate) fn new(session: Session, core_part: u32) -> LoggedSession
        ensures { result ≡ fresh_session session core_part }
    {
        LoggedSession {
            session,
            owed: 0,
            stage: Stage::Running,
            core_part,
        }
    }

    /// Whether its transaction has ended, and it is to be told so once what it owes is durable.
    pub(crate) fn awaits(&self) -> bool
        ensures { result ≡ awaits self.now }
    {
        self.owed > 0 && is_over(&self.session)
    }
}

/// The entries of the journal behind a prefix of so many.
fn entries_behind(part: &SharedPart, prefix: usize) -> &[Entry]
    requires core { HoldsCore part.now }
    requires within { prefix ≤ length (entries_in part.now) }
    ensures { result.now ≡ drop prefix (entries_in part.now) }
{
    match &part.kind {
        PartKind::Core(core) => core.since(prefix),
        PartKind::Chunk(_) => unreachable!(),
    }
}

/// How many entries the journal has.
fn count_entries(part: &SharedPart) -> usize
    requires { HoldsCore part.now }
    ensures { result ≡ length (entries_in part.now) }
{
    entries_behind(part, 0).len()
}

/// The entries behind a prefix, of which there are some, as a batch. Err is for want of memory.
fn take_entries(alloc: Global, part: &SharedPart, prefix: usize) -> Result<Stage, AllocError>
    requires core { HoldsCore part.now }
    requires some { prefix < length (entries_in part.now) }
    ensures { IfOk result (λ stage. (batch : List ℕ) × IsBatchOf (drop prefix (entries_in part.now)) batch
        × (stage ≡ Stage.Appending (length (entries_in part.now)) batch)) }
{
    let batch = encode_batch(alloc, entries_behind(part, prefix))?;
    Ok(Stage::Appending {
        upto: count_entries(part),
        batch,
    })
}

/// Whether a visit came to a wait.
fn is_blocked(visited: Visited) -> bool
    ensures blocked { result ≡ true → visited ≡ Visited.Blocked }
    ensures other { result ≡ false → visited ≡ Visited.Blocked → ⊥ }
{
    matches!(visited, Visited::Blocked)
}

/// What a session owes behind a visit of the core, at which the journal had so many entries before and has so many now: what it owed, or
/// all of them where its transaction began by the visit or has its entry by it.
fn owed_behind(owed: usize, was_open: bool, before: usize, now: usize) -> usize
    ensures { result ≡ (if was_open && now == before then owed else now) }
{
    if was_open && now == before { owed } else { now }
}

impl Durability {
    /// What the core knows after a report.
    fn note(&mut self, report: Report)
        ensures { self.new ≡ reported self.old report }
    {
        self.is_appending = false;
        match report {
            Report::Durable(count) => self.durable = count,
            Report::Short => {}
            Report::Failed => self.is_broken = true,
        }
    }
}

impl<D: Disk> KeptLog<D> {
    /// Appends a batch of entries, with which the log has so many, and gives what came of it.
    fn append(&mut self, upto: usize, batch: &Batch) -> Report
        requires closed { AreClosedAt (D.image self.old.disk) self.old.log }
        requires some { (more : List Entry) × IsBatchOf more batch.now }
        ensures { IsAppended D.clock D.image D.image_since D.faults upto batch.now self.old self.new result }
    {
        match append_batch(&mut self.log, &mut self.disk, batch) {
            Ok(()) => {
                self.count = upto;
                Report::Durable(upto)
            }
            Err(AppendError::OutOfMemory) => Report::Short,
            Err(AppendError::DiskFault) => {
                self.is_broken = true;
                Report::Failed
            }
        }
    }
}

impl LoggedSession {
    /// A visit of the core, of whose log no fault is known, by a session that goes on as without a log. It owes what its transaction
    /// reads, which is what the journal has at its BEGIN, and its own entry.
    fn go_on(
        &mut self,
        alloc: Global,
        number: usize,
        part: &mut SharedPart,
    ) -> Result<Visited, AllocError>
        requires running { self.old.stage ≡ Stage.Running }
        requires free { awaits self.old ≡ false }
        requires core { HoldsCore part.old }
        requires needed { logged_number self.old ≡ Some number }
        requires may { MayVisit (need_of self.old.session) self.old.session part.old }
        ensures visited { IfOk result (λ visited. (durability : Durability) → durability.is_broken ≡ false
            → CoreComesTo number visited self.old part.old durability self.new part.new durability) }
        ensures err { OnErr result ((self.new ≡ self.old) × (part.new ≡ part.old)) }
    {
        let _ = number;
        let was_open = self.session.is_open();
        let before = count_entries(part);
        let visited = to_visited(visit_part(alloc, &mut self.session, part)?);
        if is_blocked(visited) {
            return Ok(Visited::Blocked);
        }
        self.owed = owed_behind(self.owed, was_open, before, count_entries(part));
        if self.awaits() {
            return Ok(Visited::Moved);
        }
        Ok(visited)
    }

    /// A visit of the core, of whose log no fault is known, by a session that is told how its transaction ended once what it owes is
    /// durable. Where it isn't, and nobody appends, it takes the entries that are not.
    fn settle(
        &mut self,
        alloc: Global,
        part: &SharedPart,
        durability: &mut Durability,
    ) -> Result<Visited, AllocError>
        requires running { self.old.stage ≡ Stage.Running }
        requires sound { durability.old.is_broken ≡ false }
        requires waits { awaits self.old ≡ true }
        requires core { HoldsCore part.now }
        requires durable { durability.old.durable ≤ length (entries_in part.now) }
        requires owed { self.old.owed ≤ length (entries_in part.now) }
        ensures visited { IfOk result (λ visited. (number : ℕ)
            → CoreComesTo number visited self.old part.now durability.old self.new part.now durability.new) }
        ensures err { OnErr result ((self.new ≡ self.old) × (durability.new ≡ durability.old)) }
    {
        if self.owed <= durability.durable {
            self.owed = 0;
            return Ok(Visited::Answered);
        }
        if durability.is_appending {
            return Ok(Visited::Blocked);
        }
        self.stage = take_entries(alloc, part, durability.durable)?;
        durability.is_appending = true;
        Ok(Visited::Moved)
    }

    /// A visit of the core by a session that has no entries.
    fn visit_core(
        &mut self,
        alloc: Global,
        number: usize,
        part: &mut SharedPart,
        durability: &mut Durability,
    ) -> Result<Visited, AllocError>
        requires running { self.old.stage ≡ Stage.Running }
        requires needed { logged_number self.old ≡ Some number }
        requires may { MayVisitCore self.old part.old durability.old Stage.Running }
        ensures visited { IfOk result (λ visited.
            CoreComesTo number visited self.old part.old durability.old self.new part.new durability.new) }
        ensures err { OnErr result ((self.new ≡ self.old) × (part.new ≡ part.old) × (durability.new ≡ durability.old)) }
    {
        if durability.is_broken {
            self.stage = Stage::Stopped;
            return Ok(Visited::Moved);
        }
        if self.awaits() {
            return self.settle(alloc, part, durability);
        }
        self.go_on(alloc, number, part)
    }

    /// Reports to the core what came of the entries that it took. False where it has no report, and then nothing changes.
    fn report(&mut self, durability: &mut Durability) -> bool
        ensures reports { result ≡ true → (report : Report) × (self.old.stage ≡ Stage.Reporting report)
            × (self.new ≡ record self.old { stage = Stage.Running }) × (durability.new ≡ reported durability.old report) }
        ensures none { result ≡ false → (self.new ≡ self.old) × (durability.new ≡ durability.old)
            × ((report : Report) → self.old.stage ≡ Stage.Reporting report → ⊥) }
    {
        let Stage::Reporting(report) = self.stage else {
            return false;
        };
        durability.note(report);
        self.stage = Stage::Running;
        true
    }

    /// Appends the entries that it took.
    fn append<D: Disk>(&mut self, log: &mut KeptLog<D>)
        requires { MayAppend D.image log.old self.old.stage }
        ensures { AppendsEntries D.clock D.image D.image_since D.faults self.old log.old self.new log.new }
    {
        let Stage::Appending { upto, batch } = &self.stage else {
            unreachable!()
        };
        let report = log.append(*upto, batch);
        self.stage = Stage::Reporting(report);
    }
}

/// A visit of a session to the part of this number, which it needs. Err is for want of memory, and changes nothing that contracts see; it
/// never comes where the session has taken entries, or its open transaction has its entry.
pub(crate) fn visit_logged<D: Disk>(
    alloc: Global,
    number: usize,
    session: &mut LoggedSession,
    part: &mut LoggedPart<D>,
) -> Result<Visited, AllocError>
    requires needed { logged_number session.old ≡ Some number }
    requires may { MayVisitLogged D.image session.old part.old }
    ensures visited { IfOk result (λ visited. Visits (IsLoggedVisit D.clock D.image D.image_since D.faults number) HasToWaitLogged visited
        session.old part.old session.new part.new) }
    ensures err { OnErr result ((session.new ≡ session.old) × (part.new ≡ part.old)) }
{
    match part {
        LoggedPart::Chunk(part) => {
            Ok(to_visited(visit_part(alloc, &mut session.session, part)?))
        }
        LoggedPart::Core(part, durability) => {
            if session.report(durability) {
                return Ok(Visited::Moved);
            }
            session.visit_core(alloc, number, part, durability)
        }
        LoggedPart::Log(log) => {
            session.append(log);
            Ok(Visited::Moved)
        }
    }
}
