//! Sessions served line by line over a world: a line defines something, or its session takes it, and each is answered
//! before the next one is read. A server may keep a redo log of what its sessions commit.
#![tactic(auto)]

ghost use Rattle.std.specs.Prelude.{◌≡◌, ◌∷◌, ◌++◌, ℕ, List, [], IfOk, OnOk, IsErrOf, is_some, option_map, if◌then◌else◌};
ghost use Rattle.hy_event.specs.declared.lines.SessionLine.TheVariants.{Commit, Rollback};
ghost use Rattle.hy_outside.specs.Faults.{Rose};
ghost use Rattle.hy_serving.specs.Answers.{own_answer};
ghost use Rattle.hy_serving.specs.Saying.{heard};
ghost use Rattle.hy_service.specs.Service.{IsSized, after, closing, outcome_after};
ghost use Rattle.hy_service.specs.Knowing.{HasNoted, Hears, IsAnswer, Knows, fresh_server};
ghost use Rattle.hy_service.specs.Logging.{KeepsUp, LogsAt};

mod laws;
mod opening;
mod serving;
mod taking;
mod telling;

use hy_disk::Disk;
use hy_event::SessionLine;
use hy_redo::{AppendError, Log};
use hy_render::{Names, Outcome, print_final};
use hy_script::Options;
use hy_serving::{Desk, Saying, answer, first_rows_are_not_asked_for};
use hy_value::Seq;
use hy_world::World;
use laws::{lines_are_heard, lines_can_be_taken, services_are_sound, services_can_be_logged};
pub use serving::{Served, serve};
use std::alloc::{AllocError, Global};
use std::marker::Model;

/// What serves sessions: it hears their lines one by one.
#[derive(Drop)]
pub struct Server {
    options: Options,
    prunes: bool,
    desk: Desk,
    /// The names that are printed: the sessions', and the tables' where there is a world.
    names: Names,
    /// There from the first line of a session on.
    world: Option<World>,
    /// There where a log is kept.
    log: Option<Log>,
}

/// What is next after a line was noted.
#[derive(Drop)]
enum Next {
    /// The end.
    End,
    /// This answer, which the line's text alone gives.
    Answer(Vec<u8>),
    /// The session of this number takes this line, and its turn.
    Turn {
        /// The session's number.
        number: usize,
        /// What it takes.
        line: SessionLine,
    },
}

impl Model for Server {
    ghost use Rattle.hy_service.specs.Knowing.{ServerData, server_code};

    ghost Value = { ServerData };

    ghost coded = { server_code };

    ghost view = { λ a. record { options = a.options; prunes = a.prunes; desk = a.desk; names = a.names; world = a.world; log = a.log } };
}

impl Server {
    /// Before the first line: tables will have so many chunks of so many rows, which are pruned or not, and a log is kept, which
    /// is empty, or none. It takes no memory.
    pub fn new(alloc: Global, options: Options, prunes: bool, log: Option<Log>) -> Server
        requires { IsSized options }
        ensures fresh { result ≡ fresh_server options prunes log }
        ensures knows { Knows [] result }
    {
        Server {
            options,
            prunes,
            desk: Desk::new(alloc),
            names: Names {
                tables: Seq::new(alloc),
                sessions: Seq::new(alloc),
            },
            world: None,
            log,
        }
    }

    /// The desk hears a line: what it says.
    fn listen(&mut self, alloc: Global, line: &[u8]) -> Result<Saying, AllocError>
        ensures said { IfOk result (λ saying. heard self.old.options self.old.desk line.now ≡ (saying, self.new.desk)) }
        ensures rest { self.new ≡ record self.old { desk = self.new.desk } }
    {
        let options = self.options;
        self.desk.hear(alloc, &options, line)
    }

    /// Notes a line on the desk, and the name of a session that is new: the answer, where the text alone gives it, or what a
    /// session is to take.
    fn note(&mut self, alloc: Global, line: &[u8]) -> Result<Next, AllocError>
        ensures noted { (lines : List (List ℕ)) → Knows lines self.old → IfOk result (λ noted. HasNoted lines line.now self.old self.new noted) }
        ensures same { (self.new.options ≡ self.old.options) × (self.new.world ≡ self.old.world) × (self.new.log ≡ self.old.log) }
    {
        services_are_sound();
        lines_can_be_taken();
        lines_are_heard();
        first_rows_are_not_asked_for();
        match self.listen(alloc, line)? {
            Saying::Ends => Ok(Next::End),
            Saying::Begins {
                number,
                read_only,
                name,
            } => {
                self.add_name(name)?;
                let line = SessionLine::Begin { read_only };
                Ok(Next::Turn { number, line })
            }
            Saying::Says { number, bound } => {
                let line = SessionLine::Statement(bound);
                Ok(Next::Turn { number, line })
            }
            Saying::Closes { number, commits } => {
                let line = closing_line(commits);
                Ok(Next::Turn { number, line })
            }
            Saying::Nothing => answered_alone(alloc, &Saying::Nothing),
            Saying::Defines => answered_alone(alloc, &Saying::Defines),
            Saying::Refused { name, cause } => {
                answered_alone(alloc, &Saying::Refused { name, cause })
            }
        }
    }

    /// Hears a line, and gives its answer; at END there is none. What its session commits is in the log before. Err is for want of
    /// memory, or a fault of the disk, and what it leaves hears no further line.
    pub fn hear<D: Disk>(
        &mut self,
        alloc: Global,
        line: &[u8],
        disk: &mut D,
    ) -> Result<Option<Vec<u8>>, AppendError>
        requires known { (lines : List (List ℕ)) × Knows lines self.old }
        requires kept { KeepsUp D.image self.old disk.old }
        // It is the answer to this line after those that the server knows, and then it knows this one too.
        ensures hears { (lines : List (List ℕ)) → Knows lines self.old
            → IfOk result (λ told. Hears lines line.now self.old self.new (option_map (λ answer. answer.items) told)) }
        ensures options { self.new.options ≡ self.old.options }
        // The log keeps up with the journal, and whatever the answer, a crash at any moment leaves what one could leave before,
        // or the log of some first entries of the order that the lines come to with this one.
        ensures kept { OnOk result (KeepsUp D.image self.new disk.new) }
        ensures stays { is_some self.new.log ≡ is_some self.old.log }
        ensures logs { (lines : List (List ℕ)) → Knows lines self.old
            → LogsAt D.clock D.image_since self.old.options (after self.old.options (lines ++ line.now ∷ [])) disk.old disk.new }
        // Faults of the disk.
        ensures fault { IsErrOf result AppendError.DiskFault → Rose (D.faults disk.old) (D.faults disk.new) }
        ensures steady { ¬ IsErrOf result AppendError.DiskFault → D.faults disk.new ≡ D.faults disk.old }
    {
        lines_are_heard();
        services_can_be_logged();
        match self.note(alloc, line)? {
            Next::End => Ok(None),
            Next::Answer(answer) => Ok(Some(answer)),
            Next::Turn { number, line } => Ok(Some(self.take(alloc, number, line, disk)?)),
        }
    }

    /// Drops each transaction that is open and appends what is told at the end: the sessions whose transactions were
    /// dropped, the commit order and the final tables. The outcome is that of the script which the lines make. Err is for
    /// want of memory. A server that is closed has no use any more.
    pub fn close(&mut self, alloc: Global, out: &mut Vec<u8>) -> Result<Outcome, AllocError>
        requires { (lines : List (List ℕ)) × Knows lines self.old }
        ensures outcome { (lines : List (List ℕ)) → Knows lines self.old → IfOk result (λ outcome. outcome ≡ outcome_after self.old.options lines) }
        ensures told { (lines : List (List ℕ)) → Knows lines self.old
            → OnOk result (out.new.items ≡ out.old.items ++ closing self.old.options lines) }
    {
        laws::services_are_sound();
        hy_growing::open_ones_are_dropped();
        hy_stepping::ends_are_the_machines();
        let mut world = self.take_world(alloc)?;
        self.drop_open_ones(alloc, &mut world, out)?;
        let outcome = world.finish(alloc)?;
        print_final(&self.names, &outcome, out)?;
        Ok(outcome)
    }
}

/// COMMIT or ROLLBACK.
fn closing_line(commits: bool) -> SessionLine
    ensures { result ≡ if commits then Commit else Rollback }
{
    if commits {
        SessionLine::Commit
    } else {
        SessionLine::Rollback
    }
}

/// The answer that a line's text alone gives.
fn answered_alone(alloc: Global, saying: &Saying) -> Result<Next, AllocError>
    ensures { IfOk result (IsAnswer (own_answer saying.now)) }
{
    let mut out = Vec::new(alloc);
    answer(saying, &mut out)?;
    Ok(Next::Answer(out))
}
