//! Where a session stands before it takes a step.

ghost use Rattle.std.specs.Prelude.{◌≡◌};
ghost use Rattle.hy_event.specs.Sessions.{txn_at};
ghost use Rattle.hy_session.specs.Latest.{answered, phase_of};
ghost use Rattle.hy_trace.specs.Standing.{phase_work, session_work};
ghost use Rattle.hy_trace.specs.Traced.{is_over_in, session_stands, stands_in};

use hy_bound::Txn;
use hy_event::Need;
use hy_protocol::Phase;
use hy_session::Session;
use hy_stamp::Label;
use hy_world::World;

/// What a session is at.
#[derive(Clone, Copy, Debug, PartialEq, Eq)]
pub enum Work {
    /// Nothing: its script is at its end.
    Nothing,
    /// BEGIN.
    Begin,
    /// The statement of this number, from 1.
    Statement {
        /// The number.
        number: usize,
    },
    /// COMMIT.
    Commit,
    /// ROLLBACK.
    Rollback,
    /// The stamps of the chunks that it wrote, and its end.
    Stamp,
    /// The chunks that it wrote are undone, and its end.
    Undo,
}

/// Where a session stands.
#[derive(Clone, Copy, Debug, PartialEq, Eq)]
pub struct At {
    /// Its transaction that is open or comes next.
    pub label: Label,
    /// What it is at.
    pub work: Work,
    /// The part that it visits next.
    pub part: Need,
}

/// What an open transaction is at.
fn open_work(txn: &Txn, answered: usize, phase: Phase) -> Work
    ensures { result ≡ phase_work txn.now answered phase }
{
    match phase {
        Phase::Working { .. } if answered < txn.statements.len() => Work::Statement {
            number: answered + 1,
        },
        Phase::Working { .. } if txn.commits => Work::Commit,
        Phase::Working { .. } => Work::Rollback,
        Phase::Stamping { .. } => Work::Stamp,
        Phase::Undoing { .. } => Work::Undo,
    }
}

/// What a session is at.
fn work_of(session: &Session) -> Work
    ensures { result ≡ session_work (txn_at session.entry.now) (phase_of session.entry.now) (answered session.entry.now) }
{
    let Some(txn) = session.txn() else {
        return Work::Nothing;
    };
    match session.phase() {
        None => Work::Begin,
        Some(phase) => open_work(txn, session.answered(), phase),
    }
}

/// Where a session stands.
fn stands_at(session: &Session) -> At
    ensures { result ≡ session_stands session.entry.now }
{
    let standing = session.standing();
    At {
        label: Label {
            session: standing.session,
            txn: standing.txn,
        },
        work: work_of(session),
        part: session.next(),
    }
}

/// Where the session of a number stands; one that is not there has ended.
pub fn stands(world: &World, number: u32) -> At
    ensures { result ≡ stands_in world.now number }
{
    match world.session(number) {
        Some(session) => stands_at(session),
        None => At {
            label: Label {
                session: number,
                txn: 1,
            },
            work: Work::Nothing,
            part: Need::Done,
        },
    }
}

/// Whether the session of a number is at the end of its script; one that is not there is.
pub fn is_over(world: &World, number: u32) -> bool
    ensures { result ≡ is_over_in world.now number }
{
    match world.session(number) {
        Some(session) => session.txn().is_none(),
        None => true,
    }
}
