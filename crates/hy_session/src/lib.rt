//! A session of the engine: it runs the transactions of its program, one visit at one part at a time.
#![tactic(auto)]

ghost use Rattle.std.specs.Prelude.{◌≡◌, ◌*◌, ◌^◌, ◌<◌, ◌≤◌, [], None, length};
ghost use Rattle.hy_limits.specs.declared.TheConstants.{MOST_TABLES, MOST_TXNS};
ghost use Rattle.hy_event.specs.Needs.{need_of};
ghost use Rattle.hy_session.specs.Standing.{standing_of};

mod ahead;
mod answers;
mod backing;
mod core_steps;
mod core_visits;
mod ends;
mod growing;
mod inserting;
mod latest;
mod needs;
mod numbers;
mod passing;
mod prepared;
mod reading;
mod savepoints;
mod seeking;
mod stamping;
mod touched;
mod visitors;
mod visits;
mod writing;

use hy_bound::{Reply, SavedName, Shapes, Txns};
use hy_event::Need;
use hy_gathered::Pieces;
use hy_notes::Changes;
use hy_plan::ReadLog;
use hy_protocol::Phase;
use hy_prune::Cover;
use hy_render::{Places, TxnOutcome};
use hy_value::Seq;
use prepared::Prepared;
use std::alloc::Global;
use std::marker::Model;

/// An open transaction, with room for what it will keep. Contracts see what it keeps.
#[derive(Drop)]
struct OpenTransaction {
    start: u64,
    prefix: u32,
    cover: Cover,
    replies: Vec<Reply>,
    records: ReadLog,
    took: Vec<Option<u32>>,
    gathered: Vec<Pieces>,
    /// What it wrote, and what since each of its savepoints.
    notes: Changes,
    /// The names of its savepoints, the oldest first.
    saved: Seq<SavedName>,
    wrote: Places,
    time: u64,
    phase: Phase,
}

impl Model for OpenTransaction {
    ghost use Rattle.hy_event.specs.declared.Open.{Open};
    ghost use Rattle.hy_event.specs.contracts.Open as open_data;
    ghost use Rattle.std.specs.Prelude.{◌≡◌, length};
    ghost use Rattle.hy_session.specs.Savepoints.{savepoints};

    ghost Value = { Open };

    ghost coded = { open_data.the_row.coded };

    ghost view = { λ a. record {
      start = a.start;
      prefix = a.prefix;
      cover = a.cover;
      replies = a.replies.items;
      records = a.records.entries;
      took = a.took.items;
      gathered = a.gathered.items;
      notes = a.notes.notes;
      saved = savepoints a.saved a.notes.levels;
      wrote = a.wrote;
      time = a.time;
      phase = a.phase;
    } };

    ghost invariant = { λ a. length a.saved ≡ length a.notes.levels };
}

/// A session. Contracts see its plain data.
#[derive(Drop)]
pub struct Session {
    number: u32,
    program: Txns,
    shapes: Shapes,
    chunks: u32,
    rows: u32,
    prunes: bool,
    done: Vec<TxnOutcome>,
    now: Option<OpenTransaction>,
    /// No counts: room for one of each table, where a transaction is open. It takes them at its end.
    counts: Vec<u64>,
    /// No notes: the room of those of the last transaction, for the next one.
    spare: Changes,
    /// How a SELECT is run, kept for its next visit.
    prepared: Option<Prepared>,
}

impl Model for Session {
    ghost use Rattle.std.specs.Prelude.{length, vec_len, vec_capacity};
    ghost use Rattle.hy_event.specs.declared.SessionData.{SessionData};
    ghost use Rattle.hy_event.specs.contracts.SessionData as session_data;
    ghost use Rattle.hy_session.specs.Limits.{IsLimited, HasOrder, HasRoomFor};

    ghost Value = { SessionData };

    ghost coded = { session_data.the_row.coded };

    ghost view = { λ a. record {
      number = a.number;
      program = a.program;
      shapes = a.shapes;
      chunks = a.chunks;
      rows = a.rows;
      prunes = a.prunes;
      done = a.done.items;
      now = a.now;
    } };

    ghost invariant = { λ a. IsLimited a.chunks a.shapes a.program (length a.done.items) a.spare.notes a.spare.levels a.prepared
        × HasRoomFor a.now (length a.shapes) (vec_len a.done) (vec_capacity a.done) a.counts.items (vec_capacity a.counts)
        × HasOrder a.now };
}

/// How the tables of a script lie in chunks.
#[derive(Clone, Copy, Debug, PartialEq, Eq)]
pub struct Layout {
    /// How many chunks a table has.
    pub chunks: u32,
    /// How many positions a chunk has.
    pub rows: u32,
}

/// Where a session stands in its script.
#[derive(Clone, Copy, Debug, PartialEq, Eq)]
pub struct Standing {
    /// The session's number, from 0.
    pub session: u32,
    /// The number of its transaction that is open or comes next, from 1. At the end of its script none comes, and the
    /// number is one more than that of the last.
    pub txn: u32,
    /// The number of the statement that comes next, from 1; 0 is BEGIN. COMMIT and ROLLBACK come after the last one, and an
    /// undo has the number of what began it. The number stands still at `u32::MAX`.
    pub statement: u32,
}

impl Session {
    /// A session of this number that has run nothing of its program. It takes no memory.
    pub fn new(
        alloc: Global,
        number: u32,
        program: Txns,
        shapes: Shapes,
        layout: Layout,
        prunes: bool,
    ) -> Session
        requires chunks { 0 < layout.chunks }
        requires few { length shapes * layout.chunks < 2 ^ 32 }
        requires tables { length shapes ≤ MOST_TABLES }
        requires txns { length program ≤ MOST_TXNS }
        ensures { result ≡ record {
          number = number;
          program = program;
          shapes = shapes;
          chunks = layout.chunks;
          rows = layout.rows;
          prunes = prunes;
          done = [];
          now = None;
        } }
    {
        Session {
            number,
            program,
            shapes,
            chunks: layout.chunks,
            rows: layout.rows,
            prunes,
            done: Vec::new(alloc),
            now: None,
            counts: Vec::new(alloc),
            spare: Changes::new(alloc),
            prepared: None,
        }
    }

    /// The part that it needs for its next visit.
    pub fn next(&self) -> Need
        ensures { result ≡ need_of self.entry.now }
    {
        match self.program.as_slice().get(self.done.len()) {
            None => Need::Done,
            Some(txn) => match &self.now {
                None => Need::Core,
                Some(now) => self.needed_by(txn, now),
            },
        }
    }

    /// Where it stands in its script.
    pub fn standing(&self) -> Standing
        ensures { result ≡ standing_of self.entry.now }
    {
        let statement = match &self.now {
            None => 0,
            Some(now) => u32::try_from(now.replies.len())
                .unwrap_or(u32::MAX)
                .saturating_add(1),
        };
        Standing {
            session: self.number,
            txn: self.done.len() as u32 + 1,
            statement,
        }
    }
}
