//! What a session of the engine keeps, which part it needs next, and what one visit makes of a session and a part.
//!
//! A part is a chunk, or the core that all sessions share, and a visit is one step of one session at one part. A
//! statement goes from chunk to chunk. BEGIN, COMMIT and an end are steps at the core. A transaction whose entry stands
//! in the journal stamps the chunks that it wrote, and one that is refused or rolls back undoes them.
#![tactic(auto)]

mod examples;
mod lines;

pub use examples::{
    a_begin_waits, a_commit_enters_the_journal, a_commit_of_nothing_written_ends,
    a_count_gathers_and_answers, a_delete_takes_the_row_away, a_hit_refuses_a_commit,
    a_join_gathers_by_key, a_session_begins, a_stamped_transaction_ends,
    a_written_chunk_is_stamped, a_written_chunk_is_undone, an_insert_finds_its_key,
    an_insert_may_find_no_room, an_insert_takes_a_free_position,
    an_update_passes_what_it_does_not_select, an_update_prunes_first,
    an_update_writes_what_it_selects, groups_are_told_of_what_is_gathered,
    no_other_part_is_visited,
};
use hy_bound::{Records, Replies, Rows, Shapes, Txns};
use hy_protocol::Phase;
use hy_prune::Cover;
use hy_render::{Places, TxnOutcome};
use hy_value::{Changes, Seq, Text};
pub use lines::SessionLine;

/// A savepoint of an open transaction.
#[derive(Drop)]
pub struct SavedNotes {
    /// Its name.
    pub name: Text,
    /// What was written since it was made, taken back or not, by table and then position: the row before is what the
    /// transaction saw then.
    pub since: Changes,
}

/// An open transaction.
#[derive(Drop)]
pub struct Open {
    /// Its start time.
    pub start: u64,
    /// How many entries the journal had at its BEGIN.
    pub prefix: u32,
    /// The starts that were open after its BEGIN, its own among them, and the next time: it prunes by these.
    pub cover: Cover,
    /// The replies to its answered statements.
    pub replies: Replies,
    /// The records of its answered statements.
    pub records: Records,
    /// For each answered statement the position that it took, if it was an INSERT that took one.
    pub took: Seq<Option<u32>>,
    /// What a SELECT has gathered so far: for each table that it visited, in FROM order, rows of the values that its
    /// plan takes.
    pub gathered: Seq<Rows>,
    /// What it wrote, by table and then position, until its entry has it.
    pub notes: Changes,
    /// Its open savepoints, the oldest first, until its entry has its notes.
    pub saved: Seq<SavedNotes>,
    /// The positions that it wrote, from its entry on.
    pub wrote: Places,
    /// Its commit time, from its entry on; 0 until then.
    pub time: u64,
    /// Where it stands.
    pub phase: Phase,
}

/// A session.
#[derive(Drop)]
pub struct SessionData {
    /// Its number.
    pub number: u32,
    /// Its transactions.
    pub program: Txns,
    /// The columns of each table.
    pub shapes: Shapes,
    /// How many chunks a table has.
    pub chunks: u32,
    /// How many positions a chunk has.
    pub rows: u32,
    /// Whether it prunes the chunks that it writes.
    pub prunes: bool,
    /// What its ended transactions came to, in order.
    pub done: Seq<TxnOutcome>,
    /// The open transaction, if there is one.
    pub now: Option<Open>,
}

/// The part that a session needs for its next visit.
#[derive(Clone, Copy, Debug, PartialEq, Eq)]
pub enum Need {
    /// The core.
    Core,
    /// A chunk.
    Chunk {
        /// The table.
        table: u32,
        /// The number of the chunk in the table, from 0.
        chunk: u32,
    },
    /// None: its script is at its end.
    Done,
}
