//! What an open transaction needs next.

ghost use Rattle.std.specs.Prelude.{◌≡◌, IfSome, slice_get, slice_index_or};
ghost use Rattle.hy_bound.specs.Records.{shape_of};
ghost use Rattle.hy_event.specs.Needs.{checks_of, chunk_or_core, insert_need, need_of, statement_need, phase_need};
ghost use Rattle.hy_event.specs.Sessions.{chunks_since, written};
ghost use Rattle.hy_session.specs.Limits.{IsSavedInOrder};
ghost use Rattle.hy_session.specs.Seeking.{Rises};
ghost use Rattle.hy_session.specs.Standing.{needed_number};

use crate::{OpenTransaction, Session};
use hy_bound::{Bound, Name, Txn, newest_savepoint, table_shape};
use hy_event::Need;
use hy_protocol::Phase;

/// The table of this number in FROM order.
fn table_at(tables: &[u32], number: u32) -> u32
    ensures { result ≡ slice_index_or tables.now number 0 }
{
    match tables.get(number as usize) {
        Some(table) => *table,
        None => 0,
    }
}

impl Session {
    /// The chunk that a visit of an INSERT needs: one of those that it checks for its key, or one that may have a
    /// position for it.
    fn needed_by_insert(&self, table: u32, visited: u32) -> Need
        ensures { result ≡ insert_need visited table (checks_of self.entry.now (shape_of self.entry.now.shapes table).key) }
    {
        let checks = match table_shape(self.shapes.as_slice(), table).key {
            Some(_) => self.chunks,
            None => 0,
        };
        if visited < checks {
            Need::Chunk {
                table,
                chunk: visited,
            }
        } else {
            Need::Chunk {
                table,
                chunk: visited - checks,
            }
        }
    }

    /// What a ROLLBACK TO needs: the next chunk that was written since the savepoint, or the core.
    fn needed_to_go_back(&self, now: &OpenTransaction, visited: u32, name: &Name) -> Need
        requires { IsSavedInOrder now.now.saved }
        ensures { result ≡ chunk_or_core (slice_get (chunks_since self.entry.now now.now name.now) visited) }
    {
        match newest_savepoint(now.saved.as_slice(), name.text()) {
            Some(number) => self.left_of_written(now, Some(number), visited),
            None => Need::Core,
        }
    }

    /// What a visit of a statement needs.
    fn needed_by_statement(&self, now: &OpenTransaction, visited: u32, statement: &Bound) -> Need
        requires { IsSavedInOrder now.now.saved }
        ensures { result ≡ statement_need self.entry.now now.now visited statement.now }
    {
        match statement {
            Bound::Select { tables, .. } => Need::Chunk {
                table: table_at(tables.as_slice(), visited / self.chunks),
                chunk: visited % self.chunks,
            },
            Bound::Insert { table, .. } => self.needed_by_insert(*table, visited),
            Bound::Group { table, .. }
            | Bound::Update { table, .. }
            | Bound::Delete { table, .. } => Need::Chunk {
                table: *table,
                chunk: visited,
            },
            Bound::Savepoint { .. } | Bound::Release { .. } => Need::Core,
            Bound::RollbackTo { name } => self.needed_to_go_back(now, visited, name),
        }
    }

    /// What it needs for its next visit, where a statement is at work that may go past chunks.
    pub fn next_to_pass(&self) -> Option<Need>
        ensures { IfSome result (λ need. need ≡ need_of self.entry.now) }
    {
        let txn = self.program.as_slice().get(self.done.len())?;
        let now = self.now.as_ref()?;
        let Phase::Working { visited, .. } = now.phase else {
            return None;
        };
        match txn.statements.as_slice().get(now.replies.len())? {
            Bound::Savepoint { .. } | Bound::RollbackTo { .. } | Bound::Release { .. } => None,
            statement => Some(self.needed_by_statement(now, visited, statement)),
        }
    }

    /// What its open transaction needs, by where it stands.
    pub(crate) fn needed_by(&self, txn: &Txn, now: &OpenTransaction) -> Need
        requires order { Rises (written now.now) }
        requires saved { IsSavedInOrder now.now.saved }
        ensures { result ≡ phase_need self.entry.now txn.now now.now now.now.phase }
    {
        match now.phase {
            Phase::Working { visited, .. } => {
                match txn.statements.as_slice().get(now.replies.len()) {
                    Some(statement) => self.needed_by_statement(now, visited, statement),
                    None if txn.commits => Need::Core,
                    None => self.left_of_written(now, None, 0),
                }
            }
            Phase::Stamping { visited } | Phase::Undoing { visited, .. } => {
                self.left_of_written(now, None, visited)
            }
        }
    }

    /// The number of the part that it needs for its next visit: the chunks come by table and then chunk, the core is
    /// behind them. None at the end of its script, and where it needs none of its tables' parts.
    pub fn needed_part(&self) -> Option<usize>
        ensures { result ≡ needed_number self.entry.now }
    {
        let per_table = self.chunks as usize;
        let chunks = self.shapes.len() * per_table;
        let number = match self.next() {
            Need::Core => chunks,
            Need::Chunk { table, chunk } => table as usize * per_table + chunk as usize,
            Need::Done => return None,
        };
        if number <= chunks { Some(number) } else { None }
    }
}
