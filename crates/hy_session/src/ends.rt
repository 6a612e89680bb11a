//! The end of a transaction.

ghost use Rattle.std.specs.Prelude.{◌≡◌, [], Some, false, ◌<◌, ◌≤◌, IfOk, map, length, vec_capacity, if◌then◌else◌};
ghost use Rattle.std.specs.List.{range_with_len};
ghost use Rattle.std.specs.Option.{option_map};
ghost use Rattle.hy_event.specs.declared.Open.{Open};
ghost use Rattle.hy_event.specs.Ended.{inserts_into, placed_in, statements_in};
ghost use Rattle.hy_event.specs.Sessions.{txn_at, written};
ghost use Rattle.hy_session.specs.Seeking.{written_place};
ghost use Rattle.hy_event.specs.Turns.{with_ended};
ghost use Rattle.hy_protocol.specs.Turns.{is_stamping};

use crate::seeking::place_of;
use crate::{OpenTransaction, Session};
use hy_bound::{Bound, Ending};
use hy_notes::NotedPlace;
use hy_protocol::Phase;
use hy_render::{Places, TxnOutcome};
use hy_value::Seq;
use std::alloc::{AllocError, Global};
use std::mem;

/// Whether a statement is an INSERT into a table.
fn is_insert_into(table: u32, statement: &Bound) -> bool
    ensures { result ≡ inserts_into table statement.now }
{
    match statement {
        Bound::Insert { table: other, .. } => *other == table,
        _ => false,
    }
}

/// How many positions of a table answered statements took.
fn count_placed(table: u32, statements: &[Bound], took: &[Option<u32>]) -> u64
    ensures { result ≡ placed_in table statements.now took.now }
{
    let mut count = 0u64;
    for (i, statement) in statements.iter().enumerate() {
        let Some(pos) = took.get(i) else {
            return count;
        };
        if is_insert_into(table, statement) && pos.is_some() {
            count += 1;
        }
    }
    count
}

/// Of each of so many tables how many of its positions answered statements took. It takes no memory: the list is empty, and
/// has room for as many numbers.
fn count_placed_each(
    room: Vec<u64>,
    statements: &[Bound],
    took: &[Option<u32>],
    tables: u32,
) -> Seq<u64>
    requires empty { room.items ≡ [] }
    requires room { tables ≤ vec_capacity room }
    ensures { result ≡ map (λ table. placed_in table statements.now took.now) (range_with_len 0 tables) }
{
    let mut counts = room;
    for table in 0..tables {
        counts.push_reserved(count_placed(table, statements, took));
    }
    Seq::from_vec(counts)
}

/// Noted positions, as those that are written.
fn places_of(alloc: Global, noted: &[NotedPlace]) -> Result<Places, AllocError>
    ensures { IfOk result (λ places. places ≡ map written_place noted.now) }
{
    let mut places = Vec::with_capacity(alloc, noted.len())?;
    for place in noted {
        places.push(place_of(*place))?;
    }
    Ok(Seq::from_vec(places))
}

/// The positions that an open transaction wrote. Until its entry has its notes they are those of the notes.
pub fn written_places(alloc: Global, now: &OpenTransaction) -> Result<Places, AllocError>
    ensures { IfOk result (λ places. places ≡ written now.now) }
{
    match now.phase {
        Phase::Stamping { .. } => Seq::from_slice(alloc, now.wrote.as_slice()),
        Phase::Working { .. } | Phase::Undoing { .. } => {
            let noted = now.notes.places()?;
            places_of(alloc, noted.as_slice())
        }
    }
}

/// The positions that a transaction wrote which stands here: those that it kept at its entry, or without one these.
fn places_by_phase(phase: Phase, wrote: Places, places: Places) -> Places
    ensures { result ≡ (if is_stamping phase then wrote else places) }
{
    match phase {
        Phase::Stamping { .. } => wrote,
        Phase::Working { .. } | Phase::Undoing { .. } => places,
    }
}

impl Session {
    /// The statements of the transaction that it is at.
    pub(crate) fn statements(&self) -> &[Bound]
        ensures { result.now ≡ statements_in (txn_at self.entry.now) }
    {
        match self.program.as_slice().get(self.done.len()) {
            Some(txn) => txn.statements.as_slice(),
            None => &[],
        }
    }

    /// Its open transaction ends, if there is one: this was its start. The room of its notes is spare from then on. Where
    /// it has no entry, which keeps them, these are the positions that it wrote. It takes no memory.
    pub(crate) fn end(&mut self, alloc: Global, ending: Ending, places: Places) -> Option<u64>
        requires at { length self.old.done < length self.old.program }
        requires places { (now : Open) → self.old.now ≡ Some now → is_stamping now.phase ≡ false → places ≡ written now }
        ensures start { result ≡ option_map (λ (now : Open). now.start) self.old.now }
        ensures after { self.new ≡ with_ended ending self.old }
    {
        let Some(now) = self.now.take() else {
            return None;
        };
        let label = self.label();
        let tables = self.shapes.len() as u32;
        let room = mem::replace(&mut self.counts, Vec::new(alloc));
        let placed = count_placed_each(room, self.statements(), now.took.as_slice(), tables);
        let OpenTransaction {
            start,
            prefix,
            replies,
            mut notes,
            wrote,
            phase,
            ..
        } = now;
        self.done.push_reserved(TxnOutcome {
            label,
            start: prefix,
            replies: Seq::from_vec(replies),
            ending,
            wrote: places_by_phase(phase, wrote, places),
            placed,
        });
        notes.clear();
        self.spare = notes;
        Some(start)
    }
}
