//! The chunks that an open transaction wrote.
//!
//! The positions that it wrote, at all or since a savepoint, are in order, so that each chunk is found by binary search behind the
//! one before.

ghost use Rattle.std.specs.Prelude.{◌≡◌, ◌<◌, ◌++◌, ℕ, List, Some, length, map, slice_get};
ghost use Rattle.hy_event.specs.Sessions.{place_noted, written, chunks_from, chunks_in_table};
ghost use Rattle.hy_event.specs.Needs.{chunk_or_core};
ghost use Rattle.hy_session.specs.Savepoints.{places_since};
ghost use Rattle.hy_session.specs.Seeking.{IsNextChunk, Rises, comes_before, first_from, of_table, sought, written_place};

use crate::{OpenTransaction, Session};
use hy_event::Need;
use hy_notes::{Changes, NotedPlace};
use hy_protocol::Phase;
use hy_render::Place;

/// A noted position, as one that is written.
pub fn place_of(noted: NotedPlace) -> Place
    ensures { result ≡ written_place noted }
{
    Place {
        table: noted.table,
        pos: noted.pos,
    }
}

/// Whether a position comes before this one, by table and then position.
fn is_before(place: Place, table: u32, pos: u64) -> bool
    ensures { result ≡ comes_before table pos place }
{
    place.table < table || place.table == table && u64::from(place.pos) < pos
}

/// Its position in this table, if it is one of it.
fn position_in(place: Place, table: u32) -> Option<u32>
    ensures { result ≡ of_table table (Some place) }
{
    if place.table == table {
        Some(place.pos)
    } else {
        None
    }
}

/// The first of these positions that is one of a table from this one on.
fn first_place(places: &[Place], table: u32, from: u64) -> Option<u32>
    requires { Rises places.now }
    ensures { result ≡ first_from table from places.now }
{
    let at = places.partition_point(|place| is_before(*place, table, from));
    position_in(*places.get(at)?, table)
}

/// The first position of a table from this one on that is noted.
fn first_noted(notes: &Changes, table: u32, from: u64) -> Option<u32>
    requires { Rises (map place_noted notes.now.notes) }
    ensures { result ≡ first_from table from (map place_noted notes.now.notes) }
{
    let noted = notes.first_from(table, from)?;
    position_in(place_of(noted), table)
}

/// The first position of a table from this one on that an open transaction wrote.
fn first_written(now: &OpenTransaction, table: u32, from: u64) -> Option<u32>
    requires { Rises (written now.now) }
    ensures { result ≡ first_from table from (written now.now) }
{
    match now.phase {
        Phase::Stamping { .. } => first_place(now.wrote.as_slice(), table, from),
        Phase::Working { .. } | Phase::Undoing { .. } => first_noted(&now.notes, table, from),
    }
}

/// The first position of a table from this one on that is noted since the savepoint of this number.
fn first_noted_since(now: &OpenTransaction, number: usize, table: u32, from: u64) -> Option<u32>
    requires { Rises (places_since now.now (Some number)) }
    ensures { result ≡ first_from table from (places_since now.now (Some number)) }
{
    let noted = now.notes.first_since(number, table, from)?;
    position_in(place_of(noted), table)
}

/// The first position of a table from this one on that an open transaction wrote, at all or since the savepoint of this number.
fn first_since(
    now: &OpenTransaction,
    savepoint: Option<usize>,
    table: u32,
    from: u64,
) -> Option<u32>
    requires { Rises (places_since now.now savepoint) }
    ensures { result ≡ first_from table from (places_since now.now savepoint) }
{
    match savepoint {
        Some(number) => first_noted_since(now, number, table, from),
        None => first_written(now, table, from),
    }
}

impl Session {
    /// The first chunk of a table from this one on in which an open transaction wrote, at all or since a savepoint.
    fn next_written(
        &self,
        now: &OpenTransaction,
        savepoint: Option<usize>,
        table: u32,
        from: u32,
    ) -> Option<u32>
        requires { Rises (places_since now.now savepoint) }
        ensures { IsNextChunk self.entry.now (places_since now.now savepoint) table from result }
    {
        let first = u64::from(from) * u64::from(self.rows);
        let pos = first_since(now, savepoint, table, first)?;
        let chunk = pos.checked_div(self.rows)?;
        (chunk < self.chunks).then_some(chunk)
    }

    /// The chunk of a table that is so many behind the first one in which an open transaction wrote, at all or since a savepoint;
    /// Err is for how many it is behind all of the table's.
    fn seek_in_table(
        &self,
        now: &OpenTransaction,
        savepoint: Option<usize>,
        table: u32,
        behind: u32,
    ) -> Result<u32, u32>
        requires order { Rises (places_since now.now savepoint) }
        requires within { table < length self.now.shapes }
        ensures { (others : List (ℕ × ℕ))
            → slice_get (chunks_in_table self.entry.now (places_since now.now savepoint) table ++ others) behind ≡ sought table result others }
    {
        // The limits of a session make the number behind its last chunk one of 32 bits.
        let _ = &self.chunks;
        let mut left = behind;
        let mut chunk = 0;
        while let Some(next) = self.next_written(now, savepoint, table, chunk) {
            if left == 0 {
                return Ok(next);
            }
            left -= 1;
            chunk = next + 1;
        }
        Err(left)
    }

    /// What an open transaction needs that has visited so many of the chunks that it wrote, at all or since a savepoint: the
    /// next of them, or the core behind the last one.
    pub(crate) fn left_of_written(
        &self,
        now: &OpenTransaction,
        savepoint: Option<usize>,
        visited: u32,
    ) -> Need
        requires { Rises (places_since now.now savepoint) }
        ensures { result ≡ chunk_or_core (slice_get (chunks_from self.entry.now (places_since now.now savepoint) 0 self.entry.now.shapes) visited) }
    {
        let mut left = visited;
        for table in 0..self.shapes.len() as u32 {
            match self.seek_in_table(now, savepoint, table, left) {
                Ok(chunk) => return Need::Chunk { table, chunk },
                Err(behind) => left = behind,
            }
        }
        Need::Core
    }
}
