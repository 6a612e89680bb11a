//! Levels of notes: what stood at positions before they were written since certain moments.

ghost use Rattle.std.specs.Prelude.{◌≡◌, ◌++◌, ℕ, ◌+◌, ◌-◌, ◌<◌, ◌≤◌, List, [], ◌∷◌, IfOk, OnOk, OnErr, true, false, nat_lt};
ghost use Rattle.std.specs.Prelude.{length, drop, take, filter, map, option_map, slice_get, vec_len, vec_capacity};
ghost use Rattle.std.specs.List.{AllByRecursion, prefix_len};
ghost use Rattle.std.specs.Option.{option_copied};
ghost use Rattle.hy_value.specs.declared.change.Change.{Change};
ghost use Rattle.hy_notes.specs.Notes.{Cell, Ascends, below, is_between, with_note, place_of};
ghost use Rattle.hy_notes.specs.Blocks.{joined, notes_in, AreBlocks};
ghost use Rattle.hy_notes.specs.Levels.{noted_since, note_from, first_told, before_at, before_in, was_at};
ghost use Rattle.hy_notes.specs.Levels.{stretches_in, levels_of, IsStretch, AreLevels, AreCovered};
ghost use Rattle.hy_notes.specs.Spares.{rows_by, cell_width, cell_texts, cell_rows};

use crate::NotedPlace;
use crate::blocks::{Blocks, count_below, place};
use crate::rows::SpareRows;
use hy_value::{Change, Row, StoredRow};
use std::alloc::{AllocError, Global};
use std::mem;

/// What stood at positions before they were written since certain moments, in stretches of time. A position is noted in
/// the newest stretch alone, and a level reaches from the stretch that it begins with to the newest: so a note costs no
/// more with many levels, and to close a level moves nothing.
#[derive(Drop)]
pub struct Levels {
    /// The notes of each stretch but the newest: what stood before. What came after is told by the notes of the whole
    /// transaction.
    older: Vec<Blocks>,
    /// Those of the newest stretch.
    newest: Blocks,
    /// The stretch with which each level begins.
    begins: Vec<usize>,
}

/// Positions of a table, from one on up to another.
#[derive(Clone, Copy)]
pub struct Between {
    /// The table.
    pub table: u32,
    /// The first position.
    pub from: u64,
    /// The position behind the last one.
    pub to: u64,
}

impl Between {
    /// Whether a note is of one of the positions.
    fn has(&self, note: &Change) -> bool
        ensures { result ≡ is_between self.now.table self.now.from self.now.to note.now }
    {
        let pos = u64::from(note.pos);
        note.table == self.table && self.from <= pos && pos < self.to
    }
}

/// Notes what stands at a position, unless something is noted there. It takes no memory, and no more room than for one
/// note.
fn note_first(stretch: &mut Blocks, spare: &mut SpareRows, place: NotedPlace, before: Option<&Row>)
    requires stretch { IsStretch stretch.old }
    requires room { stretch.old.count < stretch.old.limit }
    // the row can be kept
    requires enough { cell_rows (option_copied before) ≤ spare.old.rows }
    requires fits { cell_width (option_copied before) ≤ spare.old.width }
    requires texts { cell_texts (option_copied before) ≤ spare.old.texts }
    // what is noted then
    ensures told { (table pos : ℕ) → before_at (notes_in stretch.new) table pos
        ≡ first_told place.table place.pos (option_copied before.entry) table pos (before_at (notes_in stretch.old) table pos) }
    ensures stretch { IsStretch stretch.new }
    // the room that is left
    ensures count { stretch.new.count ≤ stretch.old.count + 1 }
    ensures limit { stretch.new.limit ≡ stretch.old.limit }
    ensures same { (spare.new.width ≡ spare.old.width) × (spare.new.texts ≡ spare.old.texts) }
    ensures left { spare.old.rows ≤ spare.new.rows + 1 }
{
    if stretch.note_of(place.table, u64::from(place.pos)).is_none() {
        let before = spare.keep(before);
        stretch.put_new(Change {
            table: place.table,
            pos: place.pos,
            before,
            after: None,
        });
    }
}

/// Begins a stretch, if something was noted in the newest one, where there is room for that among the older. It takes no
/// memory.
fn begin_stretch(older: &mut Vec<Blocks>, newest: &mut Blocks, alloc: Global)
    requires older { AllByRecursion IsStretch older.old.items }
    requires newest { IsStretch newest.old }
    requires room { vec_len older.old < vec_capacity older.old }
    // nothing is noted in the newest one then
    ensures none { notes_in newest.new ≡ [] }
    ensures newest { IsStretch newest.new }
    ensures older { AllByRecursion IsStretch older.new.items }
    // the stretches from any on tell what they told
    ensures more { length older.old.items ≤ length older.new.items }
    ensures told { (begin table pos : ℕ) → begin ≤ length older.old.items
        → was_at (drop begin (map notes_in older.new.items ++ notes_in newest.new ∷ [])) table pos
        ≡ was_at (drop begin (map notes_in older.old.items ++ notes_in newest.old ∷ [])) table pos }
{
    if newest.len() > 0 {
        older.push_reserved(mem::replace(newest, Blocks::new(alloc)));
    }
}

/// A copy of a row that is there or not. Err is for want of memory.
fn copied(alloc: Global, row: &Option<StoredRow>) -> Result<Option<StoredRow>, AllocError>
    ensures { IfOk result (λ copy. copy ≡ row.now) }
{
    match row {
        None => Ok(None),
        Some(row) => Ok(Some(row.copy(alloc)?)),
    }
}

/// The note of a position in the first of these stretches that has one.
fn first_note_of(stretches: &[Blocks], table: u32, pos: u64) -> Option<&Change>
    requires { AllByRecursion IsStretch stretches.now }
    ensures { before_in (option_copied result) ≡ was_at (map notes_in stretches.now) table pos }
{
    for stretch in stretches {
        if let Some(note) = stretch.note_of(table, pos) {
            return Some(note);
        }
    }
    None
}

/// A note behind others, with the row before of another one, if there is one. Err is for want of memory.
fn push_from(list: &mut Vec<Change>, was: Option<&Change>, note: &Change) -> Result<(), AllocError>
    ensures { OnOk result (list.new.items ≡ list.old.items ++ note_from (before_in (option_copied was.entry)) note.now) }
{
    if let Some(was) = was {
        let alloc = *list.allocator();
        list.push(Change {
            table: note.table,
            pos: note.pos,
            before: copied(alloc, &was.before)?,
            after: copied(alloc, &note.after)?,
        })?;
    }
    Ok(())
}

impl Levels {
    /// No level. It takes no memory.
    pub fn new(alloc: Global) -> Levels
        ensures sound { AreLevels result }
        ensures none { result.begins.items ≡ [] }
        ensures blank { stretches_in result ≡ [] ∷ [] }
    {
        Levels {
            older: Vec::new(alloc),
            newest: Blocks::new(alloc),
            begins: Vec::new(alloc),
        }
    }

    /// The stretch with which a level begins, if it is open.
    pub fn begin(&self, level: usize) -> Option<usize>
        ensures { result ≡ slice_get self.now.begins.items level }
    {
        self.begins.get(level).copied()
    }

    /// Makes room for so many more notes, if a level is open. It fails only where that room was missing; the notes stay,
    /// and there is never less room. It answers how many rows a note takes.
    pub fn reserve(&mut self, additional: usize) -> Result<usize, AllocError>
        requires { AreLevels self.old }
        ensures stretches { stretches_in self.new ≡ stretches_in self.old }
        ensures begins { self.new.begins ≡ self.old.begins }
        ensures sound { AreLevels self.new }
        ensures rows { IfOk result (λ rows. rows ≡ rows_by (nat_lt 0 (vec_len self.old.begins))) }
        ensures ok { OnOk result (nat_lt 0 (vec_len self.old.begins) ≡ true → additional ≤ self.new.newest.limit - self.new.newest.count) }
        ensures kept { self.old.newest.limit - self.old.newest.count ≤ self.new.newest.limit - self.new.newest.count }
        ensures err { OnErr result ((nat_lt 0 (vec_len self.old.begins) ≡ true)
            × (self.old.newest.limit - self.old.newest.count < additional)) }
    {
        if self.begins.is_empty() {
            return Ok(2);
        }
        self.newest.reserve(additional)?;
        Ok(3)
    }

    /// Notes what stands at a position in the newest stretch, unless something is noted there, if a level is open. It
    /// takes no memory, and no more room than for one note.
    pub fn note(&mut self, spare: &mut SpareRows, place: NotedPlace, before: Option<&Row>)
        requires sound { AreLevels self.old }
        requires room { nat_lt 0 (vec_len self.old.begins) ≡ true → self.old.newest.count < self.old.newest.limit }
        // the row can be kept
        requires enough { nat_lt 0 (vec_len self.old.begins) ≡ true → cell_rows (option_copied before) ≤ spare.old.rows }
        requires fits { cell_width (option_copied before) ≤ spare.old.width }
        requires texts { cell_texts (option_copied before) ≤ spare.old.texts }
        // each level of notes has one more note, whatever row comes after
        ensures levels { (after : Cell) (notes : List Change) → Ascends notes → AreCovered (stretches_in self.old) notes
            → levels_of self.new (with_note (record { table = place.table; pos = place.pos; before = option_copied before.entry; after = after }) notes)
            ≡ map (with_note (record { table = place.table; pos = place.pos; before = option_copied before.entry; after = after })) (levels_of self.old notes) }
        ensures covered { (after : Cell) (notes : List Change) → Ascends notes → AreCovered (stretches_in self.old) notes
            → AreCovered (stretches_in self.new)
            (with_note (record { table = place.table; pos = place.pos; before = option_copied before.entry; after = after }) notes) }
        ensures begins { self.new.begins ≡ self.old.begins }
        ensures sound { AreLevels self.new }
        // the room that is left
        ensures count { self.new.newest.count ≤ self.old.newest.count + 1 }
        ensures limit { self.new.newest.limit ≡ self.old.newest.limit }
        ensures same { (spare.new.width ≡ spare.old.width) × (spare.new.texts ≡ spare.old.texts) }
        ensures left { spare.old.rows ≤ spare.new.rows + 1 }
        ensures closed { nat_lt 0 (vec_len self.old.begins) ≡ false → spare.new.rows ≡ spare.old.rows }
    {
        if !self.begins.is_empty() {
            note_first(&mut self.newest, spare, place, before);
        }
    }

    /// Opens a level. A stretch in which nothing was noted serves it too. Err is for want of memory: all stays.
    pub fn open(&mut self, alloc: Global) -> Result<(), AllocError>
        requires { AreLevels self.old }
        ensures sound { AreLevels self.new }
        ensures ok { OnOk result ((notes : List Change) → levels_of self.new notes ≡ levels_of self.old notes ++ [] ∷ []) }
        ensures told { (table pos : ℕ) → was_at (stretches_in self.new) table pos ≡ was_at (stretches_in self.old) table pos }
        // without memory
        ensures older { OnErr result (self.new.older.items ≡ self.old.older.items) }
        ensures newest { OnErr result (self.new.newest ≡ self.old.newest) }
        ensures begins { OnErr result (self.new.begins.items ≡ self.old.begins.items) }
        ensures len { OnErr result (vec_len self.new.begins ≡ vec_len self.old.begins) }
    {
        self.begins.reserve(1)?;
        self.older.reserve(1)?;
        begin_stretch(&mut self.older, &mut self.newest, alloc);
        self.begins.push_reserved(self.older.len());
        Ok(())
    }

    /// Closes all levels but the first ones. It takes no memory.
    pub fn keep(&mut self, count: usize)
        requires { AreLevels self.old }
        ensures sound { AreLevels self.new }
        ensures stretches { stretches_in self.new ≡ stretches_in self.old }
        ensures begins { self.new.begins.items ≡ take count self.old.begins.items }
        ensures fewer { vec_len self.new.begins ≤ vec_len self.old.begins }
        ensures newest { self.new.newest ≡ self.old.newest }
    {
        self.begins.truncate(count);
    }

    /// Closes all levels, and drops what was noted. It takes no memory.
    pub fn clear(&mut self)
        requires { AreLevels self.old }
        ensures sound { AreLevels self.new }
        ensures none { self.new.begins.items ≡ [] }
        ensures closed { vec_len self.new.begins ≡ 0 }
        ensures blank { stretches_in self.new ≡ [] ∷ [] }
    {
        self.begins.clear();
        self.older.clear();
        self.newest.clear();
    }

    /// The note of what stood at a position when it was first written in a stretch from this one on, if it was.
    fn first_note(&self, begin: usize, table: u32, pos: u64) -> Option<&Change>
        requires sound { AreLevels self.now }
        requires within { begin ≤ length self.now.older.items }
        ensures { before_in (option_copied result) ≡ was_at (drop begin (stretches_in self.now)) table pos }
    {
        match first_note_of(&self.older.as_slice()[begin..], table, pos) {
            None => self.newest.note_of(table, pos),
            Some(note) => Some(note),
        }
    }

    /// The place of the first of these notes whose position was written in a stretch from this one on.
    fn first_of(&self, begin: usize, notes: &[Change]) -> Option<NotedPlace>
        requires sound { AreLevels self.now }
        requires within { begin ≤ length self.now.older.items }
        ensures { result ≡ option_map place_of (slice_get (noted_since (drop begin (stretches_in self.now)) notes.now) 0) }
    {
        for note in notes {
            if self
                .first_note(begin, note.table, u64::from(note.pos))
                .is_some()
            {
                return Some(place(note));
            }
        }
        None
    }

    /// The same of the notes of blocks.
    fn first_of_blocks(&self, begin: usize, blocks: &[Vec<Change>]) -> Option<NotedPlace>
        requires sound { AreLevels self.now }
        requires within { begin ≤ length self.now.older.items }
        ensures { result ≡ option_map place_of (slice_get (noted_since (drop begin (stretches_in self.now)) (joined blocks.now)) 0) }
    {
        for block in blocks {
            if let Some(place) = self.first_of(begin, block.as_slice()) {
                return Some(place);
            }
        }
        None
    }

    /// The first position that isn't before this one, of those that were written in a stretch from this one on. It costs
    /// a look-up of each note up to there.
    pub fn first_from(
        &self,
        begin: usize,
        notes: &Blocks,
        table: u32,
        pos: u64,
    ) -> Option<NotedPlace>
        requires sound { AreLevels self.now }
        requires within { begin ≤ length self.now.older.items }
        requires notes { IsStretch notes.now }
        ensures { result ≡ option_map place_of (slice_get (noted_since (drop begin (stretches_in self.now)) (notes_in notes.now))
            (prefix_len (below table pos) (noted_since (drop begin (stretches_in self.now)) (notes_in notes.now)))) }
    {
        let block = notes.find(table, pos);
        let own = notes.notes(block);
        let from = count_below(own, table, pos);
        match self.first_of(begin, &own[from..]) {
            Some(place) => Some(place),
            None => self.first_of_blocks(begin, notes.behind(block)),
        }
    }

    /// Those of the notes that are of certain positions which were written in a stretch from this one on, with what stood
    /// there before, behind a list. Err is for want of memory.
    fn push_between(
        &self,
        list: &mut Vec<Change>,
        begin: usize,
        notes: &[Change],
        wanted: &Between,
    ) -> Result<(), AllocError>
        requires sound { AreLevels self.now }
        requires within { begin ≤ length self.now.older.items }
        ensures { OnOk result (list.new.items ≡ list.old.items
            ++ filter (is_between wanted.now.table wanted.now.from wanted.now.to) (noted_since (drop begin (stretches_in self.now)) notes.now)) }
    {
        for note in notes {
            if wanted.has(note) {
                let was = self.first_note(begin, note.table, u64::from(note.pos));
                push_from(list, was, note)?;
            }
        }
        Ok(())
    }

    /// The notes of certain positions which were written in a stretch from this one on, with what stood there before. It
    /// costs a look-up of each note of those positions. Err is for want of memory.
    pub fn notes_between(
        &self,
        begin: usize,
        notes: &Blocks,
        wanted: &Between,
    ) -> Result<Vec<Change>, AllocError>
        requires sound { AreLevels self.now }
        requires within { begin ≤ length self.now.older.items }
        requires notes { IsStretch notes.now }
        ensures { IfOk result (λ list. list.items
            ≡ filter (is_between wanted.now.table wanted.now.from wanted.now.to) (noted_since (drop begin (stretches_in self.now)) (notes_in notes.now))) }
    {
        let mut list = Vec::new(*self.begins.allocator());
        let first = notes.find(wanted.table, wanted.from);
        self.push_between(&mut list, begin, notes.notes(first), wanted)?;
        let later = notes.behind_up_to(first, wanted.table, wanted.to);
        for block in later {
            self.push_between(&mut list, begin, block.as_slice(), wanted)?;
        }
        Ok(list)
    }
}
