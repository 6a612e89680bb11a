//! The notes of a transaction.

ghost use Rattle.std.specs.Prelude.{◌≡◌, ◌⊎◌, ◌++◌, ◌+◌, ◌<◌, ◌≤◌, [], ◌∷◌, IfOk, OnOk, OnErr};
ghost use Rattle.std.specs.Prelude.{length, map, take, filter, option_map, slice_get, slice_index_or};
ghost use Rattle.std.specs.List.{prefix_len};
ghost use Rattle.std.specs.Option.{option_copied};
ghost use Rattle.hy_notes.specs.Notes.{below, is_between, with_note, place_of};
ghost use Rattle.hy_notes.specs.Spares.{cell_width, cell_texts};

use crate::NotedPlace;
use crate::blocks::{Blocks, count_below, is_noted};
use crate::levels::{Between, Levels};
use crate::rows::SpareRows;
use hy_value::{Change, Changes as ChangeList, Row, Seq};
use std::alloc::{AllocError, Global};
use std::marker::Model;

/// The notes of a transaction, by table and then position, one for each position, the same for each level since it was
/// opened, and spare rows for more.
#[derive(Drop)]
pub struct Changes {
    notes: Blocks,
    levels: Levels,
    spare: SpareRows,
}

impl Model for Changes {
    ghost use Rattle.hy_notes.specs.Blocks.{notes_in};
    ghost use Rattle.hy_notes.specs.Noted.{Noted, noted_code};
    ghost use Rattle.hy_notes.specs.Levels.{levels_of};
    ghost use Rattle.hy_notes.specs.Spares.{rooms};
    ghost use Rattle.hy_notes.specs.Sound.{Sound};

    ghost Value = { Noted };

    ghost coded = { noted_code };

    ghost view = { λ a. record {
      notes = notes_in a.notes;
      levels = levels_of a.levels (notes_in a.notes);
      room = rooms a.notes a.levels a.spare.rows;
      width = a.spare.width;
      texts = a.spare.texts;
    } };

    ghost invariant = { λ a. Sound a.notes a.levels };
}

impl Changes {
    /// No notes, and room for none. It takes no memory.
    pub fn new(alloc: Global) -> Changes
        ensures notes { result.notes ≡ [] }
        ensures levels { result.levels ≡ [] }
    {
        Changes {
            notes: Blocks::new(alloc),
            levels: Levels::new(alloc),
            spare: SpareRows::new(alloc),
        }
    }

    /// Makes room for so many more notes with rows of up to so many values, of which so many are texts. It fails only
    /// where that room was missing; the notes stay, and there is never less room.
    pub fn reserve(
        &mut self,
        additional: usize,
        columns: usize,
        texts: usize,
    ) -> Result<(), AllocError>
        ensures notes { self.new.notes ≡ self.old.notes }
        ensures levels { self.new.levels ≡ self.old.levels }
        ensures ok { OnOk result (additional ≤ self.new.room) }
        ensures width { OnOk result (columns ≤ self.new.width) }
        ensures texts { OnOk result (texts ≤ self.new.texts) }
        ensures kept { self.old.room ≤ self.new.room }
        ensures wide { self.old.width ≤ self.new.width }
        ensures long { self.old.texts ≤ self.new.texts }
        ensures err { OnErr result ((self.old.room < additional) ⊎ ((self.old.width < columns) ⊎ (self.old.texts < texts))) }
    {
        self.notes.reserve(additional)?;
        let rows = self.levels.reserve(additional)?;
        let all = self.notes.room();
        self.spare.reserve(additional, all, rows, columns, texts)
    }

    /// Notes the rows before and after a write of a position, where there is room for them, in each level too. At a
    /// position that is noted the row before stays. It takes no memory, and no more room than for one note.
    pub fn note_reserved(&mut self, table: u32, pos: u32, before: Option<&Row>, after: Option<&Row>)
        requires room { 0 < self.old.room }
        requires before { cell_width (option_copied before) ≤ self.old.width }
        requires after { cell_width (option_copied after) ≤ self.old.width }
        requires texts_before { cell_texts (option_copied before) ≤ self.old.texts }
        requires texts_after { cell_texts (option_copied after) ≤ self.old.texts }
        ensures notes { self.new.notes
            ≡ with_note (record { table = table; pos = pos; before = option_copied before.entry; after = option_copied after.entry }) self.old.notes }
        ensures levels { self.new.levels
            ≡ map (with_note (record { table = table; pos = pos; before = option_copied before.entry; after = option_copied after.entry })) self.old.levels }
        ensures room { self.old.room ≤ self.new.room + 1 }
        ensures width { self.new.width ≡ self.old.width }
        ensures texts { self.new.texts ≡ self.old.texts }
    {
        let position = NotedPlace { table, pos };
        self.levels.note(&mut self.spare, position, before);
        let place = u64::from(pos);
        let block = self.notes.find(table, place);
        let at = count_below(self.notes.notes(block), table, place);
        let noted = is_noted(self.notes.notes(block), at, table, place);
        let after = self.spare.keep(after);
        if noted {
            self.notes.put_after(block, at, after);
        } else {
            let before = self.spare.keep(before);
            self.notes.put_note(
                block,
                at,
                Change {
                    table,
                    pos,
                    before,
                    after,
                },
            );
        }
    }

    /// How many positions are noted.
    pub fn len(&self) -> usize
        ensures { result ≡ length self.now.notes }
    {
        self.notes.len()
    }

    /// The first noted position that isn't before this one, by table and then position.
    pub fn first_from(&self, table: u32, pos: u64) -> Option<NotedPlace>
        ensures { result ≡ option_map place_of (slice_get self.now.notes (prefix_len (below table pos) self.now.notes)) }
    {
        self.notes.first_from(table, pos)
    }

    /// The notes as a list, which has no more room than they take: none are left, and no level. Err is for want of
    /// memory: all stays. There is never less room.
    pub fn take_all(&mut self) -> Result<ChangeList, AllocError>
        ensures ok { IfOk result (λ list. list ≡ self.old.notes) }
        ensures none { OnOk result (self.new.notes ≡ []) }
        ensures levels { OnOk result (self.new.levels ≡ []) }
        ensures err { OnErr result (self.new ≡ self.old) }
        ensures kept { self.old.room ≤ self.new.room }
        ensures wide { self.old.width ≤ self.new.width }
        ensures long { self.old.texts ≤ self.new.texts }
    {
        let list = self.notes.take_all()?;
        self.levels.clear();
        Ok(Seq::from_vec(list))
    }

    /// Drops the notes, and closes all levels. There is never less room.
    pub fn clear(&mut self)
        ensures none { self.new.notes ≡ [] }
        ensures levels { self.new.levels ≡ [] }
        ensures kept { self.old.room ≤ self.new.room }
        ensures wide { self.old.width ≤ self.new.width }
        ensures long { self.old.texts ≤ self.new.texts }
    {
        self.notes.clear();
        self.levels.clear();
    }

    /// Every noted position, by table and then position. Err is for want of memory.
    pub fn places(&self) -> Result<Seq<NotedPlace>, AllocError>
        ensures { IfOk result (λ places. places ≡ map place_of self.now.notes) }
    {
        Ok(Seq::from_vec(self.notes.places()?))
    }
    /// Opens a level: from here on it has notes of its own, with the row before that stands here. Room has to be made
    /// again. Err is for want of memory.
    pub fn open_level(&mut self) -> Result<(), AllocError>
        ensures ok { OnOk result (self.new.levels ≡ self.old.levels ++ [] ∷ []) }
        ensures notes { OnOk result (self.new.notes ≡ self.old.notes) }
        ensures width { OnOk result (self.new.width ≡ self.old.width) }
        ensures texts { OnOk result (self.new.texts ≡ self.old.texts) }
        ensures err { OnErr result (self.new ≡ self.old) }
    {
        let alloc = self.spare.allocator();
        self.levels.open(alloc)?;
        Ok(())
    }

    /// Closes all levels but so many, which were opened first. It takes no memory, and there is never less room.
    pub fn keep_levels(&mut self, count: usize)
        ensures levels { self.new.levels ≡ take count self.old.levels }
        ensures notes { self.new.notes ≡ self.old.notes }
        ensures kept { self.old.room ≤ self.new.room }
        ensures width { self.new.width ≡ self.old.width }
        ensures texts { self.new.texts ≡ self.old.texts }
    {
        self.levels.keep(count);
    }

    /// The first noted position of a level that isn't before this one, by table and then position. It costs a look-up of
    /// each note up to there.
    pub fn first_since(&self, level: usize, table: u32, pos: u64) -> Option<NotedPlace>
        ensures { result ≡ option_map place_of (slice_get (slice_index_or self.now.levels level [])
            (prefix_len (below table pos) (slice_index_or self.now.levels level []))) }
    {
        match self.levels.begin(level) {
            None => None,
            Some(begin) => self.levels.first_from(begin, &self.notes, table, pos),
        }
    }

    /// The notes of a level in a table, from a position on up to another, by position. It costs a look-up of each note
    /// there. Err is for want of memory.
    pub fn notes_since(
        &self,
        level: usize,
        table: u32,
        from: u64,
        to: u64,
    ) -> Result<ChangeList, AllocError>
        ensures { IfOk result (λ list. list ≡ filter (is_between table from to) (slice_index_or self.now.levels level [])) }
    {
        match self.levels.begin(level) {
            None => Ok(Seq::new(self.spare.allocator())),
            Some(begin) => {
                let wanted = Between { table, from, to };
                Ok(Seq::from_vec(self.levels.notes_between(begin, &self.notes, &wanted)?))
            }
        }
    }
}
