//! Before-images.

ghost use Rattle.std.specs.Prelude.{◌≡◌, ◌+◌, ◌<◌, ◌≤◌, false, Some, None, replicate, length, IfOk, slice_set, slice_index_or};
ghost use Rattle.hy_undo.specs.Images.{older_or};
ghost use Rattle.hy_value.specs.Cells.{text_count};
ghost use Rattle.hy_value.specs.Refs.{referred};
ghost use Rattle.hy_value.specs.declared.Value.{Value};

use crate::merging::{put_back_at, take_newer, take_older};
use crate::noted::Noted;
use crate::spares::Spares;
use crate::version::Version;
use hy_chain::Image;
use hy_value::ValueRef;
use smallvec::SmallVec;
use std::alloc::{AllocError, Global};
use std::marker::Model;

/// For each column the value that stood there before a write, if it was noted, and whether the row was live. Up to four
/// columns take no block, and a text that is noted takes one.
#[derive(Drop)]
pub struct Delta {
    notes: SmallVec<Noted, 4>,
    was_live: bool,
}

impl Model for Delta {
    ghost use Rattle.std.specs.Prelude.{map};
    ghost use Rattle.hy_undo.specs.Images.{Image, image_code};
    ghost use Rattle.hy_undo.specs.Noted.{noted_value};

    ghost Value = { Image };

    ghost coded = { image_code };

    ghost view = { λ a. record { values = map noted_value a.notes.items; live = a.was_live } };
}

impl Delta {
    /// Nothing noted, with a place for every column, and not live. Err is for want of memory.
    pub fn blank(alloc: Global, columns: usize) -> Result<Delta, AllocError>
        ensures values { IfOk result (λ delta. delta.values ≡ replicate columns None) }
        ensures live { IfOk result (λ delta. delta.live ≡ false) }
    {
        let mut notes = SmallVec::new(alloc);
        for _column in 0..columns {
            notes.push(Noted::Nothing)?;
        }
        Ok(Delta {
            notes,
            was_live: false,
        })
    }

    /// Notes the value of a column, which is looked at, if none is noted, and a text in a place of the spares. It takes no
    /// memory.
    pub fn note(&mut self, column: usize, old: ValueRef<'_>, spares: &mut Spares)
        requires within { column < length self.old.values }
        requires free { text_count (referred old) ≤ spares.old.free }
        ensures values { self.new.values ≡ slice_set self.old.values column (older_or (Some (referred old.entry)) (slice_index_or self.old.values column None)) }
        ensures live { self.new.live ≡ self.old.live }
        ensures same { (spares.new.columns ≡ spares.old.columns) × (spares.new.texts ≡ spares.old.texts) }
        ensures count { spares.new.count ≡ spares.old.count }
        ensures free { spares.old.free ≤ spares.new.free + text_count (referred old.entry) }
    {
        let notes = self.notes.as_mut_slice();
        notes[column].note(old, spares);
    }

    /// Notes the number of a column, if nothing is noted of it. It takes no memory.
    pub fn note_number(&mut self, column: usize, old: i64)
        requires { column < length self.old.values }
        ensures values { self.new.values ≡ slice_set self.old.values column (older_or (Some (Value.Int old)) (slice_index_or self.old.values column None)) }
        ensures live { self.new.live ≡ self.old.live }
    {
        let notes = self.notes.as_mut_slice();
        notes[column].note_number(old);
    }

    /// Says whether the row was live.
    pub fn set_live(&mut self, live: bool)
        ensures values { self.new.values ≡ self.old.values }
        ensures live { self.new.live ≡ live }
    {
        self.was_live = live;
    }
}

impl Image for Delta {
    ghost use Rattle.hy_undo.specs.Images.{before, both, before-both};

    type Base = Version;

    ghost applied = { before };

    ghost merged = { both };

    fn apply(&self, base: &mut Version) {
        let count = self.notes.len().min(base.row.len());
        for column in 0..count {
            put_back_at(&mut base.row, column, &self.notes.as_slice()[column]);
        }
        base.live = self.was_live;
    }

    fn merge_older(&mut self, older: Delta) {
        let Delta {
            mut notes,
            was_live,
        } = older;
        if self.notes.len() < notes.len() {
            take_newer(notes.as_mut_slice(), self.notes.as_mut_slice());
            self.notes = notes;
        } else {
            take_older(self.notes.as_mut_slice(), notes.as_mut_slice());
        }
        self.was_live = was_live;
    }

    ghost merges = { before-both };
}
