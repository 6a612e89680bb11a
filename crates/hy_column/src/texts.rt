//! Columns of texts.

ghost use Rattle.std.specs.Option.{option_copied};
ghost use Rattle.std.specs.Prelude.{◌≡◌, ◌<◌, [], Some, None, IfOk, length, replicate, option_map, slice_index_or, slice_set};

use hy_value::Text;
use std::alloc::{AllocError, Global};
use std::marker::Model;
use std::mem;

/// A text or NULL for each place.
#[derive(Drop)]
pub struct TextColumn {
    values: Vec<Option<Text>>,
}

impl Model for TextColumn {
    ghost use Rattle.std.specs.Prelude.{List, Option, ℕ};

    ghost Value = { List (Option (List ℕ)) };

    ghost view = { λ a. a.values.items };
}

/// Makes it a copy of a text.
fn put_text(there: &mut Option<Text>, text: &Text)
    ensures { there.new ≡ Some text.now }
{
    match there {
        None => *there = Some(text.copy()),
        Some(there) => there.copy_from(text),
    }
}

impl TextColumn {
    /// So many empty texts. Err is for want of memory.
    pub fn new(alloc: Global, rows: usize) -> Result<TextColumn, AllocError>
        ensures { IfOk result (λ column. column ≡ replicate rows (Some [])) }
    {
        let mut values = Vec::with_capacity(alloc, rows)?;
        for _place in 0..rows {
            values.push(Some(Text::empty(alloc)))?;
        }
        Ok(TextColumn { values })
    }

    /// The text at a place, None for NULL.
    pub fn look(&self, place: usize) -> Option<&Text>
        requires { place < length self.now }
        ensures { option_copied result ≡ slice_index_or self.now place None }
    {
        self.values[place].as_ref()
    }

    /// Puts a text or NULL at a place, and gives the old one back.
    pub fn replace(&mut self, place: usize, value: Option<Text>) -> Option<Text>
        requires { place < length self.old }
        ensures old { result ≡ slice_index_or self.old place None }
        ensures new { self.new ≡ slice_set self.old place value }
    {
        mem::replace(&mut self.values[place], value)
    }

    /// Puts a copy of a text, or NULL, at a place: over a text in place.
    pub fn put(&mut self, place: usize, value: Option<&Text>)
        requires { place < length self.old }
        ensures { self.new ≡ slice_set self.old place (option_copied value.entry) }
    {
        let there = &mut self.values[place];
        match value {
            None => *there = None,
            Some(text) => put_text(there, text),
        }
    }
}
