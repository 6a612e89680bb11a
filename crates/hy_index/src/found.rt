//! The positions that an index finds.

ghost use Rattle.std.specs.Prelude.{◌≡◌, ◌<◌, length, slice_index_or};

use crate::ascending::{Entry, pos_at};
use crate::keys::NullKey;
use hy_value::Text;
use std::marker::Model;

/// The entries of a key, by the kind of the key.
#[derive(Clone, Copy)]
pub enum FoundPart<'a> {
    /// Of NULL.
    Nulls(&'a [Entry<NullKey>]),
    /// Of a number.
    Numbers(&'a [Entry<i64>]),
    /// Of a text.
    Texts(&'a [Entry<Text>]),
}

/// The positions of a key, looked at where their entries stand.
#[derive(Drop)]
pub struct Found<'a> {
    /// Their entries.
    pub part: FoundPart<'a>,
}

impl<'a> Model for Found<'a> {
    ghost use Rattle.std.specs.Prelude.{ℕ, List};

    ghost Value = { List ℕ };

    ghost use Rattle.hy_index.specs.Positions.{positions_of};

    ghost view = { λ a. positions_of a.part };
}

impl Found<'_> {
    /// How many there are.
    pub fn len(&self) -> usize
        ensures { result ≡ length self.now }
    {
        match self.part {
            FoundPart::Nulls(entries) => entries.len(),
            FoundPart::Numbers(entries) => entries.len(),
            FoundPart::Texts(entries) => entries.len(),
        }
    }

    /// The one at an index.
    pub fn at(&self, index: usize) -> u32
        requires { index < length self.now }
        ensures { result ≡ slice_index_or self.now index 0 }
    {
        match self.part {
            FoundPart::Nulls(entries) => pos_at(entries, index),
            FoundPart::Numbers(entries) => pos_at(entries, index),
            FoundPart::Texts(entries) => pos_at(entries, index),
        }
    }
}
