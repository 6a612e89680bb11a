//! The positions that have a key.
#![tactic(auto)]

ghost use Rattle.std.specs.Prelude.{◌≡◌, ◌+◌, ◌<◌, ◌≤◌, [], IfOk, Contains, filter, map};
ghost use Rattle.hy_value.specs.Refs.{referred};
ghost use Rattle.hy_index.specs.Entries.{entry, has_key, with_entry, without_entry};
ghost use Rattle.hy_index.specs.Kinds.{IsOfKind};
ghost use Rattle.hy_index.specs.Members.{AddsOne, TakesOne, FindsKeys};

mod ascending;
mod found;
mod keys;

use ascending::Sorted;
pub use found::Found;
use found::FoundPart;
use hy_value::{Kind, Text, ValueRef};
use keys::NullKey;
use std::alloc::{AllocError, Global};
use std::marker::Model;

/// The keys of positions, by key and then position: the NULLs are positions alone, and the numbers and the texts stand
/// apart, so that each entry is as large as its key. Room is made once for one entry of each position, NULL or of the
/// column's type, so that neither a write nor an undo needs memory.
#[derive(Drop)]
pub struct KeyIndex {
    kind: Kind,
    nulls: Sorted<NullKey>,
    numbers: Sorted<i64>,
    texts: Sorted<Text>,
}

impl Model for KeyIndex {
    ghost use Rattle.std.specs.Prelude.{◌++◌};
    ghost use Rattle.hy_index.specs.Indexed.{Indexed, indexed_code};
    ghost use Rattle.hy_index.specs.Parts.{IsParted, room_of};

    ghost Value = { Indexed };

    ghost coded = { indexed_code };

    ghost view = { λ a. record {
      kind = a.kind;
      entries = a.nulls.entries ++ (a.numbers.entries ++ a.texts.entries);
      room = room_of a.kind a.nulls a.numbers a.texts;
    } };

    ghost invariant = { λ a. IsParted a.kind a.nulls a.numbers a.texts };
}

impl KeyIndex {
    /// No entries, and room for so many, with keys of a type or NULL. Err is for want of memory.
    pub fn new(alloc: Global, kind: Kind, rows: usize) -> Result<KeyIndex, AllocError>
        ensures kind { IfOk result (λ index. index.kind ≡ kind) }
        ensures entries { IfOk result (λ index. index.entries ≡ []) }
        ensures room { IfOk result (λ index. index.room ≡ rows) }
    {
        let nulls = Sorted::new(alloc, rows)?;
        let (number_rows, text_rows) = match kind {
            Kind::Int => (rows, 0),
            Kind::Str => (0, rows),
        };
        let numbers = Sorted::new(alloc, number_rows)?;
        let texts = Sorted::new(alloc, text_rows)?;
        Ok(KeyIndex {
            kind,
            nulls,
            numbers,
            texts,
        })
    }

    /// Adds the entry of a position that has none, where there is room for it. It takes no memory, and no more
    /// room than that.
    pub fn add(&mut self, key: ValueRef<'_>, pos: u32)
        requires kind { IsOfKind self.old.kind (referred key) }
        requires room { 0 < self.old.room }
        requires absent { ¬ Contains self.old.entries (entry (referred key) pos) }
        ensures kind { self.new.kind ≡ self.old.kind }
        ensures entries { self.new.entries ≡ with_entry (entry (referred key.entry) pos) self.old.entries }
        ensures room { self.old.room ≤ self.new.room + 1 }
    {
        match key {
            ValueRef::Null => self.nulls.add(NullKey, pos),
            ValueRef::Int(number) => self.numbers.add(number, pos),
            ValueRef::Text(text) => self.texts.add(text.copy(), pos),
        }
    }

    /// Takes the entry of a position out, which is there. Its room serves the next one.
    pub fn remove(&mut self, key: ValueRef<'_>, pos: u32)
        requires { Contains self.old.entries (entry (referred key) pos) }
        ensures kind { self.new.kind ≡ self.old.kind }
        ensures entries { self.new.entries ≡ without_entry (entry (referred key.entry) pos) self.old.entries }
        ensures room { self.old.room + 1 ≤ self.new.room }
    {
        match key {
            ValueRef::Null => self.nulls.remove(&NullKey, pos),
            ValueRef::Int(number) => self.numbers.remove(&number, pos),
            ValueRef::Text(text) => self.texts.remove(text, pos),
        }
    }

    /// The positions of a key.
    pub fn find(&self, key: ValueRef<'_>) -> Found<'_>
        ensures { result ≡ map (λ e. e.pos) (filter (has_key (referred key.entry)) self.now.entries) }
    {
        let part = match key {
            ValueRef::Null => FoundPart::Nulls(self.nulls.find(&NullKey)),
            ValueRef::Int(number) => FoundPart::Numbers(self.numbers.find(&number)),
            ValueRef::Text(text) => FoundPart::Texts(self.texts.find(text)),
        };
        Found { part }
    }
}

/// Which entries there are when one comes or goes, and which are found.
pub fn entries_are_a_set()
    ensures adds { AddsOne }
    ensures takes { TakesOne }
    ensures finds { FindsKeys }
{}
