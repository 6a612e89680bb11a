//! The keys of a table's first rows.

ghost use Rattle.std.specs.Prelude.{◌≡◌, [], OnOk};
ghost use Rattle.hy_value.specs.Refs.{referred};
ghost use Rattle.hy_value.specs.Sorted.{is_one_of, with_value};

use hy_value::{ValueRef, ValueSet};
use std::alloc::{AllocError, Global};
use std::collections::BTreeSet;
use std::marker::Model;

/// Different keys. A contract sees them in ascending order. Numbers are kept apart, since a value takes as much room as the
/// longest text.
#[derive(Drop)]
pub struct KeySet {
    /// The keys that are numbers.
    numbers: BTreeSet<i64>,
    /// The others.
    others: ValueSet,
}

impl Model for KeySet {
    ghost use Rattle.hy_value.specs.Values.{Values};
    ghost use Rattle.hy_script.specs.Keys.{keys_of};

    ghost Value = { Values };

    ghost view = { λ a. keys_of a.numbers.keys a.others };
}

impl KeySet {
    /// No keys. It takes no memory.
    pub fn new(alloc: Global) -> KeySet
        ensures { result ≡ [] }
    {
        KeySet {
            numbers: BTreeSet::new(alloc),
            others: ValueSet::new(alloc),
        }
    }

    /// Whether a value is one of them.
    pub fn has(&self, value: ValueRef<'_>) -> bool
        ensures { result ≡ is_one_of self.now (referred value.entry) }
    {
        match value {
            ValueRef::Int(number) => self.numbers.contains(&number),
            _ => self.others.has(&value.to_value()),
        }
    }

    /// Puts a value among them, unless it is there.
    pub fn insert(&mut self, value: ValueRef<'_>) -> Result<(), AllocError>
        ensures { OnOk result (self.new ≡ with_value self.old (referred value.entry)) }
    {
        match value {
            ValueRef::Int(number) => {
                self.numbers.insert(number)?;
            }
            _ => self.others.insert(value.to_value())?,
        }
        Ok(())
    }
}
