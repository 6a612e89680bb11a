//! The first rows of a table.

ghost use Rattle.std.specs.Prelude.{◌≡◌, [], OnOk};
ghost use Rattle.hy_value.specs.Refs.{referred};
ghost use Rattle.hy_script.specs.Stocks.{key_there, with_row, value_in};

use crate::keys::KeySet;
use hy_bound::StoredRows;
use hy_value::{Seq, StoredRow, ValueRef};
use std::alloc::{AllocError, Global};

/// The first rows of a table, with the keys that they have.
#[derive(Drop)]
pub struct Stock {
    /// The number of the table's key, if it has one.
    pub key: Option<u32>,
    /// The rows.
    pub rows: StoredRows,
    /// Their keys, where there is a key.
    pub keys: KeySet,
}

impl Stock {
    /// No rows of a table that has this key.
    pub fn new(alloc: Global, key: Option<u32>) -> Stock
        ensures { result ≡ record { key = key; rows = []; keys = [] } }
    {
        Stock {
            key,
            rows: Seq::new(alloc),
            keys: KeySet::new(alloc),
        }
    }

    /// Whether a row that is there has the key of this one.
    pub fn has_key(&self, row: &StoredRow) -> bool
        ensures { result ≡ key_there self.now row.now }
    {
        match self.key {
            Some(key) => self.keys.has(key_at(row, key)),
            None => false,
        }
    }

    /// Adds a row.
    pub fn add(&mut self, row: StoredRow) -> Result<(), AllocError>
        ensures { OnOk result (self.new ≡ with_row self.old row) }
    {
        if let Some(key) = self.key {
            self.keys.insert(key_at(&row, key))?;
        }
        self.rows.push(row)?;
        Ok(())
    }
}

/// A row's value in a column where it stands, NULL beyond its last.
fn key_at(row: &StoredRow, key: u32) -> ValueRef<'_>
    ensures { referred result ≡ value_in row.now key }
{
    if (key as usize) < row.len() {
        row.refer(key as usize)
    } else {
        ValueRef::Null
    }
}
