//! The entries of keys of one kind, ascending.

ghost use Rattle.std.specs.Prelude.{◌≡◌, ◌+◌, ◌<◌, ◌≤◌, [], IfOk, Contains, filter, length, map, slice_index_or};
ghost use Rattle.std.specs.List.{prefix_len};
ghost use Rattle.hy_index.specs.Entries.{entry, order_of, Ascends, below_key, up_to_key, below_entry};
ghost use Rattle.hy_index.specs.Entries.{has_key, with_entry, without_entry};
ghost use Rattle.hy_index.specs.Keyed.{entry_of};

use crate::keys::Key;
use std::alloc::{AllocError, Global};
use std::cmp::Ordering;
use std::marker::Model;

/// A key, and a position that has it.
#[derive(Drop)]
pub struct Entry<K> {
    /// The key.
    pub key: K,
    /// The position.
    pub pos: u32,
}

/// The entries of keys of one kind, by key and then position.
#[derive(Drop)]
pub struct Sorted<K: Key> {
    entries: Vec<Entry<K>>,
}

impl<K: Key> Model for Sorted<K> {
    ghost use Rattle.std.specs.Prelude.{map, vec_capacity};
    ghost use Rattle.hy_index.specs.Indexed.{Kept, kept_code};
    ghost use Rattle.hy_index.specs.Entries.{Ascends};

    ghost Value = { Kept };

    ghost coded = { kept_code };

    ghost use Rattle.hy_index.specs.Keyed.{entry_of};

    ghost view = { λ a. record { entries = map (entry_of K.value) a.entries.items; capacity = vec_capacity a.entries } };

    ghost invariant = { λ a. Ascends (map (entry_of K.value) a.entries.items) };
}

/// How an entry stands to a key and a position: by the key first.
fn order<K: Key>(entry: &Entry<K>, key: &K, pos: u32) -> Ordering
    ensures { result ≡ order_of (entry_of K.value entry.now) (K.value key.now) pos }
{
    entry.key.compare(key).then(entry.pos.cmp(&pos))
}

/// How many entries are below a key and a position.
fn count_below<K: Key>(entries: &[Entry<K>], key: &K, pos: u32) -> usize
    requires { Ascends (map (entry_of K.value) entries.now) }
    ensures count { result ≡ prefix_len (below_entry (K.value key.now) pos) (map (entry_of K.value) entries.now) }
    ensures within { result ≤ length entries.now }
{
    entries.partition_point(|entry| order(entry, key, pos).is_lt())
}

/// How many entries have a lower key.
fn count_below_key<K: Key>(entries: &[Entry<K>], key: &K) -> usize
    requires { Ascends (map (entry_of K.value) entries.now) }
    ensures count { result ≡ prefix_len (below_key (K.value key.now)) (map (entry_of K.value) entries.now) }
    ensures within { result ≤ length entries.now }
{
    entries.partition_point(|entry| entry.key.compare(key).is_lt())
}

/// How many entries have a key that is no higher.
fn count_up_to_key<K: Key>(entries: &[Entry<K>], key: &K) -> usize
    requires { Ascends (map (entry_of K.value) entries.now) }
    ensures count { result ≡ prefix_len (up_to_key (K.value key.now)) (map (entry_of K.value) entries.now) }
    ensures within { result ≤ length entries.now }
{
    entries.partition_point(|entry| !entry.key.compare(key).is_gt())
}

/// The position of an entry.
pub fn pos_at<K>(entries: &[Entry<K>], index: usize) -> u32
    requires { index < length entries.now }
    ensures { result ≡ slice_index_or (map (λ e. e.pos) entries.now) index 0 }
{
    entries[index].pos
}

impl<K: Key> Sorted<K> {
    /// No entries, and room for so many. Err is for want of memory.
    pub fn new(alloc: Global, capacity: usize) -> Result<Sorted<K>, AllocError>
        ensures entries { IfOk result (λ sorted. sorted.entries ≡ []) }
        ensures capacity { IfOk result (λ sorted. sorted.capacity ≡ capacity) }
    {
        let entries = Vec::with_capacity(alloc, capacity)?;
        Ok(Sorted { entries })
    }

    /// Adds the entry of a position that has none, where there is room for it. It takes no memory.
    pub fn add(&mut self, key: K, pos: u32)
        requires room { length self.old.entries < self.old.capacity }
        requires absent { ¬ Contains self.old.entries (entry (K.value key) pos) }
        ensures entries { self.new.entries ≡ with_entry (entry (K.value key) pos) self.old.entries }
        ensures len { length self.new.entries ≡ length self.old.entries + 1 }
        ensures capacity { self.old.capacity ≤ self.new.capacity }
    {
        let at = count_below(self.entries.as_slice(), &key, pos);
        let _added = self.entries.insert(at, Entry { key, pos });
    }

    /// Takes the entry of a position out, which is there. Its room serves the next one.
    pub fn remove(&mut self, key: &K, pos: u32)
        requires { Contains self.old.entries (entry (K.value key.now) pos) }
        ensures entries { self.new.entries ≡ without_entry (entry (K.value key.now) pos) self.old.entries }
        ensures len { length self.new.entries + 1 ≡ length self.old.entries }
        ensures capacity { self.old.capacity ≤ self.new.capacity }
    {
        let at = count_below(self.entries.as_slice(), key, pos);
        let _removed = self.entries.remove(at);
    }

    /// The entries of a key, by position.
    pub fn find(&self, key: &K) -> &[Entry<K>]
        ensures { map (entry_of K.value) result.now ≡ filter (has_key (K.value key.now)) self.now.entries }
    {
        let entries = self.entries.as_slice();
        let (_lower, others) = entries.split_at(count_below_key(entries, key));
        let (found, _higher) = others.split_at(count_up_to_key(others, key));
        found
    }
}
