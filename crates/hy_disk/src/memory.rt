//! A disk in memory, of which single calls can be made to fail. It keeps what it held at each moment,
//! so that a test can ask what a crash may have left.
ghost use Rattle.std.specs.Prelude.{◌≡◌, ◌≢◌, ℕ, ◌+◌, ◌^◌, ◌<◌, ◌≤◌, ◌↔◌, List, [], ◌∷◌, length, take, drop, All, IsErr, IfOk, OnOk, OnErr, IsErrOf, Contains};
ghost use Rattle.std.proofs.Common.{inl};
ghost use Rattle.hy_outside.specs.Faults.{one_more};
ghost use Rattle.hy_disk.specs.Calls.{Writes, Syncs, IsDurable};
ghost use Rattle.hy_disk.specs.Images.{told_is_left, since_earlier, since_now};
ghost use Rattle.hy_disk.specs.Offered.{each_items, offered_since};
ghost use Rattle.hy_disk.specs.Memory.{MemoryDisk, shown, wrote, synced, moments, told, time_of, IsLeft, IsLeftSince};

use crate::bytes::overwrite;
use crate::replay::Replay;
use crate::{Disk, DiskError};
use hy_outside::Failed;
use std::alloc::{AllocError, Global};
use std::marker::Model;
use std::mem;

/// What begins a moment.
#[derive(Drop)]
pub(crate) enum Event {
    /// These bytes were written at this offset.
    Write(usize, Vec<u8>),
    /// What was written is sure.
    Sync,
}

/// A disk in memory.
#[derive(Drop)]
pub struct MemDisk {
    alloc: Global,
    start: Vec<u8>,
    bytes: Vec<u8>,
    events: Vec<Event>,
    is_pending: bool,
    fails: Vec<u64>,
    calls: u64,
    faults: u64,
}

impl Model for MemDisk {
    ghost use Rattle.std.specs.Prelude.{◌^◌, ◌<◌, length, IsTrue, vec_capacity};
    ghost use Rattle.hy_disk.specs.Memory.{MemoryDisk};
    ghost use Rattle.hy_disk.specs.Replay.{Matches, history_of};

    ghost Value = { MemoryDisk };

    ghost view = { λ s. record {
      present = (history_of s.start.items s.events.items).present;
      earlier = (history_of s.start.items s.events.items).earlier;
      failing = s.fails.items;
      calls = s.calls;
      faults = s.faults;
    } };

    ghost invariant = { λ s. Matches (history_of s.start.items s.events.items) s.bytes.items s.is_pending
        × (IsTrue s.is_pending → length s.events.items < vec_capacity s.events)
        × (s.faults < 2 ^ 64) };
}

impl MemDisk {
    /// A disk of these bytes, all of them sure. The calls whose numbers, counted from 1, stand in
    /// `fails` fail, and change nothing.
    pub fn new(alloc: Global, bytes: Vec<u8>, fails: Vec<u64>) -> Result<MemDisk, AllocError>
        ensures { IfOk result (λ s. s ≡ record {
          present = record { durable = bytes.items; pending = [] };
          earlier = [];
          failing = fails.items;
          calls = 0;
          faults = 0;
        }) }
    {
        Ok(MemDisk {
            alloc,
            start: Vec::from_slice(alloc, &bytes)?,
            bytes,
            events: Vec::new(alloc),
            is_pending: false,
            fails,
            calls: 0,
            faults: 0,
        })
    }

    /// A disk of no bytes, of which no call fails.
    fn empty(alloc: Global) -> MemDisk
        ensures { result ≡ record {
          present = record { durable = []; pending = [] };
          earlier = [];
          failing = [];
          calls = 0;
          faults = 0;
        } }
    {
        MemDisk {
            alloc,
            start: Vec::new(alloc),
            bytes: Vec::new(alloc),
            events: Vec::new(alloc),
            is_pending: false,
            fails: Vec::new(alloc),
            calls: 0,
            faults: 0,
        }
    }

    /// The bytes that a read gives.
    pub fn bytes(&self) -> &[u8]
        ensures { result.now ≡ shown self.now.present }
    {
        self.bytes.as_slice()
    }

    /// The images that a crash at each moment since a time may have left, the older moments first: of
    /// each of the first four pending writes the bytes as they were, as they were written, and all 255,
    /// so 81 images of a moment at most. Of a moment's later writes the bytes are as they were written.
    pub fn images(&self, alloc: Global, since: u64) -> Result<Vec<Vec<u8>>, AllocError>
        ensures offered { IfOk result (λ images. each_items images.items ≡ offered_since (moments self.now) since) }
        ensures left { IfOk result (λ images. All (IsLeftSince self.now since) (each_items images.items)) }
    {
        let mut replay = Replay::new(alloc, &self.start)?;
        let mut offered = Vec::new(alloc);
        'events: for (time, event) in self.events.iter().enumerate() {
            replay.offer(since <= time as u64, &mut offered)?;
            replay.follow(event)?;
        }
        replay.offer(since <= self.events.len() as u64, &mut offered)?;
        Ok(offered)
    }

    /// Counts a call, which fails where its number says so.
    fn count_call(&mut self) -> Result<(), Failed>
        ensures call { self.new ≡ record self.old { calls = one_more self.old.calls; faults = self.new.faults } }
        ensures fails { IsErr result ↔ Contains self.old.failing self.new.calls }
        ensures ok { OnOk result (self.new.faults ≡ self.old.faults) }
        ensures err { OnErr result (self.new.faults ≡ one_more self.old.faults) }
        ensures never_fell { self.old.faults ≤ self.new.faults }
        ensures in_range { self.new.faults < 2 ^ 64 }
    {
        self.calls = self.calls.saturating_add(1);
        if self.fails.contains(&self.calls) {
            self.faults = self.faults.saturating_add(1);
            return Err(Failed);
        }
        Ok(())
    }
}

impl Disk for MemDisk {
    ghost held = { told };

    ghost image = { IsLeft };

    ghost clock = { time_of };

    ghost image_since = { IsLeftSince };

    ghost faults = { λ s. s.faults };

    fn len(&mut self) -> Result<u64, Failed>
        ensures count { IfOk result (λ n. n ≡ length (shown self.old.present)) }
        ensures call { self.new ≡ record self.old { calls = one_more self.old.calls; faults = self.new.faults } }
        ensures fails { IsErr result ↔ Contains self.old.failing self.new.calls }
        ensures ok { OnOk result (self.new.faults ≡ self.old.faults) }
        ensures err { OnErr result (self.new.faults ≡ one_more self.old.faults) }
        ensures never_fell { self.old.faults ≤ self.new.faults }
        ensures in_range { self.new.faults < 2 ^ 64 }
    {
        self.count_call()?;
        Ok(self.bytes.len() as u64)
    }

    fn read(&mut self, at: u64, into: &mut [u8]) -> Result<(), Failed>
        requires within { at + length into.old ≤ length (shown self.old.present) }
        ensures bytes { OnOk result (into.new ≡ take (length into.new) (drop at (shown self.old.present))) }
        ensures call { self.new ≡ record self.old { calls = one_more self.old.calls; faults = self.new.faults } }
        ensures fails { IsErr result ↔ Contains self.old.failing self.new.calls }
        ensures ok { OnOk result (self.new.faults ≡ self.old.faults) }
        ensures err { OnErr result (self.new.faults ≡ one_more self.old.faults) }
        ensures never_fell { self.old.faults ≤ self.new.faults }
        ensures in_range { self.new.faults < 2 ^ 64 }
    {
        self.count_call()?;
        let from = at as usize;
        into.copy_from_slice(&self.bytes[from..from + into.len()]);
        Ok(())
    }

    fn write_at(&mut self, at: u64, from: &[u8]) -> Result<(), DiskError>
        ensures done { OnOk result ((self.new.present ≡ wrote self.old.present at from.now) × (self.new.earlier ≡ moments self.old)) }
        ensures kept { OnErr result ((self.new.present ≡ self.old.present) × (self.new.earlier ≡ self.old.earlier)) }
        ensures call { (self.new.calls ≡ one_more self.old.calls) × (self.new.failing ≡ self.old.failing) }
        ensures fails { IsErrOf result DiskError.Failed ↔ Contains self.old.failing self.new.calls }
        ensures steady { ¬ IsErrOf result DiskError.Failed → self.new.faults ≡ self.old.faults }
        ensures fault { IsErrOf result DiskError.Failed → self.new.faults ≡ one_more self.old.faults }
        ensures writes { Writes time_of IsLeft IsLeftSince at (length from.now) self.old self.new }
        ensures never_fell { self.old.faults ≤ self.new.faults }
        ensures in_range { self.new.faults < 2 ^ 64 }
    {
        if self.count_call().is_err() {
            return Err(DiskError::Failed);
        }
        // The second is for the sync that is to come, which has no answer for want of memory.
        self.events.reserve(2)?;
        let written = Vec::from_slice(self.alloc, from)?;
        overwrite(&mut self.bytes, at as usize, from)?;
        self.events
            .push(Event::Write(at as usize, written))
            .unwrap();
        self.is_pending = true;
        Ok(())
    }

    fn sync(&mut self) -> Result<(), Failed>
        ensures done { OnOk result (self.old.present.pending ≢ [] → (self.new.present ≡ synced self.old.present) × (self.new.earlier ≡ moments self.old)) }
        ensures nothing { OnOk result (self.old.present.pending ≡ [] → (self.new.present ≡ self.old.present) × (self.new.earlier ≡ self.old.earlier)) }
        ensures kept { OnErr result ((self.new.present ≡ self.old.present) × (self.new.earlier ≡ self.old.earlier)) }
        ensures durable { OnOk result (IsDurable (told self.new) (IsLeft self.new)) }
        ensures held { told self.new ≡ told self.old }
        ensures syncs { Syncs told time_of IsLeft IsLeftSince self.old self.new }
        ensures call { (self.new.calls ≡ one_more self.old.calls) × (self.new.failing ≡ self.old.failing) }
        ensures fails { IsErr result ↔ Contains self.old.failing self.new.calls }
        ensures ok { OnOk result (self.new.faults ≡ self.old.faults) }
        ensures err { OnErr result (self.new.faults ≡ one_more self.old.faults) }
        ensures never_fell { self.old.faults ≤ self.new.faults }
        ensures in_range { self.new.faults < 2 ^ 64 }
    {
        self.count_call()?;
        if self.is_pending {
            self.events.push(Event::Sync).unwrap();
            self.is_pending = false;
        }
        Ok(())
    }

    fn take(&mut self) -> MemDisk {
        let left = MemDisk::empty(self.alloc);
        mem::replace(self, left)
    }

    ghost held_is_image = { λ s bytes is. told_is_left s bytes is };

    ghost image_counts = { λ s time image le left. inl (le, left) };

    ghost later_counts = { λ s time later image le left. since_earlier (moments s) time later image le left };

    ghost now_alone = { λ s image left. since_now s image left };
}
