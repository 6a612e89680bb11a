//! A source and a sink over bytes in memory, of which single calls can be made to fail.
ghost use Rattle.std.specs.Prelude.{◌≡◌, ℕ, ◌-◌, ◌^◌, ◌<◌, ◌≤◌, ◌↔◌, ◌++◌, ◌⊎◌, List, [], min, length, take, drop, Some, IsOk, IsErr};
ghost use Rattle.std.specs.Prelude.{IfOk, OnOk, OnErr, Contains};
ghost use Rattle.std.specs.Io.{ReadsAtMost};
ghost use Rattle.hy_outside.specs.Faults.{one_more};
ghost use Rattle.hy_outside.specs.Memory.{MemoryInput, MemoryOutput, IsFull};

use crate::pieces::copy_front;
use crate::{Failed, Sink, Source};
use std::alloc::{AllocError, Global};
use std::marker::Model;

/// A source of bytes in memory that never fails.
#[derive(Drop)]
pub struct CleanSource {
    bytes: Vec<u8>,
    taken: usize,
}

impl Model for CleanSource {
    ghost use Rattle.std.specs.Prelude.{ℕ, ◌≤◌, List, length, drop};

    ghost Value = { List ℕ };

    ghost view = { λ s. drop s.taken s.bytes.items };

    ghost invariant = { λ s. s.taken ≤ length s.bytes.items };
}

impl CleanSource {
    /// The source of these bytes.
    pub fn new(bytes: Vec<u8>) -> CleanSource
        ensures { result ≡ bytes.items }
    {
        CleanSource { bytes, taken: 0 }
    }

    /// Gives as many bytes as are left and have room, but `most` at most.
    fn give(&mut self, into: &mut [u8], most: usize) -> usize
        ensures given { self.old ≡ take result into.new ++ self.new }
        ensures kept { drop result into.new ≡ drop result into.old }
        ensures count { result ≡ min (min (length self.old) (length into.old)) most }
    {
        let left = &self.bytes[self.taken..];
        let count = left.len().min(into.len()).min(most);
        copy_front(into, &left[..count]);
        self.taken += count;
        count
    }
}

impl Source for CleanSource {
    ghost rest = { λ s. Some s };

    ghost faults = { λ _. 0 };

    fn read(&mut self, into: &mut [u8]) -> Result<usize, Failed>
        ensures ok { IsOk result }
        ensures bound { ReadsAtMost result into.new }
        ensures given { IfOk result (λ n. self.old ≡ take n into.new ++ self.new) }
        ensures kept { IfOk result (λ n. drop n into.new ≡ drop n into.old) }
        ensures count { IfOk result (λ n. n ≡ min (length self.old) (length into.old)) }
    {
        let room = into.len();
        Ok(self.give(into, room))
    }
}

/// A source of bytes in memory. It gives them in pieces, and some of its calls fail.
#[derive(Drop)]
pub struct MemSource {
    bytes: CleanSource,
    piece: usize,
    fails: Vec<u64>,
    calls: u64,
    faults: u64,
}

impl Model for MemSource {
    ghost use Rattle.std.specs.Prelude.{◌≤◌};
    ghost use Rattle.hy_outside.specs.Memory.{MemoryInput};

    ghost Value = { MemoryInput };

    ghost view = { λ s. record { left = s.bytes; piece = s.piece; failing = s.fails.items; calls = s.calls; faults = s.faults } };

    ghost invariant = { λ s. 1 ≤ s.piece };
}

impl MemSource {
    /// The source of these bytes. Each call gives `piece` of them at most. The calls whose numbers,
    /// counted from 1, stand in `fails` fail.
    pub fn new(bytes: Vec<u8>, piece: usize, fails: Vec<u64>) -> MemSource
        requires { 1 ≤ piece }
        ensures { result ≡ record { left = bytes.items; piece = piece; failing = fails.items; calls = 0; faults = 0 } }
    {
        MemSource {
            bytes: CleanSource::new(bytes),
            piece,
            fails,
            calls: 0,
            faults: 0,
        }
    }
}

impl Source for MemSource {
    ghost rest = { λ s. Some s.left };

    ghost faults = { λ s. s.faults };

    fn read(&mut self, into: &mut [u8]) -> Result<usize, Failed>
        ensures bound { ReadsAtMost result into.new }
        ensures given { IfOk result (λ n. self.old.left ≡ take n into.new ++ self.new.left) }
        ensures kept { IfOk result (λ n. drop n into.new ≡ drop n into.old) }
        ensures end { IfOk result (λ n. n ≡ 0 → 0 < length into.old → self.old.left ≡ []) }
        ensures count { IfOk result (λ n. n ≡ min (min (length self.old.left) (length into.old)) self.old.piece) }
        ensures fails { IsErr result ↔ Contains self.old.failing self.new.calls }
        ensures call { self.new.calls ≡ one_more self.old.calls }
        ensures same { (self.new.piece ≡ self.old.piece) × (self.new.failing ≡ self.old.failing) }
        ensures ok { OnOk result (self.new.faults ≡ self.old.faults) }
        ensures err { OnErr result ((self.new.left ≡ self.old.left) × (self.new.faults ≡ one_more self.old.faults)) }
        ensures never_fell { self.old.faults ≤ self.new.faults }
        ensures in_range { self.new.faults < 2 ^ 64 }
    {
        self.calls = self.calls.saturating_add(1);
        if self.fails.contains(&self.calls) {
            self.faults = self.faults.saturating_add(1);
            return Err(Failed);
        }
        Ok(self.bytes.give(into, self.piece))
    }
}

/// A sink that keeps the bytes in memory, up to its room. Some of its calls fail.
#[derive(Drop)]
pub struct MemSink {
    bytes: Vec<u8>,
    room: usize,
    fails: Vec<u64>,
    calls: u64,
    faults: u64,
}

impl Model for MemSink {
    ghost use Rattle.std.specs.Prelude.{◌≤◌, length, vec_capacity};
    ghost use Rattle.hy_outside.specs.Memory.{MemoryOutput};

    ghost Value = { MemoryOutput };

    ghost view = { λ s. record { bytes = s.bytes.items; room = s.room; failing = s.fails.items; calls = s.calls; faults = s.faults } };

    ghost invariant = { λ s. (length s.bytes.items ≤ s.room) × (s.room ≤ vec_capacity s.bytes) };
}

impl MemSink {
    /// A sink with room for `room` bytes, for which it takes the memory at once. The calls whose
    /// numbers, counted from 1, stand in `fails` fail, and so does each call that finds no room
    /// left, whatever it is to write.
    pub fn new(alloc: Global, room: usize, fails: Vec<u64>) -> Result<MemSink, AllocError>
        ensures { IfOk result (λ s. s ≡ record { bytes = []; room = room; failing = fails.items; calls = 0; faults = 0 }) }
    {
        Ok(MemSink {
            bytes: Vec::with_capacity(alloc, room)?,
            room,
            fails,
            calls: 0,
            faults: 0,
        })
    }

    /// The bytes that were taken, in order.
    pub fn bytes(&self) -> &[u8]
        ensures { result.now ≡ self.now.bytes }
    {
        self.bytes.as_slice()
    }
}

impl Sink for MemSink {
    ghost written = { λ s. Some s.bytes };

    ghost faults = { λ s. s.faults };

    fn write(&mut self, from: &[u8]) -> Result<usize, Failed>
        ensures count { IfOk result (λ n. n ≡ min (length from.now) (self.old.room - length self.old.bytes)) }
        ensures taken { IfOk result (λ n. self.new.bytes ≡ self.old.bytes ++ take n from.now) }
        ensures fails { IsErr result ↔ (Contains self.old.failing self.new.calls ⊎ IsFull self.old) }
        ensures call { self.new.calls ≡ one_more self.old.calls }
        ensures same { (self.new.room ≡ self.old.room) × (self.new.failing ≡ self.old.failing) }
        ensures ok { OnOk result (self.new.faults ≡ self.old.faults) }
        ensures err { OnErr result ((self.new.bytes ≡ self.old.bytes) × (self.new.faults ≡ one_more self.old.faults)) }
        ensures never_fell { self.old.faults ≤ self.new.faults }
        ensures in_range { self.new.faults < 2 ^ 64 }
    {
        self.calls = self.calls.saturating_add(1);
        let left = self.room - self.bytes.len();
        if self.fails.contains(&self.calls) || left == 0 {
            self.faults = self.faults.saturating_add(1);
            return Err(Failed);
        }
        let count = left.min(from.len());
        self.bytes.extend_from_slice(&from[..count]).unwrap();
        Ok(count)
    }
}
