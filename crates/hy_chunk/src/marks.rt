//! Marks: a bit for each of some places, of which the first one that is set is known.

ghost use Rattle.std.specs.Prelude.{◌≡◌, ◌<◌, ◌≤◌, ℕ, true, false, IfOk, length, replicate, slice_index_or, slice_set};

use crate::masks::all_set;
use hy_kernel::Mask;
use std::alloc::{AllocError, Global};
use std::marker::Model;

/// A bit for each place, and where the first one is that is set: so that it takes no search to see that none is. Contracts
/// see the list of the bits.
#[derive(Drop)]
pub struct Marks {
    bits: Mask,
    /// The first place whose bit is set, or how many places there are.
    first: usize,
}

impl Model for Marks {
    ghost use Rattle.std.specs.Prelude.{List, Bool};
    ghost use Rattle.hy_chunk.specs.Marks.{IsNextSet};

    ghost Value = { List Bool };

    ghost view = { λ a. a.bits };

    ghost invariant = { λ a. IsNextSet a.bits 0 a.first };
}

impl Marks {
    /// So many bits, none of them set. Err is for want of memory.
    pub fn none(alloc: Global, places: usize) -> Result<Marks, AllocError>
        ensures { IfOk result (λ marks. marks ≡ replicate places false) }
    {
        let bits = Mask::new(alloc, places)?;
        Ok(Marks {
            bits,
            first: places,
        })
    }

    /// So many bits, all of them set. Err is for want of memory.
    pub fn all(alloc: Global, places: usize) -> Result<Marks, AllocError>
        ensures { IfOk result (λ marks. marks ≡ replicate places true) }
    {
        let bits = all_set(alloc, places)?;
        Ok(Marks { bits, first: 0 })
    }

    /// The bits.
    pub fn bits(&self) -> &Mask
        ensures { result.now ≡ self.now }
    {
        &self.bits
    }

    /// Sets the bit at a place, or clears it.
    pub fn set(&mut self, place: usize, bit: bool)
        requires { place < length self.old }
        ensures { self.new ≡ slice_set self.old place bit }
    {
        self.bits.set(place, bit);
        if bit {
            self.first = self.first.min(place);
        } else if place == self.first {
            self.first = self.bits.next_set(place);
        }
    }

    /// The first place from one on whose bit is set, or how many places there are.
    pub fn next_set(&self, from: usize) -> usize
        requires { from ≤ length self.now }
        ensures reached { from ≤ result }
        ensures within { result ≤ length self.now }
        ensures passed { (place : ℕ) → from ≤ place → place < result → slice_index_or self.now place false ≡ false }
        ensures set { result < length self.now → slice_index_or self.now result false ≡ true }
    {
        if from <= self.first {
            self.first
        } else {
            self.bits.next_set(from)
        }
    }

    /// Whether no bit is set.
    pub fn is_blank(&self) -> bool
        ensures { result ≡ true → (place : ℕ) → place < length self.now → slice_index_or self.now place false ≡ false }
    {
        self.first == self.bits.len()
    }
}
