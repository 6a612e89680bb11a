//! Masks: one bit for each of some places.

ghost use Rattle.std.specs.Prelude.{◌≡◌, ◌≢◌, ℕ, ◌<◌, ◌≤◌, ◌^◌, ◌==◌, ◌&&◌, ◌||◌, length, map, not as negated};
ghost use Rattle.std.specs.Prelude.{true, false, IfOk, replicate, slice_index_or, slice_set};
ghost use Rattle.std.specs.List.{All};
ghost use lib.Lanes.{zip2};
ghost use Rattle.std.specs.Int.{bit_at};
ghost use Rattle.hy_kernel.specs.Bits.{compares, places_without, values_at};

use crate::words;
use hy_value::Cmp;
use std::alloc::{AllocError, Global};
use std::marker::Model;

/// A bit for each place, 64 in a word. Contracts see the list of the bits.
#[derive(Drop)]
pub struct Mask {
    words: Vec<u64>,
    bits: usize,
}

impl Model for Mask {
    ghost use Rattle.std.specs.Prelude.{List, Bool};
    ghost use Rattle.hy_kernel.specs.Bits.{bits_below, Lies};

    ghost Value = { List Bool };

    ghost view = { λ a. bits_below a.bits a.words.items };

    ghost invariant = { λ a. Lies a.bits a.words.items };
}

/// A word with another bit at a place.
fn with_bit(word: u64, place: usize, bit: bool) -> u64
    requires { place < 64 }
    ensures here { (bit_at result place == 1) ≡ bit }
    ensures others { (i : ℕ) → i < 64 → i ≢ place → bit_at result i ≡ bit_at word i }
{
    if bit {
        word | (1 << place)
    } else {
        word & !(1 << place)
    }
}

impl Mask {
    /// So many bits, none of them set. Err is for want of memory.
    pub fn new(alloc: Global, bits: usize) -> Result<Mask, AllocError>
        ensures { IfOk result (λ mask. mask ≡ replicate bits false) }
    {
        let words = vec![in alloc; 0u64; bits / 64 + 1]?;
        Ok(Mask { words, bits })
    }

    /// How many bits there are, set or not.
    pub fn len(&self) -> usize
        ensures { result ≡ length self.now }
    {
        self.bits
    }

    /// Whether the bit at a place is set.
    pub fn get(&self, place: usize) -> bool
        requires { place < length self.now }
        ensures { result ≡ slice_index_or self.now place false }
    {
        let words = self.words.as_slice();
        (words[place / 64] >> (place % 64)) & 1 == 1
    }

    /// Sets the bit at a place, or clears it.
    pub fn set(&mut self, place: usize, bit: bool)
        requires { place < length self.old }
        ensures { self.new ≡ slice_set self.old place bit }
    {
        let words = self.words.as_mut_slice();
        words[place / 64] = with_bit(words[place / 64], place % 64, bit);
    }

    /// The first place from one on whose bit is set, or how many bits there are: 64 bits at a time.
    pub fn next_set(&self, from: usize) -> usize
        requires { from ≤ length self.now }
        ensures reached { from ≤ result }
        ensures within { result ≤ length self.now }
        ensures passed { (place : ℕ) → from ≤ place → place < result → slice_index_or self.now place false ≡ false }
        ensures set { result < length self.now → slice_index_or self.now result false ≡ true }
    {
        words::next(self.words.as_slice(), self.bits, from)
    }

    /// The places from one up to, and without, another, whose bit is set here and not in another mask of as many, ascending:
    /// 64 bits at a time. Err is for want of memory.
    pub fn places_without(
        &self,
        other: &Mask,
        alloc: Global,
        first: usize,
        end: usize,
    ) -> Result<Vec<u32>, AllocError>
        requires many { length other.now ≡ length self.now }
        requires within { end ≤ length self.now }
        requires numbered { end < 2 ^ 32 }
        ensures { IfOk result (λ found. found.items ≡ places_without self.now other.now first end) }
    {
        words::places_without(
            self.words.as_slice(),
            other.words.as_slice(),
            alloc,
            first,
            end,
        )
    }

    /// The numbers at the places from one up to, and without, another, whose bit is set here and not in another mask of as
    /// many, ascending by place. Err is for want of memory.
    pub fn pick_without(
        &self,
        other: &Mask,
        alloc: Global,
        values: &[i64],
        first: usize,
        end: usize,
    ) -> Result<Vec<i64>, AllocError>
        requires many { length other.now ≡ length self.now }
        requires within { end ≤ length self.now }
        requires numbered { end < 2 ^ 32 }
        requires places { All (λ place. place < length values.now) (places_without self.now other.now first end) }
        ensures { IfOk result (λ found. found.items ≡ values_at values.now (places_without self.now other.now first end)) }
    {
        words::pick_without(
            self.words.as_slice(),
            other.words.as_slice(),
            alloc,
            values,
            first,
            end,
        )
    }

    /// Makes each bit say whether the comparison holds of the number at its place.
    pub fn compare(&mut self, values: &[i64], op: Cmp, right: i64)
        requires { length values.now ≡ length self.old }
        ensures { self.new ≡ map (compares op right) values.now }
    {
        words::compare(values, op, right, self.words.as_mut_slice());
    }

    /// Keeps the bits that are set in another mask of as many too.
    pub fn and_with(&mut self, other: &Mask)
        requires { length other.now ≡ length self.old }
        ensures { self.new ≡ zip2 (λ bit other. bit && other) self.old other.now }
    {
        words::and(self.words.as_mut_slice(), other.words.as_slice());
    }

    /// Clears the bits that are set in another mask of as many.
    pub fn and_without(&mut self, other: &Mask)
        requires { length other.now ≡ length self.old }
        ensures { self.new ≡ zip2 (λ bit other. bit && negated other) self.old other.now }
    {
        words::and_not(self.words.as_mut_slice(), other.words.as_slice());
    }

    /// Sets the bits that are set in another mask of as many.
    pub fn or_with(&mut self, other: &Mask)
        requires { length other.now ≡ length self.old }
        ensures { self.new ≡ zip2 (λ bit other. bit || other) self.old other.now }
    {
        words::or(self.words.as_mut_slice(), other.words.as_slice());
    }

    /// Turns every bit about.
    pub fn invert(&mut self)
        ensures { self.new ≡ map negated self.old }
    {
        let bits = self.bits;
        words::not(self.words.as_mut_slice(), bits);
    }
}
