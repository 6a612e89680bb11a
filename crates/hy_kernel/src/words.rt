//! Masks in words of 64 bits. Bit i stands in word i / 64, the least bit first.

ghost use Rattle.std.specs.Prelude.{◌≡◌, ◌+◌, ◌-◌, ◌*◌, ◌^◌, ◌≤◌, ◌<◌, ◌&&◌, ◌||◌, ◌==◌, ◌++◌};
ghost use Rattle.std.specs.Prelude.{ℕ, length, map, filter, not as negated, nat_lt, slice_index_or, vec_len, vec_capacity};
ghost use Rattle.std.specs.Prelude.{true, false, FitsSigned, IfOk, IfSome, IfNone};
ghost use Rattle.std.specs.Int.{w64, bit_at};
ghost use Rattle.std.specs.List.{All, range_with_len};
ghost use lib.Lanes.{mask_l};
ghost use Rattle.hy_kernel.specs.Bits.{is_bit, is_kept, places_of_word, places_kept, values_at, compares, IsLowest, Lies};

use hy_value::Cmp;
use std::alloc::{AllocError, Global};
use std::simd::prelude::*;

/// 16 numbers as the lanes of a vector. Each is read by itself, which shows that it lies in its type's range.
fn lanes_of(values: &[i64]) -> [i64; 16]
    requires { length values.now ≡ 16 }
    ensures same { result ≡ values.now }
    ensures fit { All (FitsSigned w64) result }
{
    let mut lanes = [0; 16];
    for i in 0..16 {
        lanes[i] = values[i];
    }
    lanes
}

/// One bit for each of 16 numbers, which are compared at once: whether the comparison holds.
fn pack_16(values: &[i64], op: Cmp, right: i64) -> u64
    requires { length values.now ≡ 16 }
    ensures { result ≡ mask_l (map (compares op right) values.now) }
{
    let left = i64x16::from_array(lanes_of(values));
    let right = i64x16::splat(right);
    match op {
        Cmp::Eq => left.simd_eq(right).to_bitmask(),
        Cmp::Ne => left.simd_ne(right).to_bitmask(),
        Cmp::Lt => left.simd_lt(right).to_bitmask(),
        Cmp::Le => left.simd_le(right).to_bitmask(),
        Cmp::Gt => left.simd_gt(right).to_bitmask(),
        Cmp::Ge => left.simd_ge(right).to_bitmask(),
    }
}

/// One bit for each of the 64 numbers of a whole word, 16 at a time: whether the comparison holds.
fn pack_64(values: &[i64], op: Cmp, right: i64) -> u64
    requires { length values.now ≡ 64 }
    ensures { result ≡ mask_l (map (compares op right) values.now) }
{
    let mut word = 0u64;
    for i in (0..4).rev() {
        word = word * 65536 + pack_16(&values[16 * i..16 * i + 16], op, right);
    }
    word
}

/// One bit for each of at most 64 numbers, one after the other: whether the comparison holds.
fn pack_few(values: &[i64], op: Cmp, right: i64) -> u64
    requires { length values.now ≤ 64 }
    ensures { result ≡ mask_l (map (compares op right) values.now) }
{
    let mut word = 0u64;
    for i in (0..values.len()).rev() {
        word = word * 2 + u64::from(op.holds(values[i].cmp(&right)));
    }
    word
}

/// One bit for each of at most 64 numbers: whether the comparison holds.
fn pack(values: &[i64], op: Cmp, right: i64) -> u64
    requires { length values.now ≤ 64 }
    ensures { result ≡ mask_l (map (compares op right) values.now) }
{
    if values.len() == 64 {
        pack_64(values, op, right)
    } else {
        pack_few(values, op, right)
    }
}

/// Compares each number of a column with another: bit i says whether the comparison holds of number i. No bit
/// behind the last number is set.
pub fn compare(values: &[i64], op: Cmp, right: i64, into: &mut [u64])
    requires { length values.now ≤ 64 * length into.old }
    ensures { (i : ℕ) → is_bit into.new i ≡ slice_index_or (map (compares op right) values.now) i false }
{
    let mut rest = values;
    for k in 0..into.len() {
        let (now, later) = rest.split_at(rest.len().min(64));
        into[k] = pack(now, op, right);
        rest = later;
    }
}

/// Keeps the bits that are set in another mask too.
pub fn and(into: &mut [u64], other: &[u64])
    requires { length other.now ≡ length into.old }
    ensures { (i : ℕ) → is_bit into.new i ≡ (is_bit into.old i && is_bit other.now i) }
{
    for k in 0..into.len() {
        into[k] &= other[k];
    }
}

/// Clears the bits that are set in another mask.
pub fn and_not(into: &mut [u64], other: &[u64])
    requires { length other.now ≡ length into.old }
    ensures { (i : ℕ) → is_bit into.new i ≡ (is_bit into.old i && negated (is_bit other.now i)) }
{
    for k in 0..into.len() {
        into[k] &= !other[k];
    }
}

/// Sets the bits that are set in another mask.
pub fn or(into: &mut [u64], other: &[u64])
    requires { length other.now ≡ length into.old }
    ensures { (i : ℕ) → is_bit into.new i ≡ (is_bit into.old i || is_bit other.now i) }
{
    for k in 0..into.len() {
        into[k] |= other[k];
    }
}

/// So many ones, from the least bit on.
fn low_ones(bits: usize) -> u64
    requires { bits ≤ 64 }
    ensures { result ≡ 2 ^ bits - 1 }
{
    if bits == 64 {
        u64::MAX
    } else {
        (1 << bits) - 1
    }
}

/// Turns the first bits of a mask about, and clears those behind them.
pub fn not(into: &mut [u64], bits: usize)
    requires { bits ≤ 64 * length into.old }
    ensures { (i : ℕ) → is_bit into.new i ≡ (nat_lt i bits && negated (is_bit into.old i)) }
{
    let mut left = bits;
    for k in 0..into.len() {
        let now = left.min(64);
        into[k] = !into[k] & low_ones(now);
        left -= now;
    }
}

/// The lowest bit of a word that is set, of those from one on.
fn lowest_from(word: u64, from: usize) -> Option<usize>
    requires { from ≤ 64 }
    ensures found { IfSome result (IsLowest word from) }
    ensures none { IfNone result ((i : ℕ) → from ≤ i → i < 64 → bit_at word i ≡ 0) }
{
    let rest = word & !low_ones(from);
    if rest == 0 {
        None
    } else {
        Some(rest.trailing_zeros() as usize)
    }
}

/// The bits of a word from one up to, and without, another. The rest are clear.
fn between(word: u64, from: usize, to: usize) -> u64
    requires from { from ≤ 64 }
    requires to { to ≤ 64 }
    ensures { (i : ℕ) → i < 64 → (bit_at result i == 1) ≡ ((negated (nat_lt i from) && nat_lt i to) && (bit_at word i == 1)) }
{
    word & low_ones(to) & !low_ones(from)
}

/// Adds the places of a word's bits that are set, ascending, where its lowest bit has a place.
fn push_set(word: u64, first: u32, found: &mut Vec<u32>)
    requires room { vec_len found.old + 64 ≤ vec_capacity found.old }
    requires numbered { first + 64 ≤ 2 ^ 32 }
    ensures found { found.new.items ≡ found.old.items ++ places_of_word word first }
    ensures few { vec_len found.new ≤ vec_len found.old + 64 }
    ensures room { vec_capacity found.new ≡ vec_capacity found.old }
{
    let mut rest = word;
    while rest != 0 {
        let bit = rest.trailing_zeros();
        found.push_reserved(first + bit);
        rest &= rest - 1;
    }
}

/// Adds the numbers at the places of a word's bits that are set, ascending, where its lowest bit has a place.
fn push_picked(word: u64, values: &[i64], first: usize, found: &mut Vec<i64>)
    requires room { vec_len found.old + 64 ≤ vec_capacity found.old }
    requires numbered { first + 64 ≤ 2 ^ 32 }
    requires within { All (λ place. place < length values.now) (places_of_word word first) }
    ensures found { found.new.items ≡ found.old.items ++ values_at values.now (places_of_word word first) }
    ensures few { vec_len found.new ≤ vec_len found.old + 64 }
    ensures room { vec_capacity found.new ≡ vec_capacity found.old }
{
    let mut rest = word;
    while rest != 0 {
        let bit = rest.trailing_zeros() as usize;
        found.push_reserved(values[first + bit]);
        rest &= rest - 1;
    }
}

/// Of the bits of one word those that are set and not in another mask, from a place up to, and without, another.
fn word_without(words: &[u64], others: &[u64], k: usize, first: usize, end: usize) -> u64
    requires many { length others.now ≡ length words.now }
    requires word { k < length words.now }
    requires reached { first ≤ 64 * k + 64 }
    requires begun { 64 * k < end }
    ensures { places_of_word result (64 * k) ≡ filter (is_kept words.now others.now first end) (range_with_len (64 * k) 64) }
{
    let from = first.saturating_sub(64 * k);
    between(words[k] & !others[k], from, (end - 64 * k).min(64))
}

/// How many words have so many bits, the last of them perhaps not whole.
fn words_with(bits: usize) -> usize
    requires { bits < 2 ^ 32 }
    ensures all { bits ≤ 64 * result }
    ensures few { 64 * result < bits + 64 }
{
    (bits + 63) / 64
}

/// The places from one up to, and without, another, whose bit is set in a mask and not in another one, ascending. Err is for
/// want of memory.
pub fn places_without(
    words: &[u64],
    others: &[u64],
    alloc: Global,
    first: usize,
    end: usize,
) -> Result<Vec<u32>, AllocError>
    requires many { length others.now ≡ length words.now }
    requires within { end ≤ 64 * length words.now }
    requires numbered { end < 2 ^ 32 }
    ensures { IfOk result (λ found. found.items ≡ places_kept words.now others.now first end) }
{
    let begin = first / 64;
    let last = words_with(end);
    let mut found = Vec::with_capacity(alloc, 64 * last.saturating_sub(begin))?;
    for k in begin..last {
        let word = word_without(words, others, k, first, end);
        push_set(word, (64 * k) as u32, &mut found);
    }
    Ok(found)
}

/// The numbers at the places from one up to, and without, another, whose bit is set in a mask and not in another one,
/// ascending by place. Err is for want of memory.
pub fn pick_without(
    words: &[u64],
    others: &[u64],
    alloc: Global,
    values: &[i64],
    first: usize,
    end: usize,
) -> Result<Vec<i64>, AllocError>
    requires many { length others.now ≡ length words.now }
    requires within { end ≤ 64 * length words.now }
    requires numbered { end < 2 ^ 32 }
    requires places { All (λ place. place < length values.now) (places_kept words.now others.now first end) }
    ensures { IfOk result (λ found. found.items ≡ values_at values.now (places_kept words.now others.now first end)) }
{
    let begin = first / 64;
    let last = words_with(end);
    let mut found = Vec::with_capacity(alloc, 64 * last.saturating_sub(begin))?;
    for k in begin..last {
        let word = word_without(words, others, k, first, end);
        push_picked(word, values, 64 * k, &mut found);
    }
    Ok(found)
}

/// The first bit from one on that is set, or how many bits there are.
pub fn next(words: &[u64], bits: usize, from: usize) -> usize
    requires lies { Lies bits words.now }
    requires within { from ≤ bits }
    ensures reached { from ≤ result }
    ensures within { result ≤ bits }
    ensures passed { (i : ℕ) → from ≤ i → i < result → is_bit words.now i ≡ false }
    ensures set { result < bits → is_bit words.now result ≡ true }
{
    let mut skipped = from % 64;
    for k in from / 64..words.len() {
        if let Some(bit) = lowest_from(words[k], skipped) {
            return 64 * k + bit;
        }
        skipped = 0;
    }
    bits
}
