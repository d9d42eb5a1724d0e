//! The agree set of two rows of codes.
#![tactic(auto)]

ghost use Rattle.std.specs.Prelude.{◌≡◌, ◌+◌, ◌*◌, ◌%◌, ◌^◌, ◌<◌, ◌≤◌, ◌↔◌, ℕ, true, length, slice_index, take};
ghost use Rattle.std.specs.Simd.Lanes.{chunk};
ghost use Rattle.col_set.specs.ColSet.{has};
ghost use Rattle.agree_sets.specs.Agreement.{agree_set, agreement_bits};

use rel_base::{ColSet, MOST_COLUMNS};
use std::simd::prelude::*;

#[cfg(test)]
mod tests;

/// How many codes are compared at once.
pub const LANES: usize = 16;

/// How many of the codes that are left over are compared at once.
const FEW_LANES: usize = 4;

/// The bits of so many blocks fill one word.
const WORD_BLOCKS: usize = 4;

/// The places at which two rows of codes are equal, as a set of columns: the columns in which the rows agree where each
/// column's codes are equal exactly where its cells agree.
///
/// It takes no memory. Sixteen codes are compared at once, those after the last whole sixteen four at once, and the last three at most
/// one by one.
pub fn agree_codes(a: &[u32], b: &[u32]) -> ColSet
    requires same { length a.now ≡ length b.now }
    requires few { length a.now ≤ MOST_COLUMNS }
    ensures set { result ≡ agree_set a.now b.now }
    ensures each { (k : ℕ) → (has result k ≡ true) ↔ ((k < length a.now) × (slice_index a.now k ≡ slice_index b.now k)) }
{
    ColSet::of_bits(agreement(a, b))
}

/// What `agree_codes` answers, of two rows that have a whole number of blocks of `LANES` codes.
///
/// It takes no memory, and a step for each block: nothing is left over behind the blocks. It is for a caller that compares the same rows
/// many times, and fills them up with codes that agree nowhere.
#[inline(always)]
pub fn agree_blocks(a: &[u32], b: &[u32]) -> ColSet
    requires same { length a.now ≡ length b.now }
    requires few { length a.now ≤ MOST_COLUMNS }
    requires whole { length a.now % LANES ≡ 0 }
    ensures { result ≡ agree_set a.now b.now }
{
    ColSet::of_bits(whole_blocks(a, b, a.len() / LANES))
}

// What the rows agree on in so many whole blocks, as bits.
#[inline(always)]
fn whole_blocks(a: &[u32], b: &[u32], blocks: usize) -> u128
    requires same { length a.now ≡ length b.now }
    requires within { LANES * blocks ≤ length a.now }
    requires few { length a.now ≤ MOST_COLUMNS }
    ensures { result ≡ agreement_bits (take (LANES * blocks) a.now) (take (LANES * blocks) b.now) }
{
    let first = blocks.min(WORD_BLOCKS);
    let mut bits = first_blocks(a, b, first) as u128;
    for k in first..blocks {
        bits = joined(bits, LANES * k, block(a, b, LANES * k), LANES);
    }
    bits
}

// What the rows agree on in the first blocks, as bits of one word: shifts in a word are cheaper than those in two.
#[inline(always)]
fn first_blocks(a: &[u32], b: &[u32], blocks: usize) -> u64
    requires same { length a.now ≡ length b.now }
    requires within { LANES * blocks ≤ length a.now }
    requires word { blocks ≤ WORD_BLOCKS }
    ensures { result ≡ agreement_bits (take (LANES * blocks) a.now) (take (LANES * blocks) b.now) }
{
    let mut bits = 0;
    for k in 0..blocks {
        bits = joined_in_word(bits, LANES * k, block(a, b, LANES * k));
    }
    bits
}

// What the bits of a word before place `at` become with those of one more block above them.
#[inline(always)]
fn joined_in_word(bits: u64, at: usize, more: u64) -> u64
    requires bits { bits < 2 ^ at }
    requires more { more < 2 ^ LANES }
    requires room { at + LANES ≤ 64 }
    ensures { result ≡ bits + 2 ^ at * more }
{
    bits + (more << at)
}

// The number whose bit k says whether the rows have the same code at place k.
fn agreement(a: &[u32], b: &[u32]) -> u128
    requires same { length a.now ≡ length b.now }
    requires few { length a.now ≤ MOST_COLUMNS }
    ensures { result ≡ agreement_bits a.now b.now }
{
    let blocks = a.len() / LANES;
    let fours = a.len() / FEW_LANES;
    let mut bits = whole_blocks(a, b, blocks);
    'fours: for k in LANES / FEW_LANES * blocks..fours {
        bits = joined(bits, FEW_LANES * k, four(a, b, FEW_LANES * k), FEW_LANES);
    }
    'rest: for k in FEW_LANES * fours..a.len() {
        bits = joined(bits, k, (a[k] == b[k]) as u64, 1);
    }
    bits
}

// A bit for each of the 16 places from `at` on where the codes are equal.
#[inline(always)]
fn block(a: &[u32], b: &[u32], at: usize) -> u64
    requires first { at + 16 ≤ length a.now }
    requires second { at + 16 ≤ length b.now }
    ensures value { result ≡ agreement_bits (chunk at 16 a.now) (chunk at 16 b.now) }
    ensures bound { result < 2 ^ 16 }
{
    u32x16::from_slice(&a[at..])
        .simd_eq(u32x16::from_slice(&b[at..]))
        .to_bitmask()
}

// A bit for each of the 4 places from `at` on where the codes are equal.
fn four(a: &[u32], b: &[u32], at: usize) -> u64
    requires first { at + 4 ≤ length a.now }
    requires second { at + 4 ≤ length b.now }
    ensures value { result ≡ agreement_bits (chunk at 4 a.now) (chunk at 4 b.now) }
    ensures bound { result < 2 ^ 4 }
{
    u32x4::from_slice(&a[at..])
        .simd_eq(u32x4::from_slice(&b[at..]))
        .to_bitmask()
}

// What the bits before place `at` become with `more`, which has `width` bits, above them.
fn joined(bits: u128, at: usize, more: u64, width: usize) -> u128
    requires bits { bits < 2 ^ at }
    requires more { more < 2 ^ width }
    requires room { at + width ≤ MOST_COLUMNS }
    requires some { 1 ≤ width }
    ensures { result ≡ bits + 2 ^ at * more }
{
    bits + ((more as u128) << at)
}
