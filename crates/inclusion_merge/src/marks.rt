// Sets of values that are told by a mark of their bytes.
ghost use Rattle.std.specs.Prelude.{◌≡◌, ◌<◌, true, IfOk, vec_len};
ghost use Rattle.col_set.specs.Lists.{Listed};
ghost use Rattle.rel_base.specs.Cells.{Cell};
ghost use Rattle.inclusion_merge.specs.declared.marks.TheConstants.{MARK_PARTS};
ghost use Rattle.inclusion_merge.specs.Mark.{mark_of, number_of};

use crate::wide_set::{has_wide, insert_wide, parts_of};
use rel_base::{ColSet, MOST_COLUMNS, Row};
use std::alloc::{AllocError, Global};

// How many parts a set of marks has: 32 KiB, so that looking a mark up seldom leaves a processor's first cache.
const MARK_PARTS: usize = 2_048;

/// How many marks there are: those that the parts have room for.
pub(crate) const MARKS: usize = 262_144;

// How many bytes a number has.
const NUMBER: usize = 8;

// The golden ratio's digits: the first bits of a product by it hang on all bits of the other factor.
const MIX: u64 = 0x9E37_79B9_7F4A_7C15;

// What a number is divided by to leave its first bits, which are a mark.
const PER_MARK: u64 = 0x4000_0000_0000;

/// A set of values by their marks: a value is in it or not by its bytes alone, the same in each column. Few values share a mark, so a set that was
/// made of few values has few others.
#[derive(Drop)]
pub(crate) struct Marks {
    parts: Vec<ColSet>,
    ghost room: { vec_len parts ≡ MARK_PARTS },
}

impl Marks {
    ghost use Rattle.inclusion_merge.specs.Marks.{is_marked};

    /// A set that has no value.
    pub(crate) fn none(alloc: Global) -> Result<Marks, AllocError> {
        Ok(Marks {
            parts: parts_of(alloc, ColSet::empty(), MARK_PARTS)?,
        })
    }

    /// A set that has every value.
    pub(crate) fn all(alloc: Global) -> Result<Marks, AllocError>
        ensures { IfOk result (λ marks. (a : Cell) → is_marked marks a ≡ true) }
    {
        Ok(Marks {
            parts: parts_of(alloc, ColSet::all(MOST_COLUMNS), MARK_PARTS)?,
        })
    }

    /// Whether a value is in the set.
    pub(crate) fn has(&self, bytes: &[u8]) -> bool
        ensures { result ≡ is_marked self.now bytes.now }
    {
        has_wide(&self.parts, mark_of(bytes))
    }

    /// Whether all cells of a column are in the set.
    pub(crate) fn has_all(&self, column: &Row) -> bool
        ensures { result ≡ true → (a : Cell) → Listed a column.now → is_marked self.now a ≡ true }
    {
        for place in 0..column.len() {
            if !self.has(column.cell(place)) {
                return false;
            }
        }
        true
    }

    /// Adds a value, and with it those that share its mark.
    pub(crate) fn insert(&mut self, bytes: &[u8])
        ensures grows { (a : Cell) → is_marked self.old a ≡ true → is_marked self.new a ≡ true }
        ensures has { is_marked self.new bytes.now ≡ true }
    {
        insert_wide(&mut self.parts, mark_of(bytes));
    }

    /// Adds the cells of a column.
    pub(crate) fn insert_cells(&mut self, column: &Row)
        ensures grows { (a : Cell) → is_marked self.old a ≡ true → is_marked self.new a ≡ true }
        ensures each { (a : Cell) → Listed a column.now → is_marked self.new a ≡ true }
    {
        for place in 0..column.len() {
            self.insert(column.cell(place));
        }
    }
}

// A number that the bytes determine, of the first eight and the last eight at most. It is cheap beside a comparison of two values.
fn mark_of(bytes: &[u8]) -> usize
    ensures value { result ≡ mark_of bytes.now }
    ensures below { result < MARKS }
{
    let (first, rest) = bytes.split_at(bytes.len().min(NUMBER));
    let last = &rest[rest.len().saturating_sub(NUMBER)..];
    let mixed = number_of(first)
        .wrapping_mul(MIX)
        .wrapping_add(number_of(last))
        .wrapping_mul(MIX);
    (mixed / PER_MARK) as usize
}

fn number_of(bytes: &[u8]) -> u64
    ensures { result ≡ number_of bytes.now }
{
    bytes.iter().fold(0u64, |number, byte| {
        number.wrapping_mul(256).wrapping_add(u64::from(*byte))
    })
}
