// The cells of a column, packed.
ghost use Rattle.std.specs.Prelude.{◌≡◌, ◌<◌, ◌≤◌, ◌+◌, ◌^◌, ◌==◌, ◌++◌, ◌∷◌, length, map, take, slice_range, slice_index_or, [], OnOk, OnErr};
ghost use Rattle.std.specs.List.{All};
ghost use Rattle.rel_base.specs.Packed as packed;

use crate::Row;
use crate::append::append;
use std::alloc::{AllocError, Global};
use std::marker::Model;

// So many bytes are packed at most: a place in them takes four bytes.
const MOST_PACKED: usize = u32::MAX as usize;

/// The cells of a column, one after another in one buffer beside the places where they end: the bytes, and four more a cell.
///
/// Contracts see the list of the cells.
#[derive(Drop)]
pub struct Cells {
    bytes: Vec<u8>,
    ends: Vec<u32>,
}

impl Model for Cells {
    ghost use Rattle.std.specs.Prelude.{List, ℕ};
    ghost use Rattle.rel_base.specs.Packed.{packed_cells, ArePacked};

    ghost Value = { List (List ℕ) };

    ghost view = { λ c. packed_cells c.bytes.items c.ends.items };

    ghost invariant = { λ c. ArePacked c.bytes.items c.ends.items };
}

impl Cells {
    /// No cells, which takes no memory.
    pub fn new(alloc: Global) -> Cells
        ensures { result ≡ [] }
    {
        Cells {
            bytes: Vec::new(alloc),
            ends: Vec::new(alloc),
        }
    }

    /// How many cells there are.
    pub fn len(&self) -> usize
        ensures { result ≡ length self.now }
    {
        self.ends.len()
    }

    /// Whether there are none.
    pub fn is_empty(&self) -> bool
        ensures { result ≡ (length self.now == 0) }
    {
        self.ends.is_empty()
    }

    /// How many bytes they have together.
    pub fn size(&self) -> usize {
        self.bytes.len()
    }

    /// The bytes of the cell at this place.
    pub fn get(&self, place: usize) -> &[u8]
        requires { place < length self.now }
        ensures { result.now ≡ slice_index_or self.now place [] }
    {
        let start = start_at(&self.ends, place);
        part(&self.bytes, start, self.ends[place] as usize)
    }

    /// Puts a copy of one more cell behind the others. Where memory is wanting they stay as they are; so they do where they would have
    /// 4 GiB together, which no file of a relation has.
    pub fn push(&mut self, cell: &[u8]) -> Result<(), AllocError>
        ensures pushed { OnOk result (self.new ≡ self.old ++ cell.now ∷ []) }
        ensures few { OnOk result (length self.new < 2 ^ 64) }
        ensures refused { OnErr result (self.new ≡ self.old) }
    {
        if cell.len() > MOST_PACKED - self.bytes.len() {
            return Err(AllocError);
        }
        self.ends.reserve(1)?;
        self.bytes.extend_from_slice(cell)?;
        append(&mut self.ends, self.bytes.len() as u32);
        Ok(())
    }

    /// Puts copies of a row's cells behind the others, all of them or none: where one is refused, as `push` says, those before it go too.
    pub fn push_row(&mut self, row: &Row) -> Result<(), AllocError>
        ensures pushed { OnOk result (self.new ≡ self.old ++ row.now) }
        ensures few { OnOk result (length self.new < 2 ^ 64) }
        ensures refused { OnErr result (self.new ≡ self.old) }
    {
        let count = self.len();
        for place in 0..row.len() {
            if let Err(refused) = self.push(row.cell(place)) {
                self.truncate(count);
                return Err(refused);
            }
        }
        Ok(())
    }

    /// Puts other cells behind these, all of them or none. Where there are none yet it takes over the others' memory; else it copies their
    /// bytes, at once, and where each ends. It is refused as `push` is.
    pub fn append(&mut self, others: Cells) -> Result<(), AllocError>
        ensures appended { OnOk result (self.new ≡ self.old ++ others) }
        ensures refused { OnErr result (self.new ≡ self.old) }
    {
        if self.is_empty() {
            *self = others;
            return Ok(());
        }
        let Cells { bytes, mut ends } = others;
        let start = self.bytes.len();
        if bytes.len() > MOST_PACKED - start {
            return Err(AllocError);
        }
        move_by(&mut ends, start as u32);
        let count = self.ends.len();
        self.ends.extend_from_slice(&ends)?;
        if let Err(refused) = self.bytes.extend_from_slice(&bytes) {
            self.ends.truncate(count);
            return Err(refused);
        }
        Ok(())
    }

    // Keeps so many cells, the first ones.
    fn truncate(&mut self, count: usize)
        requires { count ≤ length self.old }
        ensures { self.new ≡ take count self.old }
    {
        let size = start_at(&self.ends, count);
        self.bytes.truncate(size);
        self.ends.truncate(count);
    }
}

// Where the cell at a place starts, of cells that end at these places.
fn start_at(ends: &[u32], place: usize) -> usize
    requires { place ≤ length ends.now }
    ensures { result ≡ packed.start_at ends.now place }
{
    if place == 0 {
        0
    } else {
        ends[place - 1] as usize
    }
}

// The bytes from one place to another.
fn part(bytes: &[u8], start: usize, end: usize) -> &[u8]
    requires order { start ≤ end }
    requires within { end ≤ length bytes.now }
    ensures { result.now ≡ slice_range bytes.now start end }
{
    &bytes[start..end]
}

// Moves places so many bytes further.
fn move_by(ends: &mut [u32], start: u32)
    requires { All (λ end. start + end < 2 ^ 32) ends.old }
    ensures { ends.new ≡ map (λ end. start + end) ends.old }
{
    for end in ends.iter_mut() {
        *end += start;
    }
}
