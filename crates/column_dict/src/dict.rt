// Codes for cells, and the cells by their codes: what is known stands in a map, what was coded lately is guessed first.
ghost use Rattle.std.specs.Prelude.{◌≡◌, ◌<◌, [], None, Some, true, false, IfOk, IfSome, OnOk, OnErr, length, slice_get, take};
ghost use Rattle.column_dict.specs.Coding.{IsCoding, IsCodeOf, coded, is_new};

use crate::recent::{Recent, mark_of};
use crate::table::{
    Known, add_fresh, add_known, code_in, entries_left, is_fresh, is_known_as, known_code,
};
use crate::text::Text;
use rel_base::{Cell, Nulls};
use std::alloc::{AllocError, Global};
use std::hash::BuildHasherDefault;
use std::marker::Model;

/// The codes of a column's cells, counted from 0 by first sight.
///
/// Two codes are equal exactly where their cells are, but that under `Nulls::Distinct` each NULL coded has a code of its own.
/// A new cell is copied: one of at most 14 bytes into the table itself, a longer one beside it.
/// A code costs about 45 bytes, a longer cell its bytes and some 50, a fresh NULL 4, what is kept to guess by at most 256 KB, and
/// the block that long cells are looked up in at most twice the bytes of the longest one.
#[derive(Drop)]
pub struct Dict {
    known: Known,
    places: Vec<u32>,
    null: Text,
    scratch: Text,
    recent: Recent,
    alloc: Global,
    nulls: Nulls,
}

impl Model for Dict {
    ghost use Rattle.std.specs.Prelude.{◌≡◌, []};
    ghost use Rattle.std.specs.Map.{keys_of};
    ghost use Rattle.column_dict.specs.Coding.{Coding};
    ghost use Rattle.column_dict.specs.Layout.{cells_at, IsLaid};

    ghost Value = { Coding };

    ghost view = { λ d. record { nulls = d.nulls; cells = cells_at (keys_of d.known.entries) d.places.items } };

    ghost invariant = { λ d. (d.null ≡ []) × IsLaid d.nulls d.known.entries d.places.items };
}

impl Dict {
    ghost use Rattle.rel_base.specs.declared.nulls.Nulls.TheVariants.{Equal};

    /// No cells, and NULL equal to NULL.
    pub fn new(alloc: Global) -> Dict
        ensures { result ≡ record { nulls = Equal; cells = [] } }
    {
        Dict::with_nulls(alloc, Nulls::Equal)
    }

    /// No cells, for this reading of NULL.
    pub fn with_nulls(alloc: Global, nulls: Nulls) -> Dict
        ensures { result ≡ record { nulls = nulls; cells = [] } }
    {
        Dict {
            known: Known::with_hasher(alloc, BuildHasherDefault::new()),
            places: Vec::new(alloc),
            null: Text::null(),
            scratch: Text::null(),
            recent: Recent::new(alloc),
            alloc,
            nulls,
        }
    }

    /// The code of a cell.
    ///
    /// A new cell is copied. A known one takes memory only where it is longer than 14 bytes and than each one looked up before.
    /// After want of memory the dictionary is as before.
    pub fn code(&mut self, cell: &Cell) -> Result<u32, AllocError>
        requires { length self.old.cells < u32.MAX }
        ensures cell { IfOk result (λ code. slice_get self.new.cells code ≡ Some cell.now) }
        ensures cells { OnOk result (self.new ≡ coded self.old cell.now) }
        ensures last { IfOk result (λ code. is_new self.old cell.now ≡ true → code ≡ length self.old.cells) }
        ensures agrees { IfOk result (λ code. IsCodeOf self.old cell.now code) }
        ensures refused { OnErr result (self.new ≡ self.old) }
    {
        self.looked_up(cell.bytes())
    }

    /// The code of the cell of these bytes. It does what `code` does, and is quicker where the cell was coded lately: that is found
    /// by a guess that is then compared.
    pub fn code_of(&mut self, bytes: &[u8]) -> Result<u32, AllocError>
        requires { length self.old.cells < u32.MAX }
        ensures cell { IfOk result (λ code. slice_get self.new.cells code ≡ Some bytes.now) }
        ensures cells { OnOk result (self.new ≡ coded self.old bytes.now) }
        ensures last { IfOk result (λ code. is_new self.old bytes.now ≡ true → code ≡ length self.old.cells) }
        ensures agrees { IfOk result (λ code. IsCodeOf self.old bytes.now code) }
        ensures refused { OnErr result (self.new ≡ self.old) }
    {
        let mark = mark_of(bytes);
        if let Some(code) = self.guessed(mark, bytes) {
            return Ok(code);
        }
        let code = self.looked_up(bytes)?;
        self.note(mark, code);
        Ok(code)
    }

    // The code of these bytes, where it is the one that is guessed.
    fn guessed(&self, mark: u64, bytes: &[u8]) -> Option<u32>
        ensures old { IfSome result (λ code. is_new self.now bytes.now ≡ false) }
        ensures cell { IfSome result (λ code. slice_get self.now.cells code ≡ Some bytes.now) }
        ensures agrees { IfSome result (λ code. IsCodeOf self.now bytes.now code) }
    {
        let code = self.recent.guess(mark)?;
        if code < self.len() && is_known_as(self.nulls, self.cell(code), bytes) {
            Some(code)
        } else {
            None
        }
    }

    // Notes a code, to be guessed.
    fn note(&mut self, mark: u64, code: u32)
        ensures { self.new ≡ self.old }
    {
        self.recent.note(self.alloc, mark, code, self.places.len());
    }

    // The code of the cell of these bytes, looked up.
    fn looked_up(&mut self, bytes: &[u8]) -> Result<u32, AllocError>
        requires { length self.old.cells < u32.MAX }
        ensures cell { IfOk result (λ code. slice_get self.new.cells code ≡ Some bytes.now) }
        ensures cells { OnOk result (self.new ≡ coded self.old bytes.now) }
        ensures last { IfOk result (λ code. is_new self.old bytes.now ≡ true → code ≡ length self.old.cells) }
        ensures agrees { IfOk result (λ code. IsCodeOf self.old bytes.now code) }
        ensures refused { OnErr result (self.new ≡ self.old) }
    {
        if is_fresh(self.nulls, bytes) {
            return add_fresh(&mut self.places);
        }
        if let Some(code) = code_in(&self.known, &mut self.scratch, self.alloc, bytes)? {
            return Ok(code);
        }
        let cell = Text::copied(self.alloc, bytes)?;
        add_known(&mut self.known, &mut self.places, cell)
    }

    /// The cell of a code.
    pub fn cell(&self, code: u32) -> &Text
        requires { code < length self.now.cells }
        ensures { slice_get self.now.cells code ≡ Some result.now }
    {
        match self.known.get_index(self.places[code as usize] as usize) {
            Some((cell, _)) => cell,
            None => &self.null,
        }
    }

    /// The code of a cell, maybe one of another dictionary, where a code is known that each such cell gets. Under `Nulls::Distinct` that
    /// is never so of NULL. It takes one look-up, and no memory.
    pub fn find(&self, cell: &Text) -> Option<u32>
        ensures old { IfSome result (λ code. is_new self.now cell.now ≡ false) }
        ensures cell { IfSome result (λ code. slice_get self.now.cells code ≡ Some cell.now) }
        ensures agrees { IfSome result (λ code. IsCodeOf self.now cell.now code) }
        ensures lacking { result ≡ None → is_new self.now cell.now ≡ true }
    {
        known_code(&self.known, cell)
    }

    /// How many codes there are: they are the numbers below it.
    pub fn len(&self) -> u32
        ensures len { result ≡ length self.now.cells }
        ensures coding { IsCoding self.now }
    {
        // `len` is called for its clause that no cell stands twice.
        let _cells = self.known.len();
        self.places.len() as u32
    }

    /// Makes room for so many cells to come, nearly all of them new, so that the map is not laid out anew again and again as they come.
    /// Where memory is wanting there is less room. Until `expect_known` no code is guessed.
    pub fn expect(&mut self, cells: usize)
        ensures { self.new ≡ self.old }
    {
        self.recent.rest(self.alloc);
        if self.known.reserve(cells).is_ok() {
            let _ = self.places.reserve(cells);
        }
    }

    /// Looks for each cell to come among those coded lately again.
    pub fn expect_known(&mut self)
        ensures { self.new ≡ self.old }
    {
        self.recent.wake();
    }

    /// Drops the codes from n on, as if their cells had not been seen. It takes a step a code dropped, and no memory.
    pub fn keep(&mut self, n: u32)
        ensures { self.new ≡ record { nulls = self.old.nulls; cells = take n self.old.cells } }
    {
        let n = n as usize;
        if n < self.places.len() {
            let left = entries_left(&self.known, &self.places[n..]);
            self.known.truncate(left);
            self.places.truncate(n);
        }
    }
}
