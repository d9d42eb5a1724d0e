// The bytes of one field.
ghost use Rattle.std.specs.Prelude.{◌≡◌, ◌∷◌, [], ℕ, List, Some, IfOk, IsTrue, ◌↔◌, nat_eq, refl};
ghost use Rattle.std.specs.Ordering.{nat_cmp};
ghost use Rattle.std.specs.Cmp.Lexicographic.{pointwise, slice_cmp, nat_list_eq_equiv, nat_list_cmp_total, texts_ties, texts_po};
ghost use Rattle.std.specs.Cmp.{partial_equiv_from_equiv};
ghost use Rattle.std.specs.Cmp.Rules.{hashing};
ghost use Rattle.std.proofs.Common.{rules};

use std::alloc::{AllocError, Global};
use std::cmp::Ordering;
use std::hash::{Hash, Hasher};
use std::marker::Model;

/// The bytes of one field. The empty cell is NULL. Contracts see the list of the bytes, and the order is byte order.
#[derive(Drop)]
pub struct Cell {
    bytes: Vec<u8>,
}

impl Model for Cell {
    ghost Value = { List ℕ };

    ghost view = { λ c. c.bytes.items };
}

impl Cell {
    /// The cell of these bytes, which takes no memory.
    pub fn of(bytes: Vec<u8>) -> Cell
        ensures { result ≡ bytes.items }
    {
        Cell { bytes }
    }

    /// A cell with a copy of these bytes.
    pub fn copied(alloc: Global, bytes: &[u8]) -> Result<Cell, AllocError>
        ensures { IfOk result (λ cell. cell ≡ bytes.now) }
    {
        Ok(Cell {
            bytes: Vec::from_slice(alloc, bytes)?,
        })
    }

    /// The bytes.
    pub fn bytes(&self) -> &[u8]
        ensures { result.now ≡ self.now }
    {
        self.bytes.as_slice()
    }

    /// The bytes back, which takes no memory.
    pub fn into_bytes(self) -> Vec<u8>
        ensures { result.items ≡ self }
    {
        self.bytes
    }

    /// Whether it is NULL.
    pub fn is_null(&self) -> bool
        ensures { IsTrue result ↔ (self.now ≡ []) }
    {
        self.bytes.is_empty()
    }
}

impl PartialEq for Cell {
    ghost eq = { pointwise nat_eq };

    ghost laws = { partial_equiv_from_equiv nat_list_eq_equiv };

    fn eq(&self, other: &Cell) -> bool {
        self.bytes() == other.bytes()
    }
}

impl Eq for Cell {
    ghost laws = { nat_list_eq_equiv };
}

impl PartialOrd for Cell {
    ghost partial_cmp = { λ x y. Some (slice_cmp nat_cmp x y) };

    ghost laws = { texts_po };

    fn partial_cmp(&self, other: &Cell) -> Option<Ordering> {
        Some(self.cmp(other))
    }
}

impl Ord for Cell {
    ghost cmp = { slice_cmp nat_cmp };

    ghost total = { nat_list_cmp_total };

    ghost matches_partial_cmp = { λ x y. refl };

    ghost matches_eq = { texts_ties };

    fn cmp(&self, other: &Cell) -> Ordering {
        self.bytes().cmp(other.bytes())
    }
}

// One write of all bytes, which hashers take faster than a write of the bytes and one of an end mark.
impl Hash for Cell {
    ghost hash_input = { λ c. c ∷ [] };

    ghost respects_eq = { Prim.search (hashing, rules) };

    fn hash<H: Hasher>(&self, state: &mut H) {
        state.write(self.bytes());
    }
}
