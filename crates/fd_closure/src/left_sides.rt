// Closures by an index of left sides.
ghost use Rattle.std.specs.Prelude.{◌≡◌, ◌-◌, ℕ, IfOk};
ghost use Rattle.col_set.specs.ColSet.{IsSubset, subset};
ghost use Rattle.rel_base.specs.declared.dependency.Fd as dependencies;
ghost use Rattle.std.specs.Prelude.{List};
ghost use Rattle.fd_closure.specs.Closure.{closure_of, Tells};
ghost use Rattle.fd_closure.specs.Blocks.{with_sides};
ghost use Rattle.fd_closure.specs.Keys.{shrunk};

use crate::block::Block;
use crate::blocks::{blocks_of, with_block};
use crate::sides::sides_of;
use rel_base::{ColSet, Covers, MOST_COLUMNS};
use set_tree::SetTree;
use std::alloc::{AllocError, Global};
use std::marker::Model;

/// The left sides of dependencies, each with all columns that it determines, for closures.
///
/// They stand in the order of their paths, over columns ascending, in blocks of a few whose paths begin alike, and a prefix tree has
/// the blocks under these first columns (compare the burst tries of Heinz, Zobel and Williams, 2002). A closure by it looks at the
/// blocks whose columns the set has, where the one over covers looks at the left sides of each column for itself: it serves where
/// many closures are asked of many dependencies. A left side takes 32 bytes, and a block 32 more. Contracts see the left sides with
/// the columns beside them.
#[derive(Drop)]
pub struct LeftSides {
    sides: Vec<(ColSet, ColSet)>,
    blocks: SetTree<Block>,
}

impl Model for LeftSides {
    ghost use Rattle.std.specs.Prelude.{List, length};
    ghost use Rattle.col_set.specs.ColSet.{Columns};
    ghost use Rattle.fd_closure.specs.Blocks.{AreFiled};

    ghost Value = { List (Columns × Columns) };

    ghost view = { λ s. s.sides.items };

    ghost invariant = { λ s. AreFiled s.sides.items s.blocks (length s.sides.items) };
}

impl LeftSides {
    /// The left sides of the covers. It sorts the dependencies, and takes two lists of them and the blocks.
    pub fn of(alloc: Global, covers: &Covers) -> Result<LeftSides, AllocError>
        ensures { IfOk result (λ sides. Tells covers.now.fds sides) }
    {
        let sides = sides_of(alloc, covers)?;
        let blocks = blocks_of(alloc, sides.as_slice())?;
        Ok(LeftSides { sides, blocks })
    }

    /// The columns that x determines: x, and each column beside a left side inside x. It takes no memory.
    pub fn closure(&self, x: ColSet) -> ColSet
        ensures own { IsSubset x result }
        ensures told { (fds : List dependencies.Fd) → Tells fds self.now → result ≡ closure_of fds x }
    {
        let sides = self.sides.as_slice();
        self.blocks.fold_subsets_of(
            x,
            x,
            |reached: ColSet, _common: ColSet, block: Block| -> ColSet
                ensures { result ≡ with_sides sides.entry.now x block.start (block.end - block.start) reached }
            { with_block(sides, block, x, reached) },
        )
    }

    /// Whether x determines every column of s. It takes no memory.
    pub fn determines(&self, x: ColSet, s: ColSet) -> bool
        ensures { (fds : List dependencies.Fd) → Tells fds self.now → result ≡ subset s (closure_of fds x) }
    {
        s.subset_of(self.closure(x))
    }

    /// The key of the table s: its columns are tried in descending order, and each is dropped where the rest still determines s.
    /// It takes a closure for each column of s, and no memory.
    pub fn shrink_key(&self, s: ColSet) -> ColSet
        ensures inside { IsSubset result s }
        ensures told { (fds : List dependencies.Fd) → Tells fds self.now → result ≡ shrunk (λ x. subset s (closure_of fds x)) MOST_COLUMNS s }
    {
        let mut key = s;
        for column in (0..MOST_COLUMNS).rev() {
            if key.has(column) && self.determines(key.without(column), s) {
                key = key.without(column);
            }
        }
        key
    }
}
