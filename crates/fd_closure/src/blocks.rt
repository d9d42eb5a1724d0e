// Left sides in blocks, by columns that all of a block have.
ghost use Rattle.std.specs.Prelude.{◌≡◌, ◌<◌, ◌≤◌, ◌-◌, ℕ, List, Some, length, slice_get, IfOk, IfSome, OnOk};
ghost use Rattle.col_set.specs.ColSet.{Columns, IsSubset, subset};
ghost use Rattle.fd_closure.specs.Blocks as words;
ghost use Rattle.fd_closure.specs.Blocks.{IsFiled, AreFiled, HaveCommon};

use crate::block::Block;
use rel_base::ColSet;
use set_tree::SetTree;
use std::alloc::{AllocError, Global};

// The most left sides of a block: a walk looks at all of a block, and a tree of large blocks is small.
const BLOCK_SIDES: usize = 32;

// The blocks of left sides in the order of their paths, under the first columns of their paths.
pub(crate) fn blocks_of(
    alloc: Global,
    sides: &[(ColSet, ColSet)],
) -> Result<SetTree<Block>, AllocError>
    ensures { IfOk result (λ blocks. AreFiled sides.now blocks (length sides.now)) }
{
    // Places are counted with 32 bits.
    if sides.len() > u32::MAX as usize {
        return Err(AllocError);
    }
    let mut blocks = SetTree::new(alloc);
    let mut start = 0;
    while start < sides.len() {
        let common = common_at(sides, start);
        let end = end_of(sides, start, common);
        put_block(&mut blocks, common, start as u32, end as u32)?;
        start = end;
    }
    Ok(blocks)
}

// The first columns of the left side at a place, up to the first that the one behind a block from there on lacks.
fn common_at(sides: &[(ColSet, ColSet)], start: usize) -> ColSet
    requires { start < length sides.now }
    ensures { (side : Columns × Columns) → slice_get sides.now start ≡ Some side → IsSubset result side.0 }
{
    if sides.len() - start <= BLOCK_SIDES {
        return ColSet::empty();
    }
    first_apart(sides[start].0, sides[start + BLOCK_SIDES].0)
}

// The columns of one set, ascending, up to the first that another lacks.
fn first_apart(one: ColSet, other: ColSet) -> ColSet
    ensures { IsSubset result one }
{
    let mut rest = one;
    while let Some(column) = rest.first() {
        rest = rest.without(column);
        if !other.has(column) {
            break;
        }
    }
    one.minus(rest)
}

// Where the left sides from a place on end that have these columns.
fn end_of(sides: &[(ColSet, ColSet)], start: usize, common: ColSet) -> usize
    requires place { start < length sides.now }
    requires common { (side : Columns × Columns) → slice_get sides.now start ≡ Some side → IsSubset common side.0 }
    ensures later { start < result }
    ensures bound { result ≤ length sides.now }
    ensures common { HaveCommon sides.now common start result }
{
    for end in start + 1..sides.len() {
        if !common.subset_of(sides[end].0) {
            return end;
        }
    }
    sides.len()
}

// Files the block of the left sides between these places under their common columns.
fn put_block(
    blocks: &mut SetTree<Block>,
    common: ColSet,
    start: u32,
    end: u32,
) -> Result<(), AllocError>
    ensures { OnOk result ((sides : List (Columns × Columns)) → AreFiled sides blocks.old start → HaveCommon sides common start end → AreFiled sides blocks.new end) }
{
    // No block before has the same columns where paths stand in order. One that had would go on over what stands between.
    let start = least_start(blocks.get(common), start);
    blocks.insert(common, Block { start, end })
}

// Where a block begins that begins at a place and has another block, if there is one.
fn least_start(known: Option<Block>, start: u32) -> u32
    ensures own { result ≤ start }
    ensures known { IfSome known (λ block. result ≤ block.start) }
{
    match known {
        Some(block) if block.start < start => block.start,
        _ => start,
    }
}

// What is reached with the columns beside those left sides of a block that lie inside x.
pub(crate) fn with_block(
    sides: &[(ColSet, ColSet)],
    block: Block,
    x: ColSet,
    reached: ColSet,
) -> ColSet
    ensures { result ≡ words.with_sides sides.now x block.start (block.end - block.start) reached }
{
    let mut reached = reached;
    for k in block.start..block.end {
        reached = with_side(sides, k as usize, x, reached);
    }
    reached
}

// What is reached with the columns beside the left side at a place, where there is one and it lies inside x.
fn with_side(sides: &[(ColSet, ColSet)], place: usize, x: ColSet, reached: ColSet) -> ColSet
    ensures { result ≡ words.with_side sides.now x place reached }
{
    let Some(side) = side_at(sides, place) else {
        return reached;
    };
    if !side.0.subset_of(x) {
        return reached;
    }
    reached.union(side.1)
}

// The left side at a place.
fn side_at(sides: &[(ColSet, ColSet)], place: usize) -> Option<(ColSet, ColSet)>
    ensures { result ≡ slice_get sides.now place }
{
    sides.get(place).copied()
}
