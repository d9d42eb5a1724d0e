// All pairs of live rows of which the later one is among few, compared by their codes.
ghost use Rattle.std.specs.Prelude.{◌≡◌, ◌<◌, ◌≤◌, ◌+◌, ◌∷◌, [], ℕ, true, OnOk, IfOk, length, slice_index};
ghost use Rattle.std.specs.List.{All};
ghost use Rattle.rel_base.specs.CodeTable.{live_at};
ghost use Rattle.rel_base.specs.Shows.{code_agree};
ghost use Rattle.negative_cover.specs.AllPairs.{AreAllPairs};
ghost use Rattle.negative_cover.specs.FoundPairs.{AreSeen, HasCompared};

use crate::Witness;
use crate::agreeing::write_agreement;
use crate::found_pairs::FoundPairs;
use crate::live_rows::live_between;
use rel_base::{ColSet, RowNo, Snapshot};
use std::alloc::{AllocError, Global};

// So many rows that come earlier are compared with each late one in turn: their codes stay in the processor's near memory meanwhile.
const BLOCK: u32 = 512;

// Adds what two rows agree on, where the first one is live and nothing that was found is of the same agree set.
#[inline(always)]
fn add_pair(snapshot: &Snapshot, pair: Witness, found: &mut FoundPairs) -> Result<(), AllocError>
    requires positive { 0 < pair.i }
    requires rising { pair.i < pair.j }
    requires live { live_at snapshot.now pair.j ≡ true }
    requires agree { pair.agree ≡ code_agree snapshot.now pair.i pair.j }
    requires seen { AreSeen found.old }
    ensures seen { OnOk result (AreSeen found.new) }
    ensures compared { OnOk result (HasCompared snapshot.now pair.i (pair.i + 1) (pair.j ∷ []) found.old.pairs.items found.new.pairs.items) }
{
    if found.is_recent(pair.agree) {
        return Ok(());
    }
    if !snapshot.is_live(pair.i) {
        return Ok(());
    }
    found.add(pair)?;
    Ok(())
}

// Adds what the live rows from one on agree on with a live one after them, by what each of them agrees on with it.
fn add_pairs(
    snapshot: &Snapshot,
    sets: &[u128],
    first: RowNo,
    other: RowNo,
    found: &mut FoundPairs,
) -> Result<(), AllocError>
    requires before { first + length sets.now ≤ other }
    requires live { live_at snapshot.now other ≡ true }
    requires agree { (k : ℕ) → k < length sets.now → slice_index sets.now k ≡ code_agree snapshot.now (first + k) other }
    requires seen { AreSeen found.old }
    ensures seen { OnOk result (AreSeen found.new) }
    ensures compared { OnOk result (HasCompared snapshot.now first (first + length sets.now) (other ∷ []) found.old.pairs.items found.new.pairs.items) }
{
    for k in 0..sets.len() {
        let pair = Witness {
            agree: ColSet::of_bits(sets[k]),
            i: RowNo::of(first.number() + k as u32),
            j: other,
        };
        add_pair(snapshot, pair, found)?;
    }
    Ok(())
}

// Adds what the live rows of a block agree on with a live one, as far as they come before it. The block begins with a row and has as many
// as the lists have places, which are room for the bits.
fn push_pairs_with(
    snapshot: &Snapshot,
    first: RowNo,
    other: RowNo,
    sets: &mut [u128],
    word: &mut [u32],
    found: &mut FoundPairs,
) -> Result<(), AllocError>
    requires same { length sets.old ≡ length word.old }
    requires rows { first + length sets.old ≤ snapshot.now.to }
    requires other { other < snapshot.now.to }
    requires live { live_at snapshot.now other ≡ true }
    requires seen { AreSeen found.old }
    ensures seen { OnOk result (AreSeen found.new) }
    ensures compared { OnOk result (HasCompared snapshot.now first (first + length sets.old) (other ∷ []) found.old.pairs.items found.new.pairs.items) }
{
    if other <= first {
        return Ok(());
    }
    let before = (other.number() - first.number()) as usize;
    let count = before.min(sets.len());
    write_agreement(
        &mut sets[..count],
        &mut word[..count],
        snapshot,
        first,
        other,
    );
    add_pairs(snapshot, &sets[..count], first, other, found)?;
    Ok(())
}

// Adds what the live rows of a block, which begins with one row and ends before another, and each of the late ones after them agree on.
fn push_pairs(
    alloc: Global,
    snapshot: &Snapshot,
    first: RowNo,
    end: RowNo,
    late: &[RowNo],
    found: &mut FoundPairs,
) -> Result<(), AllocError>
    requires order { first ≤ end }
    requires rows { end ≤ snapshot.now.to }
    requires below { All (λ j. (0 < j) × (j < snapshot.now.to)) late.now }
    requires live { All (λ j. live_at snapshot.now j ≡ true) late.now }
    requires seen { AreSeen found.old }
    ensures seen { OnOk result (AreSeen found.new) }
    ensures compared { OnOk result (HasCompared snapshot.now first end late.now found.old.pairs.items found.new.pairs.items) }
{
    let count = (end.number() - first.number()) as usize;
    let mut sets = vec![in alloc; 0; count]?;
    let mut word = vec![in alloc; 0; count]?;
    for place in 0..late.len() {
        push_pairs_with(snapshot, first, late[place], &mut sets, &mut word, found)?;
    }
    Ok(())
}

// The row number behind the block that begins with this one.
fn block_end(start: RowNo, to: RowNo) -> RowNo
    requires { start < to }
    ensures further { start < result }
    ensures within { result ≤ to }
{
    RowNo::of(start.number().saturating_add(BLOCK).min(to.number()))
}

/// What each live row from a number on and each live row before it agree on, one pair of rows for each agree set, as evidence against
/// all candidates that only rows from that number on may break.
///
/// The rows are compared block by block and column by column, where the codes of all rows of a block stand side by side: so each pair
/// takes a step for each column, and the processor can take several at once. Room for the bits of one block and the numbers of the live
/// rows from the number on is all that is kept besides a set of the agree sets, and a small table of those that were found last. The only
/// error is want of memory.
pub fn all_pairs(
    alloc: Global,
    snapshot: &Snapshot,
    from: RowNo,
) -> Result<Vec<Witness>, AllocError>
    ensures { IfOk result (λ found. AreAllPairs snapshot.now from found.items) }
{
    let to = snapshot.to();
    let late = live_between(alloc, snapshot, from, to)?;
    let mut found = FoundPairs::none(alloc)?;
    let mut start = RowNo::first();
    while start < to {
        let end = block_end(start, to);
        push_pairs(alloc, snapshot, start, end, &late, &mut found)?;
        start = end;
    }
    Ok(found.pairs)
}
