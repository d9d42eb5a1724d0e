// Pairs that new rows make with earlier ones, each looked up among the rows with its code in one column.
ghost use Rattle.std.specs.Prelude.{◌≡◌, ◌≢◌, ◌<◌, ◌≤◌, ◌+◌, ◌^◌, ◌&&◌, ℕ, nat_le, [], true, false, length, slice_index_or, vec_len, IfOk};
ghost use Rattle.std.specs.List.{All, filter};
ghost use Rattle.col_set.specs.ColSet.{has};
ghost use Rattle.col_set.specs.Lists.{Listed};
ghost use Rattle.rel_base.specs.CodeTable.{IsCodeTable};
ghost use Rattle.rel_base.specs.Shows.{live_numbers};
ghost use Rattle.stripped_partition.specs.Stripped.{agree_on};
ghost use Rattle.validator.specs.Asking.{IsAsked, IsAnswer};
ghost use Rattle.validator.specs.Chains.{IsChain, IsTold};
ghost use Rattle.validator.specs.Lists.{AreTargets};
ghost use Rattle.validator.specs.Verdicts.{AreFound, IsViolation, new_rows};

use crate::cache::Asked;
use crate::chain::{Chain, agrees, partner};
use crate::lists::{self, CodeList};
use crate::walk::{add, differ};
use col_set::ColSet;
use rel_base::{RowNo, Snapshot, Steps};
use std::alloc::{AllocError, Global};
use std::sync::ledger::Ledger;

// The live rows from a number on, ascending. It takes a step a number.
fn rows_from(alloc: Global, snapshot: &Snapshot, from: RowNo) -> Result<Vec<RowNo>, AllocError>
    ensures { IfOk result (λ rows. rows.items ≡ filter (nat_le from) (live_numbers snapshot.now)) }
{
    let mut rows = Vec::new(alloc);
    for number in from.number()..snapshot.to().number() {
        let row = RowNo::of(number);
        if snapshot.is_live(row) {
            rows.push(row)?;
        }
    }
    Ok(rows)
}

// Whether one of these pairs comes from the group of a row.
fn is_told(snapshot: &Snapshot, columns: ColSet, pairs: &[(RowNo, RowNo)], row: RowNo) -> bool
    requires given { All (λ pair. pair.0 < snapshot.now.to) pairs.now }
    requires row { row < snapshot.now.to }
    requires columns { columns < 2 ^ length snapshot.now.codes }
    ensures yes { result ≡ true → 0 < length pairs.now }
    ensures no { result ≡ false → All (λ pair. agree_on snapshot.now columns pair.0 row ≡ false) pairs.now }
{
    for pair in pairs {
        if agrees(snapshot, columns, pair.0, row) {
            return true;
        }
    }
    false
}

// The pair that a new row makes with the last row before it in its group, if they differ on the target and no pair of the group is
// there yet.
fn pair_with<L: Ledger>(
    snapshot: &Snapshot,
    chain: &Chain,
    column: u8,
    asked: &Asked,
    targets: &CodeList,
    row: RowNo,
    pairs: &[(RowNo, RowNo)],
    steps: &mut Steps<L>,
) -> Option<(RowNo, RowNo)>
    requires asked { IsAsked snapshot.now asked.now }
    requires column { has asked.now.left column ≡ true }
    requires chain { IsChain (slice_index_or snapshot.now.codes column []) chain.now }
    requires whole { length chain.now.before.items + 1 ≡ snapshot.now.to }
    requires targets { AreTargets snapshot.now asked.now.target targets.now }
    requires live { Listed row (live_numbers snapshot.now) }
    requires pairs { All (λ pair. IsViolation snapshot.now asked.now.left asked.now.target pair.0 pair.1) pairs.now }
    ensures told { IsTold snapshot.now asked.now.left asked.now.target pairs.now row result }
    ensures steps { steps.new ≤ steps.old + 1 }
{
    let other = partner(snapshot, chain, column, asked.left, row)?;
    if is_told(snapshot, asked.left, pairs, other) {
        return None;
    }
    if differ(targets, asked.target, other, row, steps) {
        Some((other, row))
    } else {
        None
    }
}

// For each group of the left side in which a new row differs from an earlier one on the target such a pair, up to so many, by the
// chain of a column of the left side.
//
// Each new row is compared with the last row before it in its group, so its work is that of walking down the rows with its code in
// the column to the first that agrees on the other columns too.
pub(crate) fn pairs_of_new<L: Ledger>(
    alloc: Global,
    snapshot: &Snapshot,
    chain: &Chain,
    column: u8,
    asked: &Asked,
    steps: &mut Steps<L>,
) -> Result<Vec<(RowNo, RowNo)>, AllocError>
    requires asked { IsAsked snapshot.now asked.now }
    requires column { has asked.now.left column ≡ true }
    requires chain { IsChain (slice_index_or snapshot.now.codes column []) chain.now }
    requires whole { length chain.now.before.items + 1 ≡ snapshot.now.to }
    ensures answer { IfOk result (IsAnswer snapshot.now asked.now) }
    ensures steps { steps.new ≤ steps.old + new_rows snapshot.now asked.now.from }
{
    let rows = rows_from(alloc, snapshot, asked.from)?;
    let targets = lists::targets(snapshot, asked.target);
    let mut pairs = Vec::new(alloc);
    for row in rows.as_slice() {
        let pair = pair_with(
            snapshot, chain, column, asked, &targets, *row, &pairs, steps,
        );
        add(&mut pairs, pair)?;
        if pairs.len() >= asked.most {
            return Ok(pairs);
        }
    }
    Ok(pairs)
}
