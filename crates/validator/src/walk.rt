// Comparisons of rows on a target, group by group.
ghost use Rattle.std.specs.Prelude.{◌≡◌, ◌<◌, ◌≤◌, ◌+◌, ◌^◌, ◌++◌, ◌∷◌, [], None, ℕ, length, nat_le, not, vec_len, slice_index, true, false, IsTrue, IfOk, OnOk, cond};
ghost use Rattle.std.specs.List.{All, count_by};
ghost use Rattle.std.specs.Option.{ForSome, option_to_list};
ghost use Rattle.std.specs.List.Sorted.{IsStrictlyIncreasing};
ghost use Rattle.col_set.specs.ColSet.{Columns};
ghost use Rattle.col_set.specs.Target.{has_target, IsColumnTarget};
ghost use Rattle.rel_base.specs.CodeTable.{CodeTable};
ghost use Rattle.rel_base.specs.Shows.{code_agree, holds_in_below};
ghost use Rattle.stripped_partition.specs.AnyOrder.{AreGroupsBy, AreGroupsOf};
ghost use Rattle.validator.specs.Lists.{keys_of, AreLists, AreTargets};
ghost use Rattle.validator.specs.Verdicts.{AreFound, new_rows};
ghost use Rattle.validator.specs.Walk.{plus, IsCompared, IsClear, IsClearBut};

use crate::lists::{CodeList, Lists};
use col_set::Target;
use rel_base::{RowNo, Snapshot, Steps};
use std::alloc::{AllocError, Global};
use std::sync::ledger::Ledger;
use stripped_partition::Partition;

// What is asked of the groups of a partition: whether the rows of each that have one code in the further column, if there is
// one, agree on the target, where those below a number are known to, and for how many groups at most that do not.
#[derive(Clone, Copy)]
pub(crate) struct Question {
    pub(crate) target: Target,
    pub(crate) by: Option<u8>,
    pub(crate) from: RowNo,
    pub(crate) most: usize,
}

// Whether two rows differ on the target. Two rows always differ on which row it is. This alone compares rows on the target, and
// each such comparison is a step.
pub(crate) fn differ<L: Ledger>(
    codes: &CodeList,
    target: Target,
    i: RowNo,
    j: RowNo,
    steps: &mut Steps<L>,
) -> bool
    ensures value { (s : CodeTable) → IsColumnTarget (length s.codes) target → AreTargets s target codes.now → result ≡ not (has_target (code_agree s i j) target) }
    ensures step { steps.new ≡ steps.old + 1 }
{
    steps.tick();
    match target {
        Target::Col(_) => codes.code(i) != codes.code(j),
        Target::RowId => true,
    }
}

// Compares a row with the first of its key, unless it is an older row.
fn are_apart<L: Ledger>(
    codes: &CodeList,
    target: Target,
    from: RowNo,
    first: RowNo,
    row: RowNo,
    steps: &mut Steps<L>,
) -> bool
    ensures apart { (s : CodeTable) → IsColumnTarget (length s.codes) target → AreTargets s target codes.now → IsTrue result → has_target (code_agree s first row) target ≡ false }
    ensures alike { (s : CodeTable) → IsColumnTarget (length s.codes) target → AreTargets s target codes.now → result ≡ false → from ≤ row → has_target (code_agree s first row) target ≡ true }
    ensures steps { steps.new ≤ steps.old + cond (nat_le from row) 1 0 }
{
    if row.number() < from.number() {
        return false;
    }
    differ(codes, target, first, row, steps)
}

// Makes room for a slot, and for those before it.
pub(crate) fn reach(slots: &mut Vec<u32>, slot: usize) -> Result<(), AllocError>
    requires { slot < 2 ^ 32 }
    ensures kept { (c : ℕ) → slice_index slots.new.items c ≡ slice_index slots.old.items c }
    ensures room { OnOk result (slot < vec_len slots.new) }
{
    if slot >= slots.len() {
        slots.resize(slot + 1, 0)?;
    }
    Ok(())
}

// Compares each row of a group that is not below the number with the first of its key, up to the first difference.
//
// Here and below the snapshot is what the contracts speak of: the codes are looked up in the lists.
fn pair_in<L: Ledger>(
    group: &[RowNo],
    snapshot: &Snapshot,
    question: &Question,
    lists: &Lists,
    slots: &mut Vec<u32>,
    steps: &mut Steps<L>,
) -> Result<Option<(RowNo, RowNo)>, AllocError>
    requires positive { All (λ row. 0 < row) group.now }
    requires rising { IsStrictlyIncreasing group.now }
    requires target { IsColumnTarget (length snapshot.now.codes) question.now.target }
    requires lists { AreLists snapshot.now question.now.by question.now.target lists.now }
    requires clear { IsClear slots.old.items }
    ensures pair { IfOk result (IsCompared snapshot.now question.now.by question.now.target question.now.from group.now) }
    ensures clear { OnOk result (IsClearBut snapshot.now question.now.by group.now slots.new.items) }
    ensures steps { steps.new ≤ steps.old + count_by (λ i. nat_le question.now.from i) group.now }
{
    let Question { target, from, .. } = *question;
    for row in group {
        let slot = lists.keys.code(*row) as usize;
        reach(slots, slot)?;
        let first = slots[slot];
        if first == 0 {
            slots[slot] = row.number();
        } else if are_apart(&lists.targets, target, from, RowNo::of(first), *row, steps) {
            return Ok(Some((RowNo::of(first), *row)));
        }
    }
    Ok(None)
}

// Clears the slots of a group's keys.
fn clear(slots: &mut [u32], group: &[RowNo], snapshot: &Snapshot, by: Option<u8>, keys: &CodeList)
    requires keys { keys.now ≡ keys_of snapshot.now by }
    requires others { IsClearBut snapshot.now by group.now slots.old }
    ensures { IsClear slots.new }
{
    for row in group {
        let slot = keys.code(*row) as usize;
        if slot < slots.len() {
            slots[slot] = 0;
        }
    }
}

// The first row of a group and the first one behind it, from the number on, that differs from it on the target. There is no further
// column, so that all rows of the group are to agree on the target, and it takes no slot.
fn pair_with_first<L: Ledger>(
    group: &[RowNo],
    snapshot: &Snapshot,
    question: &Question,
    codes: &CodeList,
    steps: &mut Steps<L>,
) -> Option<(RowNo, RowNo)>
    requires some { 0 < length group.now }
    requires rising { IsStrictlyIncreasing group.now }
    requires none { question.now.by ≡ None }
    requires target { IsColumnTarget (length snapshot.now.codes) question.now.target }
    requires codes { AreTargets snapshot.now question.now.target codes.now }
    ensures pair { IsCompared snapshot.now question.now.by question.now.target question.now.from group.now result }
    ensures steps { steps.new ≤ steps.old + count_by (λ i. nat_le question.now.from i) group.now }
{
    let Question { target, from, .. } = *question;
    let first = group[0];
    for k in 1..group.len() {
        let row = group[k];
        if are_apart(codes, target, from, first, row, steps) {
            return Some((first, row));
        }
    }
    None
}

// Whether a group has a row that is not below the number.
fn has_new(group: &[RowNo], from: RowNo) -> bool
    requires some { 0 < length group.now }
    requires rising { IsStrictlyIncreasing group.now }
    ensures { result ≡ false → All (λ row. row < from) group.now }
{
    group[group.len() - 1].number() >= from.number()
}

// The pair of a group of two rows, the smaller number first, without slots.
fn pair_of_two<L: Ledger>(
    snapshot: &Snapshot,
    question: &Question,
    lists: &Lists,
    i: RowNo,
    j: RowNo,
    steps: &mut Steps<L>,
) -> Option<(RowNo, RowNo)>
    requires rising { i < j }
    requires target { IsColumnTarget (length snapshot.now.codes) question.now.target }
    requires lists { AreLists snapshot.now question.now.by question.now.target lists.now }
    ensures pair { IsCompared snapshot.now question.now.by question.now.target question.now.from (i ∷ j ∷ []) result }
    ensures steps { steps.new ≤ steps.old + cond (nat_le question.now.from j) 1 0 }
{
    if lists.keys.code(i) != lists.keys.code(j) {
        return None;
    }
    if are_apart(&lists.targets, question.target, question.from, i, j, steps) {
        return Some((i, j));
    }
    None
}

// The first pair of a group, of which all rows may be old, that differs on the target. It clears the slots again.
fn pair_of_group<L: Ledger>(
    group: &[RowNo],
    snapshot: &Snapshot,
    question: &Question,
    lists: &Lists,
    slots: &mut Vec<u32>,
    steps: &mut Steps<L>,
) -> Result<Option<(RowNo, RowNo)>, AllocError>
    requires some { 0 < length group.now }
    requires positive { All (λ row. 0 < row) group.now }
    requires rising { IsStrictlyIncreasing group.now }
    requires target { IsColumnTarget (length snapshot.now.codes) question.now.target }
    requires lists { AreLists snapshot.now question.now.by question.now.target lists.now }
    requires clear { IsClear slots.old.items }
    ensures pair { IfOk result (IsCompared snapshot.now question.now.by question.now.target question.now.from group.now) }
    ensures clear { OnOk result (IsClear slots.new.items) }
    ensures steps { steps.new ≤ steps.old + count_by (λ i. nat_le question.now.from i) group.now }
{
    if !has_new(group, question.from) {
        return Ok(None);
    }
    if question.by.is_none() {
        return Ok(pair_with_first(group, snapshot, question, &lists.targets, steps));
    }
    if group.len() == 2 {
        return Ok(pair_of_two(snapshot, question, lists, group[0], group[1], steps));
    }
    let pair = pair_in(group, snapshot, question, lists, slots, steps)?;
    clear(slots, group, snapshot, question.by, &lists.keys);
    Ok(pair)
}

// Adds a pair, if there is one.
pub(crate) fn add(
    pairs: &mut Vec<(RowNo, RowNo)>,
    pair: Option<(RowNo, RowNo)>,
) -> Result<(), AllocError>
    ensures { OnOk result (pairs.new.items ≡ pairs.old.items ++ option_to_list pair) }
{
    if let Some(pair) = pair {
        pairs.push(pair)?;
    }
    Ok(())
}

// In each group that has such a pair, up to so many groups, two rows with one code in the further column that differ on the
// target.
pub(crate) fn pairs_in_groups<L: Ledger>(
    alloc: Global,
    partition: &Partition,
    snapshot: &Snapshot,
    question: &Question,
    slots: &mut Vec<u32>,
    steps: &mut Steps<L>,
) -> Result<Vec<(RowNo, RowNo)>, AllocError>
    requires of { AreGroupsOf snapshot.now partition.now }
    requires target { IsColumnTarget (length snapshot.now.codes) question.now.target }
    requires column { ForSome question.now.by (λ column. column < length snapshot.now.codes) }
    requires some { 0 < question.now.most }
    requires clear { IsClear slots.old.items }
    ensures pairs { IfOk result (λ pairs. (x : Columns) → AreGroupsBy snapshot.now x partition.now → holds_in_below question.now.from snapshot.now (plus x question.now.by) question.now.target ≡ true → AreFound snapshot.now (plus x question.now.by) question.now.target pairs.items) }
    ensures few { IfOk result (λ pairs. vec_len pairs ≤ question.now.most) }
    ensures clear { OnOk result (IsClear slots.new.items) }
    ensures steps { steps.new ≤ steps.old + new_rows snapshot.now question.now.from }
{
    let lists = Lists::of(snapshot, question.by, question.target);
    let mut pairs = Vec::new(alloc);
    for k in 0..partition.group_count() {
        let pair = pair_of_group(partition.group(k), snapshot, question, &lists, slots, steps)?;
        add(&mut pairs, pair)?;
        if pairs.len() >= question.most {
            return Ok(pairs);
        }
    }
    Ok(pairs)
}
