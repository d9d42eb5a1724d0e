// The rows of each code of a column, linked from the last one down.
ghost use Rattle.std.specs.Prelude.{◌≡◌, ◌<◌, ◌≤◌, ◌+◌, ◌^◌, ◌&&◌, ℕ, List, [], true, length, slice_index, slice_index_or, IfOk};
ghost use Rattle.rel_base.specs.CodeTable.{live_at};
ghost use Rattle.rel_base.specs.LentCodes.{lent};
ghost use Rattle.col_set.specs.ColSet.{has};
ghost use Rattle.stripped_partition.specs.Stripped.{agree_on};
ghost use Rattle.validator.specs.Chains.{IsChain, IsPartner};

use crate::walk::reach;
use col_set::ColSet;
use rel_base::{Code, CodeSlice, Codes, MOST_ROWS, RowNo, Snapshot};
use std::alloc::{AllocError, Global};

// For each row of a column, by place, the number of the last row before it that has its code, or 0; and for each code the number of
// the last row that has it, or 0. Rows that ended are among them.
//
// A row that comes is linked in one step. So a chain that was made once serves all later snapshots in which the rows keep their codes.
#[derive(Drop)]
pub(crate) struct Chain {
    pub(crate) before: Vec<u32>,
    pub(crate) last: Vec<u32>,
}

impl Chain {
    // The chain of no rows.
    pub(crate) fn new(alloc: Global) -> Chain
        ensures chain { (codes : List ℕ) → IsChain codes result }
        ensures none { result.before.items ≡ [] }
    {
        Chain {
            before: Vec::new(alloc),
            last: Vec::new(alloc),
        }
    }

    // The chain of all rows, where this one has the first of them. It takes a step a row that is new.
    pub(crate) fn extended(self, codes: &Codes) -> Result<Chain, AllocError>
        requires chain { IsChain codes.now self }
        requires few { length codes.now ≤ MOST_ROWS }
        ensures chain { IfOk result (λ chain. IsChain codes.now chain) }
        ensures whole { IfOk result (λ chain. length chain.before.items ≡ length codes.now) }
    {
        let mut chain = self;
        for place in chain.before.len()..codes.len() {
            chain = chain.linked(place, codes.get(place))?;
        }
        Ok(chain)
    }

    // The chain with the row at the next place, which has this code.
    fn linked(self, place: usize, code: u32) -> Result<Chain, AllocError>
        requires next { place ≡ length self.before.items }
        requires few { place + 1 < 2 ^ 32 }
        ensures chain { IfOk result (λ chain. (codes : List ℕ) → IsChain codes self → place < length codes → slice_index codes place ≡ code → IsChain codes chain) }
        ensures longer { IfOk result (λ chain. length chain.before.items ≡ place + 1) }
    {
        let Chain {
            mut before,
            mut last,
        } = self;
        let slot = code as usize;
        reach(&mut last, slot)?;
        before.push(last[slot])?;
        last[slot] = place as u32 + 1;
        Ok(Chain { before, last })
    }
}

// Whether two lists of one length have the same codes. It looks at all of them, so that a processor compares many at once.
fn are_same<C: Code>(codes: &[C], others: &[C]) -> bool
    requires { length codes.now ≡ length others.now }
    ensures { result ≡ true → (k : ℕ) (d : C) → k < length codes.now → C.number (slice_index_or codes.now k d) ≡ C.number (slice_index_or others.now k d) }
{
    let mut same = true;
    for place in 0..codes.len() {
        same = same & (codes[place].wide() == others[place].wide());
    }
    same
}

// Whether two lists of one length are of one width and have the same codes.
fn are_seen_same(codes: CodeSlice<'_>, others: CodeSlice<'_>) -> bool
    requires { length (lent codes) ≡ length (lent others) }
    ensures { result ≡ true → (k : ℕ) → k < length (lent codes.entry) → slice_index (lent codes.entry) k ≡ slice_index (lent others.entry) k }
{
    match (codes, others) {
        (CodeSlice::Bytes(list), CodeSlice::Bytes(other)) => are_same(list, other),
        (CodeSlice::Words(list), CodeSlice::Words(other)) => are_same(list, other),
        (CodeSlice::Full(list), CodeSlice::Full(other)) => are_same(list, other),
        _ => false,
    }
}

// Whether two lists begin with the same codes, so many.
pub(crate) fn begin_alike(codes: &Codes, others: &Codes, count: usize) -> bool
    requires first { count ≤ length codes.now }
    requires second { count ≤ length others.now }
    ensures { result ≡ true → (k : ℕ) → k < count → slice_index codes.now k ≡ slice_index others.now k }
{
    let (first, _) = codes.parts();
    let (second, _) = others.parts();
    let shared = count.min(first.len()).min(second.len());
    let are_same = are_seen_same(first.between(0, shared), second.between(0, shared));
    for place in if are_same { shared } else { 0 }..count {
        if codes.get(place) != others.get(place) {
            return false;
        }
    }
    true
}

// Whether two rows agree on some columns.
pub(crate) fn agrees(snapshot: &Snapshot, columns: ColSet, i: RowNo, j: RowNo) -> bool
    requires first { i < snapshot.now.to }
    requires second { j < snapshot.now.to }
    requires columns { columns < 2 ^ length snapshot.now.codes }
    ensures { result ≡ agree_on snapshot.now columns i j }
{
    let mut left = columns;
    while let Some(column) = left.first() {
        if snapshot.code(i, column) != snapshot.code(j, column) {
            return false;
        }
        left = left.without(column);
    }
    true
}

// Whether a row is live and agrees with another on some columns.
fn is_alike(snapshot: &Snapshot, columns: ColSet, other: RowNo, row: RowNo) -> bool
    requires first { other < snapshot.now.to }
    requires second { row < snapshot.now.to }
    requires columns { columns < 2 ^ length snapshot.now.codes }
    ensures { result ≡ (live_at snapshot.now other && agree_on snapshot.now columns other row) }
{
    snapshot.is_live(other) && agrees(snapshot, columns, other, row)
}

// The last live row before a row that agrees with it on some columns, by the chain of one of them.
pub(crate) fn partner(
    snapshot: &Snapshot,
    chain: &Chain,
    column: u8,
    columns: ColSet,
    row: RowNo,
) -> Option<RowNo>
    requires given { row < snapshot.now.to }
    requires columns { columns < 2 ^ length snapshot.now.codes }
    requires column { has columns column ≡ true }
    requires chain { IsChain (slice_index_or snapshot.now.codes column []) chain.now }
    requires whole { length chain.now.before.items + 1 ≡ snapshot.now.to }
    ensures { IsPartner snapshot.now columns row result }
{
    let mut number = chain.before[row.number() as usize - 1];
    while number > 0 {
        let other = RowNo::of(number);
        if is_alike(snapshot, columns, other, row) {
            return Some(other);
        }
        number = chain.before[number as usize - 1];
    }
    None
}
