// Neighbours in the rows of a column, found in one pass over them.
ghost use Rattle.std.specs.Prelude.{◌≡◌, ◌<◌, ◌≤◌, ◌^◌, ℕ, ◌/◌, ◌++◌, ◌∷◌, [], length, slice_index, vec_len, IfOk, OnOk};
ghost use Rattle.sampler.specs.Spread.{AreAmong, IsNoted};
ghost use Rattle.sampler.specs.Window.{AreNeighbours};

use rel_base::{RowNo, Snapshot};
use std::alloc::{AllocError, Global};

// The first of each two pairs. A last one that has no second goes too, so that half as many always leave room for one more.
fn each_second(alloc: Global, pairs: &[(RowNo, RowNo)]) -> Result<Vec<(RowNo, RowNo)>, AllocError>
    ensures among { IfOk result (λ halved. AreAmong pairs.now halved.items) }
    ensures half { IfOk result (λ halved. length halved.items ≡ length pairs.now / 2) }
{
    let half = pairs.len() / 2;
    let mut halved = Vec::with_capacity(alloc, half)?;
    for k in 0..half {
        halved.push(pairs[2 * k])?;
    }
    Ok(halved)
}

// Some of the pairs that were offered, spread evenly over them.
//
// How many will be offered is not known before the end. So all are taken at first; where there is no more room, each second pair goes,
// and from then on only each second one of those that would have been taken is.
#[derive(Drop)]
struct Spread {
    pairs: Vec<(RowNo, RowNo)>,
    // So many of those that were offered were passed over between each two of them.
    between: u32,
    // So many are still passed over before the next one is taken.
    to_pass: u32,
}

impl Spread {
    fn new(alloc: Global) -> Spread
        ensures { result.pairs.items ≡ [] }
    {
        Spread {
            pairs: Vec::new(alloc),
            between: 0,
            to_pass: 0,
        }
    }

    // Lets go of each second pair. Those that come are taken half as often.
    fn thin(&mut self, alloc: Global) -> Result<(), AllocError>
        ensures among { OnOk result (AreAmong self.old.pairs.items self.new.pairs.items) }
        ensures half { OnOk result (length self.new.pairs.items ≡ length self.old.pairs.items / 2) }
    {
        self.pairs = each_second(alloc, self.pairs.as_slice())?;
        self.between = self.between.saturating_mul(2).saturating_add(1);
        Ok(())
    }

    // Takes a pair if its turn has come. Where there are `count` already, half of them go first, so from then on there are never fewer
    // than half as many.
    fn offer(&mut self, alloc: Global, pair: (RowNo, RowNo), count: u32) -> Result<(), AllocError>
        requires { 0 < count }
        ensures among { OnOk result (AreAmong (self.old.pairs.items ++ pair ∷ []) self.new.pairs.items) }
        ensures few { OnOk result (length self.old.pairs.items ≤ count → length self.new.pairs.items ≤ count) }
    {
        if self.to_pass > 0 {
            self.to_pass -= 1;
            return Ok(());
        }
        if self.pairs.len() >= count as usize {
            self.thin(alloc)?;
        }
        self.to_pass = self.between;
        self.pairs.push(pair)?;
        Ok(())
    }
}

// Makes room for a place. What is absent counts as 0, and so does what is added.
fn reach(last: &mut Vec<u32>, place: usize) -> Result<(), AllocError>
    requires { place < 2 ^ 32 }
    ensures kept { (c : ℕ) → slice_index last.new.items c ≡ slice_index last.old.items c }
    ensures room { OnOk result (place < vec_len last.new) }
{
    if place >= last.len() {
        last.resize(place + 1, 0)?;
    }
    Ok(())
}

// Notes the row with this number as the last one of its code, and answers the number of the one that was, or 0.
fn noted(last: &mut Vec<u32>, code: u32, number: u32) -> Result<u32, AllocError>
    ensures before { IfOk result (λ before. before ≡ slice_index last.old.items code) }
    ensures noted { OnOk result (IsNoted last.old.items last.new.items code number) }
{
    let place = code as usize;
    reach(last, place)?;
    let before = last[place];
    last[place] = number;
    Ok(before)
}

/// Pairs of live rows that have the same code in a column with no live row of that code between them, by the second of the two: all
/// of them where they are at most `count`, else at most so many and at least half as many, spread evenly over the rows.
///
/// It is for evidence from many rows, where `window` would give more pairs than are worth comparing. It goes over the rows once and
/// makes no partition: it takes a step a row, four bytes for each code up to the greatest, and memory for the pairs.
pub fn neighbours(
    alloc: Global,
    snapshot: &Snapshot,
    column: u8,
    count: u32,
) -> Result<Vec<(RowNo, RowNo)>, AllocError>
    requires column { column < length snapshot.now.codes }
    requires count { 0 < count }
    ensures neighbours { IfOk result (λ pairs. AreNeighbours snapshot.now column pairs.items) }
    ensures few { IfOk result (λ pairs. length pairs.items ≤ count) }
{
    let codes = snapshot.column(column);
    // By code, the last live row so far that has it, or 0.
    let mut last = Vec::new(alloc);
    let mut spread = Spread::new(alloc);
    for number in 1..snapshot.to().number() {
        let row = RowNo::of(number);
        if snapshot.is_live(row) {
            let before = noted(&mut last, codes.get(number as usize - 1), number)?;
            if before > 0 {
                spread.offer(alloc, (RowNo::of(before), row), count)?;
            }
        }
    }
    Ok(spread.pairs)
}
