//! Unary inclusions among the columns of all relations.
//!
//! A first round asks of a sample of all values, which tells most columns apart. A second one asks of the pairs that are left. In each, the values of
//! a column that are asked of become a list in order, and one pass over all lists tells which are parts of which.
#![tactic(auto)]

ghost use Rattle.std.specs.Prelude.{◌≡◌, IfOk};
ghost use Rattle.rel_base.specs.Inclusion.{inclusions};
ghost use Rattle.inclusion_merge.specs.Open.{IsOpen};

mod candidates;
mod marks;
mod merge;
mod open;
mod pairs;
mod questions;
#[cfg(test)]
mod tests;
mod value;
mod values;
mod wide_set;

use crate::open::Open;
use crate::pairs::pairs_of;
use crate::questions::Questions;
use rel_base::Row;
use std::alloc::{AllocError, Global};
use std::thread::Threads;

/// Every inclusion among these columns: pairs of positions from 0, the dependent column first, by dependent and then by referenced column.
///
/// Each row lists the cells of one column, in any order and as often as they come; the columns of several relations stand one relation after another.
/// It may be any number of columns.
///
/// It takes two rounds. The first one asks of a sample: some two thousand cells that are spread over all columns, at least four of each column that has
/// as many, and what shares a mark of its bytes with one of them. A column with a value of the sample that another one lacks is not included in it, and
/// of a column that has no value beyond the sample this tells all. The second round asks of the pairs that are left: their columns' values that have the
/// marks of the values of their dependent columns, or all values where those are many. So columns that are in no such pair are never sorted.
///
/// In each round the values that are asked of become lists, by so many workers at most, each of which takes columns that stand side by side: one worker
/// is the thread of the caller and no other. Then the lists are merged as SPIDER does (Bauckmann, Leser, Naumann and Tietz 2007). The time of the first
/// round grows with the cells as reading them does, and with the sample times the columns. That of the second grows with the values that are
/// asked of as sorting them does, and then with these values times the columns that are still in question at them. It takes 32 bytes a value that is
/// asked of, a bit a pair of columns, and 16 bytes a pair that the first round leaves.
pub fn included<R: Threads + Sync>(
    rt: &R,
    alloc: Global,
    columns: &[Row],
    workers: u8,
) -> Result<Vec<(usize, usize)>, AllocError>
    ensures { IfOk result (λ pairs. pairs.items ≡ inclusions columns.now) }
{
    let open = open_pairs(rt, alloc, columns, workers)?;
    let left = open.left(alloc)?;
    if left.is_empty() {
        return Ok(open.into_pairs());
    }
    let questions = Questions::about(alloc, columns, &left)?;
    let kept = questions.answers(rt, alloc, workers)?;
    open.kept(alloc, &kept)
}

// The pairs that a sample of all values does not tell apart. A column that has no value beyond the sample is settled by it.
fn open_pairs<R: Threads + Sync>(
    rt: &R,
    alloc: Global,
    columns: &[Row],
    workers: u8,
) -> Result<Open, AllocError>
    ensures { IfOk result (λ found. IsOpen columns.now found) }
{
    let questions = Questions::by_sample(alloc, columns)?;
    let kept = questions.answers(rt, alloc, workers)?;
    Ok(Open {
        pairs: pairs_of(alloc, &kept)?,
        settled: questions.wholly_asked(alloc, columns)?,
    })
}
