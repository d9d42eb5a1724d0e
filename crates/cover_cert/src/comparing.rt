// The keys and dependencies that a certificate lists, beside those that its pairs leave.
ghost use Rattle.std.specs.Prelude.{◌≡◌, ◌<◌, ◌≤◌, ◌+◌, ◌^◌, ◌++◌, ℕ, List, length, map, IfOk};
ghost use Rattle.std.specs.List.{All};
ghost use Rattle.col_set.specs.ColSet.{upto};
ghost use Rattle.col_set.specs.declared.target.Target.TheVariants.{Col};
ghost use Rattle.col_set.specs.Target.{IsColumnTarget};
ghost use Rattle.col_set.specs.Evidence.{least};
ghost use Rattle.rel_base.specs.Covers.{least_covers};
ghost use Rattle.cover_cert.specs.declared.line.Claim.{Claim as ClaimSpec};
ghost use Rattle.cover_cert.specs.Comparing as spec;
ghost use Rattle.cover_cert.specs.Comparing.{claims_to, claims_of, claims_beside, departs_at, departs_then};

use crate::line::Claim;
use least_sets::least_sets;
use rayon::prelude::*;
use rel_base::{ColSet, MOST_COLUMNS, Target};
use std::alloc::{AllocError, Global};
use std::thread::Threads;

/// How far what is listed has been compared, and whether it departs there from what is wanted.
#[derive(Clone, Copy)]
pub(crate) struct Compared {
    place: usize,
    departs: bool,
}

// Whether a claim is of this left side and target.
fn is_claim(claim: Claim, left: ColSet, target: Target) -> bool
    ensures { result ≡ spec.same_claim claim (record { left = left; target = target }) }
{
    claim.left == left && same_target(claim.target, target)
}

fn same_target(one: Target, other: Target) -> bool
    ensures { result ≡ spec.same_target one other }
{
    match one {
        Target::Col(column) => other.is_column(column),
        Target::RowId => matches!(other, Target::RowId),
    }
}

// Goes on by these left sides of a target.
fn past(so_far: Compared, lefts: &[ColSet], target: Target, claims: &[Claim]) -> Compared
    requires { so_far.place ≤ length claims.now }
    ensures place { result.place ≤ length claims.now }
    ensures told { (number : ℕ) (more : List ClaimSpec) → departs_then number claims.now so_far (claims_to target lefts.now ++ more) ≡ departs_then number claims.now result more }
{
    if so_far.departs {
        return so_far;
    }
    let mut place = so_far.place;
    for left in lefts {
        if place >= claims.len() || !is_claim(claims[place], *left, target) {
            return Compared {
                place,
                departs: true,
            };
        }
        place += 1;
    }
    Compared {
        place,
        departs: false,
    }
}

// Goes on by what agree sets leave of a target.
fn past_target(
    alloc: Global,
    so_far: Compared,
    columns: u8,
    target: Target,
    agree_sets: &[ColSet],
    claims: &[Claim],
) -> Result<Compared, AllocError>
    requires columns { columns ≤ MOST_COLUMNS }
    requires target { IsColumnTarget columns target }
    requires place { so_far.place ≤ length claims.now }
    ensures place { IfOk result (λ next. next.place ≤ length claims.now) }
    ensures told { IfOk result (λ next. (number : ℕ) (more : List ClaimSpec) → departs_then number claims.now so_far (claims_to target (least columns agree_sets.now target) ++ more) ≡ departs_then number claims.now next more) }
{
    if so_far.departs {
        return Ok(so_far);
    }
    let lefts = least_sets(alloc, columns, target, agree_sets)?;
    Ok(past(so_far, lefts.as_slice(), target, claims))
}

// What agree sets leave of a column.
fn lefts_of(
    alloc: Global,
    columns: u8,
    column: u8,
    agree_sets: &[ColSet],
) -> Result<Vec<ColSet>, AllocError>
    requires columns { columns ≤ MOST_COLUMNS }
    requires column { column < columns }
    ensures { IfOk result (λ lefts. lefts.items ≡ least columns agree_sets.now (Col column)) }
{
    least_sets(alloc, columns, Target::Col(column), agree_sets)
}

// What agree sets leave of each of these columns, by a thread for each.
fn lefts_by<R: Threads + Sync>(
    rt: &R,
    alloc: Global,
    columns: u8,
    some: &[u8],
    agree_sets: &[ColSet],
) -> Result<Vec<Vec<ColSet>>, AllocError>
    requires columns { columns ≤ MOST_COLUMNS }
    requires some { All (λ column. column < columns) some.now }
    ensures { IfOk result (λ lists. map (λ list. list.items) lists.items ≡ map (λ column. least columns agree_sets.now (Col column)) some.now) }
{
    let lists: Result<Vec<Vec<ColSet>>, AllocError> = some
        .par_iter()
        .with_min_len(1)
        .map(
            move |column: &u8| -> Result<Vec<ColSet>, AllocError>
                requires columns { columns ≤ MOST_COLUMNS }
                requires column { column.now < columns }
                ensures { IfOk result (λ lefts. lefts.items ≡ least columns agree_sets.entry.now (Col column.now)) }
            {
                let lefts = lefts_of(alloc, columns, *column, agree_sets)?;
                Ok(lefts)
            },
        )
        .collect(rt, alloc)?;
    lists
}

// Goes on by the left sides of these columns, a list for each.
fn past_lists(so_far: Compared, some: &[u8], lists: &[Vec<ColSet>], claims: &[Claim]) -> Compared
    requires place { so_far.place ≤ length claims.now }
    requires lists { length lists.now ≡ length some.now }
    ensures place { result.place ≤ length claims.now }
    ensures told { (number : ℕ) (more : List ClaimSpec) → departs_then number claims.now so_far (claims_beside some.now (map (λ list. list.items) lists.now) ++ more) ≡ departs_then number claims.now result more }
{
    let mut next = so_far;
    for place in 0..lists.len() {
        next = past(
            next,
            lists[place].as_slice(),
            Target::Col(some[place]),
            claims,
        );
    }
    next
}

// The numbers of the columns.
fn numbers(alloc: Global, count: u8) -> Result<Vec<u8>, AllocError>
    ensures { IfOk result (λ numbers. numbers.items ≡ upto count) }
{
    let mut numbers = Vec::with_capacity(alloc, count as usize)?;
    for number in 0..count {
        numbers.push(number)?;
    }
    Ok(numbers)
}

/// The first record at which what is listed departs from the least sets of these agree sets: first the keys, then the dependencies of each
/// column, as one sequence. The first listed line has this number.
///
/// The least sets of one target a worker at a time are in memory.
pub(crate) fn first_departure<R: Threads + Sync>(
    rt: &R,
    alloc: Global,
    columns: u8,
    agree_sets: &[ColSet],
    claims: &[Claim],
    number: u64,
    workers: u8,
) -> Result<Option<u64>, AllocError>
    requires columns { columns ≤ MOST_COLUMNS }
    requires short { number + length claims.now < 2 ^ 64 }
    ensures { IfOk result (λ found. found ≡ departs_at number (claims_of (least_covers columns agree_sets.now)) claims.now) }
{
    let start = Compared {
        place: 0,
        departs: false,
    };
    let all = numbers(alloc, columns)?;
    let mut so_far = past_target(alloc, start, columns, Target::RowId, agree_sets, claims)?;
    let mut rest = all.as_slice();
    while !so_far.departs && !rest.is_empty() {
        let (some, later) = rest.split_at(rest.len().min(workers.max(1) as usize));
        let lists = lefts_by(rt, alloc, columns, some, agree_sets)?;
        so_far = past_lists(so_far, some, lists.as_slice(), claims);
        rest = later;
    }
    if so_far.departs || so_far.place < claims.len() {
        return Ok(Some(number + so_far.place as u64));
    }
    Ok(None)
}
