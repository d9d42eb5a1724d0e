// Lists of values merged, all at once.
ghost use Rattle.std.specs.Prelude.{◌≡◌, ◌<◌, ◌≤◌, ◌+◌, ◌*◌, ◌&&◌, ◌⊎◌, if◌then◌else◌, ℕ, Bool, [], true, false, length, map, slice_index_or, IfOk, IsTrue, MatchBool, vec_len};
ghost use Rattle.std.specs.Prelude.{drop};
ghost use Rattle.inclusion_merge.specs.Candidates.{IsSameOrSpent, IsSpent, may};
ghost use Rattle.inclusion_merge.specs.WideSet.{has_wide};
ghost use Rattle.inclusion_merge.specs.Sharing.{AllRise, AllEnded, IsFirstOf, LeastSoFar, SharesLeast, TellsParts, list_at, lists_of, values_behind};

use crate::candidates::Candidates;
use crate::value::Value;
use crate::wide_set::{PART, clear_wide, has_wide, insert_wide, parts_of};
use rel_base::ColSet;
use std::alloc::{AllocError, Global};
use std::cmp::Ordering;

/// Which lists of values are parts of which, by one pass over all of them from their least values upwards. At each value, the lists that have it
/// may be parts of these lists alone.
pub(crate) fn merged(alloc: Global, lists: &[Vec<Value>]) -> Result<Candidates, AllocError>
    requires { AllRise (values_behind lists.now) }
    ensures size { IfOk result (λ kept. kept.columns ≡ length lists.now) }
    ensures tells { IfOk result (λ kept. TellsParts (values_behind lists.now) (may kept)) }
{
    let mut rests = slices_of(alloc, lists)?;
    let mut kept = Candidates::all(alloc, lists.len())?;
    let mut shared = parts_of(alloc, ColSet::empty(), kept.parts())?;
    pass(&mut rests, &mut shared, &mut kept);
    Ok(kept)
}

// Takes all values off these lists, from the least one upwards.
fn pass(rests: &mut [&[Value]], shared: &mut [ColSet], kept: &mut Candidates)
    requires rise { AllRise (lists_of rests.old) }
    requires shared { length shared.old ≡ kept.old.parts }
    requires columns { kept.old.columns ≡ length rests.old }
    requires all { (c d : ℕ) → c < length rests.old → d < length rests.old → may kept.old c d ≡ true }
    ensures columns { kept.new.columns ≡ kept.old.columns }
    ensures tells { TellsParts (lists_of rests.old) (may kept.new) }
{
    let mut turns = Turns { left: 1, next: 1 };
    while mark_least(rests, shared) {
        advance(rests, shared, kept);
        drop_spent(rests, kept, &mut turns);
    }
}

// When to look for lists that are no longer needed: after 1, 2, 4 and so on turns, and at least after every so many.
#[derive(Drop)]
struct Turns {
    left: u32,
    next: u32,
}

impl Turns {
    // Counts a turn, and says whether it is time.
    fn is_due(&mut self) -> bool {
        self.left = self.left.saturating_sub(1);
        if self.left > 0 {
            return false;
        }
        self.next = self.next.saturating_mul(2).min(4_096);
        self.left = self.next;
        true
    }
}

// Where it is time, takes all that is left off the lists that are no longer needed.
fn drop_spent(rests: &mut [&[Value]], kept: &Candidates, turns: &mut Turns)
    requires { kept.now.columns ≡ length rests.old }
    ensures { (place : ℕ) → place < length rests.old
        → IsSameOrSpent kept.now (lists_of rests.new) place (list_at (lists_of rests.old) place) (list_at (lists_of rests.new) place) }
{
    if turns.is_due() {
        for place in 0..rests.len() {
            rests[place] = rest_if_needed(rests, kept, place);
        }
    }
}

fn rest_if_needed<'a, 'b>(
    rests: &[&'a [Value<'b>]],
    kept: &Candidates,
    place: usize,
) -> &'a [Value<'b>]
    requires columns { kept.now.columns ≡ length rests.now }
    requires place { place < kept.now.columns }
    ensures { IsSameOrSpent kept.now (lists_of rests.now) place (list_at (lists_of rests.now) place) result.now }
{
    let rest = rests[place];
    if !rest.is_empty() && is_spent(rests, kept, place) {
        &rest[..0]
    } else {
        rest
    }
}

// Whether the values that are left of a list tell nothing more: it is a part of no other list, and those that may be a part of it have ended.
fn is_spent(rests: &[&[Value]], kept: &Candidates, place: usize) -> bool
    requires columns { kept.now.columns ≡ length rests.now }
    requires place { place < kept.now.columns }
    ensures { IsTrue result → IsSpent kept.now (lists_of rests.now) place }
{
    for other in 0..rests.len() {
        if other != place && is_open(rests, kept, place, other) {
            return false;
        }
    }
    true
}

// Whether the values that are left of a list may tell something of it and another one.
fn is_open(rests: &[&[Value]], kept: &Candidates, place: usize, other: usize) -> bool
    requires columns { kept.now.columns ≡ length rests.now }
    requires place { place < kept.now.columns }
    requires other { other < kept.now.columns }
    ensures part { result ≡ false → may kept.now place other ≡ false }
    ensures whole { result ≡ false → (may kept.now other place ≡ false) ⊎ (list_at (lists_of rests.now) other ≡ []) }
{
    if kept.has(place, other) {
        return true;
    }
    if !kept.has(other, place) {
        return false;
    }
    !rests[other].is_empty()
}

fn slices_of<'a, 'b>(
    alloc: Global,
    lists: &'a [Vec<Value<'b>>],
) -> Result<Vec<&'a [Value<'b>]>, AllocError>
    ensures { IfOk result (λ slices. lists_of slices.items ≡ values_behind lists.now) }
{
    let mut slices = Vec::with_capacity(alloc, lists.len())?;
    for list in lists {
        slices.push(list.as_slice())?;
    }
    Ok(slices)
}

// Finds the least of the first values of these lists, and marks the lists that begin with it. Whether some list has one.
fn mark_least(rests: &[&[Value]], shared: &mut [ColSet]) -> bool
    requires { length rests.now ≤ PART * length shared.old }
    ensures { MatchBool result (SharesLeast (has_wide shared.new) (lists_of rests.now) (length rests.now)) (AllEnded (lists_of rests.now) (length rests.now)) }
{
    clear_wide(shared);
    let mut least = None;
    for place in 0..rests.len() {
        least = meet(rests, place, least, shared);
    }
    least.is_some()
}

fn first_of<'a, 'b>(rest: &'a [Value<'b>]) -> Option<&'a Value<'b>>
    ensures { IsFirstOf result rest.now }
{
    rest.first()
}

// The lesser of the least value so far and the first one of one more list, with the marks that belong to it.
fn meet<'a, 'b>(
    rests: &[&'a [Value<'b>]],
    place: usize,
    least: Option<&'a Value<'b>>,
    shared: &mut [ColSet],
) -> Option<&'a Value<'b>>
    requires place { place < length rests.now }
    requires room { length rests.now ≤ PART * length shared.old }
    requires so_far { LeastSoFar least (has_wide shared.old) (lists_of rests.now) place }
    ensures { LeastSoFar result (has_wide shared.new) (lists_of rests.now) (place + 1) }
{
    let Some(first) = first_of(rests[place]) else {
        return least;
    };
    let Some(value) = least else {
        insert_wide(shared, place);
        return Some(first);
    };
    match first.cmp(value) {
        Ordering::Less => {
            clear_wide(shared);
            insert_wide(shared, place);
            Some(first)
        }
        Ordering::Equal => {
            insert_wide(shared, place);
            Some(value)
        }
        Ordering::Greater => Some(value),
    }
}

// Takes the first value off the lists that are marked, and leaves each of them the marked lists alone that it may be a part of.
fn advance(rests: &mut [&[Value]], shared: &[ColSet], kept: &mut Candidates)
    requires shared { length shared.now ≡ kept.old.parts }
    requires kept { kept.old.columns ≡ length rests.old }
    ensures rests { (place : ℕ) → place < length rests.old
        → list_at (lists_of rests.new) place ≡ (if has_wide shared.now place then drop 1 (list_at (lists_of rests.old) place) else list_at (lists_of rests.old) place) }
    ensures columns { kept.new.columns ≡ kept.old.columns }
    ensures parts { kept.new.parts ≡ kept.old.parts }
    ensures kept { (c d : ℕ) → c < kept.old.columns → d < kept.old.columns
        → may kept.new c d ≡ (may kept.old c d && (if has_wide shared.now c then has_wide shared.now d else true)) }
{
    for place in 0..rests.len() {
        if has_wide(shared, place) {
            rests[place] = behind_first(rests[place]);
            kept.keep(place, shared);
        }
    }
}

fn behind_first<'a, 'b>(rest: &'a [Value<'b>]) -> &'a [Value<'b>]
    ensures { result.now ≡ drop 1 rest.now }
{
    if rest.is_empty() { rest } else { &rest[1..] }
}
