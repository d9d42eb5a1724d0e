// Whether what a certificate lists holds in the rows.
ghost use Rattle.std.specs.Prelude.{◌≡◌, ◌⊎◌, ◌<◌, ◌≤◌, ◌+◌, ◌^◌, ℕ, length, slice_index_or, IfOk, OnOk};
ghost use Rattle.std.specs.List.{All, AllZip};
ghost use Rattle.col_set.specs.Lists.{Listed};
ghost use Rattle.rayon.specs.Lists.{chunks_of};
ghost use Rattle.col_set.specs.ColSet.{Columns};
ghost use Rattle.col_set.specs.Target.{IsColumnTarget};
ghost use Rattle.rel_base.specs.Shows.{holds_in};
ghost use Rattle.stripped_partition.specs.AnyOrder.{AreGroupsBy, AreGroupsOf};
ghost use Rattle.cover_cert.specs.Certificates.{rows_in, fails};
ghost use Rattle.cover_cert.specs.Comparing.{first_where};
ghost use Rattle.cover_cert.specs.Holding.{IsWithin, AreVisits, HoldsAt, FailsAt, IsLeastFailing, IsLeastOf};

use crate::line::Claim;
use rayon::prelude::*;
use rel_base::{ColSet, MOST_COLUMNS, Snapshot, Target};
use std::alloc::{AllocError, Global};
use std::thread::Threads;
use stripped_partition::{Partition, Path, weights};

// The columns by how many rows they leave together, those that tell most apart first.
fn order_of(alloc: Global, snapshot: &Snapshot) -> Result<Vec<u8>, AllocError> {
    let weights = weights(alloc, snapshot)?;
    let mut columns = Vec::with_capacity(alloc, weights.len())?;
    for column in 0..snapshot.columns() {
        if let Some(weight) = weights.get(column as usize) {
            columns.push((*weight, column))?;
        }
    }
    columns.sort_unstable();
    let mut order = Vec::with_capacity(alloc, columns.len())?;
    for column in columns.iter() {
        order.push(column.1)?;
    }
    Ok(order)
}

// For each column the bit by which it counts in a rank: those that come first in this order count most.
fn bits_of(alloc: Global, order: &[u8]) -> Result<Vec<u128>, AllocError> {
    let mut bits = vec![in alloc; 0; MOST_COLUMNS as usize]?;
    let mut bit: u128 = 1 << 127;
    for column in order {
        if let Some(place) = bits.get_mut(*column as usize) {
            *place = bit;
        }
        bit >>= 1;
    }
    Ok(bits)
}

// A number by which left sides that begin with the same columns of an order stand beside each other.
fn rank_of(bits: &[u128], left: ColSet) -> u128 {
    let mut rank = 0;
    let mut rest = left;
    while let Some(column) = rest.first() {
        rank |= bits.get(column as usize).copied().unwrap_or(0);
        rest = rest.without(column);
    }
    rank
}

// The places of all claims, in an order in which left sides share partitions, each behind its rank.
fn visits_of(
    alloc: Global,
    order: &[u8],
    claims: &[Claim],
) -> Result<Vec<(u128, usize)>, AllocError>
    ensures { IfOk result (λ visits. AreVisits (length claims.now) visits.items) }
{
    let bits = bits_of(alloc, order)?;
    let mut visits = ranked(alloc, bits.as_slice(), claims)?;
    visits.sort_unstable();
    Ok(visits)
}

// The places of all claims, each behind its rank.
fn ranked(alloc: Global, bits: &[u128], claims: &[Claim]) -> Result<Vec<(u128, usize)>, AllocError>
    ensures { IfOk result (λ visits. AreVisits (length claims.now) visits.items) }
{
    let mut visits = Vec::with_capacity(alloc, claims.len())?;
    for place in 0..claims.len() {
        visits.push((rank_of(bits, claims[place].left), place))?;
    }
    Ok(visits)
}

// Sends a path to these columns, if it does not stand there.
fn send(path: &mut Path, left: ColSet) -> Result<(), AllocError>
    requires { left < 2 ^ length path.old.table.codes }
    ensures table { path.new.table ≡ path.old.table }
    ensures there { OnOk result (path.new.columns ≡ left) }
{
    if path.columns() != left {
        path.go_to(left)?;
    }
    Ok(())
}

// Whether the columns by which these groups are determine the target.
fn determine(groups: &Partition, snapshot: &Snapshot, target: Target) -> bool
    requires of { AreGroupsOf snapshot.now groups.now }
    requires target { IsColumnTarget (length snapshot.now.codes) target }
    ensures { (x : Columns) → AreGroupsBy snapshot.now x groups.now → result ≡ holds_in snapshot.now x target }
{
    match target {
        Target::RowId => groups.group_count() == 0,
        Target::Col(column) => groups.splits_by(snapshot, column).is_none(),
    }
}

// Whether a claim holds in the rows of a path.
fn holds(path: &mut Path, snapshot: &Snapshot, claim: Claim) -> Result<bool, AllocError>
    requires path { path.old.table ≡ snapshot.now }
    requires within { IsWithin (length snapshot.now.codes) claim }
    ensures path { path.new.table ≡ snapshot.now }
    ensures value { IfOk result (λ held. held ≡ holds_in snapshot.now claim.left claim.target) }
{
    send(path, claim.left)?;
    let groups = path.groups();
    Ok(determine(groups, snapshot, claim.target))
}

// The least place that fails once a further one is visited. A place that is not before the least so far is not looked at.
fn least_with(
    path: &mut Path,
    snapshot: &Snapshot,
    claims: &[Claim],
    least: usize,
    place: usize,
) -> Result<usize, AllocError>
    requires path { path.old.table ≡ snapshot.now }
    requires within { All (IsWithin (length snapshot.now.codes)) claims.now }
    requires bound { least ≤ length claims.now }
    ensures path { path.new.table ≡ snapshot.now }
    ensures less { IfOk result (λ next. next ≤ least) }
    ensures fails { IfOk result (λ next. FailsAt snapshot.now claims.now least → FailsAt snapshot.now claims.now next) }
    ensures held { IfOk result (λ next. place < next → HoldsAt snapshot.now claims.now place) }
{
    if place >= least {
        return Ok(least);
    }
    let held = holds(path, snapshot, claims[place])?;
    if held {
        return Ok(least);
    }
    Ok(place)
}

// The place of the first claim that fails among those that are visited, or how many claims there are. Once one fails, only those before it are
// looked at.
fn least_failing(
    alloc: Global,
    snapshot: &Snapshot,
    order: &[u8],
    claims: &[Claim],
    visits: &[(u128, usize)],
) -> Result<usize, AllocError>
    requires within { All (IsWithin (length snapshot.now.codes)) claims.now }
    ensures { IfOk result (IsLeastOf snapshot.now claims.now visits.now) }
{
    let mut path = Path::new(alloc, snapshot, order)?;
    let mut least = claims.len();
    for visit in visits {
        let next = least_with(&mut path, snapshot, claims, least, visit.1)?;
        least = next;
    }
    Ok(least)
}

// The same of each stretch of so many visits, by several threads.
fn least_by_stretch<R: Threads + Sync>(
    rt: &R,
    alloc: Global,
    snapshot: &Snapshot,
    order: &[u8],
    claims: &[Claim],
    visits: &[(u128, usize)],
    stretch: usize,
) -> Result<Vec<usize>, AllocError>
    requires within { All (IsWithin (length snapshot.now.codes)) claims.now }
    requires some { 0 < stretch }
    ensures { IfOk result (λ places. AllZip (IsLeastOf snapshot.now claims.now) (chunks_of stretch visits.now) places.items) }
{
    let places: Result<Vec<usize>, AllocError> = visits
        .par_chunks(stretch)
        .map(
            move |part: &[(u128, usize)]| -> Result<usize, AllocError>
                requires { All (IsWithin (length snapshot.now.codes)) claims.now }
                ensures { IfOk result (IsLeastOf snapshot.entry.now claims.entry.now part.now) }
            {
                let place = least_failing(alloc, snapshot, order, claims, part)?;
                Ok(place)
            },
        )
        .collect(rt, alloc)?;
    places
}

// The least of these places, or the bound where none is below it.
fn least_of(places: &[usize], bound: usize) -> usize
    ensures bound { result ≤ bound }
    ensures least { (k d : ℕ) → k < length places.now → result ≤ slice_index_or places.now k d }
    ensures found { (result ≡ bound) ⊎ Listed result places.now }
{
    let mut least = bound;
    for place in places {
        if *place < least {
            least = *place;
        }
    }
    least
}

// The place of the first claim that fails, or how many there are, by so many threads at most. Each has visits that stand beside each other, so
// they share partitions as they do with one thread.
fn least_failing_by<R: Threads + Sync>(
    rt: &R,
    alloc: Global,
    snapshot: &Snapshot,
    order: &[u8],
    claims: &[Claim],
    visits: &[(u128, usize)],
    workers: u8,
) -> Result<usize, AllocError>
    requires within { All (IsWithin (length snapshot.now.codes)) claims.now }
    requires visits { AreVisits (length claims.now) visits.now }
    ensures { IfOk result (IsLeastFailing snapshot.now claims.now) }
{
    let stretch = visits.len().div_ceil(workers.max(1) as usize).max(1);
    let places = least_by_stretch(rt, alloc, snapshot, order, claims, visits, stretch)?;
    Ok(least_of(places.as_slice(), claims.len()))
}

/// The record of the first claim that fails in the rows. The first claim has this number.
///
/// Each left side is gone to once, on partitions by its lightest columns first, so that those which begin alike share refinements.
pub(crate) fn first_failing<R: Threads + Sync>(
    rt: &R,
    alloc: Global,
    snapshot: &Snapshot,
    claims: &[Claim],
    number: u64,
    workers: u8,
) -> Result<Option<u64>, AllocError>
    requires within { All (IsWithin (length snapshot.now.codes)) claims.now }
    requires short { number + length claims.now < 2 ^ 64 }
    ensures { IfOk result (λ found. found ≡ first_where (fails (rows_in snapshot.now)) number claims.now) }
{
    let order = order_of(alloc, snapshot)?;
    let visits = visits_of(alloc, order.as_slice(), claims)?;
    let order = order.as_slice();
    let visits = visits.as_slice();
    let place = least_failing_by(rt, alloc, snapshot, order, claims, visits, workers)?;
    if place < claims.len() {
        return Ok(Some(number + place as u64));
    }
    Ok(None)
}
