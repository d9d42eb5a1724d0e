// Partitions that are kept for later verdicts.
ghost use Rattle.std.specs.Prelude.{◌≡◌, ◌<◌, ◌≤◌, ◌+◌, ◌^◌, ℕ, Some, [], length, vec_len, true, IfOk, OnOk, IfSome, slice_index, slice_index_or, slice_set};
ghost use Rattle.std.specs.Option.{ForSome};
ghost use Rattle.col_set.specs.ColSet.{has, subset, union, with, empty};
ghost use Rattle.rel_base.specs.CodeTable.{CodeTable};
ghost use Rattle.stripped_partition.specs.AnyOrder.{AreGroupsBy};
ghost use Rattle.validator.specs.Kept.{IsKept, AreKept, AreWeights, AreKnown, weight_of};
ghost use Rattle.validator.specs.Asking.{IsAsked, IsAnswer};
ghost use Rattle.validator.specs.Verdicts.{AreFound, new_rows};
ghost use Rattle.validator.specs.Walk.{IsClear, plus};
ghost use Rattle.validator.specs.declared.cache.Kept.{Kept};

use crate::walk::{self, Question};
use crate::weighed::{Weighed, unknown_of, weighed_by};
use col_set::{ColSet, Target};
use indexmap::IndexMap;
use rel_base::{COLUMN_PLACES, MOST_COLUMNS, RowNo, Snapshot, Steps};
use std::alloc::{AllocError, Global};
use std::hash::{BuildHasherDefault, DefaultHasher};
use std::sync::Arc;
use std::sync::ledger::Ledger;
use std::thread::Threads;
use stripped_partition::{Partition, Scratch};

// The most columns of a set whose partition is kept, where it has few rows and else.
const MOST_KEPT_COLUMNS: u32 = 6;

const MOST_LARGE_COLUMNS: u32 = 4;

const FEW_KEPT_ROWS: usize = 1024;

// The most partitions that are kept.
const MOST_KEPT: usize = 65536;

// Of so many columns at most the partitions are made before they are kept, or let go of.
const MOST_AT_ONCE: u8 = 16;

// The weight of a column whose partition was not made yet.
pub(crate) const UNKNOWN: u32 = u32::MAX;

// What is searched for: pairs of rows that break a dependency which holds among the rows below a number, up to so many.
#[derive(Clone, Copy)]
pub(crate) struct Asked {
    pub(crate) left: ColSet,
    pub(crate) target: Target,
    pub(crate) from: RowNo,
    pub(crate) most: usize,
}

// The partition by some columns, and how many rows its groups have.
#[derive(Drop)]
pub(crate) struct Kept {
    pub(crate) partition: Arc<Partition>,
    pub(crate) columns: ColSet,
    pub(crate) rows: usize,
}

impl Kept {
    // The partition by these columns, as it is kept.
    pub(crate) fn of(
        alloc: Global,
        partition: Partition,
        columns: ColSet,
    ) -> Result<Kept, AllocError>
        ensures partition { IfOk result (λ kept. kept.partition.value ≡ partition) }
        ensures columns { IfOk result (λ kept. kept.columns ≡ columns) }
        ensures kept { IfOk result (λ kept. (s : CodeTable) → AreGroupsBy s columns partition → IsKept s kept) }
    {
        let rows = rows_of(&partition);
        let partition = Arc::new(alloc, partition)?;
        Ok(Kept {
            partition,
            columns,
            rows,
        })
    }

    // One more owner of the same partition.
    fn shared(&self) -> Result<Kept, AllocError>
        ensures { IfOk result (λ kept. (s : CodeTable) → IsKept s self.now → IsKept s kept) }
    {
        Ok(Kept {
            partition: self.partition.clone()?,
            columns: self.columns,
            rows: self.rows,
        })
    }
}

// By columns, a place. The hash is SipHash with a fixed key.
pub(crate) type Places = IndexMap<ColSet, usize, BuildHasherDefault<DefaultHasher>>;

// The partitions that are kept, the weight of each column, which is how many rows it does not tell from an earlier one, and the
// places where partitions are found.
//
// Columns are taken by `order`: their weights here or, where these are not known, as they were for earlier rows.
//
// The first `lasting` partitions stay for good. They have `rows` rows in their groups, of the `room` that there is, and a partition
// is large with more than `large` rows. Those that another cache made are not counted among the rows. Those behind the lasting ones are
// the path: what the last search made on its way and may not stay. No two of the path are by equally many columns. `last` is the left
// side of the last search that came to the end of its groups.
//
// The first `levelled` partitions were handed to who works beside the owner.
#[derive(Drop)]
pub(crate) struct Cache {
    pub(crate) kept: Vec<Kept>,
    pub(crate) weights: [u32; COLUMN_PLACES],
    pub(crate) order: [u32; COLUMN_PLACES],
    pub(crate) places: Places,
    last: ColSet,
    lasting: usize,
    levelled: usize,
    rows: usize,
    room: usize,
    large: usize,
}

// How many rows the groups have.
fn rows_of(partition: &Partition) -> usize {
    partition
        .group_count()
        .saturating_add(partition.error_count() as usize)
}

// The place of the partition by these columns, if it is kept. The table of places is but a hint, which is tried.
fn place_of(kept: &[Kept], places: &Places, columns: ColSet) -> Option<usize>
    ensures place { IfSome result (λ k. k < length kept.now) }
    ensures columns { (k : ℕ) (d : Kept) → result ≡ Some k → (slice_index_or kept.now k d).columns ≡ columns }
{
    let k = *places.get(&columns)?;
    if k < kept.len() && kept[k].columns == columns {
        Some(k)
    } else {
        None
    }
}

// The column of these that tells the most rows apart, as far as that is known.
pub(crate) fn lightest(columns: ColSet, first: u8, weights: &[u32; COLUMN_PLACES]) -> u8
    requires first { has columns first ≡ true }
    requires bound { first < MOST_COLUMNS }
    ensures column { has columns result ≡ true }
    ensures bound { result < MOST_COLUMNS }
{
    let mut best = first;
    let mut left = columns;
    while let Some(column) = left.first() {
        if weights[column as usize] < weights[best as usize] {
            best = column;
        }
        left = left.without(column);
    }
    best
}

// Keeps the partition by one more column than a kept one.
fn push_refined(
    alloc: Global,
    snapshot: &Snapshot,
    kept: &mut Vec<Kept>,
    slots: &mut Vec<u32>,
    scratch: &mut Scratch,
    k: usize,
    column: u8,
) -> Result<(), AllocError>
    requires kept { AreKept snapshot.now kept.old.items }
    requires clear { IsClear slots.old.items }
    requires place { k < vec_len kept.old }
    requires column { column < length snapshot.now.codes }
    requires bound { column < MOST_COLUMNS }
    ensures kept { AreKept snapshot.now kept.new.items }
    ensures len { OnOk result (vec_len kept.new ≡ vec_len kept.old + 1) }
    ensures columns { OnOk result ((d : Kept) → (slice_index_or kept.new.items (vec_len kept.old) d).columns ≡ with (slice_index_or kept.old.items k d).columns column) }
    ensures clear { OnOk result (IsClear slots.new.items) }
{
    let entry = &kept[k];
    let columns = entry.columns.with(column);
    let partition = entry
        .partition
        .refine_unordered(alloc, snapshot, column, slots, scratch)?;
    kept.push(Kept::of(alloc, partition, columns)?)?;
    Ok(())
}

// Keeps the partition by no column.
#[tactic(auto, using(stripped_partition::proofs::Refining::in_its_order))]
fn push_all(alloc: Global, snapshot: &Snapshot, kept: &mut Vec<Kept>) -> Result<(), AllocError>
    requires { AreKept snapshot.now kept.old.items }
    ensures kept { AreKept snapshot.now kept.new.items }
    ensures len { OnOk result (vec_len kept.new ≡ vec_len kept.old + 1) }
    ensures columns { OnOk result ((d : Kept) → (slice_index_or kept.new.items (vec_len kept.old) d).columns ≡ empty) }
{
    let partition = Partition::of_all(alloc, snapshot)?;
    kept.push(Kept::of(alloc, partition, ColSet::empty())?)?;
    Ok(())
}

// The place of the kept partition by the most of the lightest of these columns, up to six of them.
//
// Partitions are refined by the lightest column first, so those that are kept are by the lightest columns of some left side.
fn lightest_kept(
    kept: &[Kept],
    places: &Places,
    weights: &[u32; COLUMN_PLACES],
    columns: ColSet,
) -> Option<usize>
    ensures place { IfSome result (λ k. k < length kept.now) }
    ensures within { (k : ℕ) (d : Kept) → result ≡ Some k → subset (slice_index_or kept.now k d).columns columns ≡ true }
{
    let mut chosen = ColSet::empty();
    let mut best = place_of(kept, places, chosen);
    for _ in 0..MOST_KEPT_COLUMNS {
        let left = columns.minus(chosen);
        let Some(first) = left.first() else {
            return best;
        };
        chosen = chosen.with(lightest(left, first, weights));
        best = place_of(kept, places, chosen).or(best);
    }
    best
}

// Of a partition by some of these columns, if there is one, and those of the path, the place of the one by the most of them.
fn largest(kept: &[Kept], lasting: usize, columns: ColSet, found: Option<usize>) -> Option<usize>
    requires place { IfSome found (λ k. k < length kept.now) }
    requires within { (k : ℕ) (d : Kept) → found ≡ Some k → subset (slice_index_or kept.now k d).columns columns ≡ true }
    ensures place { IfSome result (λ k. k < length kept.now) }
    ensures within { (k : ℕ) (d : Kept) → result ≡ Some k → subset (slice_index_or kept.now k d).columns columns ≡ true }
{
    let mut best = found;
    for k in lasting..kept.len() {
        if kept[k].columns.subset_of(columns) && is_larger(kept, k, best) {
            best = Some(k);
        }
    }
    best
}

// Whether the partition at a place is by more columns than the one at another, if there is one.
fn is_larger(kept: &[Kept], k: usize, other: Option<usize>) -> bool
    requires place { k < length kept.now }
    requires other { IfSome other (λ k. k < length kept.now) }
{
    match other {
        Some(other) => kept[k].columns.len() > kept[other].columns.len(),
        None => true,
    }
}

// Whether no partition by some of these columns that stays for good is by more of them than the one at a place, if there is one.
fn is_unmatched(kept: &[Kept], columns: ColSet, found: Option<usize>) -> bool
    requires { IfSome found (λ k. k < length kept.now) }
{
    match found {
        Some(k) => kept[k].columns == columns || kept[k].columns.len() >= MOST_KEPT_COLUMNS,
        None => false,
    }
}

// Of the kept partitions by some of these columns and those of the path, the place of the one by the most of them, as far as it is
// found.
//
// The path is looked at first: mostly it has the groups by the whole left side, as the verdict before was on another of its targets,
// and then no column set is hashed.
fn best_kept(
    kept: &[Kept],
    lasting: usize,
    places: &Places,
    weights: &[u32; COLUMN_PLACES],
    columns: ColSet,
) -> Option<usize>
    ensures place { IfSome result (λ k. k < length kept.now) }
    ensures within { (k : ℕ) (d : Kept) → result ≡ Some k → subset (slice_index_or kept.now k d).columns columns ≡ true }
{
    let of_path = largest(kept, lasting, columns, None);
    if is_unmatched(kept, columns, of_path) {
        return of_path;
    }
    let found = lightest_kept(kept, places, weights, columns);
    largest(kept, lasting, columns, found)
}

// Refines a kept partition by all but one of the columns that are left, or by all, the lightest first, and keeps what it makes. It
// answers the place of the last one, and the column that is left to the comparisons, which is the heaviest.
fn refine_kept(
    alloc: Global,
    snapshot: &Snapshot,
    kept: &mut Vec<Kept>,
    weights: &[u32; COLUMN_PLACES],
    slots: &mut Vec<u32>,
    scratch: &mut Scratch,
    base: usize,
    columns: ColSet,
    by_all: bool,
) -> Result<(usize, Option<u8>), AllocError>
    requires kept { AreKept snapshot.now kept.old.items }
    requires clear { IsClear slots.old.items }
    requires place { base < vec_len kept.old }
    requires columns { columns < 2 ^ length snapshot.now.codes }
    ensures kept { AreKept snapshot.now kept.new.items }
    ensures place { IfOk result (λ r. r.0 < vec_len kept.new) }
    ensures columns { IfOk result (λ r. (d : Kept) → plus (slice_index_or kept.new.items r.0 d).columns r.1 ≡ union (slice_index_or kept.old.items base d).columns columns) }
    ensures by { IfOk result (λ r. ForSome r.1 (λ column. column < length snapshot.now.codes)) }
    ensures clear { OnOk result (IsClear slots.new.items) }
{
    let mut k = base;
    let mut left = columns;
    while let Some(first) = left.first() {
        if !by_all && left.without(first) == ColSet::empty() {
            return Ok((k, Some(first)));
        }
        let column = lightest(left, first, weights);
        let next = kept.len();
        push_refined(alloc, snapshot, kept, slots, scratch, k, column)?;
        k = next;
        left = left.without(column);
    }
    Ok((k, None))
}

// Notes where the partition by these columns is kept, and answers whether there was memory for it.
fn note(places: &mut Places, columns: ColSet, k: usize) -> bool {
    places.insert(columns, k).is_ok()
}

// No column's weight is known.
pub(crate) fn no_weights() -> [u32; COLUMN_PLACES]
    ensures { (s : CodeTable) → AreWeights s result }
{
    [UNKNOWN; COLUMN_PLACES]
}

impl Cache {
    // An empty cache with room for this many rows, for a snapshot with this many, whose columns are to be taken in this order.
    pub(crate) fn of(alloc: Global, rows: usize, room: usize, order: [u32; COLUMN_PLACES]) -> Cache
        ensures kept { result.kept.items ≡ [] }
        ensures weights { (s : CodeTable) → AreWeights s result.weights }
    {
        Cache {
            kept: Vec::new(alloc),
            weights: no_weights(),
            order,
            places: Places::with_hasher(alloc, BuildHasherDefault::new()),
            last: ColSet::empty(),
            lasting: 0,
            levelled: 0,
            rows: 0,
            room,
            large: rows / 2,
        }
    }

    // A cache for the same snapshot with room for so many rows, beside the partitions that stay here for good and which both share.
    pub(crate) fn beside(
        &self,
        alloc: Global,
        rows: usize,
        room: usize,
    ) -> Result<Cache, AllocError>
        ensures kept { IfOk result (λ cache. (s : CodeTable) → AreKept s self.now.kept.items → AreKept s cache.kept.items) }
        ensures weights { IfOk result (λ cache. cache.weights ≡ self.now.weights) }
    {
        let mut cache = Cache::of(alloc, rows, room, self.order);
        cache.weights = self.weights;
        cache.share(self, 0)?;
        cache.levelled = cache.lasting;
        Ok(cache)
    }

    // Shares those partitions that stay for good in another cache of the same snapshot, were not levelled there yet and are lacking here.
    // It lets go of the path if there are any.
    pub(crate) fn take_over(&mut self, other: &Cache) -> Result<(), AllocError>
        ensures kept { (s : CodeTable) → AreKept s self.old.kept.items → AreKept s other.now.kept.items → AreKept s self.new.kept.items }
        ensures weights { self.new.weights ≡ self.old.weights }
    {
        if other.levelled < other.lasting {
            self.share(other, other.levelled)?;
        }
        Ok(())
    }

    // Shares those partitions that stay for good in another cache from a place on and are lacking here, and lets go of the path.
    fn share(&mut self, other: &Cache, from: usize) -> Result<(), AllocError>
        ensures kept { (s : CodeTable) → AreKept s self.old.kept.items → AreKept s other.now.kept.items → AreKept s self.new.kept.items }
        ensures weights { self.new.weights ≡ self.old.weights }
    {
        self.kept.truncate(self.lasting);
        for k in from..other.lasting.min(other.kept.len()) {
            let columns = other.kept[k].columns;
            let place = self.kept.len();
            if place < MOST_KEPT && self.notes_new(columns, place) {
                self.kept.push(other.kept[k].shared()?)?;
                self.lasting = self.kept.len();
            }
        }
        Ok(())
    }

    // Whether no partition by these columns is kept, and there is memory to note that it will be at a place.
    fn notes_new(&mut self, columns: ColSet, place: usize) -> bool
        ensures kept { self.new.kept ≡ self.old.kept }
        ensures weights { self.new.weights ≡ self.old.weights }
    {
        match self.places.insert(columns, place) {
            Ok(Some(known)) if known < self.kept.len() && self.kept[known].columns == columns => {
                note(&mut self.places, columns, known);
                false
            }
            noted => noted.is_ok(),
        }
    }

    // All that stays for good was handed to the others.
    pub(crate) fn end_levelling(&mut self)
        ensures kept { self.new.kept ≡ self.old.kept }
        ensures weights { self.new.weights ≡ self.old.weights }
    {
        self.levelled = self.lasting;
    }

    // Whether the place in the order of one of these columns is not known.
    fn lacks_order(&self, columns: ColSet) -> bool {
        let mut left = columns;
        while let Some(column) = left.first() {
            if self.order[column as usize] == UNKNOWN {
                return true;
            }
            left = left.without(column);
        }
        false
    }

    // Searches the groups by a left side for pairs that break its dependency.
    pub(crate) fn search<L: Ledger>(
        &mut self,
        alloc: Global,
        snapshot: &Snapshot,
        asked: &Asked,
        slots: &mut Vec<u32>,
        scratch: &mut Scratch,
        steps: &mut Steps<L>,
    ) -> Result<Vec<(RowNo, RowNo)>, AllocError>
        requires asked { IsAsked snapshot.now asked.now }
        requires kept { AreKept snapshot.now self.old.kept.items }
        requires weights { AreWeights snapshot.now self.old.weights }
        requires clear { IsClear slots.old.items }
        ensures kept { AreKept snapshot.now self.new.kept.items }
        ensures weights { AreWeights snapshot.now self.new.weights }
        ensures clear { OnOk result (IsClear slots.new.items) }
        ensures answer { IfOk result (IsAnswer snapshot.now asked.now) }
        ensures steps { steps.new ≤ steps.old + new_rows snapshot.now asked.now.from }
    {
        if self.lacks_order(asked.left) {
            self.weigh(alloc, snapshot, asked.left)?;
        }
        self.shorten_path(asked.left);
        let found = self.search_kept(alloc, snapshot, asked, slots, scratch, steps);
        self.keep_for_good();
        self.note_end(asked, &found);
        found
    }

    // Notes the left side of a search that found fewer pairs than were asked for, and so came to the end of its groups.
    fn note_end(&mut self, asked: &Asked, found: &Result<Vec<(RowNo, RowNo)>, AllocError>)
        ensures kept { self.new.kept ≡ self.old.kept }
        ensures weights { self.new.weights ≡ self.old.weights }
    {
        if let Ok(pairs) = found {
            if pairs.len() < asked.most {
                self.last = asked.left;
            }
        }
    }

    // The weight of each column of the snapshot.
    pub(crate) fn weights(
        &mut self,
        alloc: Global,
        snapshot: &Snapshot,
    ) -> Result<[u32; COLUMN_PLACES], AllocError>
        requires kept { AreKept snapshot.now self.old.kept.items }
        requires weights { AreWeights snapshot.now self.old.weights }
        ensures kept { AreKept snapshot.now self.new.kept.items }
        ensures weights { AreWeights snapshot.now self.new.weights }
        ensures known { IfOk result (λ weights. (column : ℕ) → column < length snapshot.now.codes → slice_index weights column ≡ weight_of snapshot.now column) }
    {
        self.weigh(alloc, snapshot, ColSet::all(snapshot.columns()))?;
        Ok(self.weights)
    }

    // Learns the weights of these columns that are not known yet, and keeps the partitions by them that may stay.
    fn weigh(
        &mut self,
        alloc: Global,
        snapshot: &Snapshot,
        columns: ColSet,
    ) -> Result<(), AllocError>
        requires kept { AreKept snapshot.now self.old.kept.items }
        requires weights { AreWeights snapshot.now self.old.weights }
        requires columns { columns < 2 ^ length snapshot.now.codes }
        ensures kept { AreKept snapshot.now self.new.kept.items }
        ensures weights { AreWeights snapshot.now self.new.weights }
        ensures known { OnOk result (AreKnown snapshot.now columns self.new.weights) }
    {
        let mut left = columns;
        while let Some(column) = left.first() {
            if self.weights[column as usize] == UNKNOWN {
                self.weigh_column(alloc, snapshot, column)?;
            }
            left = left.without(column);
        }
        Ok(())
    }

    // Finds the weight of a column. It lets go of the path, so that behind what stays for good nothing stands but the column's partition.
    fn weigh_column(
        &mut self,
        alloc: Global,
        snapshot: &Snapshot,
        column: u8,
    ) -> Result<(), AllocError>
        requires kept { AreKept snapshot.now self.old.kept.items }
        requires weights { AreWeights snapshot.now self.old.weights }
        requires column { column < length snapshot.now.codes }
        requires bound { column < MOST_COLUMNS }
        ensures kept { AreKept snapshot.now self.new.kept.items }
        ensures weights { AreWeights snapshot.now self.new.weights }
        ensures known { OnOk result (self.new.weights ≡ slice_set self.old.weights column (weight_of snapshot.now column)) }
    {
        let weighed = Weighed::of(alloc, snapshot, column)?;
        self.keep_weighed(weighed)
    }

    // Learns the weight of a column, and keeps the partition by it if that may stay.
    fn keep_weighed(&mut self, weighed: Weighed) -> Result<(), AllocError>
        requires { weighed.column < MOST_COLUMNS }
        ensures kept { (s : CodeTable) → IsKept s weighed.kept → AreKept s self.old.kept.items → AreKept s self.new.kept.items }
        ensures weights { self.new.weights ≡ slice_set self.old.weights weighed.column weighed.weight }
    {
        self.weights[weighed.column as usize] = weighed.weight;
        self.order[weighed.column as usize] = weighed.weight;
        self.kept.truncate(self.lasting);
        self.kept.push(weighed.kept)?;
        self.keep_for_good();
        self.kept.truncate(self.lasting);
        Ok(())
    }

    // Learns the weights that are not known yet, by so many threads at most.
    pub(crate) fn weigh_by<R: Threads + Sync>(
        &mut self,
        rt: &R,
        alloc: Global,
        snapshot: &Snapshot,
        workers: u8,
    ) -> Result<(), AllocError>
        requires kept { AreKept snapshot.now self.old.kept.items }
        requires weights { AreWeights snapshot.now self.old.weights }
        ensures kept { AreKept snapshot.now self.new.kept.items }
        ensures weights { AreWeights snapshot.now self.new.weights }
    {
        let count = snapshot.columns();
        let mut first = 0;
        while first < count {
            let end = count.min(first.saturating_add(MOST_AT_ONCE));
            self.weigh_some(rt, alloc, snapshot, first, end, workers)?;
            first = end;
        }
        Ok(())
    }

    // Learns the weights that are not known yet of the columns from the first up to the end, by so many threads at most.
    fn weigh_some<R: Threads + Sync>(
        &mut self,
        rt: &R,
        alloc: Global,
        snapshot: &Snapshot,
        first: u8,
        end: u8,
        workers: u8,
    ) -> Result<(), AllocError>
        requires kept { AreKept snapshot.now self.old.kept.items }
        requires weights { AreWeights snapshot.now self.old.weights }
        requires end { end ≤ length snapshot.now.codes }
        ensures kept { AreKept snapshot.now self.new.kept.items }
        ensures weights { AreWeights snapshot.now self.new.weights }
    {
        // `columns` is called for its clause that there are at most `MOST_COLUMNS`.
        let _count = snapshot.columns();
        let unknown = unknown_of(alloc, &self.weights, first, end)?;
        for weighed in weighed_by(rt, alloc, snapshot, &unknown, workers)? {
            self.keep_weighed(weighed)?;
        }
        Ok(())
    }

    // Drops those of the path that are by a column which is not one of these.
    fn shorten_path(&mut self, columns: ColSet)
        ensures kept { (s : CodeTable) → AreKept s self.old.kept.items → AreKept s self.new.kept.items }
        ensures weights { self.new.weights ≡ self.old.weights }
    {
        let mut k = self.lasting;
        while k < self.kept.len() {
            if self.kept[k].columns.subset_of(columns) {
                k += 1;
            } else {
                drop(self.kept.remove(k));
            }
        }
    }

    // Searches the groups, where the weights are known and the path is by columns of the left side. What it makes is added to the path.
    //
    // A left side that is asked for again, with another target, is likely to come with further ones. If the search before came to the end
    // of the groups, all columns serve to make groups, which are far smaller: that takes less than a few comparisons by the last column.
    fn search_kept<L: Ledger>(
        &mut self,
        alloc: Global,
        snapshot: &Snapshot,
        asked: &Asked,
        slots: &mut Vec<u32>,
        scratch: &mut Scratch,
        steps: &mut Steps<L>,
    ) -> Result<Vec<(RowNo, RowNo)>, AllocError>
        requires asked { IsAsked snapshot.now asked.now }
        requires kept { AreKept snapshot.now self.old.kept.items }
        requires clear { IsClear slots.old.items }
        ensures kept { AreKept snapshot.now self.new.kept.items }
        ensures weights { self.new.weights ≡ self.old.weights }
        ensures clear { OnOk result (IsClear slots.new.items) }
        ensures answer { IfOk result (IsAnswer snapshot.now asked.now) }
        ensures steps { steps.new ≤ steps.old + new_rows snapshot.now asked.now.from }
    {
        let by_all = asked.left == self.last;
        let base = self.base(alloc, snapshot, asked.left)?;
        let rest = asked.left.minus(self.kept[base].columns);
        let (k, by) = refine_kept(
            alloc,
            snapshot,
            &mut self.kept,
            &self.order,
            slots,
            scratch,
            base,
            rest,
            by_all,
        )?;
        let question = Question {
            target: asked.target,
            by,
            from: asked.from,
            most: asked.most,
        };
        let partition = &self.kept[k].partition;
        walk::pairs_in_groups(alloc, partition, snapshot, &question, slots, steps)
    }

    // Where a search by these columns begins: the place of a partition by some of them.
    fn base(
        &mut self,
        alloc: Global,
        snapshot: &Snapshot,
        columns: ColSet,
    ) -> Result<usize, AllocError>
        requires { AreKept snapshot.now self.old.kept.items }
        ensures kept { AreKept snapshot.now self.new.kept.items }
        ensures weights { self.new.weights ≡ self.old.weights }
        ensures place { IfOk result (λ k. k < vec_len self.new.kept) }
        ensures within { IfOk result (λ k. (d : Kept) → subset (slice_index_or self.new.kept.items k d).columns columns ≡ true) }
    {
        let found = best_kept(&self.kept, self.lasting, &self.places, &self.order, columns);
        if let Some(k) = found {
            return Ok(k);
        }
        let k = self.kept.len();
        push_all(alloc, snapshot, &mut self.kept)?;
        Ok(k)
    }

    // Those of the path that may stay for good do so from now on.
    fn keep_for_good(&mut self)
        ensures kept { (s : CodeTable) → AreKept s self.old.kept.items → AreKept s self.new.kept.items }
        ensures weights { self.new.weights ≡ self.old.weights }
    {
        for k in self.lasting..self.kept.len() {
            if self.accepts(k) {
                self.kept.swap(self.lasting, k);
                self.lasting += 1;
            }
        }
    }

    // Whether the partition at a place may stay for good, beside those that do. If so it is counted, and looked for behind these. One by
    // the whole left side serves few but this one.
    fn accepts(&mut self, k: usize) -> bool
        requires { k < vec_len self.old.kept }
        ensures kept { self.new.kept ≡ self.old.kept }
        ensures weights { self.new.weights ≡ self.old.weights }
        ensures lasting { self.new.lasting ≡ self.old.lasting }
    {
        let columns = self.kept[k].columns;
        let rows = self.rows.saturating_add(self.kept[k].rows);
        if columns == self.last
            || columns.len() > self.most_columns_of(k)
            || self.lasting >= MOST_KEPT
            || rows > self.room_for(k)
        {
            return false;
        }
        if !note(&mut self.places, columns, self.lasting) {
            return false;
        }
        self.rows = rows;
        true
    }

    // By how many columns the partition at a place may be to stay: those by many columns are worth their place where they are small.
    fn most_columns_of(&self, k: usize) -> u32
        requires { k < vec_len self.now.kept }
    {
        if self.kept[k].rows > FEW_KEPT_ROWS {
            MOST_LARGE_COLUMNS
        } else {
            MOST_KEPT_COLUMNS
        }
    }

    // How many rows all that is kept may have with the partition at a place: half of the room, if it has more than half of the
    // snapshot's rows. So large partitions, from which a verdict costs nearly what it costs from all rows, don't fill the room.
    fn room_for(&self, k: usize) -> usize
        requires { k < vec_len self.now.kept }
    {
        if self.kept[k].rows > self.large {
            self.room / 2
        } else {
            self.room
        }
    }
}
