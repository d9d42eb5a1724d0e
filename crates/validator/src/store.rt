// Verdicts that start from kept partitions.
ghost use Rattle.std.specs.Prelude.{◌≡◌, ◌<◌, ◌≤◌, ◌+◌, ◌↔◌, ℕ, [], true, length, slice_index, vec_len, IfOk, IfSome};
ghost use Rattle.std.specs.List.{All};
ghost use Rattle.col_set.specs.ColSet.{has, with, empty};
ghost use Rattle.rel_base.specs.Alike.{Alike};
ghost use Rattle.rel_base.specs.Shows.{holds_in};
ghost use Rattle.stripped_partition.specs.Stripped.{stripped, error_of};
ghost use Rattle.validator.specs.Asking.{IsAsked, IsAnswer};
ghost use Rattle.validator.specs.Verdicts.{AreApart, AreFound, IsFitting, IsVerdict, new_rows};
ghost use Rattle.validator.specs.declared.verdict.Verdict.TheVariants.{Holds, Broken};

use crate::cache::{Asked, Cache, lightest, no_weights};
use crate::links::{self, Link};
use crate::old_groups::OldGroups;
use crate::{Verdict, judge};
use rel_base::{COLUMN_PLACES, Job, RowNo, Snapshot, Steps};
use std::alloc::{AllocError, Global};
use std::marker::Model;
use std::mem;
use std::sync::Arc;
use std::sync::ledger::Ledger;
use std::thread::Threads;
use stripped_partition::Scratch;

// So many live rows are few enough that new ones are looked up whatever the column.
const FEW_ROWS: u32 = 1000;

/// Stripped partitions of one snapshot, which verdicts start from. One worker owns it.
///
/// It keeps the partition by each single column that a verdict or `weights` asked for, and those by two to four columns that it
/// made on its way, by up to six where they have few rows, 65,536 of them at most, as long as the rows of all that is kept fit its
/// room. A partition with more than half of the snapshot's rows is kept only as long as they fit half of it.
///
/// What the last verdict made on its way and may not stay, being by more columns or without room, is the path. The next
/// verdict lets go of what is by columns that are not in its left side, and goes on from the rest. So verdicts are cheap in an
/// order in which left sides that share their lightest columns follow each other (`weights`), with all targets of a left side in
/// a row: each refines behind the columns that it shares with the one before, and nothing where the left side is the same.
///
/// The path comes on top of the room. It has at most one partition for each number of columns up to that of the left side, and
/// most of them have few rows. So do a slot for each code, 4 bytes each, and the codes and parts of the rows of the largest partition
/// that was refined, up to 10 bytes a row, which stay so that no verdict makes them anew.
///
/// The groups of kept partitions stand in no order, since no verdict wants one: to put many of them in order takes half the time of
/// making them.
///
/// Where the new rows of a job are few, they are looked up one by one and no group is made: each new row is compared with the last
/// row before it in its group, found among the rows with its code in the lightest column of the left side, which are linked. The
/// links of a column take 4 bytes a row and a code, on top of the room, and a pass over the rows when they are first wanted; a
/// store that goes over to later rows (`renew`) keeps them.
///
/// Contracts see the codes of the store's snapshot.
#[derive(Drop)]
pub struct Store {
    snapshot: Arc<Snapshot>,
    cache: Cache,
    slots: Vec<u32>,
    scratch: Scratch,
    links: Vec<Link>,
    earlier: Option<Arc<Snapshot>>,
    room: usize,
}

impl Model for Store {
    ghost use Rattle.rel_base.specs.CodeTable.{CodeTable};

    ghost Value = { CodeTable };

    ghost use Rattle.validator.specs.Kept.{AreKept, AreWeights};
    ghost use Rattle.validator.specs.Links.{AreLinks, linked_of};
    ghost use Rattle.validator.specs.Walk.{IsClear};

    ghost view = { λ s. s.snapshot.value };

    ghost invariant = { λ s. AreKept s.snapshot.value s.cache.kept.items × AreWeights s.snapshot.value s.cache.weights × IsClear s.slots.items × AreLinks (linked_of (λ earlier. earlier.value) s.snapshot.value s.earlier) s.links.items };
}

impl Store {
    /// An empty store for a snapshot, with room for this many row numbers in all that it keeps. It takes no memory.
    pub fn of(alloc: Global, snapshot: Arc<Snapshot>, room: usize) -> Store
        ensures { result ≡ snapshot.value }
    {
        let rows = snapshot.to().number() as usize;
        Store {
            snapshot,
            cache: Cache::of(alloc, rows, room, no_weights()),
            slots: Vec::new(alloc),
            scratch: Scratch::new(alloc),
            links: Vec::new(alloc),
            earlier: None,
            room,
        }
    }

    /// A store for the same snapshot, with room for this many row numbers, that goes by the weights which this one found: so who works
    /// beside its owner takes the same columns first. The partitions that are kept here are shared with it, and come on top of its room,
    /// since they take no memory of their own; it has no others.
    pub fn another(&self, alloc: Global, room: usize) -> Result<Store, AllocError>
        ensures { IfOk result (λ store. store ≡ self.now) }
    {
        let snapshot = self.snapshot.clone()?;
        let rows = snapshot.to().number() as usize;
        let cache = self.cache.beside(alloc, rows, room)?;
        Ok(Store {
            snapshot,
            cache,
            slots: Vec::new(alloc),
            scratch: Scratch::new(alloc),
            links: Vec::new(alloc),
            earlier: None,
            room,
        })
    }

    // Shares what another store of the same snapshot keeps for good, as far as that is new and lacking here. It comes on top of the room.
    pub(crate) fn take_over(&mut self, other: &Store) -> Result<(), AllocError>
        requires { other.now ≡ self.old }
        ensures { self.new ≡ self.old }
    {
        self.cache.take_over(&other.cache)
    }

    // All that is kept for good was handed to the other stores.
    pub(crate) fn end_levelling(&mut self)
        ensures { self.new ≡ self.old }
    {
        self.cache.end_levelling();
    }

    /// Goes over to another snapshot, mostly a later one of the same relation. It takes no memory, and some steps a column. What it
    /// lets go of is handed out, so that its caller chooses when that takes its time.
    ///
    /// The partitions go. What look-ups of new rows made stays, and serves the new snapshot where the rows that both have are coded
    /// alike, as those of one row log are: the first look-up compares the codes of all rows in each column that look-ups go by, which
    /// takes little against making it anew.
    pub fn renew(&mut self, alloc: Global, snapshot: Arc<Snapshot>) -> OldGroups
        ensures { self.new ≡ snapshot.value }
    {
        let rows = snapshot.to().number() as usize;
        let order = self.cache.order;
        let cache = mem::replace(&mut self.cache, Cache::of(alloc, rows, self.room, order));
        let last = mem::replace(&mut self.snapshot, snapshot);
        let (earlier, unneeded) = links::kept_earlier(self.earlier.take(), last);
        self.earlier = Some(earlier);
        OldGroups::of(cache, unneeded)
    }

    /// Validates a job as `validate` does, with the same answer to whether the dependency holds, on the store's snapshot: one of the
    /// same live rows as the job's, which agree in the same columns. So a store serves all jobs on the same rows.
    ///
    /// It takes the columns of the left side in the order of how many rows they tell apart, the lightest first. It starts from the
    /// kept partition by the most of the first of them, up to six, or from one of the path if that is by more columns, refines it
    /// by the others but the last, and compares the rows of each group by the last one's codes, up to the first difference. Where the
    /// left side is that of the verdict before, it refines by all of them: so further targets of one left side cost a look at the few
    /// rows that still share a group. A verdict takes time by the rows of the partition, not by how many are kept; one on few new rows
    /// takes time by them and the rows with their codes in one column. After want of memory the store is as useful as before.
    pub fn validate<L: Ledger>(
        &mut self,
        alloc: Global,
        job: &Job,
        steps: &mut Steps<L>,
    ) -> Result<Verdict, AllocError>
        requires alike { Alike self.old job.now.snapshot }
        requires fitting { IsFitting job.now }
        ensures verdict { IfOk result (IsVerdict job.now) }
        ensures exactly { IfOk result (λ verdict. (verdict ≡ Holds job.now.to) ↔ (holds_in job.now.snapshot job.now.left job.now.target ≡ true)) }
        ensures steps { steps.new ≤ steps.old + new_rows job.now.snapshot job.now.from }
        ensures store { self.new ≡ self.old }
    {
        let pairs = self.violations(alloc, job, 1, steps)?;
        Ok(judge::verdict_of(job, &pairs))
    }

    /// Pairs of live rows that break a job's dependency, on a store of the same rows: up to so many, and none exactly where it holds.
    ///
    /// Of each pair the smaller number comes first, and the two rows agree on the left side and differ on the target. No two pairs
    /// come from one group of rows that agree on the left side. The work of a verdict that fails is nearly all in the refining of
    /// the groups, which is done for the first pair already: those of further groups come nearly free, and each is evidence against
    /// other candidates too. So a worker asks for some tens here rather than for one verdict after another.
    ///
    /// It takes the time of `validate` where the dependency holds. After want of memory the store is as useful as before.
    pub fn violations<L: Ledger>(
        &mut self,
        alloc: Global,
        job: &Job,
        most: usize,
        steps: &mut Steps<L>,
    ) -> Result<Vec<(RowNo, RowNo)>, AllocError>
        requires some { 0 < most }
        requires alike { Alike self.old job.now.snapshot }
        requires fitting { IsFitting job.now }
        ensures pairs { IfOk result (λ pairs. All (λ pair. IsVerdict job.now (Broken pair.0 pair.1)) pairs.items) }
        ensures groups { IfOk result (λ pairs. AreApart job.now.snapshot job.now.left pairs.items) }
        ensures few { IfOk result (λ pairs. vec_len pairs ≤ most) }
        ensures exactly { IfOk result (λ pairs. (pairs.items ≡ []) ↔ (holds_in job.now.snapshot job.now.left job.now.target ≡ true)) }
        ensures steps { steps.new ≤ steps.old + new_rows job.now.snapshot job.now.from }
        ensures store { self.new ≡ self.old }
    {
        let asked = Asked {
            left: job.left(),
            target: job.target(),
            from: job.from(),
            most,
        };
        match self.column_for(&asked) {
            Some(column) => self.look_up(alloc, &asked, column, steps),
            None => self.search_groups(alloc, &asked, steps),
        }
    }

    /// The weight of each column of the store's snapshot, at the column's place: how many live rows it does not tell from an
    /// earlier one. Places beyond the columns tell nothing.
    ///
    /// A caller puts its left sides in order by it: the columns of each by weight, ties by number, and the left sides by their
    /// lightest column, then by the second lightest, and so on. In this order verdicts share the groups that they are made from.
    ///
    /// It makes the partition by each column that no verdict asked for yet, by a pass over all live rows, and keeps those that may
    /// stay; a second call makes none. It lets go of the path if it makes any. After want of memory the store is as useful as
    /// before.
    pub fn weights(&mut self, alloc: Global) -> Result<[u32; COLUMN_PLACES], AllocError>
        ensures weights { IfOk result (λ weights. (column : ℕ) → column < length self.old.codes → slice_index weights column ≡ error_of (stripped self.old (with empty column))) }
        ensures store { self.new ≡ self.old }
    {
        self.cache.weights(alloc, &self.snapshot)
    }

    /// The weights as `weights` tells them. The partitions that it makes are made by so many threads at most, sixteen of them beside
    /// each other before the first is kept or let go of; by the caller's thread alone where that is one worker, or live rows are few.
    pub fn weights_by<R: Threads + Sync>(
        &mut self,
        rt: &R,
        alloc: Global,
        workers: u8,
    ) -> Result<[u32; COLUMN_PLACES], AllocError>
        ensures weights { IfOk result (λ weights. (column : ℕ) → column < length self.old.codes → slice_index weights column ≡ error_of (stripped self.old (with empty column))) }
        ensures store { self.new ≡ self.old }
    {
        self.cache.weigh_by(rt, alloc, &self.snapshot, workers)?;
        self.weights(alloc)
    }

    // The column of the left side by which new rows are looked up, where they are few: the one that tells the most rows apart, as far
    // as that is known.
    fn column_for(&self, asked: &Asked) -> Option<u8>
        ensures { IfSome result (λ column. has asked.now.left column ≡ true) }
    {
        let first = asked.left.first()?;
        let column = lightest(asked.left, first, &self.cache.order);
        let rows = self.snapshot.live_count();
        let new = self
            .snapshot
            .to()
            .number()
            .saturating_sub(asked.from.number());
        let values = rows.saturating_sub(self.cache.order[column as usize]);
        let are_few = rows <= FEW_ROWS || (new <= rows / 8 && new <= values / 2);
        if asked.from.number() > 1 && are_few {
            Some(column)
        } else {
            None
        }
    }

    // Looks up each new row among the rows with its code in a column.
    fn look_up<L: Ledger>(
        &mut self,
        alloc: Global,
        asked: &Asked,
        column: u8,
        steps: &mut Steps<L>,
    ) -> Result<Vec<(RowNo, RowNo)>, AllocError>
        requires asked { IsAsked self.old asked.now }
        requires column { has asked.now.left column ≡ true }
        ensures answer { IfOk result (IsAnswer self.old asked.now) }
        ensures steps { steps.new ≤ steps.old + new_rows self.old asked.now.from }
        ensures store { self.new ≡ self.old }
    {
        let kept = mem::replace(&mut self.links, Vec::new(alloc));
        let mut links = links::up_to_date(alloc, self.earlier.take(), &self.snapshot, kept);
        let found = links::look_up(alloc, &self.snapshot, &mut links, column, asked, steps);
        self.links = links;
        found
    }

    // Searches the groups by the left side, and keeps the partitions that are made for it, for good or as the path.
    fn search_groups<L: Ledger>(
        &mut self,
        alloc: Global,
        asked: &Asked,
        steps: &mut Steps<L>,
    ) -> Result<Vec<(RowNo, RowNo)>, AllocError>
        requires { IsAsked self.old asked.now }
        ensures answer { IfOk result (IsAnswer self.old asked.now) }
        ensures steps { steps.new ≤ steps.old + new_rows self.old asked.now.from }
        ensures store { self.new ≡ self.old }
    {
        let cache = &mut self.cache;
        let (slots, scratch) = (&mut self.slots, &mut self.scratch);
        let found = cache.search(alloc, &self.snapshot, asked, slots, scratch, steps);
        if found.is_err() {
            self.slots = Vec::new(alloc);
        }
        found
    }
}
