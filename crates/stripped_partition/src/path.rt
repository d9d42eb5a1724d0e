// Partitions by more and more columns, handed from one column set to the next.
ghost use Rattle.std.specs.Prelude.{◌≡◌, ◌<◌, ◌^◌, [], IfOk, OnOk, OnErr, length};
ghost use Rattle.col_set.specs.ColSet.{empty, with, IsSubset};
ghost use Rattle.rel_base.specs.CodeTable.{CodeTable};
ghost use Rattle.stripped_partition.specs.AnyOrder.{AreGroupsBy, AreGroupsOf};
ghost use Rattle.stripped_partition.specs.Paths.{columns_of, IsLevel, AreLevels};

use crate::{Partition, Scratch};
use rel_base::{ColSet, Snapshot};
use std::alloc::{AllocError, Global};
use std::marker::Model;
use std::mem;

// The groups by some columns.
#[derive(Drop)]
pub(crate) struct Level {
    columns: ColSet,
    partition: Partition,
}

// The groups by more and more columns: the last, and those before it.
#[derive(Drop)]
pub(crate) struct Levels {
    below: Vec<Level>,
    top: Option<Level>,
}

impl Levels {
    fn none(alloc: Global) -> Levels
        ensures below { result.below.items ≡ [] }
        ensures top { result.top ≡ None }
    {
        Levels {
            below: Vec::new(alloc),
            top: None,
        }
    }

    // The columns of the last level, or none.
    fn columns(&self) -> ColSet
        ensures { result ≡ columns_of self.now.top }
    {
        match &self.top {
            Some(level) => level.columns,
            None => ColSet::empty(),
        }
    }

    // Lets go of the last levels that do not lie inside these columns.
    fn go_back(&mut self, columns: ColSet)
        ensures levels { (s : CodeTable) → AreLevels s self.old → AreLevels s self.new }
        ensures inside { IsSubset (columns_of self.new.top) columns }
    {
        while !self.columns().subset_of(columns) {
            self.top = self.below.pop();
        }
    }

    // Adds a level. Where memory is wanting, which it is not after a reserve, the one before it is not kept.
    fn push(&mut self, level: Level)
        ensures levels { (s : CodeTable) → AreLevels s self.old → IsLevel s level → AreLevels s self.new }
        ensures top { self.new.top ≡ Some level }
    {
        if let Some(last) = mem::replace(&mut self.top, Some(level)) {
            let _ = self.below.push(last);
        }
    }
}

/// The groups by a column set of one snapshot, and by the sets on the way to it.
///
/// Of the next set a path keeps what is a beginning of the way to it, and refines that by the columns that are left. So column sets in the
/// order of their columns' places, as they stand in the path's order, share nearly all of their refinements; the order of weight, lightest
/// first, makes the partitions small soon. Any sets may follow each other.
///
/// Contracts see the snapshot and the columns. It keeps the groups of at most as many sets as the way is long, 4 bytes for each row that
/// stands in a group, and what `Partition::refine_unordered` takes.
#[derive(Drop)]
pub struct Path<'a> {
    snapshot: &'a Snapshot,
    order: &'a [u8],
    all: Partition,
    levels: Levels,
    slots: Vec<u32>,
    scratch: Scratch,
    alloc: Global,
}

impl<'a> Model for Path<'a> {
    ghost use Rattle.stripped_partition.specs.Paths.{columns_of, IsPath};
    ghost use Rattle.stripped_partition.specs.Standing.{Standing};

    ghost Value = { Standing };

    ghost view = { λ p. record { table = p.snapshot.now; columns = columns_of p.levels.top } };

    ghost invariant = { λ p. IsPath p.snapshot.now p.all p.levels p.slots.items };
}

impl<'a> Path<'a> {
    /// The path that has no column yet.
    ///
    /// On the way to a column set its columns are taken in this order, and those that it lacks behind them, ascending. The order is a hint: it
    /// costs time alone, least where column sets that follow each other begin with the same columns of it.
    pub fn new(
        alloc: Global,
        snapshot: &'a Snapshot,
        order: &'a [u8],
    ) -> Result<Path<'a>, AllocError>
        ensures { IfOk result (λ path. path ≡ record { table = snapshot.now; columns = empty }) }
    {
        let all = Partition::of_all(alloc, snapshot)?;
        Ok(Path {
            snapshot,
            order,
            all,
            levels: Levels::none(alloc),
            slots: Vec::new(alloc),
            scratch: Scratch::new(alloc),
            alloc,
        })
    }

    /// The columns that the path has.
    pub fn columns(&self) -> ColSet
        ensures { result ≡ self.now.columns }
    {
        self.levels.columns()
    }

    /// The groups by the columns that the path has, in any order.
    pub fn groups(&self) -> &Partition
        ensures by { AreGroupsBy self.now.table self.now.columns result.now }
        ensures of { AreGroupsOf self.now.table result.now }
    {
        match &self.levels.top {
            Some(level) => &level.partition,
            None => &self.all,
        }
    }

    /// Goes to these columns.
    ///
    /// It takes a refinement for each of them that the path does not keep, in time by the rows that stand in groups, and a step for each
    /// column of the order. After want of memory the path stands at some of the columns, and can be sent on as before.
    pub fn go_to(&mut self, columns: ColSet) -> Result<(), AllocError>
        requires { columns < 2 ^ length self.old.table.codes }
        ensures table { self.new.table ≡ self.old.table }
        ensures there { OnOk result (self.new.columns ≡ columns) }
        ensures on_the_way { OnErr result (IsSubset self.new.columns columns) }
    {
        self.levels.go_back(columns);
        let order = self.order;
        for column in order {
            self.take(*column, columns)?;
        }
        self.take_rest(columns)
    }

    // Goes on by a column, if it is one of these and is not there yet.
    fn take(&mut self, column: u8, columns: ColSet) -> Result<(), AllocError>
        requires inside { IsSubset self.old.columns columns }
        requires columns { columns < 2 ^ length self.old.table.codes }
        ensures table { self.new.table ≡ self.old.table }
        ensures inside { IsSubset self.new.columns columns }
    {
        let is_column = column < self.snapshot.columns();
        if is_column && columns.minus(self.columns()).has(column) {
            return self.go_on(column);
        }
        Ok(())
    }

    // Goes on by those of these columns that are not there yet.
    fn take_rest(&mut self, columns: ColSet) -> Result<(), AllocError>
        requires inside { IsSubset self.old.columns columns }
        requires columns { columns < 2 ^ length self.old.table.codes }
        ensures table { self.new.table ≡ self.old.table }
        ensures there { OnOk result (self.new.columns ≡ columns) }
        ensures on_the_way { OnErr result (IsSubset self.new.columns columns) }
    {
        while let Some(column) = columns.minus(self.columns()).first() {
            self.go_on(column)?;
        }
        Ok(())
    }

    // Goes on by a column. After want of memory the path is at the same columns or at none.
    fn go_on(&mut self, column: u8) -> Result<(), AllocError>
        requires { column < length self.old.table.codes }
        ensures table { self.new.table ≡ self.old.table }
        ensures there { OnOk result (self.new.columns ≡ with self.old.columns column) }
        ensures same { OnErr result (self.new.columns ≡ self.old.columns) }
    {
        // `columns` is called for its clause that there are at most 128.
        let _bounds = self.snapshot.columns();
        self.levels.below.reserve(1)?;
        let columns = self.columns().with(column);
        let partition = self.refined(column)?;
        self.levels.push(Level { columns, partition });
        Ok(())
    }

    // The groups by one column more.
    fn refined(&mut self, column: u8) -> Result<Partition, AllocError>
        requires { column < length self.old.table.codes }
        ensures same { self.new ≡ self.old }
        ensures groups { IfOk result (AreGroupsBy self.old.table (with self.old.columns column)) }
    {
        let alloc = self.alloc;
        let snapshot = self.snapshot;
        // After want of memory some slots may hold counts, so they go with it.
        let mut slots = mem::replace(&mut self.slots, Vec::new(alloc));
        let mut scratch = mem::replace(&mut self.scratch, Scratch::new(alloc));
        let groups = self.groups();
        let partition = groups.refine_unordered(alloc, snapshot, column, &mut slots, &mut scratch)?;
        self.slots = slots;
        self.scratch = scratch;
        Ok(partition)
    }
}
