ghost use Rattle.std.specs.Prelude.{◌≡◌, ◌<◌, ◌≤◌, IfSome};
ghost use Rattle.col_set.specs.ColSet as cols;
ghost use Rattle.col_set.specs.Target as targets;
ghost use Rattle.col_set.specs.Evidence as evidence;
ghost use Rattle.col_set.specs.Target.{IsColumnTarget};

use crate::Target;
use std::cmp::Ordering;
use std::marker::Model;

/// The most columns that a relation has: a column set has a bit for each.
pub const MOST_COLUMNS: u8 = 128;

/// The length of an array that has a place for each column.
pub const COLUMN_PLACES: usize = MOST_COLUMNS as usize;

/// A set of columns, counted from 0 and each below `MOST_COLUMNS`.
///
/// Contracts see the number whose bit k says whether it has column k. It is copied, and no call takes memory or grows with the
/// number of columns; `iter` takes a step a column that it has.
#[derive(Clone, Copy, Debug, PartialEq, Eq, Hash)]
pub struct ColSet {
    bits: u128,
}

impl Model for ColSet {
    ghost use Rattle.std.specs.Prelude.{ℕ};

    ghost Value = { ℕ };

    ghost view = { λ s. s.bits };

    ghost inverse = { λ n. record { bits = n } };
}

/// Report order: fewer columns first, then the ascending lists of columns compared from the left.
impl Ord for ColSet {
    ghost use Rattle.col_set.specs.ColSet.{report_cmp};
    ghost use Rattle.col_set.specs.AllSets.{report_total, report_matches_partial, report_matches_eq};

    ghost cmp = { report_cmp };

    ghost total = { report_total };

    ghost matches_partial_cmp = { report_matches_partial };

    ghost matches_eq = { report_matches_eq };

    fn cmp(&self, other: &ColSet) -> Ordering {
        self.cmp_report(*other)
    }
}

impl PartialOrd for ColSet {
    ghost use Rattle.std.specs.Ordering.{as_partial_cmp};
    ghost use Rattle.std.specs.Cmp.{partial_order_from_agreeing_total};
    ghost use Rattle.col_set.specs.ColSet.{report_cmp};
    ghost use Rattle.col_set.specs.AllSets.{report_total, report_matches_partial, report_matches_eq};

    ghost partial_cmp = { as_partial_cmp report_cmp };

    ghost laws = { partial_order_from_agreeing_total report_cmp report_total report_matches_partial report_matches_eq };

    fn partial_cmp(&self, other: &ColSet) -> Option<Ordering> {
        Some(self.cmp_report(*other))
    }
}

impl ColSet {
    /// No columns.
    pub fn empty() -> Self
        ensures { result ≡ cols.empty }
    {
        ColSet { bits: 0 }
    }

    /// The set that has column k exactly where bit k is 1, for one whose columns were found as bits.
    pub fn of_bits(bits: u128) -> Self
        ensures { result ≡ bits }
    {
        ColSet { bits }
    }

    /// The columns 0 to below n.
    #[tactic(auto, unfolding(crate::specs::ColSet::all))]
    pub fn all(n: u8) -> Self
        requires { n ≤ MOST_COLUMNS }
        ensures { result ≡ cols.all n }
    {
        if n == MOST_COLUMNS {
            ColSet { bits: u128::MAX }
        } else {
            ColSet { bits: (1 << n) - 1 }
        }
    }

    /// Whether it has the column.
    #[tactic(auto, unfolding(crate::specs::ColSet::has))]
    pub fn has(self, column: u8) -> bool
        requires { column < MOST_COLUMNS }
        ensures { result ≡ cols.has self column }
    {
        (self.bits >> column) & 1 == 1
    }

    /// Whether it has the target: a column that it has. No set has the row's identity.
    #[tactic(auto, unfolding(crate::specs::Target::has_target))]
    pub fn has_target(self, target: Target) -> bool
        requires { IsColumnTarget MOST_COLUMNS target }
        ensures { result ≡ targets.has_target self target }
    {
        match target {
            Target::Col(column) => self.has(column),
            Target::RowId => false,
        }
    }

    /// It and this column.
    pub fn with(self, column: u8) -> Self
        requires { column < MOST_COLUMNS }
        ensures { result ≡ cols.with self column }
    {
        ColSet {
            bits: self.bits | (1 << column),
        }
    }

    /// It less this column.
    pub fn without(self, column: u8) -> Self
        requires { column < MOST_COLUMNS }
        ensures { result ≡ cols.without self column }
    {
        ColSet {
            bits: self.bits & !(1 << column),
        }
    }

    /// The columns of either.
    #[tactic(auto, unfolding(crate::specs::ColSet::union))]
    pub fn union(self, other: Self) -> Self
        ensures { result ≡ cols.union self other }
    {
        ColSet {
            bits: self.bits | other.bits,
        }
    }

    /// The columns of both.
    #[tactic(auto, unfolding(crate::specs::ColSet::inter))]
    pub fn inter(self, other: Self) -> Self
        ensures { result ≡ cols.inter self other }
    {
        ColSet {
            bits: self.bits & other.bits,
        }
    }

    /// Its columns that the other lacks.
    pub fn minus(self, other: Self) -> Self
        ensures { result ≡ cols.minus self other }
    {
        ColSet {
            bits: self.bits & !other.bits,
        }
    }

    /// Whether the other has all its columns.
    #[tactic(auto, unfolding(crate::specs::ColSet::subset))]
    pub fn subset_of(self, other: Self) -> bool
        ensures { result ≡ cols.subset self other }
    {
        self.bits & other.bits == self.bits
    }

    /// Whether it refutes that `left` determines the target, as the agree set of two rows: it contains `left` and lacks the target.
    #[tactic(auto, unfolding(crate::specs::Evidence::refutes))]
    pub fn refutes(self, left: Self, target: Target) -> bool
        requires { IsColumnTarget MOST_COLUMNS target }
        ensures { result ≡ evidence.refutes self left target }
    {
        left.subset_of(self) && !self.has_target(target)
    }

    /// How many columns it has.
    pub fn len(self) -> u32
        ensures value { result ≡ cols.size self }
        ensures bound { result ≤ MOST_COLUMNS }
    {
        self.bits.count_ones()
    }

    /// Its least column.
    pub fn first(self) -> Option<u8>
        ensures value { result ≡ cols.first self }
        ensures bound { IfSome result (λ column. column < MOST_COLUMNS) }
    {
        if self.bits == 0 {
            None
        } else {
            Some(self.bits.trailing_zeros() as u8)
        }
    }

    /// The columns, ascending.
    pub fn iter(self) -> ColumnIter
        ensures { cols.columns result.rest ≡ cols.columns self }
    {
        ColumnIter { rest: self }
    }

    /// Report order: fewer columns first, then the ascending lists of columns compared from the left.
    pub fn cmp_report(self, other: Self) -> Ordering
        ensures { result ≡ cols.report_cmp self other }
    {
        let by_size = self.bits.count_ones().cmp(&other.bits.count_ones());
        if by_size != Ordering::Equal {
            return by_size;
        }
        let differing = self.bits ^ other.bits;
        if differing == 0 {
            return Ordering::Equal;
        }
        let least = differing.trailing_zeros();
        if (self.bits >> least) & 1 == 1 {
            Ordering::Less
        } else {
            Ordering::Greater
        }
    }
}

/// The columns of a set, ascending.
#[derive(Clone, Copy, Debug)]
pub struct ColumnIter {
    rest: ColSet,
}

impl Iterator for ColumnIter {
    type Item = u8;

    ghost use Rattle.std.specs.Iterator.{YieldsFirst, item_count};
    ghost use Rattle.col_set.specs.ColSet.{columns};

    ghost next_gives = { YieldsFirst (λ s. columns s.rest) };

    ghost remaining = { item_count (λ s. columns s.rest) };

    fn next(&mut self) -> Option<u8> {
        let column = self.rest.first()?;
        self.rest = self.rest.without(column);
        Some(column)
    }
}

impl IntoIterator for ColSet {
    type Item = u8;

    type IntoIter = ColumnIter;

    ghost use Rattle.col_set.specs.ColSet.{columns};

    ghost into_iter_gives = { λ set it. columns it.rest ≡ columns set };

    fn into_iter(self) -> ColumnIter {
        self.iter()
    }
}
