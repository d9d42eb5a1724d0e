// Where searches for candidates begin.
ghost use Rattle.std.specs.Prelude.{if◌then◌else◌, ◌≡◌, ◌≤◌};
ghost use Rattle.col_set.specs.ColSet.{empty};
ghost use Rattle.col_set.specs.declared.target.Target.TheVariants.{RowId};
ghost use Rattle.cover_core.specs.Past as past;

use candidate_cover::Marking;
use rel_base::{ColSet, MOST_COLUMNS, RowNo, Target};
use std::cmp::Ordering;

// A candidate that is not known to hold in all rows, and the number below which it is known to hold.
#[derive(Clone, Copy)]
pub(crate) struct Unfinished {
    pub(crate) target: Target,
    pub(crate) left: ColSet,
    pub(crate) upto: RowNo,
}

// A place among the candidates of all targets: that of a left side among the candidates of a target.
#[derive(Clone, Copy)]
pub(crate) struct Cursor {
    pub(crate) target: Target,
    pub(crate) left: ColSet,
}

impl Cursor {
    // The place before all candidates.
    pub(crate) fn start() -> Cursor
        ensures { result ≡ record { target = RowId; left = empty } }
    {
        Cursor {
            target: Target::RowId,
            left: ColSet::empty(),
        }
    }

    // Whether the place of a left side among the candidates of a target comes before it.
    fn is_behind(&self, target: Target, left: ColSet) -> bool
        requires own { past.rank self.now.target ≤ MOST_COLUMNS }
        requires target { past.rank target ≤ MOST_COLUMNS }
        ensures { result ≡ past.stands_before (record { target = target; left = left }) self.now }
    {
        let (rank, own) = (rank(target), rank(self.target));
        rank < own || (rank == own && left.cmp_report(self.left) == Ordering::Less)
    }
}

// How many targets come before this one.
pub(crate) fn rank(target: Target) -> u8
    requires { past.rank target ≤ MOST_COLUMNS }
    ensures { result ≡ past.rank target }
{
    match target {
        Target::RowId => 0,
        Target::Col(column) => column + 1,
    }
}

// Up to where no candidate is unfinished, and up to where none is both unfinished and free.
#[derive(Clone, Copy)]
pub(crate) struct Cursors {
    pub(crate) unfinished: Cursor,
    pub(crate) drawable: Cursor,
}

impl Cursors {
    // Both before all candidates.
    pub(crate) fn start() -> Cursors
        ensures unfinished { result.unfinished ≡ record { target = RowId; left = empty } }
        ensures drawable { result.drawable ≡ record { target = RowId; left = empty } }
    {
        Cursors {
            unfinished: Cursor::start(),
            drawable: Cursor::start(),
        }
    }

    // After a candidate was let go of, which may be unfinished still or not: no search passes it over where it may.
    pub(crate) fn let_go(&mut self, unfinished: bool, target: Target, left: ColSet)
        requires own { past.rank self.old.drawable.target ≤ MOST_COLUMNS }
        requires target { past.rank target ≤ MOST_COLUMNS }
        ensures unfinished { self.new.unfinished ≡ self.old.unfinished }
        ensures drawable { self.new.drawable ≡ (if unfinished then past.lesser (record { target = target; left = left }) self.old.drawable else self.old.drawable) }
    {
        if unfinished && self.drawable.is_behind(target, left) {
            self.drawable = Cursor { target, left };
        }
    }
}

// Whether a candidate that was marked up to a number, if it was, may be unfinished still.
pub(crate) fn is_late(marking: Marking, to: RowNo, next: RowNo) -> bool
    ensures { result ≡ past.is_late marking to next }
{
    match marking {
        Marking::Marked => to < next,
        Marking::Dropped => false,
    }
}
