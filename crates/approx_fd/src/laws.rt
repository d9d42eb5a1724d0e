// Laws of the definitions in specs/. Each function does nothing, and its contract is the law.
ghost use Rattle.std.specs.Prelude.{ℕ};
ghost use Rattle.col_set.specs.ColSet.{Columns};
ghost use Rattle.col_set.specs.declared.target.Target.{Target as TargetSpec};
ghost use Rattle.rel_base.specs.CodeTable.{CodeTable};
ghost use Rattle.rel_base.specs.RowState.{RowState, IsRowState};
ghost use Rattle.approx_fd.specs.Laws.{RemovedMeans, SnapshotsShowRemoved, SumsOverGroups, MoreColumnsRemoveNoMore, NoneRemovedWhereItHolds, BoundsByUniqueness, ApproximateListed, NoErrorsGiveCovers};

/// The number of rows to be removed is the least one: with so many left out the dependency holds, and with fewer it never does.
pub fn removed_is_the_least_number()
    ensures { (r : RowState) → IsRowState r → (x : Columns) (t : TargetSpec) → RemovedMeans r x t }
{}

/// The codes of a snapshot tell how many rows of the row state are to be removed.
pub fn snapshots_show_removed()
    ensures { SnapshotsShowRemoved }
{}

/// So many rows are to be removed as the groups have outside their largest parts (TANE, Huhtala, Kärkkäinen, Porkka and Toivonen, 1999).
pub fn removed_is_a_sum_over_groups()
    ensures { (s : CodeTable) (x : Columns) → SumsOverGroups s x }
{}

/// More columns on the left never raise the number of rows to be removed.
pub fn more_columns_remove_no_more()
    ensures { MoreColumnsRemoveNoMore }
{}

/// None is to be removed exactly where the dependency holds.
pub fn none_is_removed_where_it_holds()
    ensures { NoneRemovedWhereItHolds }
{}

/// For a dependency at most so many are to be removed as for the columns to be unique, and at least so many as that falls by the right
/// column (TANE's bounds).
pub fn uniqueness_bounds_removed()
    ensures { (r : RowState) → IsRowState r → (x : Columns) (a : ℕ) → BoundsByUniqueness r x a }
{}

/// The lists have each minimal dependency and near key once, in order, and nothing else.
pub fn approximate_dependencies_stand_once_in_order()
    ensures { (most : ℕ) (r : RowState) → IsRowState r → ApproximateListed most r }
{}

/// Where no row may be removed the lists are the covers, each with 0.
pub fn no_errors_give_covers()
    ensures { (r : RowState) → NoErrorsGiveCovers r }
{}
