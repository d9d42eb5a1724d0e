// Laws of projections and natural joins. Each function does nothing, and its contract is the law.
ghost use Rattle.std.specs.Prelude.{◌≡◌};
ghost use Rattle.col_set.specs.ColSet.{Columns};
ghost use Rattle.rel_base.specs.declared.nulls.Nulls.TheVariants.{Equal};
ghost use Rattle.rel_base.specs.RowState.{RowState, IsRowState};
ghost use Rattle.lossless_join.specs.Lossless.{ProjectionTestsMean, ProjectionsKeepDependencies, ProjectionsAreUniqueByAll, SplitsAreLossless, RepeatedSplitsAreLossless, SplitsJoinToDistinctRows, SplitToBcnf};

/// The tests of a dependency and of a minimal key in a projection say what the facts say.
pub fn tests_in_projections_say_what_the_facts_say()
    ensures { (r : RowState) (s : Columns) → IsRowState r → ProjectionTestsMean r s }
{}

/// Inside the columns of a projection a dependency holds among the rows exactly where it holds in the projection.
pub fn projections_keep_dependencies()
    ensures { ProjectionsKeepDependencies }
{}

/// A set is unique in a projection exactly where it determines every column of it.
pub fn projections_are_unique_by_what_determines_all()
    ensures { ProjectionsAreUniqueByAll }
{}

/// A projection is the natural join of the two that a lossless split makes of it (Heath, 1971).
pub fn splits_are_lossless()
    ensures { SplitsAreLossless }
{}

/// A projection is the natural join of all that one lossless split after another makes of it.
pub fn repeated_splits_are_lossless()
    ensures { RepeatedSplitsAreLossless }
{}

/// Along lossless splits of all columns, the natural join of the projections is the distinct rows.
pub fn splits_join_to_the_distinct_rows()
    ensures { SplitsJoinToDistinctRows }
{}

/// The tables of the split to BCNF are all in BCNF, have every column, and join to the distinct rows.
pub fn the_split_to_bcnf_is_lossless()
    ensures { (r : RowState) → IsRowState r → r.nulls ≡ Equal → SplitToBcnf r }
{}
