// Laws of the definitions in specs/. Each function does nothing, and its contract is the law.
ghost use Rattle.std.specs.Prelude.{◌<◌, ◌^◌};
ghost use Rattle.col_set.specs.ColSet.{Columns};
ghost use Rattle.rel_base.specs.RowState.{RowState, IsRowState, width};
ghost use Rattle.bcnf_split.specs.Inside.{HoldsInsideTables};
ghost use Rattle.bcnf_split.specs.Laws.{ViolationsMean, FirstIsLeftSide, SplitsAsSaid, SplitMeans};

/// The test of a violation says what the fact says, and a table is in BCNF exactly where there is none.
pub fn violations_mean_no_normal_form()
    ensures { (r : RowState) (s : Columns) → IsRowState r → s < 2 ^ width r → ViolationsMean r s }
{}

/// The first violating set in report order is the left side of a minimal dependency inside the table.
pub fn first_violation_is_a_left_side()
    ensures { (r : RowState) (s : Columns) → IsRowState r → s < 2 ^ width r → FirstIsLeftSide r s }
{}

/// The split of each set of the columns at hand is what its definition says.
pub fn splits_are_as_said()
    ensures { (r : RowState) (s : Columns) → IsRowState r → s < 2 ^ width r → SplitsAsSaid r s }
{}

/// All tables of a split are in BCNF, and each column is in one of them.
pub fn splits_are_in_normal_form()
    ensures { (r : RowState) (s : Columns) → IsRowState r → s < 2 ^ width r → SplitMeans r s }
{}

/// Where NULL equals NULL, a dependency inside a table holds in the rows exactly where it holds in the table's own rows.
pub fn dependencies_inside_a_table_are_those_of_its_rows()
    ensures { (r : RowState) (s : Columns) → IsRowState r → s < 2 ^ width r → HoldsInsideTables r s }
{}
