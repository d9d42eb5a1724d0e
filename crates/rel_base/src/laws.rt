// Laws of the definitions in specs/. Each function does nothing, and its contract is the law.
ghost use Rattle.col_set.specs.ColSet.{Columns};
ghost use Rattle.rel_base.specs.CodeTable.{CodeTable};
ghost use Rattle.rel_base.specs.RowState.{RowState, IsRowState};
ghost use Rattle.rel_base.specs.Shows.{Shows};
ghost use Rattle.rel_base.specs.Alike.{Alike};
ghost use Rattle.rel_base.specs.Cells.{Cell};
ghost use Rattle.std.specs.Prelude.{List};
ghost use Rattle.rel_base.specs.Laws.{TestsMean, MoreColumnsKeep, KeysDetermine, CoversAreLeast, BatchesFollow, InsertsAndDeletes, InclusionsMean, ProjectionMeans, SnapshotsShow, SnapshotTestsMean, CoversListed, InclusionsListed, AlikeHoldTheSame, ShowingTheSameIsAlike, AlikeIsEquivalence, StandardLimits, HoldingEvidenceLeavesCovers};

/// The limits of the program as its users run it, in digits: 128 columns, 1000000 rows, 65536 bytes of a cell, and 268435456 bytes
/// of a file or a change text.
pub fn the_standard_limits_in_digits()
    ensures { StandardLimits }
{}

/// The tests of a dependency, of one among the rows below a number, of a minimal one and of a minimal key say what the facts say.
pub fn tests_say_what_the_facts_say()
    ensures { (r : RowState) → IsRowState r → TestsMean r }
{}

/// More columns on the left keep a dependency.
pub fn more_columns_keep_a_dependency()
    ensures { MoreColumnsKeep }
{}

/// A key determines every column.
pub fn a_key_determines_every_column()
    ensures { KeysDetermine }
{}

/// The covers are what the agree sets of all pairs of live rows leave.
pub fn covers_are_least_sets()
    ensures { CoversAreLeast }
{}

/// Agree sets of some pairs of live rows leave the covers as soon as all that they leave holds in the rows.
///
/// So a few pairs of rows show covers to be complete: what they leave has only to be tried, one after another.
pub fn covers_are_what_holding_evidence_leaves()
    ensures { HoldingEvidenceLeavesCovers }
{}

/// The covers have each minimal key and each minimal dependency once, in order, and nothing else.
pub fn covers_list_each_once_in_order()
    ensures { (r : RowState) → IsRowState r → CoversListed r }
{}

/// A batch keeps the numbers of rows: none is used twice, and no row that ended is live again.
pub fn batches_keep_numbers()
    ensures { BatchesFollow }
{}

/// Inserts can only make dependencies fail, and deletes can only make them hold.
pub fn inserts_break_and_deletes_mend()
    ensures { InsertsAndDeletes }
{}

/// A dependency holds in a snapshot's codes exactly where it holds in the row state that the snapshot shows.
pub fn snapshots_show_dependencies()
    ensures { (s : CodeTable) (r : RowState) → IsRowState r → Shows s r → SnapshotsShow s r }
{}

/// The tests of a dependency in a snapshot say what the facts say.
pub fn snapshot_tests_say_what_the_facts_say()
    ensures { (s : CodeTable) → SnapshotTestsMean s }
{}

/// The test of an inclusion says what the fact says.
pub fn inclusions_say_what_the_fact_says()
    ensures { InclusionsMean }
{}

/// The list of inclusions has each once, in order, and nothing else.
pub fn inclusions_stand_once_in_order()
    ensures { (columns : List (List Cell)) → InclusionsListed columns }
{}

/// A projection has the parts of the live rows, each once.
pub fn projections_have_each_part_once()
    ensures { (r : RowState) (s : Columns) → ProjectionMeans r s }
{}

/// Alike snapshots hold the same dependencies, among all their rows and among those below a number.
pub fn alike_snapshots_hold_the_same()
    ensures { (s u : CodeTable) → Alike s u → AlikeHoldTheSame s u }
{}

/// Two snapshots of one row state are alike, though they may number its cells differently.
pub fn snapshots_of_one_row_state_are_alike()
    ensures { ShowingTheSameIsAlike }
{}

/// To be alike is an equivalence.
pub fn to_be_alike_is_an_equivalence()
    ensures { AlikeIsEquivalence }
{}
