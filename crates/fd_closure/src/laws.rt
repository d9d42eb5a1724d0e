// Laws of the definitions in specs/. Each function does nothing, and its contract is the law.
ghost use Rattle.std.specs.Prelude.{◌<◌, ◌^◌, List};
ghost use Rattle.col_set.specs.ColSet.{Columns};
ghost use Rattle.rel_base.specs.declared.dependency.Fd as dependencies;
ghost use Rattle.rel_base.specs.RowState.{RowState, IsRowState, width};
ghost use Rattle.fd_closure.specs.Laws.{TestsMean, ClosuresMean, CoversTell, KeyMeans};

/// The tests of what a column set determines say what the facts say.
pub fn tests_say_what_the_facts_say()
    ensures { (r : RowState) → IsRowState r → TestsMean r }
{}

/// A column set has one closure under a list of dependencies.
pub fn closures_are_unique()
    ensures { (fds : List dependencies.Fd) → ClosuresMean fds }
{}

/// The covers of a row state stand in order, and by them the one pass finds the columns that a set determines in the rows, which are
/// its closure under the covers, whether it determines all of a table, and the key of a table.
pub fn covers_tell_what_the_rows_say()
    ensures { (r : RowState) → IsRowState r → CoversTell r }
{}

/// The key of a table lies in it, determines it, and no smaller set inside the key does.
pub fn keys_determine_their_tables()
    ensures { (r : RowState) (s : Columns) → IsRowState r → s < 2 ^ width r → KeyMeans r s }
{}
