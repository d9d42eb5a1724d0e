// Laws of the definitions in specs/. Each function does nothing, and its contract is the law.
ghost use Rattle.col_set.specs.ColSet.{Columns};
ghost use Rattle.rel_base.specs.CodeTable.{CodeTable};
ghost use Rattle.stripped_partition.specs.Laws.{ErrorsTell, NoGroupsTell, SplitsTell, RowsStandOnce};

/// In a row state that a snapshot shows, columns determine a column exactly where adding it leaves the error count as it is
/// (TANE, Huhtala, Kärkkäinen, Porkka and Toivonen, 1999).
pub fn equal_errors_tell_dependencies()
    ensures { ErrorsTell }
{}

/// Columns are unique exactly where their stripped partition has no group.
pub fn no_groups_tell_unique_columns()
    ensures { NoGroupsTell }
{}

/// A column splits no group of the partition by some columns exactly where they determine it.
pub fn no_split_tells_a_dependency()
    ensures { SplitsTell }
{}

/// The groups have two rows or more, in order, and each row is live and stands once.
pub fn rows_stand_once()
    ensures { (s : CodeTable) (x : Columns) → RowsStandOnce s x }
{}
