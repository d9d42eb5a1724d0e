// Laws of the definitions in specs/. Each function does nothing, and its contract is the law.
ghost use Rattle.std.specs.Prelude.{◌≡◌, ℕ, List};
ghost use Rattle.std.specs.Cmp.{IsTotalOrder};
ghost use Rattle.col_set.specs.ColSet.{Columns, report_cmp};
ghost use Rattle.col_set.specs.declared.col_set.TheConstants.{MOST_COLUMNS};
ghost use Rattle.col_set.specs.declared.target.Target as targets;
ghost use Rattle.col_set.specs.Laws.{ListsAllSets, SubsetsOrdered, LeastMeans, LeastOfNone, LeastOfTheSame, LeastAfterOneMore, LeastAfterFewer, EvidenceThatHoldsIsWhole};

/// A relation has at most 128 columns.
pub fn columns_are_at_most_128()
    ensures { MOST_COLUMNS ≡ 128 }
{}

/// Report order is total.
pub fn report_order_is_total()
    ensures { IsTotalOrder report_cmp }
{}

/// The list of all column sets of n columns has each once, strictly in report order.
pub fn all_sets_stand_in_order(n: u8)
    ensures { ListsAllSets n }
{}

/// Subsets are an order.
pub fn subsets_are_an_order()
    ensures { SubsetsOrdered }
{}

/// The least sets are those that are not refuted, in which each proper subset is.
pub fn least_sets_are_minimal()
    ensures { LeastMeans }
{}

/// A further agree set replaces each candidate inside it by its extensions.
pub fn one_more_agree_set_specialises()
    ensures { LeastAfterOneMore }
{}

/// With no agree set the empty set is the one candidate.
pub fn with_no_agree_set_the_empty_set_is_least()
    ensures { LeastOfNone }
{}

/// What is least depends on which agree sets there are, and not on their order or number.
pub fn least_sets_depend_on_the_agree_sets_alone()
    ensures { LeastOfTheSame }
{}

/// What fewer agree sets leave was left by all, or lies inside a withdrawn one.
pub fn fewer_agree_sets_generalise()
    ensures { LeastAfterFewer }
{}

/// Evidence that more evidence adds nothing to: where it refutes no least set of the smaller list, both lists have the same least sets.
///
/// So a search that has tried each candidate that its evidence leaves, and found that all hold, is done (dualize and advance,
/// Gunopulos, Khardon, Mannila and Toivonen, 1997).
pub fn evidence_that_holds_is_whole()
    ensures { (n : ℕ) (ws vs : List Columns) (t : targets.Target) → EvidenceThatHoldsIsWhole n ws vs t }
{}
