// Laws of the definitions in specs/. Each function does nothing, and its contract is the law.
ghost use Rattle.std.specs.Prelude.{ℕ, List};
ghost use Rattle.rel_base.specs.RowState.{RowState};
ghost use Rattle.nary_ind.specs.Laws.{CodesTellInclusions, FewerPlacesStay, InclusionsListed, WidthOneIsUnary};

/// Lists of one column are included exactly where their columns are.
pub fn width_one_is_unary()
    ensures { WidthOneIsUnary }
{}

/// An inclusion of lists stays one where a place is left out (De Marchi, Lopes and Petit 2002).
pub fn fewer_places_stay()
    ensures { FewerPlacesStay }
{}

/// Lists are included exactly where one column is included in another whose cells stand for the tuples.
pub fn codes_tell_inclusions()
    ensures { CodesTellInclusions }
{}

/// The list of all inclusions has each one once, in order, and nothing else.
pub fn inclusions_stand_once_in_order()
    ensures { (w : ℕ) (rs : List RowState) → InclusionsListed w rs }
{}
