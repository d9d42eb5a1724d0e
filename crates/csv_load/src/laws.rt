// Laws of the definitions in specs/. Each function does nothing, and its contract is the law.
ghost use Rattle.csv_load.specs.Laws.{RecordsHaveCells, AcceptsWithin, RefusedAtTheFirst};

pub fn records_have_cells()
    ensures { RecordsHaveCells }
{}

pub fn what_is_within_the_limits_is_accepted()
    ensures { AcceptsWithin }
{}

pub fn the_first_refusal_counts()
    ensures { RefusedAtTheFirst }
{}
