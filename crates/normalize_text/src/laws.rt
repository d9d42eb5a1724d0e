// Laws of the definitions in specs/. Each function does nothing, and its contract is the law.
ghost use Rattle.std.specs.Prelude.{◌≡◌, ℕ, List};
ghost use Rattle.normalize_text.specs.Joined.{AreLosslessTables};
ghost use Rattle.normalize_text.specs.Normalize.{normalized};
ghost use Rattle.rel_base.specs.declared.nulls.Nulls.TheVariants.{Equal};
ghost use Rattle.rel_base.specs.RowState.{RowState, IsRowState};

/// The files of `normalize` hold projections of the rows, each in Boyce-Codd normal form, whose natural join is the distinct rows.
pub fn the_files_are_a_lossless_split()
    ensures { (prefix name : List ℕ) (r : RowState) → IsRowState r → r.nulls ≡ Equal → AreLosslessTables r (normalized prefix name r).files }
{}
