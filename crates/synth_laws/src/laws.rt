// Laws of tables by synthesis. Each function does nothing, and its contract is the law.
ghost use Rattle.std.specs.Prelude.{◌≡◌, ◌<◌, ◌^◌, ℕ, List};
ghost use Rattle.std.specs.List.{All};
ghost use Rattle.col_set.specs.ColSet.{Columns};
ghost use Rattle.rel_base.specs.declared.dependency.Fd as dependencies;
ghost use Rattle.rel_base.specs.declared.dependency.Table as tables;
ghost use Rattle.rel_base.specs.declared.nulls.Nulls.TheVariants.{Equal};
ghost use Rattle.rel_base.specs.RowState.{RowState, IsRowState};
ghost use Rattle.synth_laws.specs.Joined.{AreHeld, CoversAreHeld, TablesJoin};
ghost use Rattle.synth_laws.specs.Keeping.{CanonicalMeans, TablesKeep, TablesReach};
ghost use Rattle.synth_laws.specs.Referred.{ReferencesHold};
ghost use Rattle.synth_laws.specs.ThirdNormal.{CoversAreReduced, IsReduced, TablesAreThirdNormal, TablesAreThirdNormalFor};

/// Each dependency of a list follows from the canonical ones, which are among the list, and none of which follows from the others.
pub fn canonical_dependencies_are_a_minimum_cover()
    ensures { (fds : List dependencies.Fd) → CanonicalMeans fds }
{}

/// Each canonical dependency lies inside some table.
pub fn tables_keep_dependencies()
    ensures { (n : ℕ) (fds : List dependencies.Fd) → All (λ fd. fd.left < 2 ^ n) fds → TablesKeep n fds }
{}

/// The key of each table lies in it and reaches all its columns, and the columns of some table reach all columns.
pub fn keys_reach_their_tables()
    ensures { (n : ℕ) (fds : List dependencies.Fd) → TablesReach n fds }
{}

/// The minimal dependencies of rows hold and can spare no column on the left, and so do those of them that have few columns there.
pub fn minimal_dependencies_hold_and_are_reduced()
    ensures held { (r : RowState) → CoversAreHeld r }
    ensures reduced { (r : RowState) → CoversAreReduced r }
{}

/// The tables that all minimal dependencies of the rows make are in third normal form for all that holds in the rows (Bernstein, 1976).
pub fn tables_are_in_third_normal_form()
    ensures { (r : RowState) → IsRowState r → TablesAreThirdNormal r }
{}

/// Tables of dependencies that can spare no column on the left are in third normal form for all that follows from these.
pub fn tables_of_chosen_dependencies_are_in_third_normal_form()
    ensures { (n : ℕ) (fds : List dependencies.Fd) → IsReduced fds → TablesAreThirdNormalFor n fds }
{}

/// The tables of dependencies that hold in the rows have all columns, and the natural join of their projections is the distinct rows
/// (Biskup, Dayal and Bernstein, 1979).
pub fn tables_join_to_the_distinct_rows()
    ensures { (r : RowState) (fds : List dependencies.Fd) → IsRowState r → r.nulls ≡ Equal → AreHeld r fds → TablesJoin r fds }
{}

/// Each row of a table that refers to another one has its part on the reference's columns among the parts of the other's rows.
pub fn references_hold_in_the_rows()
    ensures { (r : RowState) (ts : List tables.Table) (keys : List (ℕ × Columns)) → ReferencesHold r ts keys }
{}
