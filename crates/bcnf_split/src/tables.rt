// The split into tables.
ghost use Rattle.std.specs.Prelude.{◌≡◌, ◌≤◌, ◌++◌, OnOk, IfOk};
ghost use Rattle.col_set.specs.ColSet.{all};
ghost use Rattle.fd_closure.specs.Closure.{Tells};
ghost use Rattle.rel_base.specs.RowState.{RowState, IsRowState, width};
ghost use Rattle.rel_base.specs.Covers as cover_words;
ghost use Rattle.bcnf_split.specs.Bcnf.{IsTableOf};
ghost use Rattle.bcnf_split.specs.Split.{tables_of};

use crate::search::first_parting;
use fd_closure::LeftSides;
use rel_base::{ColSet, Covers, MOST_COLUMNS, Table};
use std::alloc::{AllocError, Global};

/// The tables in Boyce-Codd normal form that the n columns of a relation with these covers are split into, each with its key.
///
/// A table that a column set X violates, the first one in report order, is parted into its columns less all Y that X determines
/// there, and X with Y (Normalize, Papenbrock and Naumann, 2017, with its ranking of violations left out). There are at most as many
/// tables as columns. For each table and each set that is parted the
/// covers are walked once, as `violation` does; closures go by an index of their left sides, which is made first.
pub fn split(alloc: Global, covers: &Covers, n: u8) -> Result<Vec<Table>, AllocError>
    requires { n ≤ MOST_COLUMNS }
    ensures { IfOk result (λ tables. (r : RowState) → IsRowState r → width r ≡ n → covers.now ≡ cover_words.covers r → tables.items ≡ tables_of r (all n)) }
{
    let index = LeftSides::of(alloc, covers)?;
    let mut tables = Vec::new(alloc);
    push_tables(&mut tables, covers, &index, ColSet::all(n))?;
    Ok(tables)
}

// Adds the tables of s.
fn push_tables(
    tables: &mut Vec<Table>,
    covers: &Covers,
    index: &LeftSides,
    s: ColSet,
) -> Result<(), AllocError>
    requires { Tells covers.now.fds index.now }
    ensures { OnOk result ((r : RowState) → IsTableOf covers.now r s → tables.new.items ≡ tables.old.items ++ tables_of r s) }
{
    match first_parting(covers, Some(index), s) {
        None => {
            tables.push(Table {
                columns: s,
                key: index.shrink_key(s),
            })?;
            Ok(())
        }
        Some(parting) => {
            push_tables(tables, covers, index, s.minus(parting.dependents))?;
            push_tables(
                tables,
                covers,
                index,
                parting.left.union(parting.dependents),
            )
        }
    }
}
