// The covers of a relation, from the agree sets of all pairs of rows.
ghost use Rattle.std.specs.Prelude.{◌≡◌, ◌<◌, ◌≤◌, ◌++◌, ℕ, List, length, map, IfOk, OnOk};
ghost use Rattle.std.specs.List.{All, flat_map};
ghost use Rattle.rel_base.specs.RowState.{opened};
ghost use Rattle.rel_base.specs.Agreement as agreement;
ghost use Rattle.rel_base.specs.Validity.{pairs};
ghost use Rattle.rel_base.specs.Covers.{fds_to};
ghost use Rattle.rel_base.specs.Covers as cover_words;
ghost use Rattle.col_set.specs.declared.target.Target.TheVariants.{Col};
ghost use Rattle.col_set.specs.ColSet.{upto};
ghost use Rattle.col_set.specs.Evidence.{least};

use crate::least_sets;
use col_set::{ColSet, MOST_COLUMNS, Target};
use rel_base::{Covers, Fd, Nulls, Relation, Row};
use std::alloc::{AllocError, Global};

fn cells_agree(nulls: Nulls, one: &[u8], other: &[u8]) -> bool
    ensures { result ≡ agreement.agrees nulls one.now other.now }
{
    match nulls {
        Nulls::Equal => one == other,
        Nulls::Distinct => one == other && !one.is_empty(),
    }
}

/// The columns, of the first ones, in which two rows agree. It takes a comparison of two cells a column.
pub fn agree(nulls: Nulls, columns: u8, one: &Row, other: &Row) -> ColSet
    requires most { columns ≤ MOST_COLUMNS }
    requires own { columns ≤ length one.now }
    requires others { columns ≤ length other.now }
    ensures { result ≡ agreement.agree nulls columns one.now other.now }
{
    let mut set = ColSet::empty();
    for column in 0..columns {
        if cells_agree(
            nulls,
            one.cell(column as usize),
            other.cell(column as usize),
        ) {
            set = set.with(column);
        }
    }
    set
}

// Adds the agree sets of one row with each of the others.
fn push_agree_sets(
    sets: &mut Vec<ColSet>,
    nulls: Nulls,
    columns: u8,
    one: &Row,
    others: &[Row],
) -> Result<(), AllocError>
    requires most { columns ≤ MOST_COLUMNS }
    requires own { columns ≤ length one.now }
    requires wide { All (λ row. length row ≡ columns) others.now }
    ensures { OnOk result (sets.new.items ≡ sets.old.items ++ map (λ other. agreement.agree nulls columns one.now other) others.now) }
{
    for other in others {
        sets.push(agree(nulls, columns, one, other))?;
    }
    Ok(())
}

/// The agree sets of each row with each later one, so their number grows with the square of the rows'.
pub fn agree_sets(
    alloc: Global,
    nulls: Nulls,
    columns: u8,
    rows: &[Row],
) -> Result<Vec<ColSet>, AllocError>
    requires most { columns ≤ MOST_COLUMNS }
    requires wide { All (λ row. length row ≡ columns) rows.now }
    ensures { IfOk result (λ sets. sets.items ≡ map (λ p. agreement.agree nulls columns p.0 p.1) (pairs rows.now)) }
{
    let mut sets = Vec::new(alloc);
    let mut left = rows;
    while let Some((row, others)) = left.split_first() {
        push_agree_sets(&mut sets, nulls, columns, row, others)?;
        left = others;
    }
    Ok(sets)
}

// Adds the dependencies of these left sides on a column.
fn push_fds(fds: &mut Vec<Fd>, right: u8, lefts: &[ColSet]) -> Result<(), AllocError>
    ensures { OnOk result (fds.new.items ≡ fds.old.items ++ fds_to right lefts.now) }
{
    for left in lefts {
        fds.push(Fd { left: *left, right })?;
    }
    Ok(())
}

// The dependencies that these agree sets of so many columns leave, by right column.
fn least_fds(alloc: Global, columns: u8, agree_sets: &[ColSet]) -> Result<Vec<Fd>, AllocError>
    requires { columns ≤ MOST_COLUMNS }
    ensures { IfOk result (λ fds. fds.items ≡ flat_map (λ a. fds_to a (least columns agree_sets.now (Col a))) (upto columns)) }
{
    let mut fds = Vec::new(alloc);
    for column in 0..columns {
        let lefts = least_sets(alloc, columns, Target::Col(column), agree_sets)?;
        push_fds(&mut fds, column, lefts.as_slice())?;
    }
    Ok(fds)
}

/// The keys and dependencies that these agree sets of so many columns leave: for each target those column sets that no agree
/// set refutes, and of which no part is such a set.
#[tactic(auto, unfolding(rel_base::specs::Covers::least_covers))]
pub fn least_covers(alloc: Global, columns: u8, agree_sets: &[ColSet]) -> Result<Covers, AllocError>
    requires { columns ≤ MOST_COLUMNS }
    ensures { IfOk result (λ found. found ≡ cover_words.least_covers columns agree_sets.now) }
{
    let keys = least_sets(alloc, columns, Target::RowId, agree_sets)?;
    let fds = least_fds(alloc, columns, agree_sets)?;
    Ok(Covers::of(keys, fds))
}

/// All minimal keys and minimal dependencies of a relation, by the agree sets of all pairs of its rows and, for each target,
/// the candidates that one agree set after another leaves. For small relations: the time grows with the square of the rows.
pub fn covers(alloc: Global, nulls: Nulls, relation: &Relation) -> Result<Covers, AllocError>
    ensures { IfOk result (λ found. (limit : ℕ) → found ≡ cover_words.covers (opened nulls limit relation.now)) }
{
    let columns = relation.names().len() as u8;
    let rows = relation.rows(alloc)?;
    let sets = agree_sets(alloc, nulls, columns, &rows)?;
    least_covers(alloc, columns, sets.as_slice())
}
