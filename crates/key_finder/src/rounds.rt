// Keys of a snapshot's rows: candidates from the agree sets found so far, and agree sets from the candidates that fail.
ghost use Rattle.std.specs.Prelude.{◌≡◌, ◌<◌, ◌≤◌, ◌^◌, ◌++◌, [], true, false, length, IsTrue, OnOk, IfOk};
ghost use Rattle.std.specs.List.{All, Contains};
ghost use Rattle.col_set.specs.ColSet.{IsSubset, has};
ghost use Rattle.rel_base.specs.declared.nulls.Nulls.TheVariants.{Equal};
ghost use Rattle.rel_base.specs.RowState.{RowState, IsRowState};
ghost use Rattle.rel_base.specs.Shows.{Shows, code_agree, code_agree_sets};
ghost use Rattle.lossless_join.specs.Parts.{projection_keys};
ghost use Rattle.key_finder.specs.Keys.{told_apart, keys_within};
ghost use Rattle.key_finder.specs.Rounds.{IsDisproof, IsNews, IsUnique, AreUnique};

use crate::witnessed::table_keys_of;
use rel_base::{ColSet, RowNo, Snapshot};
use std::alloc::{AllocError, Global};
use stripped_partition::Path;

// The columns in which two rows have equal codes.
fn agree(snapshot: &Snapshot, i: RowNo, j: RowNo) -> ColSet
    requires first { i < snapshot.now.to }
    requires second { j < snapshot.now.to }
    ensures { result ≡ code_agree snapshot.now i j }
{
    let mut columns = ColSet::empty();
    for column in 0..snapshot.columns() {
        if snapshot.code(i, column) == snapshot.code(j, column) {
            columns = columns.with(column);
        }
    }
    columns
}

// Agree sets that contain the path's columns and lack a column of the table, one for each column that splits a group of the
// path. There is none exactly where the path's columns are unique in the table.
fn disproofs(
    alloc: Global,
    snapshot: &Snapshot,
    path: &Path,
    columns: ColSet,
) -> Result<Vec<ColSet>, AllocError>
    requires path { path.now.table ≡ snapshot.now }
    requires columns { columns < 2 ^ length snapshot.now.codes }
    ensures each { IfOk result (λ found. All (IsDisproof snapshot.now columns path.now.columns) found.items) }
    ensures none { IfOk result (λ found. found.items ≡ [] → IsUnique snapshot.now columns path.now.columns) }
{
    let mut found = Vec::new(alloc);
    let groups = path.groups();
    let mut left = columns.minus(path.columns());
    while let Some(column) = left.first() {
        if let Some(pair) = groups.splits_by(snapshot, column) {
            found.push(agree(snapshot, pair.0, pair.1))?;
        }
        left = left.without(column);
    }
    Ok(found)
}

// Whether the set is one of those that are known to be unique.
fn is_held(held: &[ColSet], set: ColSet) -> bool
    ensures { IsTrue result → Contains held.now set }
{
    held.binary_search(&set).is_ok()
}

// Disproofs of a candidate, none where it is known to be unique, and else the path is sent there.
fn disproofs_of(
    alloc: Global,
    snapshot: &Snapshot,
    columns: ColSet,
    path: &mut Path,
    held: &[ColSet],
    key: ColSet,
) -> Result<Vec<ColSet>, AllocError>
    requires path { path.old.table ≡ snapshot.now }
    requires held { AreUnique snapshot.now columns held.now }
    requires columns { columns < 2 ^ length snapshot.now.codes }
    requires key { IsSubset key columns }
    ensures each { IfOk result (λ found. All (IsDisproof snapshot.now columns key) found.items) }
    ensures none { IfOk result (λ found. found.items ≡ [] → IsUnique snapshot.now columns key) }
    ensures path { path.new.table ≡ snapshot.now }
{
    if is_held(held, key) {
        return Ok(Vec::new(alloc));
    }
    path.go_to(key)?;
    disproofs(alloc, snapshot, path, columns)
}

// The candidates of a round that are unique in the table, and the agree sets that show that the others are not.
#[derive(Drop)]
struct Round {
    held: Vec<ColSet>,
    news: Vec<ColSet>,
}

// Judges the candidates in their order. Those that share columns on the path's way share partitions.
fn judged(
    alloc: Global,
    snapshot: &Snapshot,
    columns: ColSet,
    path: &mut Path,
    keys: &[ColSet],
    held: &[ColSet],
) -> Result<Round, AllocError>
    requires path { path.old.table ≡ snapshot.now }
    requires keys { All (λ key. IsSubset key columns) keys.now }
    requires held { AreUnique snapshot.now columns held.now }
    requires columns { columns < 2 ^ length snapshot.now.codes }
    ensures held { IfOk result (λ round. AreUnique snapshot.now columns round.held.items) }
    ensures news { IfOk result (λ round. All (IsNews snapshot.now columns keys.now) round.news.items) }
    ensures none { IfOk result (λ round. round.news.items ≡ [] → AreUnique snapshot.now columns keys.now) }
    ensures path { path.new.table ≡ snapshot.now }
{
    let mut unique = Vec::new(alloc);
    let mut news = Vec::new(alloc);
    for key in keys {
        let found = disproofs_of(alloc, snapshot, columns, path, held, *key)?;
        if found.is_empty() {
            unique.push(*key)?;
        } else {
            news.extend_from_slice(found.as_slice())?;
        }
    }
    Ok(Round { held: unique, news })
}

/// The minimal keys of the table of these columns, in report order: of the distinct parts of the snapshot's live rows on them.
/// The snapshot shows rows in which NULL equals NULL.
///
/// It goes by rounds, as HyFD's search does (Papenbrock and Naumann, 2016). The candidates of a round are the keys that the agree
/// sets found so far leave; each that fails gives agree sets of two rows that agree on it and not on the table; the last round is
/// the one in which all hold. It makes the groups of rows that agree on a candidate anew in each call: where a finished search has
/// its witnesses at hand, `table_keys_of` is faster by far.
pub fn table_keys(
    alloc: Global,
    snapshot: &Snapshot,
    columns: ColSet,
) -> Result<Vec<ColSet>, AllocError>
    requires { columns < 2 ^ length snapshot.now.codes }
    ensures by_codes { IfOk result (λ keys. keys.items ≡ keys_within (length snapshot.now.codes) (code_agree_sets snapshot.now) columns) }
    ensures keys { IfOk result (λ keys. (r : RowState) → IsRowState r → Shows snapshot.now r → r.nulls ≡ Equal → keys.items ≡ projection_keys r columns) }
{
    let mut agree_sets = Vec::new(alloc);
    let mut held = Vec::new(alloc);
    // Keys come in report order, so a path with their columns ascending goes on from what those before made.
    let mut path = Path::new(alloc, snapshot, &[])?;
    'rounds: loop {
        let keys = table_keys_of(alloc, agree_sets.as_slice(), columns)?;
        let round = judged(
            alloc,
            snapshot,
            columns,
            &mut path,
            keys.as_slice(),
            held.as_slice(),
        )?;
        if round.news.is_empty() {
            return Ok(keys);
        }
        agree_sets.extend_from_slice(round.news.as_slice())?;
        held = round.held;
    }
}
