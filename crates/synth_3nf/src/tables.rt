// Tables by canonical dependencies.
ghost use Rattle.std.specs.Prelude.{if◌then◌else◌, ◌≡◌, ◌==◌, ◌<◌, ◌≤◌, ◌^◌, [], ℕ, map, IfOk, OnOk};
ghost use Rattle.std.specs.List.{All, list_any};
ghost use Rattle.col_set.specs.ColSet.{subset, with};
ghost use Rattle.col_set.specs.Minimal.{proper_subset};
ghost use Rattle.col_set.specs.declared.col_set.TheConstants.{MOST_COLUMNS};
ghost use Rattle.synth_3nf.specs.Tables as words;

use crate::keeping::canonical;
use fd_closure::closure_under;
use rel_base::{ColSet, Covers, Fd, MOST_COLUMNS, Table};
use std::alloc::{AllocError, Global};
use std::collections::BTreeSet;

/// The tables that the dependencies of n columns make, each with its key: the canonical dependencies with one left side make a table
/// (Bernstein, 1976), one more with a key of all columns stands last where no table's columns determine all (Biskup, Dayal and
/// Bernstein, 1979), and a table inside another one is left out.
///
/// The dependencies may be the covers of a relation or some of them that were chosen. What it costs is what `canonical` does, and a
/// look at all kept dependencies, and at all tables, for each table.
pub fn synthesize(alloc: Global, covers: &Covers, n: u8) -> Result<Vec<Table>, AllocError>
    requires few { n ≤ MOST_COLUMNS }
    requires within { All (λ fd. fd.left < 2 ^ n) covers.now.fds }
    ensures { IfOk result (λ tables. tables.items ≡ words.synthesis n covers.now.fds) }
{
    let kept = canonical(alloc, covers)?;
    // `fds` is called for its clause that the right sides are columns.
    let _fds = covers.fds();
    let tables = tables_by(alloc, kept.as_slice(), n)?;
    Ok(tables)
}

// The tables of canonical dependencies.
fn tables_by(alloc: Global, kept: &[Fd], n: u8) -> Result<Vec<Table>, AllocError>
    requires few { n ≤ MOST_COLUMNS }
    requires narrow { All (λ fd. fd.right < MOST_COLUMNS) kept.now }
    requires within { All (λ fd. fd.left < 2 ^ n) kept.now }
    ensures { IfOk result (λ tables. tables.items ≡ words.outermost [] (words.with_key_table n kept.now (words.tables_of_lefts n kept.now))) }
{
    let lefts = left_sides(alloc, kept)?;
    let mut tables = tables_of_lefts(alloc, kept, &lefts)?;
    push_key_table(&mut tables, kept, n)?;
    outermost(alloc, &tables)
}

// The left sides, each once, in report order.
fn left_sides(alloc: Global, kept: &[Fd]) -> Result<Vec<ColSet>, AllocError>
    ensures { IfOk result (λ lefts. (n : ℕ) → All (λ fd. fd.left < 2 ^ n) kept.now → lefts.items ≡ words.left_sides n kept.now) }
{
    let lefts = left_set(alloc, kept)?;
    in_order(alloc, lefts)
}

fn left_set(alloc: Global, kept: &[Fd]) -> Result<BTreeSet<ColSet>, AllocError>
    ensures { IfOk result (λ lefts. (n : ℕ) → All (λ fd. fd.left < 2 ^ n) kept.now → lefts.keys ≡ words.left_sides n kept.now) }
{
    let mut lefts = BTreeSet::new(alloc);
    for fd in kept {
        lefts.insert(fd.left)?;
    }
    Ok(lefts)
}

fn in_order(alloc: Global, sets: BTreeSet<ColSet>) -> Result<Vec<ColSet>, AllocError>
    ensures { IfOk result (λ list. list.items ≡ sets.keys) }
{
    sets.into_iter().collect(alloc)
}

// A table for each of the left sides.
fn tables_of_lefts(alloc: Global, kept: &[Fd], lefts: &[ColSet]) -> Result<Vec<Table>, AllocError>
    requires { All (λ fd. fd.right < MOST_COLUMNS) kept.now }
    ensures { IfOk result (λ tables. tables.items ≡ map (λ x. record { columns = words.with_rights kept.now x; key = x }) lefts.now) }
{
    lefts
        .iter()
        .copied()
        .map(|left| Table {
            columns: with_rights(kept, left),
            key: left,
        })
        .collect(alloc)
}

// The left side, with the right columns of the dependencies that have it.
fn with_rights(kept: &[Fd], left: ColSet) -> ColSet
    requires { All (λ fd. fd.right < MOST_COLUMNS) kept.now }
    ensures { result ≡ words.with_rights kept.now left }
{
    let mut columns = left;
    for fd in kept {
        columns = with_right_of(columns, left, *fd);
    }
    columns
}

// The columns with the right column of a dependency that has this left side.
fn with_right_of(columns: ColSet, left: ColSet, fd: Fd) -> ColSet
    requires { fd.right < MOST_COLUMNS }
    ensures { result ≡ (if fd.left == left then with columns fd.right else columns) }
{
    if fd.left == left {
        columns.with(fd.right)
    } else {
        columns
    }
}

// Whether x reaches all columns.
fn reaches_all(kept: &[Fd], n: u8, x: ColSet) -> bool
    requires few { n ≤ MOST_COLUMNS }
    requires narrow { All (λ fd. fd.right < MOST_COLUMNS) kept.now }
    ensures { result ≡ words.reaches_all n kept.now x }
{
    ColSet::all(n).subset_of(closure_under(kept, x))
}

// Whether the columns of one of the tables reach all.
fn any_reaches_all(tables: &[Table], kept: &[Fd], n: u8) -> bool
    requires few { n ≤ MOST_COLUMNS }
    requires narrow { All (λ fd. fd.right < MOST_COLUMNS) kept.now }
    ensures { result ≡ list_any (λ t. words.reaches_all n kept.now t.columns) tables.now }
{
    tables
        .iter()
        .any(|table| reaches_all(kept, n, table.columns))
}

// The key of all columns: each is tried, from the last one on, and dropped where the rest still reaches all.
fn whole_key(kept: &[Fd], n: u8) -> ColSet
    requires few { n ≤ MOST_COLUMNS }
    requires narrow { All (λ fd. fd.right < MOST_COLUMNS) kept.now }
    ensures { result ≡ words.whole_key n kept.now }
{
    let mut key = ColSet::all(n);
    for column in (0..n).rev() {
        if key.has(column) && reaches_all(kept, n, key.without(column)) {
            key = key.without(column);
        }
    }
    key
}

// Adds the table of that key where no table has columns that reach all.
#[tactic(auto, unfolding(crate::specs::Tables::with_key_table))]
fn push_key_table(tables: &mut Vec<Table>, kept: &[Fd], n: u8) -> Result<(), AllocError>
    requires few { n ≤ MOST_COLUMNS }
    requires narrow { All (λ fd. fd.right < MOST_COLUMNS) kept.now }
    ensures { OnOk result (tables.new.items ≡ words.with_key_table n kept.now tables.old.items) }
{
    if !any_reaches_all(tables, kept, n) {
        let key = whole_key(kept, n);
        tables.push(Table { columns: key, key })?;
    }
    Ok(())
}

// The tables that lie in no earlier one, and not properly in a later one.
fn outermost(alloc: Global, tables: &[Table]) -> Result<Vec<Table>, AllocError>
    ensures { IfOk result (λ kept. kept.items ≡ words.outermost [] tables.now) }
{
    let mut kept = Vec::new(alloc);
    for (place, table) in tables.iter().enumerate() {
        if !is_inside(&tables[..place], &tables[place + 1..], *table) {
            kept.push(*table)?;
        }
    }
    Ok(kept)
}

// Whether a table lies inside one of the earlier ones, or properly inside one of the later ones.
fn is_inside(earlier: &[Table], later: &[Table], table: Table) -> bool
    ensures { result ≡ words.is_inside earlier.now later.now table }
{
    any_contains(earlier, table.columns) || any_exceeds(later, table.columns)
}

// Whether one of the tables has all these columns.
fn any_contains(tables: &[Table], columns: ColSet) -> bool
    ensures { result ≡ list_any (λ other. subset columns other.columns) tables.now }
{
    tables.iter().any(|other| columns.subset_of(other.columns))
}

// Whether one of the tables has all these columns and others.
#[tactic(auto, unfolding(col_set::specs::Minimal::proper_subset))]
fn any_exceeds(tables: &[Table], columns: ColSet) -> bool
    ensures { result ≡ list_any (λ other. proper_subset columns other.columns) tables.now }
{
    tables.iter().any(|other| columns.subset_of(other.columns) && columns != other.columns)
}
