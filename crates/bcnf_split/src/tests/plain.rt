// The split by its plain definition: over the agree sets of all pairs of rows, all columns and all column sets.
ghost use Rattle.std.specs.Prelude.{◌≡◌, ◌<◌, ◌≤◌, ◌^◌, ◌++◌, false, map, IsTrue, OnOk, IfOk};
ghost use Rattle.std.specs.declared.cmp.Ordering.TheVariants.{Less};
ghost use Rattle.col_set.specs.declared.target.Target.TheVariants.{Col};
ghost use Rattle.col_set.specs.ColSet.{Columns, all, report_cmp};
ghost use Rattle.rel_base.specs.RowState.{RowState, width};
ghost use Rattle.rel_base.specs.Validity.{agree_sets, determined};
ghost use Rattle.fd_closure.specs.Determined as rows;
ghost use Rattle.fd_closure.specs.Keys as keys;
ghost use Rattle.bcnf_split.specs.Bcnf as words;
ghost use Rattle.bcnf_split.specs.Split.{splits_within, tables_of};
ghost use Rattle.bcnf_split.specs.Search.{IsFoundAs};

use col_set::{ColSet, MOST_COLUMNS, Target};
use rel_base::Table;
use std::alloc::{AllocError, Global};

// Whether x determines the column.
fn holds(sets: &[ColSet], x: ColSet, column: u8) -> bool
    requires { column < MOST_COLUMNS }
    ensures { result ≡ determined sets.now x (Col column) }
{
    sets.iter()
        .all(|w| !x.subset_of(*w) || w.has_target(Target::Col(column)))
}

// What x determines of the first n columns.
fn determined_columns(sets: &[ColSet], n: u8, x: ColSet) -> ColSet
    requires { n ≤ MOST_COLUMNS }
    ensures { (r : RowState) → agree_sets r ≡ sets.now → width r ≡ n → result ≡ rows.determined_columns r x }
{
    let mut found = ColSet::empty();
    for column in 0..n {
        if holds(sets, x, column) {
            found = found.with(column);
        }
    }
    found
}

// Whether x lies inside s, and determines some column of s outside itself and not all of s.
fn violates(sets: &[ColSet], n: u8, s: ColSet, x: ColSet) -> bool
    requires { n ≤ MOST_COLUMNS }
    ensures { (r : RowState) → agree_sets r ≡ sets.now → width r ≡ n → s < 2 ^ n → result ≡ words.violates r s x }
{
    let found = determined_columns(sets, n, x);
    x.subset_of(s) && !s.inter(found).subset_of(x) && !s.subset_of(found)
}

// Whether x stands before what was found, if there is anything.
fn stands_before(x: ColSet, first: &Option<ColSet>) -> bool
    ensures yes { IsTrue result → (y : Columns) → IsFoundAs y first.now → report_cmp x y ≡ Less }
    ensures no { result ≡ false → IsFoundAs x first.now }
{
    match first {
        Some(other) => x < *other,
        None => true,
    }
}

// How many sets of n columns there are.
fn set_count(n: u8) -> u32
    requires { n ≤ 16 }
    ensures { result ≡ 2 ^ n }
{
    1 << n
}

// The first column set in report order that violates s.
pub fn first_violation(sets: &[ColSet], n: u8, s: ColSet) -> Option<ColSet>
    requires { n ≤ 16 }
    ensures { (r : RowState) → agree_sets r ≡ sets.now → width r ≡ n → s < 2 ^ n → result ≡ words.first_violation r s }
{
    let mut first = None;
    for bits in 0..set_count(n) {
        let x = ColSet::of_bits(u128::from(bits));
        if violates(sets, n, s, x) && stands_before(x, &first) {
            first = Some(x);
        }
    }
    first
}

// What is left of s where its columns are tried in descending order, and each is dropped where the rest still determines s.
fn table_key(sets: &[ColSet], n: u8, s: ColSet) -> ColSet
    requires { n ≤ MOST_COLUMNS }
    ensures { (r : RowState) → agree_sets r ≡ sets.now → width r ≡ n → s < 2 ^ n → result ≡ keys.table_key r s }
{
    let mut key = s;
    for column in (0..n).rev() {
        if key.has(column) && s.subset_of(determined_columns(sets, n, key.without(column))) {
            key = key.without(column);
        }
    }
    key
}

// Adds the tables of s, for which so many steps are enough.
fn push_tables(
    tables: &mut Vec<Table>,
    sets: &[ColSet],
    n: u8,
    s: ColSet,
    steps: u32,
) -> Result<(), AllocError>
    requires { n ≤ 16 }
    ensures { OnOk result ((r : RowState) → agree_sets r ≡ sets.now → width r ≡ n → s < 2 ^ n → tables.new.items ≡ tables.old.items ++ map (λ t. record { columns = t; key = keys.table_key r t }) (splits_within steps r s)) }
{
    match first_violation(sets, n, s) {
        Some(x) if steps > 0 => {
            let moved = s.inter(determined_columns(sets, n, x)).minus(x);
            push_tables(tables, sets, n, s.minus(moved), steps - 1)?;
            push_tables(tables, sets, n, x.union(moved), steps - 1)
        }
        _ => {
            tables.push(Table {
                columns: s,
                key: table_key(sets, n, s),
            })?;
            Ok(())
        }
    }
}

// The tables of the n columns of a relation with these agree sets.
pub fn split(alloc: Global, sets: &[ColSet], n: u8) -> Result<Vec<Table>, AllocError>
    requires { n ≤ 16 }
    ensures { IfOk result (λ tables. (r : RowState) → agree_sets r ≡ sets.now → width r ≡ n → tables.items ≡ tables_of r (all n)) }
{
    let mut tables = Vec::new(alloc);
    push_tables(&mut tables, sets, n, ColSet::all(n), set_count(n))?;
    Ok(tables)
}
