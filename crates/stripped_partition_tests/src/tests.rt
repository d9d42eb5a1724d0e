// Partitions beside what plainly holds among drawn rows.
ghost use Rattle.std.specs.Prelude.{◌≡◌, ◌<◌, ◌^◌, length};

use plain_base::{PlainRows, Samples, relation_of};
use rel_base::{Codes, ColSet, Limits, Nulls, Row, RowNo, Snapshot, Target};
use std::alloc::{AllocError, Global};
use std::test::Fail;
use stripped_partition::{Partition, Path, Scratch, Tally, weights};

// The codes of a column over six rows.
type Column = [u32; 6];

fn drawn(seed: u64) -> [Column; 3] {
    let mut samples = Samples::from_seed(seed);
    let mut columns = [[0u32; 6]; 3];
    for column in columns.iter_mut() {
        for code in column.iter_mut() {
            *code = samples.below(3);
        }
    }
    columns
}

// The snapshot of these columns, of which the rows with a number below the bound are live.
fn snapshot_of(alloc: Global, columns: &[Column; 3], bound: usize) -> Result<Snapshot, AllocError> {
    let mut codes = Vec::new(alloc);
    codes.push(Codes::of(Vec::from_slice(alloc, &columns[0])?))?;
    codes.push(Codes::of(Vec::from_slice(alloc, &columns[1])?))?;
    codes.push(Codes::of(Vec::from_slice(alloc, &columns[2])?))?;
    let mut live = [false; 6];
    for place in 0..6 {
        live[place] = place + 1 < bound;
    }
    Ok(Snapshot::of(codes, Vec::from_slice(alloc, &live)?, RowNo::of(7)))
}

fn cell_of(code: u32) -> &'static [u8] {
    match code {
        0 => b"0",
        1 => b"1",
        _ => b"2",
    }
}

// The rows of three columns of codes, as plain rows.
fn rows_of(alloc: Global, columns: &[Column; 3], bound: u32) -> Result<PlainRows, Fail> {
    let mut rows = Vec::new(alloc);
    for place in 0..6 {
        rows.push(Row::copied(
            alloc,
            &[
                cell_of(columns[0][place]),
                cell_of(columns[1][place]),
                cell_of(columns[2][place]),
            ],
        )?)?;
    }
    let names = Row::copied(alloc, &[b"a", b"b", b"c"])?;
    let relation = relation_of(alloc, names, &rows)?.ok_or("no relation")?;
    let rows = PlainRows::opened(alloc, Nulls::Equal, Limits::standard(), relation)?;
    Ok(rows.below(alloc, bound)?)
}

// Whether the partitions by a column and by one more tell what plainly holds.
#[tactic(auto, using(stripped_partition::proofs::Refining::partition_groups))]
fn tells(
    alloc: Global,
    snapshot: &Snapshot,
    rows: &PlainRows,
    left: u8,
    right: u8,
) -> Result<bool, AllocError> {
    if left >= snapshot.columns() || right >= snapshot.columns() {
        return Ok(false);
    }
    let x = ColSet::empty().with(left);
    let holds = rows.holds(alloc, x, Target::Col(right))?;
    let unique = rows.holds(alloc, x.with(right), Target::RowId)?;
    let one = Partition::of_column(alloc, snapshot, left)?;
    let two = one.refine(alloc, snapshot, right)?;
    Ok(
        (one.error_count() == two.error_count()) == holds
            && one.splits_by(snapshot, right).is_none() == holds
            && (two.group_count() == 0) == unique,
    )
}

#[test]
fn partitions_tell_what_holds(rt: HostRuntime) -> Result<(), Fail> {
    for seed in 0..20u64 {
        let columns = drawn(seed);
        let bound = 4 + (seed % 4) as u32;
        let snapshot = snapshot_of(rt.alloc(), &columns, bound as usize)?;
        let rows = rows_of(rt.alloc(), &columns, bound)?;
        for left in 0..3 {
            for right in 0..3 {
                assert!(rt;
                    tells(rt.alloc(), &snapshot, &rows, left, right)?,
                    "seed {seed}"
                );
            }
        }
    }
    Ok(())
}

fn is_same(one: &Partition, other: &Partition) -> bool {
    if one.group_count() != other.group_count() {
        return false;
    }
    for k in 0..one.group_count() {
        if one.group(k) != other.group(k) {
            return false;
        }
    }
    true
}

// Whether the partition by two columns is the same, whichever way it is made.
fn ways_meet(alloc: Global, snapshot: &Snapshot, left: u8, right: u8) -> Result<bool, AllocError> {
    if left >= snapshot.columns() || right >= snapshot.columns() {
        return Ok(false);
    }
    let mut slots = Vec::new(alloc);
    let one = Partition::of_column(alloc, snapshot, left)?;
    let other = Partition::of_all(alloc, snapshot)?.refine_in(alloc, snapshot, right, &mut slots)?;
    let product = one.product(alloc, &other)?;
    Ok(
        is_same(&product, &one.refine(alloc, snapshot, right)?)
            && is_same(
                &product,
                &other.refine_in(alloc, snapshot, left, &mut slots)?,
            ),
    )
}

#[test]
fn products_are_refinements(rt: HostRuntime) -> Result<(), Fail> {
    for seed in 0..20u64 {
        let snapshot = snapshot_of(rt.alloc(), &drawn(seed), 4 + (seed % 4) as usize)?;
        for left in 0..3 {
            for right in 0..3 {
                assert!(rt;
                    ways_meet(rt.alloc(), &snapshot, left, right)?,
                    "seed {seed}"
                );
            }
        }
    }
    Ok(())
}

// Whether each group of the one stands in the other, which has as many.
fn has_same_groups(one: &Partition, other: &Partition) -> bool {
    for k in 0..one.group_count() {
        if !has_group(other, one.group(k)) {
            return false;
        }
    }
    one.group_count() == other.group_count()
}

fn has_group(partition: &Partition, group: &[RowNo]) -> bool {
    for k in 0..partition.group_count() {
        if partition.group(k) == group {
            return true;
        }
    }
    false
}

// Whether the partition by two columns has the same groups where these are never put in order.
#[tactic(auto, using(stripped_partition::proofs::Refining::partition_groups))]
fn orders_meet(
    alloc: Global,
    snapshot: &Snapshot,
    left: u8,
    right: u8,
) -> Result<bool, AllocError> {
    if left >= snapshot.columns() || right >= snapshot.columns() {
        return Ok(false);
    }
    let mut slots = Vec::new(alloc);
    let mut scratch = Scratch::new(alloc);
    let all = Partition::of_all(alloc, snapshot)?;
    let one = all.refine_unordered(alloc, snapshot, left, &mut slots, &mut scratch)?;
    let both = one.refine_unordered(alloc, snapshot, right, &mut slots, &mut scratch)?;
    let ordered = Partition::of_column(alloc, snapshot, left)?.refine(alloc, snapshot, right)?;
    Ok(has_same_groups(&both, &ordered) && both.error_count() == ordered.error_count())
}

#[test]
fn groups_are_the_same_in_any_order(rt: HostRuntime) -> Result<(), Fail> {
    for seed in 0..20u64 {
        let snapshot = snapshot_of(rt.alloc(), &drawn(seed), 4 + (seed % 4) as usize)?;
        for left in 0..3 {
            for right in 0..3 {
                assert!(rt;
                    orders_meet(rt.alloc(), &snapshot, left, right)?,
                    "seed {seed}"
                );
            }
        }
    }
    Ok(())
}

// Sends the path to these columns, and once more where memory ran out on the way.
fn goes_to(path: &mut Path, columns: ColSet) -> Result<bool, AllocError>
    requires { columns < 2 ^ length path.old.table.codes }
    ensures { path.new.table ≡ path.old.table }
{
    if path.go_to(columns).is_err() {
        path.go_to(columns)?;
    }
    Ok(path.columns() == columns)
}

// Whether a path that comes from another column has the groups by two columns.
#[tactic(auto, using(stripped_partition::proofs::Refining::partition_groups))]
fn is_on_the_way(
    alloc: Global,
    snapshot: &Snapshot,
    left: u8,
    right: u8,
) -> Result<bool, AllocError> {
    if left >= snapshot.columns() || right >= snapshot.columns() {
        return Ok(false);
    }
    let wanted = Partition::of_column(alloc, snapshot, left)?.refine(alloc, snapshot, right)?;
    let mut path = Path::new(alloc, snapshot, &[2, 0, 7])?;
    let one = ColSet::empty().with(right);
    Ok(
        goes_to(&mut path, one)?
            && goes_to(&mut path, one.with(left))?
            && has_same_groups(path.groups(), &wanted),
    )
}

#[test]
fn a_path_has_the_groups_of_each_set_that_it_is_sent_to(rt: HostRuntime) -> Result<(), Fail> {
    for seed in 0..20u64 {
        let snapshot = snapshot_of(rt.alloc(), &drawn(seed), 4 + (seed % 4) as usize)?;
        for left in 0..3 {
            for right in 0..3 {
                assert!(rt;
                    is_on_the_way(rt.alloc(), &snapshot, left, right)?,
                    "seed {seed}"
                );
            }
        }
    }
    Ok(())
}

#[test]
#[tactic(auto, using(stripped_partition::proofs::Refining::partition_groups))]
fn groups_by_a_column(rt: HostRuntime) -> Result<(), Fail> {
    let columns = [[1, 1, 2, 2, 2, 3], [7, 8, 8, 8, 9, 9], [0, 0, 0, 0, 0, 0]];
    let snapshot = snapshot_of(rt.alloc(), &columns, 7)?;
    assert!(rt; snapshot.columns() == 3);
    let first = Partition::of_column(rt.alloc(), &snapshot, 0)?;
    assert!(rt; first.group_count() == 2 && first.error_count() == 3);
    assert!(rt; first.group(0) == [RowNo::of(1), RowNo::of(2)].as_slice());
    assert!(rt; first.group(1) == [RowNo::of(3), RowNo::of(4), RowNo::of(5)].as_slice());
    assert!(rt; first.splits_by(&snapshot, 1) == Some((RowNo::of(1), RowNo::of(2))));
    Ok(())
}

#[test]
#[tactic(auto, using(stripped_partition::proofs::Refining::partition_groups))]
fn rows_outside_the_largest_parts(rt: HostRuntime) -> Result<(), Fail> {
    let columns = [[1, 1, 1, 2, 2, 3], [7, 7, 8, 9, 8, 8], [0, 0, 0, 0, 0, 0]];
    let snapshot = snapshot_of(rt.alloc(), &columns, 7)?;
    assert!(rt; snapshot.columns() == 3);
    let mut tally = Tally::new(rt.alloc(), &snapshot)?;
    let first = Partition::of_column(rt.alloc(), &snapshot, 0)?;
    assert!(rt; first.removed_up_to(&snapshot, 1, 2, &mut tally) == Some(2));
    assert!(rt; first.removed_up_to(&snapshot, 1, 1, &mut tally) == None);
    assert!(rt; first.removed_up_to(&snapshot, 2, 0, &mut tally) == Some(0));
    assert!(rt; weights(rt.alloc(), &snapshot)?.as_slice() == [3, 3, 5].as_slice());
    Ok(())
}
