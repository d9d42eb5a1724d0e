// The rows that agree with no earlier row.
ghost use Rattle.std.specs.Prelude.{◌≡◌, ◌<◌, ◌^◌, ◌-◌, IfOk, length, map, false, slice_index_or};
ghost use Rattle.rel_base.specs.declared.nulls.Nulls.TheVariants.{Equal};
ghost use Rattle.rel_base.specs.Projection.{part, projection};
ghost use Rattle.rel_base.specs.RowState.{RowState, IsRowState, row, width};
ghost use Rattle.rel_base.specs.Shows.{Shows};
ghost use Rattle.first_rows.specs.First as specs;
ghost use Rattle.first_rows.specs.Marked.{Marked, MarkedBy, is_unmarked, unmarked_rows};

use rel_base::{RowNo, Snapshot};
use std::alloc::{AllocError, Global};
use stripped_partition::{Partition, Path};

/// The live rows of a snapshot that agree with no earlier one on the columns of a path, ascending.
///
/// Where the snapshot shows rows in which NULL equals NULL, their parts are the distinct parts of all rows: the table that a projection to
/// these columns is. They are found by the groups that the path has, in a step for each live row and each row of a group, and a byte a row:
/// where the columns hold a key there are no groups, and nothing is looked at but which rows are live.
pub fn first_rows(alloc: Global, snapshot: &Snapshot, path: &Path) -> Result<Vec<RowNo>, AllocError>
    requires { path.now.table ≡ snapshot.now }
    ensures first { IfOk result (λ rows. rows.items ≡ specs.first_rows snapshot.now path.now.columns) }
    ensures parts { IfOk result (λ rows. (r : RowState) → IsRowState r → Shows snapshot.now r → r.nulls ≡ Equal → path.now.columns < 2 ^ width r
        → map (λ number. part path.now.columns (row r number)) rows.items ≡ projection r path.now.columns) }
{
    let later = marked(alloc, snapshot, path.groups())?;
    unmarked(alloc, snapshot, &later)
}

// For each row given so far, by its place, whether it stands in a group behind another row.
fn marked(alloc: Global, snapshot: &Snapshot, groups: &Partition) -> Result<Vec<bool>, AllocError>
    ensures { IfOk result (λ later. MarkedBy groups.now (snapshot.now.to - 1) (length groups.now) later.items) }
{
    let mut later = vec![in alloc; false; (snapshot.to().number() - 1) as usize]?;
    for k in 0..groups.group_count() {
        mark_later(&mut later, groups.group(k));
    }
    Ok(later)
}

// Marks the rows of a group but the first.
fn mark_later(later: &mut [bool], group: &[RowNo])
    ensures { Marked group.now later.old (length group.now) later.new }
{
    for k in 1..group.len() {
        let place = (group[k].number() - 1) as usize;
        if place < later.len() {
            later[place] = true;
        }
    }
}

// The live rows that are not marked.
fn unmarked(alloc: Global, snapshot: &Snapshot, later: &[bool]) -> Result<Vec<RowNo>, AllocError>
    ensures { IfOk result (λ rows. rows.items ≡ unmarked_rows snapshot.now later.now) }
{
    let mut rows = Vec::new(alloc);
    for number in 1..snapshot.to().number() {
        let row = RowNo::of(number);
        if is_first(snapshot, later, row) {
            rows.push(row)?;
        }
    }
    Ok(rows)
}

// Whether a row is live and not marked.
fn is_first(snapshot: &Snapshot, later: &[bool], row: RowNo) -> bool
    ensures { result ≡ is_unmarked snapshot.now later.now row }
{
    snapshot.is_live(row) && !is_marked(later, row)
}

fn is_marked(later: &[bool], row: RowNo) -> bool
    ensures { result ≡ slice_index_or later.now (row - 1) false }
{
    let place = (row.number() - 1) as usize;
    place < later.len() && later[place]
}
