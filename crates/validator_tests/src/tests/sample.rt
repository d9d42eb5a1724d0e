// A relation that is drawn, and the snapshot of its codes.
ghost use Rattle.std.specs.Prelude.{◌≡◌, ◌+◌, length, true};
ghost use Rattle.std.specs.List.{All};
ghost use Rattle.col_set.specs.Target.{IsColumnTarget};

use col_set::{ColSet, Target};
use plain_base::{Samples, agree, agree_sets, refutes};
use rel_base::{COLUMN_PLACES, Codes, MOST_COLUMNS, Nulls, Row, RowNo, Snapshot};
use std::alloc::{AllocError, Global};
use std::process::Abort;
use std::sync::Arc;

// How many columns and live rows a relation has.
pub const COLUMNS: u8 = 5;

pub const ROWS: u32 = 9;

// A relation's live rows with the agree sets of every two of them, and its snapshot, in which one row more is dead.
#[derive(Drop)]
pub struct Sample {
    rows: Vec<Row>,
    agree_sets: Vec<ColSet>,
    pub snapshot: Arc<Snapshot>,
    dead: u32,
}

// The bytes of a cell.
fn cell(rows: &[Row], place: u32, column: u8) -> &[u8] {
    match rows.get(place as usize) {
        Some(row) => {
            if (column as usize) < row.len() {
                row.cell(column as usize)
            } else {
                &[]
            }
        }
        None => &[],
    }
}

// A cell's code: the place of the first row with an equal cell.
fn code(rows: &[Row], place: u32, column: u8) -> u32 {
    for earlier in 0..place {
        if cell(rows, earlier, column) == cell(rows, place, column) {
            return earlier;
        }
    }
    place
}

// A column's codes. The dead row's code is that of the first row.
fn codes(alloc: Global, rows: &[Row], column: u8, dead: u32) -> Result<Codes, AllocError> {
    let mut codes = Vec::new(alloc);
    for place in 0..ROWS {
        if place == dead {
            codes.push(0)?;
        }
        codes.push(code(rows, place, column))?;
    }
    Ok(Codes::of(codes))
}

// Whether each of these lists has so many codes.
fn are_long(codes: &[Codes], count: usize) -> bool
    ensures { result ≡ true → All (λ list. length list + 1 ≡ count + 1) codes.now }
{
    for list in codes {
        if list.len() != count {
            return false;
        }
    }
    true
}

// The snapshot of these rows, and of a dead one before that at a place.
fn snapshot_of(
    alloc: Global,
    rt: &impl Abort,
    rows: &[Row],
    dead: u32,
) -> Result<Snapshot, AllocError> {
    let mut lists = Vec::new(alloc);
    for column in 0..COLUMNS {
        lists.push(codes(alloc, rows, column, dead)?)?;
    }
    let mut live = Vec::new(alloc);
    for place in 0..=ROWS {
        live.push(place != dead)?;
    }
    assert!(rt; 0 < lists.len() && lists.len() <= COLUMN_PLACES && live.len() == 10);
    assert!(rt; are_long(lists.as_slice(), 10));
    Ok(Snapshot::of(lists, live, RowNo::of(11)))
}

// Draws a relation.
pub fn drawn(alloc: Global, rt: &impl Abort, samples: &mut Samples) -> Result<Sample, AllocError> {
    let rows = samples.rows(alloc, ROWS as usize, COLUMNS as usize)?;
    let agree_sets = agree_sets(alloc, Nulls::Equal, COLUMNS, rows.as_slice())?;
    let dead = samples.below(ROWS);
    let snapshot = Arc::new(alloc, snapshot_of(alloc, rt, rows.as_slice(), dead)?)?;
    Ok(Sample {
        rows,
        agree_sets,
        snapshot,
        dead,
    })
}

impl Sample {
    // Whether these columns determine the target among the live rows.
    pub fn holds(&self, left: ColSet, target: Target) -> bool
        requires { IsColumnTarget MOST_COLUMNS target }
    {
        !refutes(self.agree_sets.as_slice(), target, left)
    }

    // The live row with this number.
    fn row(&self, number: RowNo) -> Option<&Row> {
        let place = number.number() - 1;
        if place < self.dead {
            return self.rows.get(place as usize);
        }
        if place == self.dead {
            return None;
        }
        self.rows.get((place - 1) as usize)
    }

    // What two live rows agree on.
    fn agreed(&self, i: RowNo, j: RowNo) -> Option<ColSet> {
        let one = self.row(i)?;
        let other = self.row(j)?;
        if one.len() < COLUMNS as usize || other.len() < COLUMNS as usize {
            return None;
        }
        Some(agree(Nulls::Equal, COLUMNS, one, other))
    }

    // Whether these are two live rows, the smaller number first, that agree on these columns and not on the target.
    pub fn breaks(&self, left: ColSet, target: Target, i: RowNo, j: RowNo) -> bool
        requires { IsColumnTarget MOST_COLUMNS target }
    {
        match self.agreed(i, j) {
            Some(agreed) => i < j && agreed.refutes(left, target),
            None => false,
        }
    }

    // How many rows have a cell of an earlier one in a column.
    fn weight(&self, column: u8) -> u32 {
        let mut weight = 0u32;
        for place in 0..ROWS {
            if code(self.rows.as_slice(), place, column) < place {
                weight = weight.saturating_add(1);
            }
        }
        weight
    }

    // Whether these are the weights of the columns.
    pub fn weighs(&self, weights: &[u32; COLUMN_PLACES]) -> bool {
        for column in 0..COLUMNS {
            if weights[column as usize] != self.weight(column) {
                return false;
            }
        }
        true
    }
}
