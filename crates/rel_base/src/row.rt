// The cells of a row, packed.
ghost use Rattle.std.specs.Prelude.{◌≡◌, ◌<◌, ◌==◌, ◌++◌, ◌∷◌, length, map, fold, slice_index_or, [], IfOk};
ghost use Rattle.std.specs.List.{flat_map};
ghost use Rattle.std.specs.Cmp.Rules.{comparing};
ghost use Rattle.std.proofs.Common.{rules};
ghost use Rattle.csv.specs.Records.{fields_of};
ghost use Rattle.rel_base.specs.Projection.{same_row};
ghost use Rattle.rel_base.specs.Hashed.{cell_writes, rows_alike};

use csv::ByteRecord;
use std::alloc::{AllocError, Global};
use std::hash::{Hash, Hasher};
use std::marker::Model;

/// The cells of a row, one after another in one buffer beside the places where they end: two allocations a row, whatever its width.
///
/// Contracts see the list of the cells. A row also serves as the names of a relation's columns, and as the list of a column's cells.
#[derive(Drop)]
pub struct Row {
    record: ByteRecord,
}

impl Model for Row {
    ghost use Rattle.std.specs.Prelude.{List, ℕ};
    ghost use Rattle.csv.specs.Records.{fields_of};

    ghost Value = { List (List ℕ) };

    ghost view = { λ r. fields_of r.record };
}

impl Row {
    /// The row that a record of a text is, which takes no memory.
    pub fn of(fields: ByteRecord) -> Row
        ensures { result ≡ fields_of fields }
    {
        Row { record: fields }
    }

    /// A row with copies of these cells.
    pub fn copied(alloc: Global, cells: &[&[u8]]) -> Result<Row, AllocError>
        ensures { IfOk result (λ row. row ≡ map (λ cell. cell.now) cells.now) }
    {
        Ok(Row {
            record: ByteRecord::from_fields(alloc, cells)?,
        })
    }

    /// How many cells there are.
    pub fn len(&self) -> usize
        ensures { result ≡ length self.now }
    {
        self.record.len()
    }

    /// Whether there are none.
    pub fn is_empty(&self) -> bool
        ensures { result ≡ (length self.now == 0) }
    {
        self.record.is_empty()
    }

    /// The bytes of the cell at this place.
    pub fn cell(&self, place: usize) -> &[u8]
        requires { place < length self.now }
        ensures { result.now ≡ slice_index_or self.now place [] }
    {
        field(&self.record, place)
    }

    /// The cells as a record of a text.
    pub fn record(&self) -> &ByteRecord
        ensures { fields_of result.now ≡ self.now }
    {
        &self.record
    }

    /// The record back, which takes no memory.
    pub fn into_record(self) -> ByteRecord
        ensures { fields_of result ≡ self }
    {
        self.record
    }
}

// The bytes of the field at this place of a record.
pub(crate) fn field(fields: &ByteRecord, place: usize) -> &[u8]
    requires { place < length (fields_of fields.now) }
    ensures { result.now ≡ slice_index_or (fields_of fields.now) place [] }
{
    fields.get(place).unwrap()
}

impl Clone for Row {
    ghost is_clone = { λ old new. new ≡ old };

    fn clone(&self) -> Result<Row, AllocError>
        ensures { IfOk result (λ row. row ≡ self.now) }
    {
        Ok(Row {
            record: self.record.clone()?,
        })
    }
}

// Rows are equal where they have equal cells; how an empty cell was quoted is not kept.
impl PartialEq for Row {
    ghost eq = { same_row };

    ghost laws = { Prim.search (comparing, rules) };

    fn eq(&self, other: &Row) -> bool {
        has_same_cells(self, other)
    }
}

impl Eq for Row {
    ghost laws = { Prim.search (comparing, rules) };
}

fn has_same_cells(one: &Row, other: &Row) -> bool
    ensures { result ≡ same_row one.now other.now }
{
    if one.len() != other.len() {
        return false;
    }
    for place in 0..one.len() {
        if one.cell(place) != other.cell(place) {
            return false;
        }
    }
    true
}

// Each cell after its length, so that rows whose cells only join to the same bytes are told apart.
impl Hash for Row {
    ghost hash_input = { flat_map cell_writes };

    ghost respects_eq = { rows_alike.fed };

    fn hash<H: Hasher>(&self, state: &mut H) {
        write_cells(self, state);
    }
}

fn write_cells<H: Hasher>(row: &Row, state: &mut H)
    ensures { state.new ≡ fold H.write state.old (flat_map cell_writes row.now) }
{
    for place in 0..row.len() {
        let cell = row.cell(place);
        state.write_usize(cell.len());
        state.write(cell);
    }
}
