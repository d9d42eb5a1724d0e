// Windows over the rows of a column's groups.
ghost use Rattle.std.specs.Prelude.{◌≡◌, ◌<◌, ◌≤◌, ◌+◌, length, IfOk};
ghost use Rattle.std.specs.List.{All};
ghost use Rattle.rel_base.specs.CodeTable.{CodeTable};
ghost use Rattle.sampler.specs.Window.{IsWindow};
ghost use Rattle.sampler.specs.Partners.{HasPut, with_partners};

use rel_base::{MOST_ROWS, RowNo, Snapshot};
use std::alloc::{AllocError, Global};
use stripped_partition::Partition;

// No row's number.
const NO_ROW: u32 = 0;

/// The pairs of live rows that have the same code in a column, with exactly `distance - 1` live rows of that code between them, by
/// the first of the two.
///
/// Rows whose cells are equal in one column are likely to agree in others as well, so the pairs of small distances are where
/// evidence is sought first (the sorted neighbourhood of HyFD, Papenbrock and Naumann, 2016). It takes the time of the column's
/// partition and a step a row, whatever the distance, and memory for the partition, a word a row and the pairs.
pub fn window(
    alloc: Global,
    snapshot: &Snapshot,
    column: u8,
    distance: u32,
) -> Result<Vec<(RowNo, RowNo)>, AllocError>
    requires column { column < length snapshot.now.codes }
    requires distance { 0 < distance }
    ensures { IfOk result (λ pairs. IsWindow snapshot.now column distance pairs.items) }
{
    let partition = Partition::of_column(alloc, snapshot, column)?;
    let mut partners = vec![in alloc; NO_ROW; snapshot.to().number() as usize]?;
    for k in 0..partition.group_count() {
        put_partners(&mut partners, partition.group(k), distance as usize);
    }
    listed(alloc, &partners)
}

// Writes beside each row of a group the one that stands so many places behind it there.
fn put_partners(partners: &mut [u32], group: &[RowNo], distance: usize)
    requires { All (λ row. row < length partners.old) group.now }
    ensures { HasPut distance group.now partners.old partners.new }
{
    for place in distance..group.len() {
        let row = group[place - distance];
        partners[row.number() as usize] = group[place].number();
    }
}

// The rows that have a partner, with it.
fn listed(alloc: Global, partners: &[u32]) -> Result<Vec<(RowNo, RowNo)>, AllocError>
    requires some { 0 < length partners.now }
    requires short { length partners.now ≤ MOST_ROWS + 1 }
    ensures { IfOk result (λ pairs. pairs.items ≡ with_partners partners.now) }
{
    let mut pairs = Vec::new(alloc);
    for number in 1..partners.len() {
        let partner = partners[number];
        if partner != NO_ROW {
            pairs.push((RowNo::of(number as u32), RowNo::of(partner)))?;
        }
    }
    Ok(pairs)
}
