// How many rows stand out in the groups of a partition.
ghost use Rattle.std.specs.Prelude.{◌≡◌, ◌<◌, length};
ghost use Rattle.stripped_partition.specs.AnyOrder.{AreGroupsOf};
ghost use Rattle.stripped_partition.specs.Removed.{HasRoom, removed_of, up_to};

use crate::{Partition, Tally};
use rel_base::Snapshot;

impl Partition {
    /// The sum over the groups of the size less the number of rows in the largest part by a column, where it is no more than this, and
    /// else none; of the snapshot of which the partition was made.
    ///
    /// It measures how far the columns of the partition are from determining the column (the error g3 of Kivinen and Mannila, 1995). It
    /// counts group by group, in time by the rows that it looks at, and stops as soon as it is above the bound. It takes no memory.
    pub fn removed_up_to(
        &self,
        snapshot: &Snapshot,
        column: u8,
        most: u32,
        tally: &mut Tally,
    ) -> Option<u32>
        requires of { AreGroupsOf snapshot.now self.now }
        requires column { column < length snapshot.now.codes }
        requires room { HasRoom snapshot.now tally.old }
        ensures value { result ≡ up_to most (removed_of snapshot.now column self.now) }
        ensures tally { tally.new ≡ tally.old }
    {
        // `columns` is called for its clause that there are at most a million rows.
        let _bounds = snapshot.columns();
        let mut removed = 0u64;
        for k in 0..self.group_count() {
            removed += u64::from(tally.outside_largest(self.group(k), snapshot, column));
            if removed > u64::from(most) {
                return None;
            }
        }
        Some(removed as u32)
    }
}
