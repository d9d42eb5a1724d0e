// The order in which left sides are validated.
use rel_base::{COLUMN_PLACES, ColSet};

// The bit of the first place.
const FIRST: u128 = 1 << 127;

// From so many rows on there is no room for the groups of all left sides of a pass.
const MANY_ROWS: u32 = 1 << 14;

/// Columns in the order of how many rows they tell apart, those that tell the most first. It takes 2 KiB.
///
/// A verdict groups the rows by the columns of the left side in this order, and keeps the groups for the next one. So left sides
/// are validated next to each other that have the same columns at their beginning: the one whose places (`places_of`) are the greater
/// number comes first. Of few rows a store keeps all groups that matter, and those with fewer columns come first: they are cheaper, and
/// what refutes them often refutes larger ones. Of many rows it does not, and left sides of all sizes go by their places alone, so that
/// each group is made once.
#[derive(Clone, Copy)]
pub struct Order {
    // For each column the bit of its place.
    places: [u128; COLUMN_PLACES],
    by_size: bool,
}

impl Order {
    /// The order by these weights of the columns (`Store::weights`), the lightest first, for so many live rows.
    pub fn of(weights: &[u32; COLUMN_PLACES], rows: u32) -> Order {
        let mut columns = [(0u32, 0u8); COLUMN_PLACES];
        for (column, weight) in weights.iter().enumerate() {
            columns[column] = (*weight, column as u8);
        }
        columns.sort_unstable();
        let mut places = [0; COLUMN_PLACES];
        for (place, column) in columns.iter().enumerate() {
            if let Some(own) = places.get_mut(column.1 as usize) {
                *own = FIRST >> place;
            }
        }
        Order {
            places,
            by_size: rows < MANY_ROWS,
        }
    }

    /// By what left sides are put in order, given their places: the one for which it is less is validated first.
    pub fn rank(&self, places: u128) -> (u32, u128) {
        let size = if self.by_size { places.count_ones() } else { 0 };
        (size, !places)
    }

    /// The places of the columns of a set, a bit each, of which the highest is that of the first place: so sets are compared by one
    /// comparison of numbers. It takes a step a column of the set.
    pub fn places_of(&self, set: ColSet) -> u128 {
        let mut found = 0;
        let mut left = set;
        while let Some(column) = left.first() {
            found |= self.places[column as usize];
            left = left.without(column);
        }
        found
    }
}

/// The first two of these places, by which it is told whether left sides share large groups of rows.
pub fn first_places(places: u128) -> u128 {
    places ^ behind_first(behind_first(places))
}

// These places but the first.
fn behind_first(places: u128) -> u128 {
    let from_first = u128::MAX.checked_shr(places.leading_zeros()).unwrap_or(0);
    places & (from_first >> 1)
}
