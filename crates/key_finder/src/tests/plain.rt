// The key of a table by its plain definition, over the agree sets of all rows.
ghost use Rattle.std.specs.Prelude.{◌≡◌, ◌<◌, ◌^◌, ◌↔◌, IsTrue, length};
ghost use Rattle.key_finder.specs.Keys.{told_apart};
ghost use Rattle.key_finder.specs.PlainKeys.{IsKeyWithin};

use rel_base::{ColSet, Snapshot};

// Whether some agree set contains x and lacks one of the columns.
#[tactic(auto, unfolding(crate::specs::Keys::told_apart))]
fn is_told_apart(agree_sets: &[ColSet], columns: ColSet, x: ColSet) -> bool
    ensures { result ≡ told_apart agree_sets.now columns x }
{
    agree_sets.iter().any(|agreed| x.subset_of(*agreed) && !columns.subset_of(*agreed))
}

// Whether x lies inside the columns, no agree set that lacks one of them contains it, and one contains each part of x.
pub fn is_key(agree_sets: &[ColSet], columns: ColSet, x: ColSet) -> bool
    ensures { IsTrue result ↔ IsKeyWithin agree_sets.now columns x }
{
    if !x.subset_of(columns) {
        return false;
    }
    if is_told_apart(agree_sets, columns, x) {
        return false;
    }
    let mut left = x;
    while let Some(column) = left.first() {
        if !is_told_apart(agree_sets, columns, x.without(column)) {
            return false;
        }
        left = left.without(column);
    }
    true
}

// Whether the snapshot has these columns.
pub fn is_wide(snapshot: &Snapshot, columns: ColSet) -> bool
    ensures { IsTrue result → columns < 2 ^ length snapshot.now.codes }
{
    columns.subset_of(ColSet::all(snapshot.columns()))
}
