// Looking up row numbers in a list of them.
ghost use Rattle.std.specs.Prelude.{◌≡◌, IsTrue};
ghost use Rattle.std.specs.List.Sorted.{IsNonDecreasing};
ghost use Rattle.negative_cover.specs.Witnesses.{is_among};

use rel_base::RowNo;

// Whether each number is at most the next.
pub(crate) fn is_ascending(rows: &[RowNo]) -> bool
    ensures { IsTrue result → IsNonDecreasing rows.now }
{
    rows.is_sorted()
}

// Whether the row is one of these: by halves where they are known to ascend, else one after another.
pub(crate) fn is_among(rows: &[RowNo], ascending: bool, row: RowNo) -> bool
    requires { IsTrue ascending → IsNonDecreasing rows.now }
    ensures { result ≡ is_among rows.now row }
{
    if ascending {
        rows.binary_search(&row).is_ok()
    } else {
        rows.contains(&row)
    }
}
