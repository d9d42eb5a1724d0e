// What a validation answers.
use rel_base::RowNo;

/// What a validation answers.
#[derive(Clone, Copy, Debug, PartialEq, Eq)]
pub enum Verdict {
    /// The dependency holds among the rows with a number below this one, which is that of the job.
    Holds { to: RowNo },
    /// Two live rows, the smaller number first, that agree on the left side and differ on the target.
    Broken { i: RowNo, j: RowNo },
}
