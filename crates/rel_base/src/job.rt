// A dependency to be validated.
ghost use Rattle.std.specs.Prelude.{◌≡◌, IfOk};

use crate::{RowNo, Snapshot};
use col_set::{ColSet, Target};
use std::alloc::AllocError;
use std::marker::Model;
use std::sync::Arc;

/// A candidate dependency to be validated on a snapshot, which is known to hold among the rows below `from`.
///
/// Where it holds in the snapshot, it holds among the rows below `to`. Contracts see its five parts, the
/// snapshot's codes among them; at run time jobs share the snapshot.
#[derive(Drop)]
pub struct Job {
    target: Target,
    left: ColSet,
    from: RowNo,
    to: RowNo,
    snapshot: Arc<Snapshot>,
}

impl Model for Job {
    ghost use Rattle.rel_base.specs.JobParts.{JobParts};

    ghost Value = { JobParts };

    ghost view = { λ j. record { target = j.target; left = j.left; from = j.from; to = j.to; snapshot = j.snapshot.value } };
}

impl Job {
    /// The job of these parts, which takes no memory.
    pub fn of(target: Target, left: ColSet, from: RowNo, to: RowNo, snapshot: Arc<Snapshot>) -> Job
        ensures target { result.target ≡ target }
        ensures left { result.left ≡ left }
        ensures from { result.from ≡ from }
        ensures to { result.to ≡ to }
        ensures snapshot { result.snapshot ≡ snapshot.value }
    {
        Job {
            target,
            left,
            from,
            to,
            snapshot,
        }
    }

    /// What the dependency determines.
    pub fn target(&self) -> Target
        ensures { result ≡ self.now.target }
    {
        self.target
    }

    /// Its left side.
    pub fn left(&self) -> ColSet
        ensures { result ≡ self.now.left }
    {
        self.left
    }

    /// The number below which it is known to hold.
    pub fn from(&self) -> RowNo
        ensures { result ≡ self.now.from }
    {
        self.from
    }

    /// The number below which it is asked to hold.
    pub fn to(&self) -> RowNo
        ensures { result ≡ self.now.to }
    {
        self.to
    }

    /// The rows on which it is asked.
    pub fn snapshot(&self) -> &Snapshot
        ensures { result.now ≡ self.now.snapshot }
    {
        &self.snapshot
    }

    /// The rows on which it is asked, as an owner, for what is to keep them longer than the job.
    pub fn shared(&self) -> &Arc<Snapshot>
        ensures { result.now.value ≡ self.now.snapshot }
    {
        &self.snapshot
    }

    /// An equal job, which shares the snapshot. It fails where no further owner of the snapshot can be counted.
    pub fn again(&self) -> Result<Job, AllocError>
        ensures { IfOk result (λ job. job ≡ self.now) }
    {
        Ok(Job {
            target: self.target,
            left: self.left,
            from: self.from,
            to: self.to,
            snapshot: self.snapshot.clone()?,
        })
    }
}
