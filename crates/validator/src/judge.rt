// Verdicts on jobs.
ghost use Rattle.std.specs.Prelude.{◌≡◌, ◌≤◌, ◌+◌, ◌↔◌, true, IfOk};
ghost use Rattle.rel_base.specs.Shows.{holds_in};
ghost use Rattle.validator.specs.Verdicts.{AreFound, IsFitting, IsVerdict, new_rows};
ghost use Rattle.validator.specs.declared.verdict.Verdict.TheVariants.{Holds};

use crate::walk::{self, Question};
use crate::{Verdict, refined};
use rel_base::{Job, RowNo, Steps};
use std::alloc::{AllocError, Global};
use std::sync::ledger::Ledger;

/// Validates a dependency that is known to hold among the rows below the job's `from`.
///
/// It groups the live rows by the left side (the stripped partitions of Huhtala and others, 1999), and compares each row of a
/// group that is not below `from` with the first of the group on the target, up to the first two that differ. Such a comparison
/// is a step. Rows below `from` are not compared: each two of them that agree on the left side agree on the target.
///
/// The groups are made anew at each call, by a pass over the rows left for each column of the left side, in memory that grows
/// with the rows and the codes. It fails only where memory is refused, and then the job can be validated again.
pub fn validate<L: Ledger>(
    alloc: Global,
    job: &Job,
    steps: &mut Steps<L>,
) -> Result<Verdict, AllocError>
    requires { IsFitting job.now }
    ensures verdict { IfOk result (IsVerdict job.now) }
    ensures exactly { IfOk result (λ verdict. (verdict ≡ Holds job.now.to) ↔ (holds_in job.now.snapshot job.now.left job.now.target ≡ true)) }
    ensures steps { steps.new ≤ steps.old + new_rows job.now.snapshot job.now.from }
{
    let snapshot = job.snapshot();
    let refined = refined::all_but_one(alloc, snapshot, job.left())?;
    let question = Question {
        target: job.target(),
        by: refined.by,
        from: job.from(),
        most: 1,
    };
    let mut slots = Vec::new(alloc);
    let partition = &refined.partition;
    let pairs = walk::pairs_in_groups(alloc, partition, snapshot, &question, &mut slots, steps)?;
    Ok(verdict_of(job, &pairs))
}

// The verdict that a search for pairs leads to.
pub(crate) fn verdict_of(job: &Job, pairs: &[(RowNo, RowNo)]) -> Verdict
    requires { AreFound job.now.snapshot job.now.left job.now.target pairs.now }
    ensures { IsVerdict job.now result }
{
    match pairs.first() {
        Some((i, j)) => Verdict::Broken { i: *i, j: *j },
        None => Verdict::Holds { to: job.to() },
    }
}
