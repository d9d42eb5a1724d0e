// The least sets that withdrawn agree sets bring back: they lie inside one of them.
ghost use Rattle.std.specs.Prelude.{◌≡◌, ◌≤◌, ◌&&◌, not, true, IfOk};
ghost use Rattle.std.specs.List.{All};
ghost use Rattle.col_set.specs.Target.{IsColumnTarget, has_target};
ghost use Rattle.col_set.specs.Evidence.{refuted};
ghost use Rattle.least_sets.specs.Growth as words;
ghost use Rattle.least_sets.specs.Growth.{ListsLeast, IsExplored};

use crate::branching::least;
use crate::growth::choices;
use rel_base::{ColSet, MOST_COLUMNS, Steps, Target};
use std::alloc::{AllocError, Global};
use std::sync::ledger::Ledger;

// Whether one of the agree sets contains x and lacks the target. A step a set tried.
fn is_refuted<L: Ledger>(
    agree_sets: &[ColSet],
    target: Target,
    x: ColSet,
    steps: &mut Steps<L>,
) -> bool
    requires { IsColumnTarget MOST_COLUMNS target }
    ensures { result ≡ refuted agree_sets.now target x }
{
    for w in agree_sets {
        steps.tick();
        if w.refutes(x, target) {
            return true;
        }
    }
    false
}

// The least sets among the choices against these agree sets. Whether there are any takes a step for each agree set.
fn least_among<L: Ledger>(
    alloc: Global,
    choices: ColSet,
    target: Target,
    agree_sets: &[ColSet],
    steps: &mut Steps<L>,
) -> Result<Vec<ColSet>, AllocError>
    requires { IsColumnTarget MOST_COLUMNS target }
    ensures { IfOk result (λ sets. ListsLeast choices agree_sets.now target sets.items) }
{
    if is_refuted(agree_sets, target, choices, steps) {
        return Ok(Vec::new(alloc));
    }
    least(alloc, choices, target, agree_sets, None, steps)
}

// Whether a withdrawn set lacks the target and lies inside none of those that were explored.
fn is_new<L: Ledger>(tops: &[ColSet], target: Target, w: ColSet, steps: &mut Steps<L>) -> bool
    requires { IsColumnTarget MOST_COLUMNS target }
    ensures new { result ≡ (not (has_target w target) && not (refuted tops.now target w)) }
    ensures idle { has_target w target ≡ true → steps.new ≡ steps.old }
{
    !w.has_target(target) && !is_refuted(tops, target, w, steps)
}

// The same within these choices.
fn explored<L: Ledger>(
    alloc: Global,
    choices: ColSet,
    target: Target,
    rest: &[ColSet],
    withdrawn: &[ColSet],
    steps: &mut Steps<L>,
) -> Result<Vec<ColSet>, AllocError>
    requires { IsColumnTarget MOST_COLUMNS target }
    ensures found { IfOk result (λ sets. IsExplored choices rest.now withdrawn.now target sets.items) }
    ensures idle { All (λ w. has_target w target ≡ true) withdrawn.now → steps.new ≡ steps.old }
{
    let mut tops = Vec::new(alloc);
    let mut sets = Vec::new(alloc);
    for w in withdrawn {
        if is_new(tops.as_slice(), target, *w, steps) {
            let found = least_among(alloc, choices.inter(*w), target, rest, steps)?;
            sets.extend_from_slice(found.as_slice())?;
            tops.push(*w)?;
        }
    }
    Ok(sets)
}

/// The least sets of a target against the rest that lie inside a withdrawn agree set which lacks the target: what withdrawn agree
/// sets bring back. In no order.
///
/// A step is one test of a column set against an agree set, in the branches too; none is taken for a withdrawn set that has the
/// target. A withdrawn set that lies inside one that was explored is passed over; for each other one that lacks the target it takes
/// one pass over the rest, and where none of them contains it, branches as `least_sets` does.
pub fn least_sets_inside<L: Ledger>(
    alloc: Global,
    columns: u8,
    target: Target,
    rest: &[ColSet],
    withdrawn: &[ColSet],
    steps: &mut Steps<L>,
) -> Result<Vec<ColSet>, AllocError>
    requires columns { columns ≤ MOST_COLUMNS }
    requires target { IsColumnTarget columns target }
    ensures found { IfOk result (λ sets. IsExplored (words.choices columns target) rest.now withdrawn.now target sets.items) }
    ensures idle { All (λ w. has_target w target ≡ true) withdrawn.now → steps.new ≡ steps.old }
{
    explored(
        alloc,
        choices(columns, target),
        target,
        rest,
        withdrawn,
        steps,
    )
}
