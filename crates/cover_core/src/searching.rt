// Candidates that are sought in all targets' lists.
ghost use Rattle.std.specs.Prelude.{if◌then◌else◌, ◌≡◌, Bool, Option, None, IfSome};
ghost use Rattle.std.specs.List.{find};
ghost use Rattle.std.specs.Option.{option_map};
ghost use Rattle.col_set.specs.Target.{IsColumnTarget};
ghost use Rattle.candidate_cover.specs.Cands.{cands_of, width, IsInOrder};
ghost use Rattle.candidate_cover.specs.declared.cand.Cand.{Cand as Candidate};
ghost use Rattle.cover_steps.specs.Core.{entries_in, is_unfinished, is_drawable};
ghost use Rattle.negative_cover.specs.Concerning.{concerns};
ghost use Rattle.cover_core.specs.Past.{IsPast, IsPastBut, ArePastBut, place};
ghost use Rattle.cover_core.specs.Tests.{on_cand};

use crate::cursor::{Cursor, Cursors, Unfinished, rank};
use candidate_cover::{Cand, CandidateCover};
use negative_cover::Concerned;
use rel_base::{ColSet, RowNo, Target};

// The first candidate that passes a test, by target and in report order, where none before the cursor does. The cursor moves to
// it, or behind all candidates where there is none, so that a later search passes over what this one saw.
fn first_where<F: Fn(Cand) -> bool>(
    candidates: &CandidateCover,
    cursor: &mut Cursor,
    test: F,
) -> Option<(Target, Cand)>
    requires target { IsColumnTarget (width candidates.now) cursor.old.target }
    requires test { F.IsAlwaysCallable test }
    ensures found { (p : Candidate → Bool) → ((c : Candidate) (b : Bool) → F.post test c b → b ≡ p c) → IsPast p candidates.now cursor.old → result ≡ find (on_cand p) (entries_in (width candidates.now) candidates.now) }
    ensures past { (p : Candidate → Bool) → ((c : Candidate) (b : Bool) → F.post test c b → b ≡ p c) → IsPast p candidates.now cursor.old → IsPast p candidates.now cursor.new }
{
    let columns = candidates.columns();
    if let Some(cand) = candidates.first_from(cursor.target, cursor.left, &test) {
        cursor.left = cand.left;
        return Some((cursor.target, cand));
    }
    for column in rank(cursor.target)..columns {
        let target = Target::Col(column);
        if let Some(cand) = candidates.first_from(target, ColSet::empty(), &test) {
            *cursor = Cursor {
                target,
                left: cand.left,
            };
            return Some((target, cand));
        }
    }
    if columns > 0 {
        *cursor = Cursor {
            target: Target::Col(columns - 1),
            left: ColSet::all(columns),
        };
    }
    None
}

// The first candidate that is not known to hold below this number.
pub(crate) fn first_unfinished(
    candidates: &CandidateCover,
    cursor: &mut Cursor,
    next: RowNo,
) -> Option<Unfinished>
    requires { IsPast (is_unfinished next) candidates.now cursor.old }
    ensures found { result ≡ option_map place (find (λ e. is_unfinished next e.1) (entries_in (width candidates.now) candidates.now)) }
    ensures past { IsPast (is_unfinished next) candidates.now cursor.new }
{
    let found = first_where(
        candidates,
        cursor,
        |cand: Cand| -> bool
            ensures { result ≡ is_unfinished next cand }
        { cand.upto < next },
    );
    match found {
        Some((target, cand)) => Some(Unfinished {
            target,
            left: cand.left,
            upto: cand.upto,
        }),
        None => None,
    }
}

// The first of them that is not held.
pub(crate) fn first_drawable(
    candidates: &CandidateCover,
    cursor: &mut Cursor,
    next: RowNo,
) -> Option<(Target, Cand)>
    requires { IsPast (is_drawable next) candidates.now cursor.old }
    ensures found { result ≡ find (λ e. is_drawable next e.1) (entries_in (width candidates.now) candidates.now) }
    ensures past { IsPast (is_drawable next) candidates.now cursor.new }
{
    first_where(
        candidates,
        cursor,
        |cand: Cand| -> bool
            ensures { result ≡ is_drawable next cand }
        { cand.upto < next && !cand.held },
    )
}

// The first candidate that passes a test, of a target that is one of these.
fn first_concerned<F: Fn(Cand) -> bool>(
    candidates: &CandidateCover,
    concerned: &Concerned,
    target: Target,
    test: F,
) -> Option<Cand>
    requires target { IsColumnTarget (width candidates.now) target }
    requires test { F.IsAlwaysCallable test }
    ensures found { (p : Candidate → Bool) → ((c : Candidate) (b : Bool) → F.post test c b → b ≡ p c) → result ≡ (if concerns concerned.now target then find p (cands_of candidates.now target) else None) }
    ensures order { IfSome result (λ c. IsInOrder (cands_of candidates.now target)) }
{
    // `columns` is called for its clause that there are at most `MOST_COLUMNS`.
    let _count = candidates.columns();
    if !concerned.has(target) {
        return None;
    }
    candidates.first_from(target, ColSet::empty(), test)
}

// After the lists of some targets were replaced, a search begins at the first new candidate that passes the test, where its target
// does not come after the cursor's, and else at the cursor.
fn move_back<F: Fn(Cand) -> bool>(
    candidates: &CandidateCover,
    concerned: &Concerned,
    cursor: &mut Cursor,
    test: F,
)
    requires target { IsColumnTarget (width candidates.now) cursor.old.target }
    requires test { F.IsAlwaysCallable test }
    ensures { (p : Candidate → Bool) → ((c : Candidate) (b : Bool) → F.post test c b → b ≡ p c) → IsPastBut p candidates.now concerned.now cursor.old → IsPast p candidates.now cursor.new }
{
    // `columns` is called for its clause that there are at most `MOST_COLUMNS`.
    let _count = candidates.columns();
    if let Some(cand) = first_concerned(candidates, concerned, Target::RowId, &test) {
        *cursor = Cursor {
            target: Target::RowId,
            left: cand.left,
        };
        return;
    }
    for column in 0..rank(cursor.target) {
        let target = Target::Col(column);
        if let Some(cand) = first_concerned(candidates, concerned, target, &test) {
            *cursor = Cursor {
                target,
                left: cand.left,
            };
            return;
        }
    }
}

// The cursors after the lists of some targets were replaced.
pub(crate) fn move_both_back(
    candidates: &CandidateCover,
    concerned: &Concerned,
    cursors: &mut Cursors,
    next: RowNo,
)
    requires { ArePastBut next candidates.now concerned.now cursors.old }
    ensures unfinished { IsPast (is_unfinished next) candidates.now cursors.new.unfinished }
    ensures drawable { IsPast (is_drawable next) candidates.now cursors.new.drawable }
{
    move_back(
        candidates,
        concerned,
        &mut cursors.unfinished,
        |new: Cand| -> bool
            ensures { result ≡ is_unfinished next new }
        { new.upto < next },
    );
    move_back(
        candidates,
        concerned,
        &mut cursors.drawable,
        |new: Cand| -> bool
            ensures { result ≡ is_drawable next new }
        { new.upto < next && !new.held },
    );
}
