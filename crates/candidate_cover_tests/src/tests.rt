// Candidates by many small lists of agree sets, against the plain program.
ghost use Rattle.std.specs.Prelude.{◌≡◌, ◌<◌, ◌≤◌, ◌++◌, ◌∷◌, [], ℕ, List, IfOk, OnOk};
ghost use Rattle.col_set.specs.Target.{IsColumnTarget};
ghost use Rattle.col_set.specs.Evidence.{least};
ghost use Rattle.candidate_cover.specs.Cands.{width, cands_of, lefts, kept_or_fresh};

use candidate_cover::{Cand, CandidateCover, Marking, NewList};
use least_sets::Draft;
use plain_base::least_sets as plain_least_sets;
use rel_base::{ColSet, MOST_COLUMNS, RowNo, Steps, Target};
use std::alloc::{AllocError, Global};
use std::marker::Brand;
use std::process::Abort;
use std::sync::ledger::{Blank, Ledger};
use std::test::Fail;

fn set(columns: &[u8]) -> ColSet {
    let mut found = ColSet::empty();
    for column in columns {
        if *column < MOST_COLUMNS {
            found = found.with(*column);
        }
    }
    found
}

// Agree sets with no pattern to speak of, as sets of six columns: none, and the set of all columns, are among them.
fn some_sets(alloc: Global, count: usize, mut seed: u32) -> Result<Vec<ColSet>, AllocError>
    requires { count ≤ 1000 }
{
    let mut sets = Vec::new(alloc);
    for _ in 0..count {
        seed = seed.wrapping_mul(1664525).wrapping_add(1013904223);
        sets.push(ColSet::of_bits((seed >> 24) as u128).inter(ColSet::all(6)))?;
    }
    Ok(sets)
}

// `specialise`, and once more where memory is wanting.
fn specialised(
    alloc: Global,
    cover: &CandidateCover,
    target: Target,
    z: ColSet,
) -> Result<NewList, AllocError>
    requires { IsColumnTarget (width cover.now) target }
    ensures { IfOk result (λ new_list. (ws : List ℕ) → lefts (cands_of cover.now target) ≡ least (width cover.now) ws target → lefts new_list ≡ least (width cover.now) (ws ++ z ∷ []) target) }
{
    match cover.specialise(alloc, target, z) {
        Ok(new_list) => Ok(new_list),
        Err(_) => cover.specialise(alloc, target, z),
    }
}

// Books agree sets one after another for a target.
fn book(
    alloc: Global,
    cover: &mut CandidateCover,
    target: Target,
    sets: &[ColSet],
) -> Result<(), AllocError>
    requires { IsColumnTarget (width cover.old) target }
    ensures width { OnOk result (width cover.new ≡ width cover.old) }
    ensures least { OnOk result ((ws : List ℕ) → lefts (cands_of cover.old target) ≡ least (width cover.old) ws target → lefts (cands_of cover.new target) ≡ least (width cover.old) (ws ++ sets.now) target) }
{
    for z in sets {
        let new_list = specialised(alloc, cover, target, *z)?;
        drop(cover.put(target, new_list));
    }
    Ok(())
}

// A cover in which these sets are booked for a target, one after another.
fn booked(
    alloc: Global,
    columns: u8,
    target: Target,
    sets: &[ColSet],
) -> Result<CandidateCover, AllocError>
    requires columns { columns ≤ MOST_COLUMNS }
    requires target { IsColumnTarget columns target }
    ensures width { IfOk result (λ cover. width cover ≡ columns) }
    ensures least { IfOk result (λ cover. lefts (cands_of cover target) ≡ least columns sets.now target) }
{
    let mut cover = CandidateCover::new(alloc, columns)?;
    book(alloc, &mut cover, target, sets)?;
    Ok(cover)
}

fn generalised<L: Ledger>(
    alloc: Global,
    cover: &CandidateCover,
    target: Target,
    rest: &[ColSet],
    gone: &[ColSet],
    blank: Blank,
) -> Result<NewList, AllocError>
    requires name { blank.name ≡ L.name }
    requires parts { blank.parts ≡ L.parts }
    requires some { 0 < L.parts }
    requires target { IsColumnTarget (width cover.now) target }
    requires least { lefts (cands_of cover.now target) ≡ least (width cover.now) (rest.now ++ gone.now) target }
{
    let mut steps = Steps::<L>::none(blank);
    match cover.generalise(alloc, target, rest, gone, &mut steps) {
        Ok(new_list) => Ok(new_list),
        Err(_) => cover.generalise(alloc, target, rest, gone, &mut steps),
    }
}

// A cover in which both lists of sets were booked, the last ones first, and these then withdrawn.
fn regained(
    alloc: Global,
    columns: u8,
    target: Target,
    rest: &[ColSet],
    gone: &[ColSet],
) -> Result<CandidateCover, AllocError>
    requires columns { columns ≤ MOST_COLUMNS }
    requires target { IsColumnTarget columns target }
    ensures { IfOk result (λ cover. width cover ≡ columns) }
{
    let mut cover = booked(alloc, columns, target, gone)?;
    book(alloc, &mut cover, target, rest)?;
    let new_list = generalised::<Brand>(alloc, &cover, target, rest, gone, Blank::new(1))?;
    drop(cover.put(target, new_list));
    Ok(cover)
}

// The target's left sides are what the plain program makes of these agree sets.
fn expect_least(
    rt: &impl Abort,
    alloc: Global,
    cover: &CandidateCover,
    target: Target,
    sets: &[ColSet],
) -> Result<(), Fail>
    requires { IsColumnTarget (width cover.now) target }
{
    let wanted = plain_least_sets(alloc, cover.columns(), target, sets)?;
    assert!(rt; cover.lefts(target) == wanted.as_slice());
    Ok(())
}

// What is left of withdrawn sets is what the rest alone makes.
#[test]
fn withdrawn_sets_leave_what_the_rest_makes(rt: HostRuntime) -> Result<(), Fail> {
    let alloc = rt.alloc();
    for seed in 1..40 {
        let rest = some_sets(alloc, 8, seed)?;
        let gone = some_sets(alloc, 5, seed + 100)?;
        let cover = regained(alloc, 6, Target::Col(5), rest.as_slice(), gone.as_slice())?;
        expect_least(&rt, alloc, &cover, Target::Col(5), rest.as_slice())?;
    }
    Ok(())
}

// The draft of a new cover after these sets, one after another.
fn draft_of(alloc: Global, columns: u8, sets: &[ColSet]) -> Result<Draft, AllocError>
    requires { columns ≤ MOST_COLUMNS }
    ensures { IfOk result (λ draft. draft.width ≡ columns) }
{
    let cover = CandidateCover::new(alloc, columns)?;
    let mut draft = cover.draft(alloc, Vec::new(alloc))?;
    for z in sets {
        draft = draft.noted(*z)?.0;
    }
    Ok(draft)
}

// What these sets leave of a target's candidates in a new cover, all at once.
fn drafted_list(
    alloc: Global,
    cover: &CandidateCover,
    columns: u8,
    target: Target,
    sets: &[ColSet],
) -> Result<Option<NewList>, AllocError>
    requires columns { columns ≤ MOST_COLUMNS }
    requires width { width cover.now ≡ columns }
    requires target { IsColumnTarget columns target }
{
    let draft = draft_of(alloc, columns, sets)?;
    cover.drafted(alloc, &draft, target)
}

// A new cover into which that was put.
fn drafted(
    alloc: Global,
    columns: u8,
    target: Target,
    sets: &[ColSet],
) -> Result<CandidateCover, AllocError>
    requires columns { columns ≤ MOST_COLUMNS }
    requires target { IsColumnTarget columns target }
    ensures { IfOk result (λ cover. width cover ≡ columns) }
{
    let mut cover = CandidateCover::new(alloc, columns)?;
    if let Some(new_list) = drafted_list(alloc, &cover, columns, target, sets)? {
        drop(cover.put(target, new_list));
    }
    Ok(cover)
}

// What few sets and many leave at once is what they leave one after another.
#[test]
fn drafts_leave_what_one_set_after_another_does(rt: HostRuntime) -> Result<(), Fail> {
    let alloc = rt.alloc();
    for count in [0usize, 1, 12, 900] {
        let sets = some_sets(alloc, count, 7)?;
        let cover = drafted(alloc, 6, Target::Col(2), sets.as_slice())?;
        expect_least(&rt, alloc, &cover, Target::Col(2), sets.as_slice())?;
    }
    Ok(())
}

// The left sides with no column, with one, and so on are together those that the plain program makes.
#[test]
fn left_sides_of_each_size_are_those_of_the_whole_list(rt: HostRuntime) -> Result<(), Fail> {
    let alloc = rt.alloc();
    for count in [0usize, 1, 12, 900] {
        let sets = some_sets(alloc, count, 11)?;
        let draft = draft_of(alloc, 6, sets.as_slice())?;
        let mut found = Vec::new(alloc);
        for size in 0..7 {
            let mut own = draft.of_size(alloc, Target::Col(2), size)?;
            found.append(&mut own)?;
        }
        let wanted = plain_least_sets(alloc, 6, Target::Col(2), sets.as_slice())?;
        found.sort_unstable();
        assert!(rt; found.as_slice() == wanted.as_slice());
    }
    Ok(())
}

// Whether an agree set is news after these.
fn is_news(alloc: Global, columns: u8, sets: &[ColSet], z: ColSet) -> Result<bool, AllocError>
    requires { columns ≤ MOST_COLUMNS }
{
    let (_draft, is_news) = draft_of(alloc, columns, sets)?.noted(z)?;
    Ok(is_news)
}

// The agree set of the first column is told for each target but that column.
#[test]
fn a_set_inside_one_that_came_in_is_news_for_other_targets(rt: HostRuntime) -> Result<(), Fail> {
    let first = set(&[0]);
    assert!(rt; !is_news(rt.alloc(), 3, &[first], first)?);
    for z in [ColSet::empty(), set(&[1]), set(&[0, 1, 2])] {
        assert!(rt; is_news(rt.alloc(), 3, &[first], z)?);
    }
    Ok(())
}

// Whether one of these sets contains z and lacks the target.
fn is_told(sets: &[ColSet], target: Target, z: ColSet) -> bool
    requires { IsColumnTarget MOST_COLUMNS target }
{
    sets.iter().any(|w| w.refutes(z, target))
}

// Whether that is so for the row's identity and for each column that z lacks.
fn is_told_for_all(sets: &[ColSet], columns: u8, z: ColSet) -> bool
    requires { columns ≤ MOST_COLUMNS }
{
    if !is_told(sets, Target::RowId, z) {
        return false;
    }
    for column in 0..columns {
        if !z.has(column) && !is_told(sets, Target::Col(column), z) {
            return false;
        }
    }
    true
}

// News are what the sets before do not tell, by whichever of its columns an agree set is looked for.
#[test]
fn news_are_what_no_set_before_tells(rt: HostRuntime) -> Result<(), Fail> {
    let alloc = rt.alloc();
    for seed in 0..300u32 {
        let sets = some_sets(alloc, (seed % 12) as usize, seed)?;
        for z in some_sets(alloc, 8, seed + 1000)?.as_slice() {
            let told = is_told_for_all(sets.as_slice(), 6, *z);
            assert!(rt; is_news(alloc, 6, sets.as_slice(), *z)? != told);
        }
    }
    Ok(())
}

// A cover of three columns in which the first one is known to agree alone: its candidates for the row's identity are the second
// and the third.
fn second_and_third(alloc: Global) -> Result<CandidateCover, AllocError>
    ensures { IfOk result (λ cover. width cover ≡ 3) }
{
    booked(alloc, 3, Target::RowId, &[set(&[0])])
}

#[test]
fn a_new_list_tells_its_first_fresh_left_side(rt: HostRuntime) -> Result<(), Fail> {
    let alloc = rt.alloc();
    let mut cover = second_and_third(alloc)?;
    let four = RowNo::of(4);
    assert!(rt; cover.mark(Target::RowId, set(&[1]), four) == Marking::Marked);
    assert!(rt; cover.hold(Target::RowId, set(&[2]), true));
    let new_list = specialised(alloc, &cover, Target::RowId, set(&[2]))?;
    assert!(rt; new_list.first_fresh() == Some(set(&[0, 2])));
    cover.free();
    let new_list = specialised(alloc, &cover, Target::RowId, ColSet::empty())?;
    assert!(rt; new_list.first_fresh() == Some(set(&[2])));
    Ok(())
}

#[test]
fn marks_stay_with_their_candidates(rt: HostRuntime) -> Result<(), Fail> {
    let alloc = rt.alloc();
    let mut cover = second_and_third(alloc)?;
    let four = RowNo::of(4);
    assert!(rt; cover.mark(Target::RowId, set(&[2]), four) == Marking::Marked);
    assert!(rt; cover.mark(Target::RowId, set(&[0]), four) == Marking::Dropped);
    let new_list = specialised(alloc, &cover, Target::RowId, set(&[1]))?;
    drop(cover.put(Target::RowId, new_list));
    let list = cover.list(alloc, Target::RowId)?;
    assert!(rt; list.len() == 2);
    let third = Cand {
        left: set(&[2]),
        upto: four,
        held: false,
    };
    assert!(rt; list[0] == third && list[1].upto == RowNo::first());
    assert!(rt; cover.first(Target::RowId, |cand| cand.upto.number() > 1) == Some(third));
    let mut near = 7;
    assert!(rt; cover.upto_near(Target::RowId, set(&[2]), &mut near) == Some(four) && near == 0);
    assert!(rt;
        cover
            .upto_near(Target::RowId, set(&[0]), &mut near)
            .is_none()
    );
    assert!(rt; cover.upto(Target::RowId, set(&[0])).is_none());
    Ok(())
}

#[test]
fn all_candidates_are_marked_at_once(rt: HostRuntime) -> Result<(), Fail> {
    let alloc = rt.alloc();
    let mut cover = second_and_third(alloc)?;
    assert!(rt; cover.hold(Target::RowId, set(&[2]), true));
    cover.mark_all(RowNo::of(7));
    let single = cover.of_sizes(alloc, Target::RowId, 1, 1)?;
    assert!(rt; single.len() == 2);
    for cand in single.as_slice() {
        assert!(rt; cand.upto == RowNo::of(7) && !cand.held);
    }
    assert!(rt; cover.of_sizes(alloc, Target::RowId, 2, 128)?.is_empty());
    assert!(rt; cover.of_sizes(alloc, Target::RowId, 0, 1)?.len() == 2);
    Ok(())
}
