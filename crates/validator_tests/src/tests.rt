// Answers on small relations that are drawn, against the plain programs.
ghost use Rattle.std.specs.Prelude.{◌≡◌, ◌<◌, ◌≤◌, IsTrue};
ghost use Rattle.col_set.specs.Target.{IsColumnTarget};
ghost use Rattle.rel_base.specs.Alike.{Alike};
ghost use Rattle.validator.specs.Stores.{AreOf};
ghost use Rattle.validator.specs.Verdicts.{IsFitting};

mod sample;

use self::sample::{COLUMNS, ROWS, Sample, drawn};
use col_set::{ColSet, Target};
use plain_base::Samples;
use rel_base::{COLUMN_PLACES, Job, MOST_COLUMNS, RowNo, Steps};
use std::alloc::{AllocError, Global};
use std::marker::Brand;
use std::process::Abort;
use std::sync::ledger::{Blank, Ledger};
use std::test::Fail;
use std::thread::Threads;
use validator::{Order, Store, Stores, Verdict, first_places, validate, violations};

// Whether the target is a column of the first n, or which row it is.
fn is_target(target: Target, columns: u8) -> bool
    requires { columns ≤ MOST_COLUMNS }
    ensures given { IsTrue result → IsColumnTarget columns target }
    ensures bound { IsTrue result → IsColumnTarget MOST_COLUMNS target }
{
    match target {
        Target::Col(column) => column < columns,
        Target::RowId => true,
    }
}

// Whether the job's parts fit. Its dependency holds among its old rows, of which there is one at most.
fn is_fitting(job: &Job) -> bool
    ensures fitting { IsTrue result → IsFitting job.now }
    ensures target { IsTrue result → IsColumnTarget MOST_COLUMNS job.now.target }
{
    let columns = job.snapshot().columns();
    if !job.left().subset_of(ColSet::all(columns)) {
        return false;
    }
    if !is_target(job.target(), columns) {
        return false;
    }
    job.from().number() <= 2
}

// What is answered on a job without a store and by one.
#[derive(Drop)]
struct Answers {
    alone: Verdict,
    kept: Verdict,
    pairs: Vec<(RowNo, RowNo)>,
}

fn answered<L: Ledger>(
    alloc: Global,
    store: &mut Store,
    job: &Job,
    blank: Blank,
) -> Result<Answers, AllocError>
    requires name { blank.name ≡ L.name }
    requires parts { blank.parts ≡ L.parts }
    requires some { 0 < L.parts }
    requires alike { Alike store.old job.now.snapshot }
    requires fitting { IsFitting job.now }
    ensures { store.new ≡ store.old }
{
    let mut steps = Steps::<L>::none(blank);
    Ok(Answers {
        alone: validate(alloc, job, &mut steps)?,
        kept: store.validate(alloc, job, &mut steps)?,
        pairs: store.violations(alloc, job, 2, &mut steps)?,
    })
}

fn is_right(sample: &Sample, job: &Job, verdict: Verdict) -> bool
    requires { IsColumnTarget MOST_COLUMNS job.now.target }
{
    match verdict {
        Verdict::Holds { to } => to == job.to() && sample.holds(job.left(), job.target()),
        Verdict::Broken { i, j } => sample.breaks(job.left(), job.target(), i, j),
    }
}

// Whether each pair breaks the dependency, and there is none only where it holds.
fn are_right(sample: &Sample, job: &Job, pairs: &[(RowNo, RowNo)]) -> bool
    requires { IsColumnTarget MOST_COLUMNS job.now.target }
{
    for (i, j) in pairs {
        if !sample.breaks(job.left(), job.target(), *i, *j) {
            return false;
        }
    }
    pairs.len() <= 2 && pairs.is_empty() == sample.holds(job.left(), job.target())
}

// Compares what is answered on a job, once more where memory is wanting.
#[tactic(auto, using(crate::proofs::PlainTests::alike_same))]
fn compare(
    alloc: Global,
    rt: &impl Abort,
    sample: &Sample,
    store: &mut Store,
    job: &Job,
) -> Result<(), AllocError>
    requires { store.old ≡ job.now.snapshot }
    ensures { store.new ≡ store.old }
{
    assert!(rt; is_fitting(job));
    let answers = match answered::<Brand>(alloc, store, job, Blank::new(1)) {
        Ok(answers) => answers,
        Err(_) => answered::<Brand>(alloc, store, job, Blank::new(1))?,
    };
    assert!(rt; is_right(sample, job, answers.alone));
    assert!(rt; is_right(sample, job, answers.kept));
    assert!(rt; are_right(sample, job, answers.pairs.as_slice()));
    Ok(())
}

// The columns, and behind them which row it is.
fn target_at(place: u8) -> Target {
    if place < COLUMNS {
        Target::Col(place)
    } else {
        Target::RowId
    }
}

// Compares what is answered on a left side with every target, where this is the first new row.
fn compare_targets(
    alloc: Global,
    rt: &impl Abort,
    sample: &Sample,
    store: &mut Store,
    left: ColSet,
    from: RowNo,
) -> Result<(), AllocError>
    requires { store.old ≡ sample.now.snapshot.value }
    ensures { store.new ≡ store.old }
{
    for place in 0..=COLUMNS {
        let to = RowNo::of(ROWS + 2);
        let job = Job::of(target_at(place), left, from, to, sample.snapshot.clone()?);
        compare(alloc, rt, sample, store, &job)?;
    }
    Ok(())
}

// A left side, and the first new row: first those with the last columns, where all rows are new, and then the other way round,
// where the first row is old.
fn turn_at(turn: u32) -> (ColSet, RowNo) {
    if turn < 32 {
        (ColSet::of_bits(u128::from(31 - turn)), RowNo::of(1))
    } else {
        (ColSet::of_bits(u128::from(turn - 32)), RowNo::of(2))
    }
}

// Compares what is answered in some turns by one store, one after another.
fn compare_turns(
    alloc: Global,
    rt: &impl Abort,
    sample: &Sample,
    store: &mut Store,
    turns: (u32, u32),
) -> Result<(), AllocError>
    requires { store.old ≡ sample.now.snapshot.value }
    ensures { store.new ≡ store.old }
{
    for turn in turns.0..turns.1 {
        let (left, from) = turn_at(turn);
        compare_targets(alloc, rt, sample, store, left, from)?;
    }
    Ok(())
}

// Compares what is answered on all left sides by one store, which goes over to these rows, and to the same ones again, and its
// weights.
fn compare_left_sides(
    alloc: Global,
    rt: &impl Abort,
    sample: &Sample,
    store: &mut Store,
) -> Result<(), AllocError> {
    let _old = store.renew(alloc, sample.snapshot.clone()?);
    compare_turns(alloc, rt, sample, store, (0, 48))?;
    let _old = store.renew(alloc, sample.snapshot.clone()?);
    compare_turns(alloc, rt, sample, store, (48, 64))?;
    assert!(rt; sample.weighs(&store.weights(alloc)?));
    Ok(())
}

// Whether the first column determines the second one, as a store tells that was lent.
fn is_determined(
    alloc: Global,
    rt: &impl Abort,
    sample: &Sample,
    store: &mut Store,
) -> Result<bool, AllocError>
    requires { store.old ≡ sample.now.snapshot.value }
    ensures { store.new ≡ store.old }
{
    let (first, to) = (ColSet::empty().with(0), RowNo::of(ROWS + 2));
    let snapshot = sample.snapshot.clone()?;
    let job = Job::of(Target::Col(1), first, RowNo::of(1), to, snapshot);
    assert!(rt; is_fitting(&job));
    let pairs = violations::<Brand>(store, alloc, &job, 2, Blank::new(1))?;
    assert!(rt; are_right(sample, &job, pairs.as_slice()));
    Ok(pairs.is_empty())
}

// Whether the first column determines the second one, as each further store tells after what the stores keep was handed round.
fn is_determined_by_each<R: Threads + Sync + Abort>(
    alloc: Global,
    rt: &R,
    sample: &Sample,
    stores: &mut Stores,
) -> Result<bool, AllocError>
    requires { AreOf sample.now.snapshot.value stores.old }
    ensures { AreOf sample.now.snapshot.value stores.new }
{
    let wanted = is_determined(alloc, rt, sample, &mut stores.own)?;
    stores.level(rt)?;
    for k in 0..stores.others.len() {
        let found = is_determined(alloc, rt, sample, &mut stores.others[k])?;
        assert!(rt; found == wanted);
    }
    stores.level(rt)?;
    Ok(wanted)
}

// Whether so many threads find the weights.
fn are_weighed<R: Threads + Sync>(
    alloc: Global,
    rt: &R,
    sample: &Sample,
    store: &mut Store,
    workers: u8,
) -> Result<bool, AllocError> {
    let weights = store.weights_by(rt, alloc, workers)?;
    Ok(sample.weighs(&weights))
}

// So many threads weigh the columns, and find the weights again in what they kept.
fn weigh_twice<R: Threads + Sync + Abort>(
    alloc: Global,
    rt: &R,
    sample: &Sample,
    workers: u8,
) -> Result<(), AllocError> {
    let mut store = Store::of(alloc, sample.snapshot.clone()?, 1000);
    assert!(rt; are_weighed(alloc, rt, sample, &mut store, workers)?);
    assert!(rt; are_weighed(alloc, rt, sample, &mut store, workers)?);
    Ok(())
}

#[test]
fn weights_are_found_by_several_threads(rt: HostRuntime) -> Result<(), Fail> {
    let sample = drawn(rt.alloc(), &rt, &mut Samples::from_seed(1969))?;
    for workers in 0..3 {
        weigh_twice(rt.alloc(), &rt, &sample, workers)?;
    }
    Ok(())
}

// Makes two further stores, which tell the same as the own one.
fn spread_and_compare<R: Threads + Sync + Abort>(
    alloc: Global,
    rt: &R,
    sample: &Sample,
    stores: &mut Stores,
    wanted: bool,
) -> Result<(), AllocError>
    requires { AreOf sample.now.snapshot.value stores.old }
    ensures { AreOf sample.now.snapshot.value stores.new }
{
    stores.spread(alloc, 3)?;
    assert!(rt; stores.others.len() == 2);
    let found = is_determined_by_each(alloc, rt, sample, stores)?;
    assert!(rt; found == wanted);
    Ok(())
}

// Whether three of four places have a store.
fn are_three_of_four(lent: &[Option<Store>]) -> bool {
    lent.len() == 4 && lent[2].is_some() && lent[3].is_none()
}

// Lends all stores to four places, and takes them back.
fn lend_and_take_back(
    alloc: Global,
    rt: &impl Abort,
    sample: &Sample,
    stores: &mut Stores,
) -> Result<(), AllocError>
    requires { AreOf sample.now.snapshot.value stores.old }
    ensures { AreOf sample.now.snapshot.value stores.new }
{
    let lent = stores.lend(alloc, &sample.snapshot, 4)?;
    assert!(rt; are_three_of_four(lent.as_slice()));
    assert!(rt; stores.others.is_empty());
    stores.take_back(alloc, &sample.snapshot, lent)?;
    assert!(rt; stores.others.len() == 2);
    Ok(())
}

// Compares what the own store tells before and after there were others, which are lent and taken back.
fn lend_and_compare<R: Threads + Sync + Abort>(
    alloc: Global,
    rt: &R,
    sample: &Sample,
    stores: &mut Stores,
) -> Result<(), AllocError>
    requires { AreOf sample.now.snapshot.value stores.old }
{
    let wanted = is_determined(alloc, rt, sample, &mut stores.own)?;
    spread_and_compare(alloc, rt, sample, stores, wanted)?;
    lend_and_take_back(alloc, rt, sample, stores)?;
    let found = is_determined(alloc, rt, sample, &mut stores.own)?;
    assert!(rt; found == wanted);
    Ok(())
}

#[test]
fn stores_of_one_snapshot_are_lent_and_taken_back(rt: HostRuntime) -> Result<(), Fail> {
    let sample = drawn(rt.alloc(), &rt, &mut Samples::from_seed(2019))?;
    let mut stores = Stores::of(rt.alloc(), &sample.snapshot)?;
    lend_and_compare(rt.alloc(), &rt, &sample, &mut stores)?;
    let _old = stores.renew(rt.alloc(), sample.snapshot.clone()?);
    assert!(rt; stores.others.is_empty());
    Ok(())
}

#[test]
fn light_columns_have_the_first_places(rt: HostRuntime) -> Result<(), Fail> {
    let mut weights = [9; COLUMN_PLACES];
    weights[3] = 1;
    weights[1] = 4;
    let order = Order::of(&weights, 2);
    let both = ColSet::empty().with(1).with(3);
    assert!(rt; order.places_of(both) == 3 << 126);
    assert!(rt; order.places_of(ColSet::empty().with(3)) == 1 << 127);
    assert!(rt; order.places_of(ColSet::empty().with(0)) == 1 << 125);
    assert!(rt; first_places(order.places_of(both.with(0))) == 3 << 126);
    assert!(rt; first_places(1 << 127) == 1 << 127 && first_places(0) == 0);
    Ok(())
}

// Whether the first of these left sides is validated before the second.
fn is_before(order: &Order, first: ColSet, second: ColSet) -> bool {
    order.rank(order.places_of(first)) < order.rank(order.places_of(second))
}

#[test]
fn left_sides_of_few_rows_go_by_size_first(rt: HostRuntime) -> Result<(), Fail> {
    let mut weights = [9; COLUMN_PLACES];
    weights[2] = 1;
    let two = ColSet::empty().with(0).with(2);
    let (three, other) = (two.with(1), two.without(2).with(1));
    let few = Order::of(&weights, 1000);
    assert!(rt; is_before(&few, two, three) && is_before(&few, other, three));
    assert!(rt; is_before(&few, two, other) && !is_before(&few, two, two));
    let many = Order::of(&weights, 1_000_000);
    assert!(rt; is_before(&many, three, two) && is_before(&many, two, other));
    Ok(())
}

static ROOMS: [usize; 3] = [0, 9, 1000];

#[test]
fn answers_are_those_of_the_plain_programs(rt: HostRuntime) -> Result<(), Fail> {
    let alloc = rt.alloc();
    let mut samples = Samples::from_seed(1986);
    for room in &ROOMS {
        let first = drawn(alloc, &rt, &mut samples)?;
        let mut store = Store::of(alloc, first.snapshot.clone()?, *room);
        compare_left_sides(alloc, &rt, &first, &mut store)?;
        let second = drawn(alloc, &rt, &mut samples)?;
        compare_left_sides(alloc, &rt, &second, &mut store)?;
    }
    Ok(())
}
