// The candidates of one target in flat lists, the left sides apart from their marks.
ghost use Rattle.std.specs.Prelude.{◌≡◌, ◌≤◌, ◌<◌, ◌-◌, ◌&&◌, nat_le, ◌++◌, ◌∷◌, [], Bool, length, take, drop, map, max, slice_index_or, false, IfOk, OnOk, IfSome};
ghost use Rattle.std.specs.List.{find, filter};
ghost use Rattle.candidate_cover.specs.Sizes as sizes;
ghost use Rattle.col_set.specs.ColSet.{empty, report_cmp, size};
ghost use Rattle.col_set.specs.Lists.{Rises};
ghost use Rattle.candidate_cover.specs.Cands as words;
ghost use Rattle.candidate_cover.specs.Cands.{from, all_free, kept_or_fresh};
ghost use Rattle.candidate_cover.specs.AllMarked.{all_marked, refreshed};
ghost use Rattle.candidate_cover.specs.Marks.{cand, cands, fresh_mark};
ghost use Rattle.candidate_cover.specs.Pairs.{pairs_of, AreEven, keys, value_at, toggled};
ghost use Rattle.candidate_cover.specs.Pairs as pairs;
ghost use Rattle.candidate_cover.specs.declared.cand.Cand.{Cand};

use crate::cand::{Cand, Mark};
use crate::place::{place_about, place_near, place_of};
use rel_base::{ColSet, RowNo};
use std::alloc::{AllocError, Global};
use std::marker::Model;

// Left sides, and apart from them the rows that each is known to hold in and whether it is held.
#[derive(Drop)]
struct Lists {
    sets: Vec<ColSet>,
    uptos: Vec<RowNo>,
    helds: Vec<bool>,
}

/// The candidates of a target in report order: a scan for left sides reads 16 bytes a candidate, a copy 21.
///
/// Contracts see the pairs of left sides and marks, and nothing of the place that was written last: calls that follow the list's
/// order look there first.
#[derive(Drop)]
pub(crate) struct CandList {
    lists: Lists,
    last: usize,
}

impl Model for CandList {
    ghost use Rattle.std.specs.Prelude.{List};
    ghost use Rattle.col_set.specs.ColSet.{Columns};
    ghost use Rattle.candidate_cover.specs.Pairs.{pairs_of, AreEven, IsInOrder};
    ghost use Rattle.candidate_cover.specs.declared.cand.Mark.{Mark};

    ghost Value = { List (Columns × Mark) };

    ghost view = { λ c. pairs_of c.lists.sets.items c.lists.uptos.items c.lists.helds.items };

    ghost invariant = { λ c. AreEven c.lists.sets.items c.lists.uptos.items c.lists.helds.items × IsInOrder (pairs_of c.lists.sets.items c.lists.uptos.items c.lists.helds.items) };
}

impl Lists {
    // Empty lists with room for so many.
    fn with_room(alloc: Global, count: usize) -> Result<Lists, AllocError>
        ensures none { IfOk result (λ made. pairs_of made.sets.items made.uptos.items made.helds.items ≡ []) }
        ensures even { IfOk result (λ made. AreEven made.sets.items made.uptos.items made.helds.items) }
    {
        Ok(Lists {
            sets: Vec::with_capacity(alloc, count)?,
            uptos: Vec::with_capacity(alloc, count)?,
            helds: Vec::with_capacity(alloc, count)?,
        })
    }

    // One more candidate at the end.
    fn push(&mut self, x: ColSet, mark: Mark) -> Result<(), AllocError>
        requires { AreEven self.old.sets.items self.old.uptos.items self.old.helds.items }
        ensures pairs { OnOk result (pairs_of self.new.sets.items self.new.uptos.items self.new.helds.items ≡ pairs_of self.old.sets.items self.old.uptos.items self.old.helds.items ++ (x, mark) ∷ []) }
        ensures even { OnOk result (AreEven self.new.sets.items self.new.uptos.items self.new.helds.items) }
    {
        self.sets.push(x)?;
        self.uptos.push(mark.upto)?;
        self.helds.push(mark.held)?;
        Ok(())
    }

    // A run of other lists at the end.
    fn push_run(&mut self, other: &Lists, start: usize, end: usize) -> Result<(), AllocError>
        requires even { AreEven self.old.sets.items self.old.uptos.items self.old.helds.items }
        requires other { AreEven other.now.sets.items other.now.uptos.items other.now.helds.items }
        requires start { start ≤ end }
        requires end { end ≤ length other.now.sets.items }
        ensures pairs { OnOk result (pairs_of self.new.sets.items self.new.uptos.items self.new.helds.items ≡ pairs_of self.old.sets.items self.old.uptos.items self.old.helds.items ++ take (end - start) (drop start (pairs_of other.now.sets.items other.now.uptos.items other.now.helds.items))) }
        ensures even { OnOk result (AreEven self.new.sets.items self.new.uptos.items self.new.helds.items) }
    {
        self.sets.extend_from_slice(&other.sets[start..end])?;
        self.uptos.extend_from_slice(&other.uptos[start..end])?;
        self.helds.extend_from_slice(&other.helds[start..end])?;
        Ok(())
    }

    // The lists in which each of these sets has changed sides: one that is there goes, and one that is not comes with fresh
    // marks. What stands between them is copied by runs.
    fn toggled(&self, alloc: Global, sets: &[ColSet]) -> Result<Lists, AllocError>
        requires even { AreEven self.now.sets.items self.now.uptos.items self.now.helds.items }
        requires order { pairs.IsInOrder (pairs_of self.now.sets.items self.now.uptos.items self.now.helds.items) }
        ensures pairs { IfOk result (λ made. pairs_of made.sets.items made.uptos.items made.helds.items ≡ toggled (pairs_of self.now.sets.items self.now.uptos.items self.now.helds.items) sets.now fresh_mark) }
        ensures even { IfOk result (λ made. AreEven made.sets.items made.uptos.items made.helds.items) }
    {
        let mut made = Lists::with_room(alloc, self.sets.len())?;
        let mut rest = 0;
        for x in sets {
            match place_of(&self.sets[rest..], *x) {
                Ok(run) => {
                    made.push_run(self, rest, rest + run)?;
                    rest += run + 1;
                }
                Err(run) => {
                    made.push_run(self, rest, rest + run)?;
                    made.push(*x, Mark::fresh())?;
                    rest += run;
                }
            }
        }
        made.push_run(self, rest, self.sets.len())?;
        Ok(made)
    }
}

impl CandList {
    // The lists as they stand.
    fn of(lists: Lists) -> CandList
        requires even { AreEven lists.sets.items lists.uptos.items lists.helds.items }
        requires order { pairs.IsInOrder (pairs_of lists.sets.items lists.uptos.items lists.helds.items) }
        ensures { result ≡ pairs_of lists.sets.items lists.uptos.items lists.helds.items }
    {
        CandList { lists, last: 0 }
    }

    // The empty set alone, of which nothing is known.
    pub(crate) fn opening(alloc: Global) -> Result<CandList, AllocError>
        ensures { IfOk result (λ list. cands list ≡ words.fresh empty ∷ []) }
    {
        let mut lists = Lists::with_room(alloc, 1)?;
        lists.push(ColSet::empty(), Mark::fresh())?;
        Ok(CandList::of(lists))
    }

    // The left sides.
    pub(crate) fn sets(&self) -> &[ColSet]
        ensures sets { result.now ≡ keys self.now }
        ensures order { pairs.IsInOrder self.now }
    {
        self.lists.sets.as_slice()
    }

    // The marks of a left side.
    pub(crate) fn get(&self, x: ColSet) -> Option<Mark>
        ensures value { result ≡ value_at self.now x }
        ensures order { pairs.IsInOrder self.now }
    {
        let mut near = self.last;
        self.get_near(x, &mut near)
    }

    // The marks of a left side, which is looked for about a place first. The place becomes the one at which it stands or would stand.
    pub(crate) fn get_near(&self, x: ColSet, near: &mut usize) -> Option<Mark>
        ensures value { result ≡ value_at self.now x }
        ensures order { pairs.IsInOrder self.now }
    {
        match place_about(self.lists.sets.as_slice(), *near, x) {
            Ok(place) => {
                *near = place;
                Some(Mark {
                    upto: self.lists.uptos[place],
                    held: self.lists.helds[place],
                })
            }
            Err(place) => {
                *near = place;
                None
            }
        }
    }

    // Has the next look-up begin about a place, if the list has it.
    pub(crate) fn look_near(&mut self, place: usize)
        ensures { self.new ≡ self.old }
    {
        if place < self.lists.sets.len() {
            self.last = place;
        }
    }

    // Notes that x is known to hold up to there at least and that nobody holds it, and answers whether it is there.
    pub(crate) fn mark(&mut self, x: ColSet, to: RowNo) -> bool
        ensures found { result ≡ words.is_listed (cands self.old) x }
        ensures list { cands self.new ≡ words.marked (cands self.old) x to }
    {
        match place_about(self.lists.sets.as_slice(), self.last, x) {
            Ok(place) => {
                self.lists.uptos[place] = later(self.lists.uptos[place], to);
                self.lists.helds[place] = false;
                self.last = place;
                true
            }
            Err(_) => false,
        }
    }

    // Holds x or lets go of it, and answers whether it is there.
    pub(crate) fn hold(&mut self, x: ColSet, held: bool) -> bool
        ensures found { result ≡ words.is_listed (cands self.old) x }
        ensures list { cands self.new ≡ words.holding (cands self.old) x held }
    {
        match place_about(self.lists.sets.as_slice(), self.last, x) {
            Ok(place) => {
                self.lists.helds[place] = held;
                self.last = place;
                true
            }
            Err(_) => false,
        }
    }

    // Lets go of all candidates.
    pub(crate) fn free(&mut self)
        ensures { cands self.new ≡ all_free (cands self.old) }
    {
        free_all(&mut self.lists.helds);
    }

    // Lets go of all candidates, which are known to hold up to there at least.
    pub(crate) fn mark_all(&mut self, to: RowNo)
        ensures { cands self.new ≡ all_marked to (cands self.old) }
    {
        free_all(&mut self.lists.helds);
        raise_all(&mut self.lists.uptos, to);
    }

    // A copy of the left sides, of which nothing is known and none of which is held.
    pub(crate) fn refreshed(&self, alloc: Global) -> Result<CandList, AllocError>
        ensures { IfOk result (λ made. cands made ≡ refreshed (cands self.now)) }
    {
        let sets = self.copied_sets(alloc)?;
        let uptos = vec![in alloc; RowNo::first(); sets.len()]?;
        let helds = vec![in alloc; false; sets.len()]?;
        Ok(CandList::of(Lists { sets, uptos, helds }))
    }

    // A copy of the left sides.
    fn copied_sets(&self, alloc: Global) -> Result<Vec<ColSet>, AllocError>
        ensures sets { IfOk result (λ found. found.items ≡ keys self.now) }
        ensures order { pairs.IsInOrder self.now }
    {
        self.sets().to_vec(alloc)
    }

    // A copy, in one piece a list.
    pub(crate) fn copy(&self, alloc: Global) -> Result<CandList, AllocError>
        ensures same { IfOk result (λ made. made ≡ self.now) }
        ensures order { IfOk result (λ made. pairs.IsInOrder self.now) }
    {
        let count = self.lists.sets.len();
        let mut lists = Lists::with_room(alloc, count)?;
        lists.push_run(&self.lists, 0, count)?;
        Ok(CandList::of(lists))
    }

    // The list in which each of these sets has changed sides.
    pub(crate) fn toggled(&self, alloc: Global, sets: &[ColSet]) -> Result<CandList, AllocError>
        requires { Rises report_cmp sets.now }
        ensures { IfOk result (λ made. made ≡ toggled self.now sets.now fresh_mark) }
    {
        let lists = self.lists.toggled(alloc, sets)?;
        Ok(CandList::of(lists))
    }

    // The marks that a left side has here, or fresh ones, and the place behind it. One place is looked at first.
    fn mark_near(&self, first: usize, x: ColSet) -> (Mark, usize)
        ensures { cand (x, result.0) ≡ kept_or_fresh (cands self.now) x }
    {
        match place_near(self.lists.sets.as_slice(), first, x) {
            Ok(place) => {
                let mark = Mark {
                    upto: self.lists.uptos[place],
                    held: self.lists.helds[place],
                };
                (mark, place + 1)
            }
            Err(place) => (Mark::fresh(), place),
        }
    }

    // These left sides, each with the marks that it has here, or fresh ones. Where one is here that follows the one before it, it
    // is found in a step, and else among the next few where it stands there.
    pub(crate) fn with_lefts(
        &self,
        alloc: Global,
        sets: Vec<ColSet>,
    ) -> Result<CandList, AllocError>
        requires { Rises report_cmp sets.items }
        ensures { IfOk result (λ made. cands made ≡ map (kept_or_fresh (cands self.now)) sets.items) }
    {
        let mut uptos = Vec::with_capacity(alloc, sets.len())?;
        let mut helds = Vec::with_capacity(alloc, sets.len())?;
        let mut next = 0;
        for x in sets.as_slice() {
            let (mark, place) = self.mark_near(next, *x);
            uptos.push(mark.upto)?;
            helds.push(mark.held)?;
            next = place;
        }
        Ok(CandList::of(Lists { sets, uptos, helds }))
    }

    // The candidates.
    pub(crate) fn list(&self, alloc: Global) -> Result<Vec<Cand>, AllocError>
        ensures list { IfOk result (λ list. list.items ≡ cands self.now) }
        ensures order { pairs.IsInOrder self.now }
    {
        let mut list = Vec::with_capacity(alloc, self.lists.sets.len())?;
        for place in 0..self.lists.sets.len() {
            list.push(cand_at(
                self.lists.sets.as_slice(),
                self.lists.uptos.as_slice(),
                self.lists.helds.as_slice(),
                place,
            ))?;
        }
        Ok(list)
    }

    // The candidates with at least and at most so many columns.
    pub(crate) fn of_sizes(
        &self,
        alloc: Global,
        least: u32,
        most: u32,
    ) -> Result<Vec<Cand>, AllocError>
        ensures { IfOk result (λ list. list.items ≡ filter (sizes.is_between least most) (cands self.now)) }
    {
        let mut list = Vec::new(alloc);
        for place in 0..self.lists.sets.len() {
            if is_between(least, most, self.lists.sets[place]) {
                list.push(cand_at(
                    self.lists.sets.as_slice(),
                    self.lists.uptos.as_slice(),
                    self.lists.helds.as_slice(),
                    place,
                ))?;
            }
        }
        Ok(list)
    }

    // The first candidate, from a left side on, that meets the test.
    pub(crate) fn first_from<F: Fn(Cand) -> bool>(&self, left: ColSet, test: F) -> Option<Cand>
        requires { F.IsAlwaysCallable test }
        ensures found { (p : Cand → Bool) → ((c : Cand) (b : Bool) → F.post test c b → b ≡ p c) → result ≡ find p (from left (cands self.now)) }
        ensures order { pairs.IsInOrder self.now }
    {
        let start = match place_about(self.lists.sets.as_slice(), self.last, left) {
            Ok(place) => place,
            Err(place) => place,
        };
        first_in(
            self.lists.sets.as_slice(),
            self.lists.uptos.as_slice(),
            self.lists.helds.as_slice(),
            start,
            test,
        )
    }

    // The first left side of which nothing is known and that nobody holds.
    pub(crate) fn first_fresh(&self) -> Option<ColSet>
        ensures { result ≡ words.first_fresh (cands self.now) }
    {
        let found = self.first_from(
            ColSet::empty(),
            |cand: Cand| -> bool
                ensures { result ≡ words.is_fresh cand }
            { cand.upto == RowNo::first() && !cand.held },
        );
        match found {
            Some(cand) => Some(cand.left),
            None => None,
        }
    }
}

// The first of these candidates, from a place on, that meets the test.
fn first_in<F: Fn(Cand) -> bool>(
    sets: &[ColSet],
    uptos: &[RowNo],
    helds: &[bool],
    start: usize,
    test: F,
) -> Option<Cand>
    requires even { AreEven sets.now uptos.now helds.now }
    requires test { F.IsAlwaysCallable test }
    ensures { (p : Cand → Bool) → ((c : Cand) (b : Bool) → F.post test c b → b ≡ p c) → result ≡ find p (drop start (cands (pairs_of sets.now uptos.now helds.now))) }
{
    for place in start..sets.len() {
        if test(cand_at(sets, uptos, helds, place)) {
            return Some(cand_at(sets, uptos, helds, place));
        }
    }
    None
}

// The candidate at a place.
fn cand_at(sets: &[ColSet], uptos: &[RowNo], helds: &[bool], place: usize) -> Cand
    requires even { AreEven sets.now uptos.now helds.now }
    requires place { place < length sets.now }
    ensures { (d : Cand) → slice_index_or (cands (pairs_of sets.now uptos.now helds.now)) place d ≡ result }
{
    Cand {
        left: sets[place],
        upto: uptos[place],
        held: helds[place],
    }
}

// Nobody holds any.
fn free_all(helds: &mut Vec<bool>)
    ensures { helds.new.items ≡ map (λ h. false) helds.old.items }
{
    for place in 0..helds.len() {
        helds[place] = false;
    }
}

// Each is known to hold up to there at least.
fn raise_all(uptos: &mut Vec<RowNo>, to: RowNo)
    ensures { uptos.new.items ≡ map (λ u. max u to) uptos.old.items }
{
    for place in 0..uptos.len() {
        uptos[place] = later(uptos[place], to);
    }
}

fn later(upto: RowNo, to: RowNo) -> RowNo
    ensures { result ≡ max upto to }
{
    if upto < to { to } else { upto }
}

// Whether a set has at least and at most so many columns.
fn is_between(least: u32, most: u32, x: ColSet) -> bool
    ensures { result ≡ (nat_le least (size x) && nat_le (size x) most) }
{
    let count = x.len();
    least <= count && count <= most
}
