// Where a left side stands in a list in report order.
ghost use Rattle.std.specs.Prelude.{◌≡◌, ◌≤◌, ◌<◌, ℕ, true, length, slice_index_or, IfSome, Ok};
ghost use Rattle.std.specs.declared.cmp.Ordering.TheVariants.{Less};
ghost use Rattle.col_set.specs.ColSet.{report_cmp};
ghost use Rattle.col_set.specs.Lists.{Rises};
ghost use Rattle.candidate_cover.specs.Place.{IsPlace};

use rel_base::ColSet;

// The place of the set, or the place at which it would stand.
pub(crate) fn place_of(sets: &[ColSet], x: ColSet) -> Result<usize, usize>
    requires { Rises report_cmp sets.now }
    ensures { IsPlace sets.now x result }
{
    sets.binary_search_by(|y| y.cmp_report(x))
}

// Whether the sets up to a place stand before x.
fn are_before(sets: &[ColSet], place: usize, x: ColSet) -> bool
    requires order { Rises report_cmp sets.now }
    requires place { place ≤ length sets.now }
    ensures { result ≡ true → (k d : ℕ) → k < place → report_cmp (slice_index_or sets.now k d) x ≡ Less }
{
    if place == 0 {
        return true;
    }
    sets[place - 1].cmp_report(x).is_lt()
}

// Whether the sets from a place on stand after x.
fn are_after(sets: &[ColSet], place: usize, x: ColSet) -> bool
    requires { Rises report_cmp sets.now }
    ensures { result ≡ true → (k d : ℕ) → place ≤ k → k < length sets.now → report_cmp x (slice_index_or sets.now k d) ≡ Less }
{
    if place >= sets.len() {
        return true;
    }
    x.cmp_report(sets[place]).is_lt()
}

// The place of the set, or the place at which it would stand, where it stands between two places.
fn place_between(sets: &[ColSet], start: usize, end: usize, x: ColSet) -> Result<usize, usize>
    requires order { Rises report_cmp sets.now }
    requires start { start ≤ end }
    requires end { end ≤ length sets.now }
    requires before { (k d : ℕ) → k < start → report_cmp (slice_index_or sets.now k d) x ≡ Less }
    requires after { (k d : ℕ) → end ≤ k → k < length sets.now → report_cmp x (slice_index_or sets.now k d) ≡ Less }
    ensures { IsPlace sets.now x result }
{
    match place_of(&sets[start..end], x) {
        Ok(place) => Ok(start + place),
        Err(place) => Err(start + place),
    }
}

// So many places from the first one on are searched before the whole list is.
const NEXT: usize = 64;

// The place of the set, or the place at which it would stand, by a look at one place and the one before it first, and at those
// that follow next.
pub(crate) fn place_near(sets: &[ColSet], first: usize, x: ColSet) -> Result<usize, usize>
    requires { Rises report_cmp sets.now }
    ensures { IsPlace sets.now x result }
{
    if first > sets.len() {
        return place_of(sets, x);
    }
    if first < sets.len() && sets[first] == x {
        return Ok(first);
    }
    if !are_before(sets, first, x) {
        return place_of(sets, x);
    }
    if are_after(sets, first, x) {
        return Err(first);
    }
    let end = sets.len().min(first.saturating_add(NEXT));
    if are_after(sets, end, x) {
        return place_between(sets, first, end, x);
    }
    place_of(sets, x)
}

// So many places before a remembered one, and so many from there on, are looked at before the list is searched.
const BEFORE: usize = 3;

const AFTER: usize = 5;

// The place of the set, or the place at which it would stand, by a look at a place and those about it first: calls mostly follow
// the list's order, and those of several threads nearly do. The place itself and those behind it come first.
pub(crate) fn place_about(sets: &[ColSet], near: usize, x: ColSet) -> Result<usize, usize>
    requires { Rises report_cmp sets.now }
    ensures { IsPlace sets.now x result }
{
    if let Some(place) = place_among(sets, near, near.saturating_add(AFTER), x) {
        return Ok(place);
    }
    if let Some(place) = place_among(sets, near.saturating_sub(BEFORE), near, x) {
        return Ok(place);
    }
    place_of(sets, x)
}

// The place of the set, where it is one of these.
fn place_among(sets: &[ColSet], first: usize, end: usize, x: ColSet) -> Option<usize>
    requires { Rises report_cmp sets.now }
    ensures { IfSome result (λ place. IsPlace sets.now x (Ok place)) }
{
    for place in first..end.min(sets.len()) {
        if sets[place] == x {
            return Some(place);
        }
    }
    None
}
