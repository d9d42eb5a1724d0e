// Walks over the paths of a tree.
ghost use Rattle.std.specs.Prelude.{◌≡◌, ◌++◌, ◌||◌, ◌&&◌, ℕ, Bool, true, Option, Some, None, OnOk};
ghost use Rattle.col_set.specs.ColSet.{Columns, has, empty};
ghost use Rattle.set_tree.specs.Tree.{Shape, look, spot};
ghost use Rattle.set_tree.specs.Walks as words;
ghost use Rattle.set_tree.specs.Walks.{Reads, Rooted, any_inside, walk, entry, joined};

use crate::nodes::Nodes;
use col_set::ColSet;
use std::alloc::AllocError;
use std::cmp::Ordering;

impl<V: Copy> Nodes<V> {
    // The place of the node at which the path of x ends.
    pub(crate) fn find(&self, link: Option<u32>, x: ColSet) -> Option<u32>
        requires { Rooted self.now.list.items link }
        ensures { (from : ℕ) (t : Shape V) → Reads self.now.list.items link from t → result ≡ spot t x }
    {
        let Some(place) = link else {
            return None;
        };
        let node = self.at(place);
        if !x.has(node.column) {
            return self.find(node.next, x);
        }
        let rest = x.without(node.column);
        if rest == ColSet::empty() {
            return Some(place);
        }
        self.find(node.child, rest)
    }

    // The value of the path of x.
    pub(crate) fn value(&self, link: Option<u32>, x: ColSet) -> Option<V>
        requires { Rooted self.now.list.items link }
        ensures { (from : ℕ) (t : Shape V) → Reads self.now.list.items link from t → result ≡ look t x }
    {
        match self.find(link, x) {
            Some(place) => self.at(place).value,
            None => None,
        }
    }

    // Whether a path that begins at the link lies inside x.
    pub(crate) fn any_inside(&self, link: Option<u32>, x: ColSet) -> bool
        requires { Rooted self.now.list.items link }
        ensures { (from : ℕ) (t : Shape V) → Reads self.now.list.items link from t → result ≡ any_inside t x }
    {
        let Some(place) = link else {
            return false;
        };
        let node = self.at(place);
        if !x.has(node.column) {
            return self.any_inside(node.next, x);
        }
        if node.value.is_some() {
            return true;
        }
        if self.any_inside(node.child, x) {
            return true;
        }
        self.any_inside(node.next, x)
    }

    // Adds the paths inside x that begin at the link, each with the columns of the prefix more.
    pub(crate) fn push_inside(
        &self,
        link: Option<u32>,
        prefix: ColSet,
        x: ColSet,
        found: &mut Vec<(ColSet, V)>,
    ) -> Result<(), AllocError>
        requires { Rooted self.now.list.items link }
        ensures { OnOk result ((from : ℕ) (t : Shape V) → Reads self.now.list.items link from t → found.new.items ≡ found.old.items ++ walk prefix t x) }
    {
        let Some(place) = link else {
            return Ok(());
        };
        let node = self.at(place);
        if !x.has(node.column) {
            return self.push_inside(node.next, prefix, x, found);
        }
        let path = prefix.with(node.column);
        push_entry(found, path, node.value)?;
        self.push_inside(node.child, path, x, found)?;
        self.push_inside(node.next, prefix, x, found)
    }

    // What is joined of the paths inside x that begin at the link, each with the columns of the prefix more.
    pub(crate) fn fold_inside<A, F: Fn(A, ColSet, V) -> A>(
        &self,
        link: Option<u32>,
        prefix: ColSet,
        x: ColSet,
        start: A,
        join: &F,
    ) -> A
        requires tree { Rooted self.now.list.items link }
        requires join { F.IsAlwaysCallable join.now }
        ensures { (from : ℕ) (t : Shape V) → Reads self.now.list.items link from t → (f : A → Columns × V → A) → ((a : A) (y : Columns) (v : V) (b : A) → F.post join.now a y v b → b ≡ f a (y, v)) → result ≡ joined f start (walk prefix t x) }
    {
        let Some(place) = link else {
            return start;
        };
        let node = self.at(place);
        if !x.has(node.column) {
            return self.fold_inside(node.next, prefix, x, start, join);
        }
        let path = prefix.with(node.column);
        let own = join_entry(start, path, node.value, join);
        let below = self.fold_inside(node.child, path, x, own, join);
        self.fold_inside(node.next, prefix, x, below, join)
    }
}

// Adds a path with its value, if it has one.
pub(crate) fn push_entry<V: Copy>(
    found: &mut Vec<(ColSet, V)>,
    path: ColSet,
    value: Option<V>,
) -> Result<(), AllocError>
    ensures { OnOk result (found.new.items ≡ found.old.items ++ entry path value) }
{
    if let Some(value) = value {
        found.push((path, value))?;
    }
    Ok(())
}

// What is joined with a path and its value, if it has one.
pub(crate) fn join_entry<V: Copy, A, F: Fn(A, ColSet, V) -> A>(
    start: A,
    path: ColSet,
    value: Option<V>,
    join: &F,
) -> A
    requires { F.IsAlwaysCallable join.now }
    ensures { (f : A → Columns × V → A) → ((a : A) (y : Columns) (v : V) (b : A) → F.post join.now a y v b → b ≡ f a (y, v)) → result ≡ joined f start (entry path value) }
{
    match value {
        Some(value) => join(start, path, value),
        None => start,
    }
}

// The one of the two that stands first in report order, of a pair found so far and one that counts only where it meets the test.
pub(crate) fn nearer<V: Copy, F: Fn(ColSet, V) -> bool>(
    best: Option<(ColSet, V)>,
    set: ColSet,
    value: V,
    test: &F,
) -> Option<(ColSet, V)>
    requires { F.IsAlwaysCallable test.now }
    ensures { (p : Columns × V → Bool) → ((x : Columns) (v : V) (b : Bool) → F.post test.now x v b → b ≡ p (x, v)) → result ≡ words.nearer p best (set, value) }
{
    match best {
        Some(found) => {
            if set.cmp_report(found.0) == Ordering::Less && test(set, value) {
                Some((set, value))
            } else {
                Some(found)
            }
        }
        None => {
            if test(set, value) {
                Some((set, value))
            } else {
                None
            }
        }
    }
}
