// A map from column sets to values, which is kept as a prefix tree.
ghost use Rattle.std.specs.Prelude.{◌≡◌, [], Bool, ℕ, List, OnOk, OnErr, IfOk};
ghost use Rattle.std.specs.List.{find, list_any};
ghost use Rattle.col_set.specs.ColSet.{Columns, subset, all};
ghost use Rattle.set_tree.specs.Pairs.{IsInOrder, is_key, value_at, inserted, with_value, without_key, inside, not_inside, AreThose};
ghost use Rattle.set_tree.specs.Walks as words;
ghost use Rattle.set_tree.specs.Walks.{joined};

use crate::nodes::Nodes;
use crate::walk::{join_entry, nearer, push_entry};
use col_set::{ColSet, MOST_COLUMNS};
use std::alloc::{AllocError, Global};
use std::marker::Model;

/// Column sets with a value each.
///
/// Contracts see the list of pairs in report order. It is kept as a tree of columns: the path of a column set goes over its columns,
/// ascending, and sets that begin with the same columns share the nodes of these. A node takes four words beside the value. A path is
/// looked up in as many steps as there are columns up to its last one, and a walk over the sets inside a small one meets few of many
/// (compare the set tries of Savnik, 2013).
#[derive(Drop)]
pub struct SetTree<V: Copy> {
    // The value of the empty set, whose path has no column.
    of_empty: Option<V>,
    first: Option<u32>,
    nodes: Nodes<V>,
}

impl<V: Copy> Model for SetTree<V> {
    ghost use Rattle.std.specs.Prelude.{List};
    ghost use Rattle.col_set.specs.ColSet.{Columns};
    ghost use Rattle.col_set.specs.declared.col_set.TheConstants.{MOST_COLUMNS};
    ghost use Rattle.set_tree.specs.Tree.{IsTree};
    ghost use Rattle.set_tree.specs.Walks.{listed, values, read};

    ghost Value = { List (Columns × V) };

    ghost view = { λ t. listed (values t.of_empty (read MOST_COLUMNS t.nodes.list.items t.first)) };

    ghost invariant = { λ t. IsTree t.nodes.list.items t.nodes.unused.items t.first 0 (read MOST_COLUMNS t.nodes.list.items t.first) };
}

impl<V: Copy> SetTree<V> {
    /// No column sets. It takes no memory.
    pub fn new(alloc: Global) -> SetTree<V>
        ensures { result ≡ [] }
    {
        SetTree {
            of_empty: None,
            first: None,
            nodes: Nodes::new(alloc),
        }
    }

    /// Gives x this value, in place of the one that it has. After want of memory the tree is as before.
    ///
    /// It takes as many nodes as x has columns at most, first those of column sets that were taken out.
    pub fn insert(&mut self, x: ColSet, v: V) -> Result<(), AllocError>
        ensures pairs { OnOk result (self.new ≡ inserted self.old x v) }
        ensures refused { OnErr result (self.new ≡ self.old) }
    {
        match x.first() {
            Some(column) => {
                self.nodes.reserve(x.len() as usize)?;
                let first = self.nodes.insert(self.first, column, x.without(column), v)?;
                self.first = Some(first);
            }
            None => self.of_empty = Some(v),
        }
        Ok(())
    }

    /// Gives x this value if it is there, and answers whether it is. It takes no memory.
    pub fn set(&mut self, x: ColSet, v: V) -> bool
        ensures found { result ≡ is_key self.old x }
        ensures pairs { self.new ≡ with_value self.old x v }
    {
        if x == ColSet::empty() {
            if self.of_empty.is_none() {
                return false;
            }
            self.of_empty = Some(v);
            return true;
        }
        self.nodes.replace(self.first, x, v)
    }

    /// The value of x. It takes no memory.
    pub fn get(&self, x: ColSet) -> Option<V>
        ensures value { result ≡ value_at self.now x }
        ensures order { IsInOrder self.now }
    {
        if x == ColSet::empty() {
            return self.of_empty;
        }
        self.nodes.value(self.first, x)
    }

    /// Whether x is there. It takes no memory.
    pub fn has(&self, x: ColSet) -> bool
        ensures { result ≡ is_key self.now x }
    {
        self.get(x).is_some()
    }

    /// Takes x out, and answers whether it was there. It takes no memory; the nodes of x alone are used again.
    pub fn remove(&mut self, x: ColSet) -> bool
        ensures found { result ≡ is_key self.old x }
        ensures pairs { self.new ≡ without_key self.old x }
    {
        let found = self.has(x);
        match x.first() {
            Some(column) => {
                self.first = self.nodes.remove(self.first, column, x.without(column));
            }
            None => self.of_empty = None,
        }
        found
    }

    /// Whether a column set of the tree lies inside x. It takes no memory, and stops at the first that it meets.
    pub fn any_subset_of(&self, x: ColSet) -> bool
        ensures { result ≡ list_any (λ p. subset p.0 x) self.now }
    {
        self.of_empty.is_some() || self.nodes.any_inside(self.first, x)
    }

    /// What `join` makes of the column sets that lie inside x and their values, one after another, each once, in the order of a
    /// walk. It takes no memory, and enters only nodes whose columns x has.
    pub fn fold_subsets_of<A, F: Fn(A, ColSet, V) -> A>(&self, x: ColSet, start: A, join: F) -> A
        requires { F.IsAlwaysCallable join }
        ensures whole { inside self.now (all MOST_COLUMNS) ≡ self.now }
        ensures order { IsInOrder self.now }
        ensures joined { (f : A → Columns × V → A) → ((a : A) (y : Columns) (v : V) (b : A) → F.post join a y v b → b ≡ f a (y, v)) → (ps : List (Columns × V)) × AreThose (inside self.now x) ps × (result ≡ joined f start ps) }
    {
        let own = join_entry(start, ColSet::empty(), self.of_empty, &join);
        self.nodes
            .fold_inside(self.first, ColSet::empty(), x, own, &join)
    }

    /// The first pair in report order that meets the test. It takes no memory, and a step a node.
    pub fn first<F: Fn(ColSet, V) -> bool>(&self, test: F) -> Option<(ColSet, V)>
        requires { F.IsAlwaysCallable test }
        ensures { (p : Columns × V → Bool) → ((x : Columns) (v : V) (b : Bool) → F.post test x v b → b ≡ p (x, v)) → result ≡ find p self.now }
    {
        let join = |best: Option<(ColSet, V)>, set: ColSet, value: V| -> Option<(ColSet, V)>
            requires { F.IsAlwaysCallable test }
            ensures { (p : Columns × V → Bool) → ((x : Columns) (v : V) (b : Bool) → F.post test x v b → b ≡ p (x, v)) → result ≡ words.nearer p best (set, value) }
        { nearer(best, set, value, &test) };
        self.fold_subsets_of(ColSet::all(MOST_COLUMNS), None, join)
    }

    /// The pairs in report order.
    pub fn list(&self, alloc: Global) -> Result<Vec<(ColSet, V)>, AllocError>
        ensures pairs { IfOk result (λ list. list.items ≡ self.now) }
        ensures order { IsInOrder self.now }
    {
        self.subsets_of(alloc, ColSet::all(MOST_COLUMNS))
    }

    /// The pairs whose column sets lie inside z, in report order.
    pub fn subsets_of(&self, alloc: Global, z: ColSet) -> Result<Vec<(ColSet, V)>, AllocError>
        ensures pairs { IfOk result (λ found. found.items ≡ inside self.now z) }
        ensures whole { inside self.now (all MOST_COLUMNS) ≡ self.now }
        ensures order { IsInOrder self.now }
    {
        let mut found = Vec::new(alloc);
        push_entry(&mut found, ColSet::empty(), self.of_empty)?;
        self.nodes
            .push_inside(self.first, ColSet::empty(), z, &mut found)?;
        found.sort_unstable_by_key(|pair| pair.0);
        Ok(found)
    }

    /// Takes out the column sets that lie inside z, and answers them with their values in report order.
    /// After want of memory the tree is as before.
    pub fn take_subsets_of(
        &mut self,
        alloc: Global,
        z: ColSet,
    ) -> Result<Vec<(ColSet, V)>, AllocError>
        ensures taken { IfOk result (λ taken. taken.items ≡ inside self.old z) }
        ensures left { OnOk result (self.new ≡ not_inside self.old z) }
        ensures refused { OnErr result (self.new ≡ self.old) }
    {
        let taken = self.subsets_of(alloc, z)?;
        for pair in taken.as_slice() {
            self.remove(pair.0);
        }
        Ok(taken)
    }
}
