// All nodes in one list, where a link is a place, and the calls that go down from a link.
ghost use Rattle.std.specs.Prelude.{◌≡◌, ◌<◌, ◌≤◌, ◌+◌, ◌++◌, ◌∷◌, [], ℕ, suc, None, Some, Option, length, slice_get, IfOk, IfSome, IsNone, IsTrue, false, OnOk, OnErr};
ghost use Rattle.std.specs.Option.{is_some};
ghost use Rattle.col_set.specs.ColSet.{with};
ghost use Rattle.col_set.specs.declared.col_set.TheConstants.{MOST_COLUMNS};
ghost use Rattle.set_tree.specs.Tree.{Shape, tip, fork, root, Keep, Ascends, uses, spare, one, times, IsTree, Stands, IsLocal, Becomes, AreBehind, Retains, Gives, but, look, revalued};
ghost use Rattle.set_tree.specs.Walks.{Reads, Rooted};

use crate::node::Node;
use col_set::ColSet;
use std::alloc::{AllocError, Global};
use std::cmp::Ordering;

// The nodes of a tree, and the places of those that wait to be used again.
#[derive(Drop)]
pub(crate) struct Nodes<V: Copy> {
    list: Vec<Node<V>>,
    unused: Vec<u32>,
}

impl<V: Copy> Nodes<V> {
    // No nodes.
    pub(crate) fn new(alloc: Global) -> Nodes<V>
        ensures { (k : ℕ) → spare (length result.list.items) result.unused.items k ≤ 1 }
    {
        Nodes {
            list: Vec::new(alloc),
            unused: Vec::new(alloc),
        }
    }

    // Makes room for so many nodes more, and to note each node as unused, so that a node is given up without taking memory.
    pub(crate) fn reserve(&mut self, count: usize) -> Result<(), AllocError>
        ensures list { self.new.list.items ≡ self.old.list.items }
        ensures unused { self.new.unused.items ≡ self.old.unused.items }
    {
        self.list.reserve(count)?;
        self.unused.reserve(self.list.capacity())
    }

    // The node at a place.
    pub(crate) fn at(&self, place: u32) -> Node<V>
        requires { place < length self.now.list.items }
        ensures { slice_get self.now.list.items place ≡ Some result }
    {
        self.list[place as usize]
    }

    // Gives a place another node.
    fn set(&mut self, place: u32, node: Node<V>)
        requires { place < length self.old.list.items }
        ensures here { slice_get self.new.list.items place ≡ Some node }
        ensures others { (k : ℕ) → (k ≡ place → ⊥) → slice_get self.new.list.items k ≡ slice_get self.old.list.items k }
        ensures length { length self.new.list.items ≡ length self.old.list.items }
        ensures unused { self.new.unused.items ≡ self.old.unused.items }
    {
        self.list[place as usize] = node;
    }

    // Gives the value of a node another one.
    pub(crate) fn set_value(&mut self, place: u32, value: V)
        requires { place < length self.old.list.items }
        ensures others { (k : ℕ) → (k ≡ place → ⊥) → slice_get self.new.list.items k ≡ slice_get self.old.list.items k }
        ensures values { (t : Shape V) → Keep self.old.list.items t → Keep self.new.list.items (revalued place (Some value) t) }
        ensures length { length self.new.list.items ≡ length self.old.list.items }
        ensures unused { self.new.unused.items ≡ self.old.unused.items }
    {
        let node = self.at(place);
        self.set(
            place,
            Node {
                value: Some(value),
                ..node
            },
        );
    }

    // Gives the path of x this value if it has one, and answers whether it has.
    pub(crate) fn replace(&mut self, link: Option<u32>, x: ColSet, value: V) -> bool
        requires { Rooted self.old.list.items link }
        ensures found { (from : ℕ) (t : Shape V) → Reads self.old.list.items link from t → result ≡ is_some (look t x) }
        ensures path { IsTrue result → (from : ℕ) (t : Shape V) → IsTree self.old.list.items self.old.unused.items link from t → Becomes self.old.list.items self.old.unused.items from t self.new.list.items self.new.unused.items link (but t x (Some value)) }
        ensures refused { result ≡ false → self.new ≡ self.old }
    {
        let Some(place) = self.find(link, x) else {
            return false;
        };
        if self.at(place).value.is_none() {
            return false;
        }
        self.set_value(place, value);
        true
    }

    // Keeps a node at a place that was used before, or at a new one.
    fn add(&mut self, node: Node<V>) -> Result<u32, AllocError>
        requires { (k : ℕ) → spare (length self.old.list.items) self.old.unused.items k ≤ 1 }
        ensures here { IfOk result (λ place. slice_get self.new.list.items place ≡ Some node) }
        ensures fewer { IfOk result (λ place. (k : ℕ) → one place k + spare (length self.new.list.items) self.new.unused.items k ≤ spare (length self.old.list.items) self.old.unused.items k) }
        ensures refused { OnErr result ((k : ℕ) → spare (length self.new.list.items) self.new.unused.items k ≤ spare (length self.old.list.items) self.old.unused.items k) }
        ensures same { (k : ℕ) → spare (length self.old.list.items) self.old.unused.items k ≡ 0 → slice_get self.new.list.items k ≡ slice_get self.old.list.items k }
    {
        match self.take_unused() {
            Some(place) => {
                self.set(place, node);
                Ok(place)
            }
            None => self.push(node),
        }
    }

    // A place to be used again.
    fn take_unused(&mut self) -> Option<u32>
        ensures some { IfSome result (λ place. (k : ℕ) → one place k + times self.new.unused.items k ≡ times self.old.unused.items k) }
        ensures none { IsNone result → self.new.unused.items ≡ self.old.unused.items }
        ensures list { self.new.list.items ≡ self.old.list.items }
    {
        self.unused.pop()
    }

    // Keeps a node at a new place.
    fn push(&mut self, node: Node<V>) -> Result<u32, AllocError>
        ensures here { IfOk result (λ place. slice_get self.new.list.items place ≡ Some node) }
        ensures fewer { IfOk result (λ place. (k : ℕ) → one place k + spare (length self.new.list.items) self.new.unused.items k ≤ spare (length self.old.list.items) self.old.unused.items k) }
        ensures refused { OnErr result ((k : ℕ) → spare (length self.new.list.items) self.new.unused.items k ≤ spare (length self.old.list.items) self.old.unused.items k) }
        ensures same { (k : ℕ) → spare (length self.old.list.items) self.old.unused.items k ≡ 0 → slice_get self.new.list.items k ≡ slice_get self.old.list.items k }
    {
        // Places are counted with 32 bits.
        if self.list.len() >= u32::MAX as usize {
            return Err(AllocError);
        }
        let place = self.list.len() as u32;
        self.list.push(node)?;
        Ok(place)
    }

    // Notes that the node at a place is used no more.
    fn give_up(&mut self, place: u32)
        ensures fewer { (k : ℕ) → spare (length self.new.list.items) self.new.unused.items k ≤ one place k + spare (length self.old.list.items) self.old.unused.items k }
        ensures list { self.new.list.items ≡ self.old.list.items }
    {
        // There is room, since `reserve` made it.
        let _noted = self.unused.push(place);
    }

    // The nodes of a new path, beside which the tree at `next` stands.
    fn path_to(
        &mut self,
        column: u8,
        rest: ColSet,
        value: V,
        next: Option<u32>,
    ) -> Result<u32, AllocError>
        requires once { (k : ℕ) → spare (length self.old.list.items) self.old.unused.items k ≤ 1 }
        requires narrow { column < MOST_COLUMNS }
        requires behind { AreBehind column rest }
        ensures path { IfOk result (λ place. (from : ℕ) (t : Shape V) → IsTree self.old.list.items self.old.unused.items next (suc column) t → from ≤ column → Becomes self.old.list.items self.old.unused.items from t self.new.list.items self.new.unused.items (Some place) (but t (with rest column) (Some value))) }
        ensures refused { OnErr result (IsLocal self.old.list.items self.old.unused.items tip self.new.list.items self.new.unused.items tip) }
    {
        match rest.first() {
            Some(below) => {
                let child = self.path_to(below, rest.without(below), value, None)?;
                self.add(Node {
                    value: None,
                    child: Some(child),
                    next,
                    column,
                })
            }
            None => self.add(Node {
                value: Some(value),
                child: None,
                next,
                column,
            }),
        }
    }

    // Gives a path this value, and answers where the tree at the link begins then.
    pub(crate) fn insert(
        &mut self,
        link: Option<u32>,
        column: u8,
        rest: ColSet,
        value: V,
    ) -> Result<u32, AllocError>
        requires stands { Stands self.old.list.items self.old.unused.items link column }
        requires narrow { column < MOST_COLUMNS }
        requires behind { AreBehind column rest }
        ensures path { IfOk result (λ place. Gives self.old.list.items self.old.unused.items link column self.new.list.items self.new.unused.items (Some place) (with rest column) (Some value)) }
        ensures refused { OnErr result (IsLocal self.old.list.items self.old.unused.items tip self.new.list.items self.new.unused.items tip) }
    {
        let Some(place) = link else {
            return self.path_to(column, rest, value, None);
        };
        let node = self.at(place);
        match column.cmp(&node.column) {
            Ordering::Less => self.path_to(column, rest, value, link),
            Ordering::Equal => match rest.first() {
                Some(below) => {
                    let child = self.insert(node.child, below, rest.without(below), value)?;
                    self.set(
                        place,
                        Node {
                            child: Some(child),
                            ..node
                        },
                    );
                    Ok(place)
                }
                None => {
                    self.set(
                        place,
                        Node {
                            value: Some(value),
                            ..node
                        },
                    );
                    Ok(place)
                }
            },
            Ordering::Greater => {
                let next = self.insert(node.next, column, rest, value)?;
                self.set(
                    place,
                    Node {
                        next: Some(next),
                        ..node
                    },
                );
                Ok(place)
            }
        }
    }

    // Takes a path's value away, and answers where the tree at the link begins then.
    pub(crate) fn remove(&mut self, link: Option<u32>, column: u8, rest: ColSet) -> Option<u32>
        requires stands { Stands self.old.list.items self.old.unused.items link column }
        requires narrow { column < MOST_COLUMNS }
        requires behind { AreBehind column rest }
        ensures { Gives self.old.list.items self.old.unused.items link column self.new.list.items self.new.unused.items result (with rest column) None }
    {
        let Some(place) = link else {
            return None;
        };
        let node = self.at(place);
        match column.cmp(&node.column) {
            Ordering::Less => link,
            Ordering::Equal => match rest.first() {
                Some(below) => {
                    let child = self.remove(node.child, below, rest.without(below));
                    self.keep(place, Node { child, ..node })
                }
                None => self.keep(
                    place,
                    Node {
                        value: None,
                        ..node
                    },
                ),
            },
            Ordering::Greater => {
                let next = self.remove(node.next, column, rest);
                self.keep(place, Node { next, ..node })
            }
        }
    }

    // Keeps a node where a path ends at it or goes on below it, and answers where the columns from there on begin.
    fn keep(&mut self, place: u32, node: Node<V>) -> Option<u32>
        requires { place < length self.old.list.items }
        ensures { Retains self.old.list.items self.old.unused.items place node self.new.list.items self.new.unused.items result }
    {
        if node.value.is_none() && node.child.is_none() {
            self.give_up(place);
            return node.next;
        }
        self.set(place, node);
        Some(place)
    }
}
