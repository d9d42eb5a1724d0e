// Dependencies, covers and tables.
ghost use Rattle.std.specs.Prelude.{◌≡◌, ◌<◌, ◌↔◌, IsSome, IfSome, IsTrue};
ghost use Rattle.std.specs.List.{All, AllPairs};
ghost use Rattle.std.specs.declared.cmp.Ordering.TheVariants.{Less};
ghost use Rattle.col_set.specs.declared.col_set.TheConstants.{MOST_COLUMNS};
ghost use Rattle.rel_base.specs.Covers.{fd_cmp, AreKeysInOrder, IsInOrder, AreInOrder};

use col_set::{ColSet, MOST_COLUMNS};
use std::cmp::Ordering;
use std::marker::Model;

/// A functional dependency: the columns on the left determine the column on the right.
#[derive(Clone, Copy, PartialEq, Eq)]
pub struct Fd {
    pub left: ColSet,
    pub right: u8,
}

impl Fd {
    /// How it stands to another one in covers: by right column, then by left side in report order.
    pub fn cmp_report(self, other: Fd) -> Ordering
        ensures { result ≡ fd_cmp self other }
    {
        match self.right.cmp(&other.right) {
            Ordering::Equal => self.left.cmp_report(other.left),
            unequal => unequal,
        }
    }
}

/// A table that a schema is split into: its columns, and its key among them.
#[derive(Clone, Copy, PartialEq, Eq)]
pub struct Table {
    pub columns: ColSet,
    pub key: ColSet,
}

/// The minimal keys and the minimal functional dependencies of a relation.
///
/// Contracts see two lists. They stand in order, each key and each dependency once: the keys in report order, and the dependencies
/// by right column, then by left side in report order, so that those of a column are found by halves. Each right side is a column.
#[derive(Drop)]
pub struct Covers {
    keys: Vec<ColSet>,
    fds: Vec<Fd>,
}

impl Model for Covers {
    ghost use Rattle.rel_base.specs.Covers.{CoverLists, AreInOrder};

    ghost Value = { CoverLists };

    ghost view = { λ c. record { keys = c.keys.items; fds = c.fds.items } };

    ghost invariant = { λ c. AreInOrder (record { keys = c.keys.items; fds = c.fds.items }) };
}

impl Covers {
    /// The covers of these lists, which takes no memory. They must stand in order; `checked` asks.
    pub fn of(keys: Vec<ColSet>, fds: Vec<Fd>) -> Covers
        requires keys { AreKeysInOrder keys.items }
        requires fds { IsInOrder fds.items }
        ensures keys { result.keys ≡ keys.items }
        ensures fds { result.fds ≡ fds.items }
    {
        Covers { keys, fds }
    }

    /// The covers of these lists if they stand in order, for lists that come from elsewhere. It looks at each place once, and takes
    /// no memory.
    pub fn checked(keys: Vec<ColSet>, fds: Vec<Fd>) -> Option<Covers>
        ensures told { IsSome result ↔ AreInOrder (record { keys = keys.items; fds = fds.items }) }
        ensures lists { IfSome result (λ covers. covers ≡ record { keys = keys.items; fds = fds.items }) }
    {
        if !are_keys_in_order(keys.as_slice()) || !are_in_order(fds.as_slice()) {
            return None;
        }
        Some(Covers::of(keys, fds))
    }

    /// The minimal keys, in report order.
    pub fn keys(&self) -> &[ColSet]
        ensures value { result.now ≡ self.now.keys }
        ensures order { AreKeysInOrder self.now.keys }
    {
        self.keys.as_slice()
    }

    /// The minimal dependencies, by right column, then by left side in report order.
    pub fn fds(&self) -> &[Fd]
        ensures value { result.now ≡ self.now.fds }
        ensures order { IsInOrder self.now.fds }
    {
        self.fds.as_slice()
    }
}

// Whether keys stand in report order, each once.
fn are_keys_in_order(keys: &[ColSet]) -> bool
    ensures { IsTrue result ↔ AreKeysInOrder keys.now }
{
    for place in 1..keys.len() {
        if keys[place - 1].cmp_report(keys[place]) != Ordering::Less {
            return false;
        }
    }
    true
}

// Whether dependencies stand in order, each once, and are on columns.
fn are_in_order(fds: &[Fd]) -> bool
    ensures { IsTrue result ↔ IsInOrder fds.now }
{
    are_narrow(fds) && are_rising(fds)
}

fn are_narrow(fds: &[Fd]) -> bool
    ensures { IsTrue result ↔ All (λ fd. fd.right < MOST_COLUMNS) fds.now }
{
    fds.iter().all(|fd| fd.right < MOST_COLUMNS)
}

fn are_rising(fds: &[Fd]) -> bool
    ensures { IsTrue result ↔ AllPairs (λ one other. fd_cmp one other ≡ Less) fds.now }
{
    for place in 1..fds.len() {
        if fds[place - 1].cmp_report(fds[place]) != Ordering::Less {
            return false;
        }
    }
    true
}
