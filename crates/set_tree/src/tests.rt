ghost use Rattle.std.specs.Prelude.{◌<◌};

use crate::SetTree;
use col_set::{ColSet, MOST_COLUMNS};
use std::alloc::{AllocError, Global};
use std::test::Fail;

fn set(columns: &[u8]) -> ColSet {
    columns.iter().fold(
        ColSet::empty(),
        |set, column| set.with(*column % MOST_COLUMNS),
    )
}

// The column sets that are tried, with the numbers that are their values.
const SETS: &[&[u8]] = &[
    &[1, 2],
    &[3],
    &[1],
    &[],
    &[0, 1, 2, 127],
    &[0, 2],
    &[127],
    &[2, 3, 126],
];

fn tree(alloc: Global) -> Result<SetTree<u32>, AllocError> {
    let mut tree = SetTree::new(alloc);
    for (value, columns) in (0u32..).zip(SETS) {
        tree.insert(set(columns), value)?;
    }
    Ok(tree)
}

#[test]
fn column_sets_are_listed_in_report_order(rt: HostRuntime) -> Result<(), Fail> {
    let list = tree(rt.alloc())?.list(rt.alloc())?;
    let values = [3, 2, 1, 6, 5, 0, 7, 4];
    assert!(rt; list.len() == values.len());
    for (pair, value) in list.iter().zip(&values) {
        assert!(rt; pair.1 == *value && SETS.get(pair.1 as usize).is_some());
    }
    Ok(())
}

#[test]
fn subsets_are_taken_in_report_order(rt: HostRuntime) -> Result<(), Fail> {
    let mut tree = tree(rt.alloc())?;
    let taken = tree.take_subsets_of(rt.alloc(), set(&[1, 2, 3]))?;
    let wanted = [
        (set(&[]), 3),
        (set(&[1]), 2),
        (set(&[3]), 1),
        (set(&[1, 2]), 0),
    ];
    assert!(rt; taken.as_slice() == wanted.as_slice());
    assert!(rt; !tree.any_subset_of(set(&[1, 2, 3])) && tree.any_subset_of(set(&[0, 2])));
    assert!(rt; tree.list(rt.alloc())?.len() == 4);
    Ok(())
}

#[test]
fn values_are_replaced_and_removed(rt: HostRuntime) -> Result<(), Fail> {
    let mut tree = tree(rt.alloc())?;
    tree.insert(set(&[3]), 9)?;
    assert!(rt; tree.get(set(&[3])) == Some(9) && tree.get(set(&[0])) == None);
    assert!(rt; tree.set(set(&[0, 2]), 8) && !tree.set(set(&[0, 1]), 7));
    assert!(rt; tree.get(set(&[0, 2])) == Some(8) && tree.has(set(&[127])));
    assert!(rt; tree.remove(set(&[0, 1, 2, 127])) && !tree.remove(set(&[0, 1])));
    assert!(rt; tree.remove(set(&[])) && !tree.has(set(&[])));
    tree.insert(set(&[0, 1]), 6)?;
    assert!(rt; tree.get(set(&[0, 1])) == Some(6) && tree.get(set(&[0, 2])) == Some(8));
    Ok(())
}

#[test]
fn what_lies_inside_is_joined(rt: HostRuntime) -> Result<(), Fail> {
    let tree = tree(rt.alloc())?;
    let join = |all: ColSet, x: ColSet, value: u32| all
        .union(x)
        .with((value % 8) as u8 % MOST_COLUMNS);
    let found = tree.fold_subsets_of(set(&[2, 3, 126]), ColSet::empty(), join);
    assert!(rt; found == set(&[1, 2, 3, 7, 126]));
    Ok(())
}

// Numbers that are drawn from a seed, by the generator of Knuth's MMIX.
#[derive(Drop)]
struct Draws {
    state: u64,
}

impl Draws {
    fn below(&mut self, bound: u64) -> u64
        requires { 0 < bound }
        ensures { result < bound }
    {
        self.state = self
            .state
            .wrapping_mul(6_364_136_223_846_793_005)
            .wrapping_add(1_442_695_040_888_963_407);
        (self.state >> 33) % bound
    }

    // Up to four columns, evenly among so many.
    fn set(&mut self, width: u8) -> ColSet
        requires { 0 < width }
    {
        let mut set = ColSet::empty();
        for _ in 0..self.below(5) {
            let column = self.below(width as u64) as u8;
            set = set.with(column % MOST_COLUMNS);
        }
        set
    }
}

// The tree beside the same pairs in a list, in no order.
#[derive(Drop)]
struct Both {
    tree: SetTree<u32>,
    list: Vec<(ColSet, u32)>,
}

impl Both {
    fn place(&self, set: ColSet) -> Option<usize> {
        self.list.iter().position(|pair| pair.0 == set)
    }

    // The pairs inside a set, in report order.
    fn inside(&self, alloc: Global, set: ColSet) -> Result<Vec<(ColSet, u32)>, AllocError> {
        let mut found = Vec::new(alloc);
        for pair in self.list.iter() {
            if pair.0.subset_of(set) {
                found.push(*pair)?;
            }
        }
        found.sort_unstable_by_key(|pair| pair.0);
        Ok(found)
    }

    fn is_alike(&self, alloc: Global) -> Result<bool, AllocError> {
        let list = self.inside(alloc, ColSet::all(MOST_COLUMNS))?;
        Ok(self.tree.list(alloc)?.as_slice() == list.as_slice())
    }

    // Where the tree is refused memory it must be as it was, and take the pair when it is asked again.
    fn insert(&mut self, alloc: Global, set: ColSet, value: u32) -> Result<bool, AllocError> {
        if self.tree.insert(set, value).is_err() {
            if !self.is_alike(alloc)? {
                return Ok(false);
            }
            self.tree.insert(set, value)?;
        }
        match self.place(set) {
            Some(place) => {
                if let Some(pair) = self.list.get_mut(place) {
                    pair.1 = value;
                }
            }
            None => self.list.push((set, value))?,
        }
        Ok(true)
    }

    fn replace(&mut self, set: ColSet, value: u32) -> bool {
        let mut found = false;
        if let Some(place) = self.place(set) {
            if let Some(pair) = self.list.get_mut(place) {
                pair.1 = value;
                found = true;
            }
        }
        self.tree.set(set, value) == found
    }

    fn remove(&mut self, set: ColSet) -> bool {
        let found = self.place(set).is_some();
        self.list.retain(|pair| pair.0 != set);
        self.tree.remove(set) == found
    }

    fn take(&mut self, alloc: Global, set: ColSet) -> Result<bool, AllocError> {
        let inside = self.inside(alloc, set)?;
        let taken = match self.tree.take_subsets_of(alloc, set) {
            Ok(taken) => taken,
            Err(_) => {
                if !self.is_alike(alloc)? {
                    return Ok(false);
                }
                self.tree.take_subsets_of(alloc, set)?
            }
        };
        self.list.retain(|pair| !pair.0.subset_of(set));
        Ok(taken.as_slice() == inside.as_slice())
    }

    // Whether each question about this set has the list's answer.
    fn answers(&self, alloc: Global, set: ColSet) -> Result<bool, AllocError> {
        let inside = self.inside(alloc, set)?;
        let all = self.inside(alloc, ColSet::all(MOST_COLUMNS))?;
        let value = self
            .list
            .iter()
            .find(|pair| pair.0 == set)
            .map(|pair| pair.1);
        let first = all.iter().find(|pair| pair.1 % 3 == 0).copied();
        let sum = |all: u32, _set: ColSet, value: u32| all.wrapping_add(value);
        let total = inside
            .iter()
            .fold(0u32, |all, pair| all.wrapping_add(pair.1));
        Ok(
            self.tree.get(set) == value
                && self.tree.has(set) == value.is_some()
                && self.tree.any_subset_of(set) == !inside.is_empty()
                && self.tree.subsets_of(alloc, set)?.as_slice() == inside.as_slice()
                && self.tree.fold_subsets_of(set, 0, sum) == total
                && self.tree.first(|_set, value| value % 3 == 0) == first,
        )
    }

    // One operation, and every question about another set.
    fn step(
        &mut self,
        alloc: Global,
        draws: &mut Draws,
        width: u8,
        value: u32,
    ) -> Result<bool, AllocError>
        requires { 0 < width }
    {
        let set = draws.set(width);
        let right = match draws.below(8) {
            0 => self.take(alloc, set)?,
            1 | 2 => self.remove(set),
            3 => self.replace(set, value),
            _ => self.insert(alloc, set, value)?,
        };
        let wide = draws.set(width).union(draws.set(width)).union(set);
        Ok(right && self.answers(alloc, set)? && self.answers(alloc, wide)?)
    }
}

#[test]
fn drawn_operations_answer_as_on_a_list(rt: HostRuntime) -> Result<(), Fail> {
    let widths: [u8; 6] = [1, 2, 4, 9, 40, 128];
    let mut draws = Draws { state: 7 };
    for width in widths {
        let mut both = Both {
            tree: SetTree::new(rt.alloc()),
            list: Vec::new(rt.alloc()),
        };
        for value in 0u32..60 {
            assert!(rt; both.step(rt.alloc(), &mut draws, width, value)?);
        }
        assert!(rt; both.is_alike(rt.alloc())?);
    }
    Ok(())
}
