use crate::{LeftSides, closure, closure_under, determines, shrink_key};
use rel_base::{ColSet, Covers, Fd, MOST_COLUMNS};
use std::alloc::{AllocError, Global};
use std::process::Abort;
use std::test::Fail;

fn set(columns: &[u8]) -> ColSet {
    columns.iter().fold(
        ColSet::empty(),
        |set, column| set.with(*column % MOST_COLUMNS),
    )
}

// These dependencies, each a left side and a column on the right.
fn dependencies(alloc: Global, fds: &[(&[u8], u8)]) -> Result<Vec<Fd>, AllocError> {
    let mut list = Vec::new(alloc);
    for (left, right) in fds {
        list.push(Fd {
            left: set(left),
            right: *right,
        })?;
    }
    Ok(list)
}

// Covers of these dependencies, which are put in order, each once.
fn ordered(rt: &impl Abort, alloc: Global, mut list: Vec<Fd>) -> Covers {
    list.sort_unstable_by(|one, other| one.cmp_report(*other));
    list.dedup();
    Covers::checked(Vec::new(alloc), list).expect(rt, "dependencies in order")
}

fn covers(rt: &impl Abort, alloc: Global, fds: &[(&[u8], u8)]) -> Result<Covers, AllocError> {
    Ok(ordered(rt, alloc, dependencies(alloc, fds)?))
}

// People by number, their city and its code: the city and the code determine each other.
fn people(rt: &impl Abort, alloc: Global) -> Result<Covers, AllocError> {
    covers(rt, alloc, &[(&[0], 1), (&[2], 1), (&[0], 2), (&[1], 2)])
}

#[test]
fn what_columns_determine(rt: HostRuntime) -> Result<(), Fail> {
    let covers = people(&rt, rt.alloc())?;
    assert!(rt; closure(&covers, set(&[0])) == set(&[0, 1, 2]));
    assert!(rt; closure(&covers, set(&[2])) == set(&[1, 2]));
    assert!(rt; closure(&covers, set(&[])) == set(&[]));
    assert!(rt; determines(&covers, set(&[1]), set(&[1, 2])));
    assert!(rt; !determines(&covers, set(&[1]), set(&[0, 2])));
    Ok(())
}

#[test]
fn later_columns_are_dropped_first(rt: HostRuntime) -> Result<(), Fail> {
    let covers = people(&rt, rt.alloc())?;
    assert!(rt; shrink_key(&covers, set(&[0, 1, 2])) == set(&[0]));
    assert!(rt; shrink_key(&covers, set(&[1, 2])) == set(&[1]));
    Ok(())
}

#[test]
fn left_sides_of_several_columns(rt: HostRuntime) -> Result<(), Fail> {
    let covers = covers(
        &rt,
        rt.alloc(),
        &[(&[1, 127], 0), (&[2], 3), (&[0, 1], 127)],
    )?;
    assert!(rt; closure(&covers, set(&[1, 2, 127])) == set(&[0, 1, 2, 3, 127]));
    assert!(rt; closure(&covers, set(&[1, 3])) == set(&[1, 3]));
    assert!(rt; shrink_key(&covers, set(&[0, 1, 127])) == set(&[0, 1]));
    Ok(())
}

#[test]
fn a_list_in_any_order_is_walked_again(rt: HostRuntime) -> Result<(), Fail> {
    let list = dependencies(
        rt.alloc(),
        &[
            (&[2, 127], 3),
            (&[1], 2),
            (&[0], 127),
            (&[0], 1),
            (&[4], 5),
            (&[0], 255),
        ],
    )?;
    assert!(rt; closure_under(list.as_slice(), set(&[0])) == set(&[0, 1, 2, 3, 127]));
    assert!(rt; closure_under(list.as_slice(), set(&[1, 3])) == set(&[1, 2, 3]));
    assert!(rt; closure_under(&[], set(&[6])) == set(&[6]));
    Ok(())
}

#[test]
fn left_sides_tell_what_their_covers_tell(rt: HostRuntime) -> Result<(), Fail> {
    let covers = covers(
        &rt,
        rt.alloc(),
        &[
            (&[1, 127], 0),
            (&[2], 3),
            (&[0, 1], 4),
            (&[2], 127),
            (&[], 9),
        ],
    )?;
    let sides = LeftSides::of(rt.alloc(), &covers)?;
    assert!(rt; sides.closure(set(&[1, 2])) == set(&[1, 2, 3, 9, 127]));
    assert!(rt; sides.closure(set(&[1, 2, 127])) == set(&[0, 1, 2, 3, 9, 127]));
    assert!(rt;
        sides.determines(set(&[2]), set(&[3, 9])) && !sides.determines(set(&[1]), set(&[0]))
    );
    assert!(rt; sides.shrink_key(set(&[2, 3, 9])) == set(&[2]));
    Ok(())
}

// Covers of many dependencies, whose left sides fill several blocks, some of them with several columns beside them.
fn many_covers(rt: &impl Abort, alloc: Global) -> Result<Covers, AllocError> {
    let mut list = Vec::new(alloc);
    for seed in 0..400u32 {
        let columns = [
            (seed % 11) as u8,
            (seed * 7 % 13 + 3) as u8,
            (seed * 5 % 17 + 5) as u8,
        ];
        list.push(Fd {
            left: set(&columns),
            right: (seed % 29 + 60) as u8,
        })?;
        list.push(Fd {
            left: set(&columns),
            right: (seed % 31 + 97) as u8,
        })?;
    }
    Ok(ordered(rt, alloc, list))
}

#[test]
fn blocks_of_left_sides_tell_what_the_lists_tell(rt: HostRuntime) -> Result<(), Fail> {
    let covers = many_covers(&rt, rt.alloc())?;
    let sides = LeftSides::of(rt.alloc(), &covers)?;
    let mut reached = 0u32;
    for seed in 0..60u32 {
        let x = set(&[
            (seed % 11) as u8,
            (seed * 3 % 13 + 3) as u8,
            (seed * 7 % 11) as u8,
            (seed * 11 % 17 + 5) as u8,
            (seed * 5 % 17 + 5) as u8,
            (seed * 2 % 13 + 3) as u8,
        ]);
        assert!(rt; sides.closure(x) == closure(&covers, x));
        if sides.closure(x) != x {
            reached = reached.wrapping_add(1);
        }
    }
    assert!(rt; reached > 20);
    Ok(())
}
