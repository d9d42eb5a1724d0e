// What is told of the evidence that was found last, and which of it was seen.
use crate::evidence::Evidence;
use crate::recent::Recent;
use crate::seen::Seen;
use rel_base::{ColSet, RowNo, Target};
use std::test::Fail;

// Two rows that agree on these columns and no others.
fn agreeing_on(agree: ColSet) -> Evidence {
    Evidence {
        agree,
        i: RowNo::of(1),
        j: RowNo::of(2),
    }
}

#[test]
fn a_thousand_pieces_are_told_and_no_more(rt: HostRuntime) -> Result<(), Fail> {
    let none = ColSet::empty();
    let (first, other) = (none.with(0), none.with(3));
    let mut recent = Recent::none(rt.alloc());
    assert!(rt; !recent.tells(Target::RowId, none));
    let found = [agreeing_on(first.with(127))];
    // Once more, for want of memory.
    recent.note(&found);
    recent.note(&found);
    assert!(rt; recent.tells(Target::Col(1), first));
    assert!(rt; recent.tells(Target::Col(1), first.with(127)));
    assert!(rt; recent.tells(Target::RowId, none));
    assert!(rt; !recent.tells(Target::Col(127), first));
    assert!(rt; !recent.tells(Target::Col(1), first.with(2)));
    for _ in 0..1022 {
        recent.note(&[agreeing_on(other)]);
    }
    assert!(rt; recent.tells(Target::Col(1), first));
    recent.note(&[agreeing_on(other), agreeing_on(other)]);
    assert!(rt; !recent.tells(Target::Col(1), first));
    assert!(rt; recent.tells(Target::Col(1), other));
    Ok(())
}

#[test]
fn an_agree_set_is_new_once(rt: HostRuntime) -> Result<(), Fail> {
    let first = ColSet::empty().with(0);
    let other = first.with(127);
    let mut seen = Seen::none(rt.alloc());
    assert!(rt; seen.is_new(first) && !seen.is_new(first));
    assert!(rt; seen.is_new(other) && !seen.is_new(other));
    assert!(rt; seen.is_new(ColSet::empty()));
    Ok(())
}
