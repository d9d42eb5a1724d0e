use crate::{ColSet, Target};
use std::cmp::Ordering;

#[test]
fn report_order_puts_fewer_columns_first(rt: HostRuntime) {
    let order: [ColSet; 8] = [
        ColSet::empty(),
        ColSet::empty().with(0),
        ColSet::empty().with(1),
        ColSet::empty().with(2),
        ColSet::empty().with(0).with(1),
        ColSet::empty().with(0).with(2),
        ColSet::empty().with(1).with(2),
        ColSet::all(3),
    ];
    for i in 0..8 {
        for j in 0..8 {
            let want = if i < j {
                Ordering::Less
            } else if i == j {
                Ordering::Equal
            } else {
                Ordering::Greater
            };
            assert!(rt; order[i].cmp_report(order[j]) == want, "at {i} and {j}");
        }
    }
}

#[test]
fn sets_reach_to_the_last_column(rt: HostRuntime) {
    let all = ColSet::all(128);
    assert!(rt; all.len() == 128 && all.has(127));
    assert!(rt; all.minus(ColSet::all(127)).first() == Some(127));
    assert!(rt; all.without(127) == ColSet::all(127));
    assert!(rt; ColSet::all(127).union(ColSet::empty().with(127)) == all);
    assert!(rt; ColSet::all(3).inter(all) == ColSet::all(3) && ColSet::all(3).subset_of(all));
    assert!(rt; !all.subset_of(ColSet::all(3)) && ColSet::empty().first().is_none());
    let mut seen = 0u32;
    for column in all {
        assert!(rt; column as u32 == seen);
        seen = seen.saturating_add(1);
    }
    assert!(rt; seen == 128);
}

#[test]
fn no_set_has_the_identity_of_a_row(rt: HostRuntime) {
    assert!(rt; ColSet::all(3).has_target(Target::Col(2)));
    assert!(rt; !ColSet::all(3).has_target(Target::Col(3)));
    assert!(rt; !ColSet::all(128).has_target(Target::RowId));
    assert!(rt; Target::Col(2).is_column(2) && !Target::RowId.is_column(2));
    assert!(rt; ColSet::all(2).refutes(ColSet::all(1), Target::Col(2)));
    assert!(rt; !ColSet::all(2).refutes(ColSet::all(1), Target::Col(1)));
}
