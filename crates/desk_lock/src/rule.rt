// The rule of a desk: one legal history, which leads to the state that is at home.
use crate::turns::Turns;
use crate::view::{Terms, View};
use atomic_table::TableRule;
use std::marker::PhantomData;

pub struct Orderly<K> {
    turns: PhantomData<K>,
}

impl<T, K: Turns<T>> TableRule<T, View<T, K::Call, K::Reply>, Terms<T>> for Orderly<K> {
    ghost use Rattle.std.specs.Prelude.{[], Some};
    ghost use Rattle.desk_lock.specs.Rule.{Kept};
    ghost use Rattle.desk_lock.specs.Views.{fresh};

    ghost holds = { λ key. Kept K.step K.may key };

    ghost first = { λ key. fresh (Some key.opened.value) 0 key.passes [] };
}
