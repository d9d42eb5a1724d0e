// What each kind of step tells its caller.
use crate::turns::Turns;
use crate::view::View;
use atomic_table::{Join, Play, Split};
use std::marker::{Brand, PhantomData};

/// What a step says. Each use picks it.
pub trait Said<X> {
    ghost use Rattle.std.specs.Prelude.{Option};

    ghost said: { Option X };
}

impl<X> Said<X> for Brand {
    ghost use Rattle.std.specs.Prelude.{None};

    ghost said = { None };
}

/// Says nothing.
pub(crate) struct Silent;

impl<X> Said<X> for Silent {
    ghost use Rattle.std.specs.Prelude.{None};

    ghost said = { None };
}

/// Draws a ticket for the call that it says.
pub(crate) struct Draw<G> {
    call: PhantomData<G>,
}

impl<T, C, R, G: Said<C>> Play<T, View<T, C, R>> for Draw<G> {
    ghost use Rattle.desk_lock.specs.Views.{drew};

    ghost then = { drew G.said };
}

/// Reads which ticket is served.
pub(crate) struct Reach<K> {
    turns: PhantomData<K>,
}

impl<T, K: Turns<T>> Play<T, View<T, K::Call, K::Reply>> for Reach<K> {
    ghost use Rattle.desk_lock.specs.Views.{reached};

    ghost then = { reached K.step K.may };
}

/// Serves the next ticket, after the reply that it says.
pub(crate) struct Leave<G> {
    reply: PhantomData<G>,
}

impl<T, C, R, G: Said<R>> Play<T, View<T, C, R>> for Leave<G> {
    ghost use Rattle.desk_lock.specs.Views.{left};

    ghost then = { left G.said };
}

/// Takes in what was heard of a pass.
pub(crate) struct Listen;

impl<T, C, R> Play<T, View<T, C, R>> for Listen {
    ghost use Rattle.desk_lock.specs.Views.{listened};

    ghost then = { listened };
}

/// From which number on a pass is cut off. Each use picks it.
pub trait Cut {
    ghost use Rattle.std.specs.Prelude.{ℕ};

    ghost at: { ℕ };
}

impl Cut for Brand {
    ghost at = { 0 };
}

/// Cuts a pass in two.
pub(crate) struct Apart<G> {
    cut: PhantomData<G>,
}

impl<T, C, R, G: Cut> Split<View<T, C, R>> for Apart<G> {
    ghost use Rattle.desk_lock.specs.Views.{kept_of, given_of};

    ghost left = { kept_of G.at };

    ghost right = { given_of G.at };
}

/// Puts two passes together.
pub(crate) struct Together;

impl<T, C, R> Join<View<T, C, R>> for Together {
    ghost use Rattle.desk_lock.specs.Views.{hearing, gone};

    ghost both = { hearing };

    ghost spent = { gone };
}
