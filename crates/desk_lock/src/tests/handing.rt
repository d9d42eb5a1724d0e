// A place for one value. A call leaves what it brings, and takes what is there.
ghost use Rattle.std.specs.Prelude.{◌≡◌};
ghost use Rattle.desk_lock.specs.Passes.{IsPassOf};

use crate::{Pass, TicketDesk, Turns};
use std::mem;
use std::sync::Wait;
use std::thread::{Threads, join};

pub struct Exchange;

pub type ExchangeDesk<X> = TicketDesk<Option<X>, Exchange>;

type Parcel = Option<Vec<u32>>;

type ParcelDesk = ExchangeDesk<Vec<u32>>;

type ParcelPass = Pass<Parcel, Parcel, Parcel>;

impl<X> Turns<Option<X>> for Exchange {
    type Call = Option<X>;

    type Reply = Option<X>;

    ghost step = { λ s call reply t. (reply ≡ s) × (t ≡ call) };

    ghost may = { λ _ _ _ _. Unit {0} };

    ghost lasts = { λ _ _ _ _ _ m. m };

    fn turn(state: &mut Option<X>, call: Option<X>) -> Option<X> {
        mem::replace(state, call)
    }
}

fn bring<R: Wait>(
    rt: &R,
    desk: &ParcelDesk,
    mut pass: ParcelPass,
    parcel: Vec<u32>,
) -> (ParcelPass, Parcel)
    requires { IsPassOf desk.now pass }
    ensures { IsPassOf desk.now result.0 }
{
    let found = desk.turn(rt, &mut pass, Some(parcel));
    (pass, found)
}

// Asks until something is there.
fn fetch<R: Wait>(rt: &R, desk: &ParcelDesk, mut pass: ParcelPass) -> (ParcelPass, Vec<u32>)
    requires { IsPassOf desk.now pass }
    ensures { IsPassOf desk.now result.0 }
{
    for _ in rt.forever() {
        if let Some(parcel) = desk.turn(rt, &mut pass, None) {
            return (pass, parcel);
        }
    }
    unreachable!()
}

/// One thread fetches a parcel that another brings. What each was replied, and what is left.
///
/// Where no thread can be made, `join` calls its second closure first, and the parcel is there before it is fetched.
pub fn handed_over<R: Threads + Wait + Sync>(
    rt: &R,
    desk: ParcelDesk,
    mut first: ParcelPass,
    second: ParcelPass,
    parcel: Vec<u32>,
) -> (Vec<u32>, Parcel, Parcel)
    requires { IsPassOf desk first × IsPassOf desk second }
{
    let shared = &desk;
    let ((mut first, fetched), (second, found)) = join(
        rt,
        move || -> (ParcelPass, Vec<u32>)
            requires { IsPassOf shared.now first }
            ensures { IsPassOf shared.entry.now result.0 }
        { fetch(rt, shared, first) },
        move || -> (ParcelPass, Parcel)
            requires { IsPassOf shared.now second }
            ensures { IsPassOf shared.entry.now result.0 }
        { bring(rt, shared, second, parcel) },
    );
    desk.join(&mut first, second);
    (fetched, found, desk.close(rt, first))
}
