// As many threads as a pass has numbers.
ghost use Rattle.std.specs.Prelude.{◌≡◌, ◌<◌};
ghost use denote.Param.Send.{IsSync};
ghost use Rattle.desk_lock.specs.Passes.{view, IsPassOf};

use super::adding::{AddingDesk, AddingPass};
use std::sync::Wait;
use std::thread::{Threads, join};

// Adds 0 to 999, a number in each call.
fn work<R: Wait>(rt: &R, desk: &AddingDesk, mut pass: AddingPass) -> AddingPass
    requires { IsPassOf desk.now pass }
    ensures { IsPassOf desk.now result }
{
    for amount in 0..1000 {
        desk.turn(rt, &mut pass, amount);
    }
    pass
}

/// A worker for each number that the pass owns, by halves.
pub fn crew<R: Threads + Wait + Sync>(
    rt: &R,
    desk: &AddingDesk,
    mut pass: AddingPass,
    low: u32,
    high: u32,
) -> AddingPass
    requires own { IsPassOf desk.now pass }
    requires numbers { ((view pass).low ≡ low) × ((view pass).high ≡ high) × (low < high) }
    ensures { IsPassOf desk.now result }
{
    let count = high - low;
    if count <= 1 {
        return work(rt, desk, pass);
    }
    let middle = low + count / 2;
    let other = desk.split(&mut pass, middle);
    let (mut pass, other) = join(
        rt,
        move || -> AddingPass
            requires { IsSync R.row × IsPassOf desk.now pass × ((view pass).low ≡ low) × ((view pass).high ≡ middle) × (low < middle) }
            ensures { IsPassOf desk.entry.now result }
        { crew(rt, desk, pass, low, middle) },
        move || -> AddingPass
            requires { IsSync R.row × IsPassOf desk.now other × ((view other).low ≡ middle) × ((view other).high ≡ high) × (middle < high) }
            ensures { IsPassOf desk.entry.now result }
        { crew(rt, desk, other, middle, high) },
    );
    desk.join(&mut pass, other);
    pass
}
