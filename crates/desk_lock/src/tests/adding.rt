// A counter.
ghost use Rattle.std.specs.Prelude.{◌≡◌, ◌+◌, ◌%◌, ◌^◌};

use crate::{Pass, TicketDesk, Turns};

/// A call adds, and is replied what was there.
pub struct Adding;

pub type AddingDesk = TicketDesk<u64, Adding>;

pub type AddingPass = Pass<u64, u64, u64>;

impl Turns<u64> for Adding {
    type Call = u64;

    type Reply = u64;

    ghost step = { λ s call reply t. (reply ≡ s) × (t ≡ (s + call) % 2 ^ 64) };

    ghost may = { λ _ _ _ _. Unit {0} };

    ghost lasts = { λ _ _ _ _ _ m. m };

    fn turn(state: &mut u64, call: u64) -> u64 {
        let found = *state;
        *state = found.wrapping_add(call);
        found
    }
}
