// A ticket lock over two words and one slot.
ghost use Rattle.std.specs.Prelude.{◌≡◌};

use crate::rule::Orderly;
use crate::turns::Turns;
use crate::view::{Terms, View};
use atomic_table::{Seat, Table};
use std::alloc::Global;

mod calls;
mod steps;

/// An object of type `T`, which answers calls as `K` says, one call at a time and in the order of their tickets.
///
/// It is shared by reference among threads, each with a [`Pass`] of its own. `close` gives the object back.
///
/// A turn for which nobody else waits costs about 20 nanoseconds beside what the object does. Where turns meet, each is
/// served in the order of the tickets, so the next in line has to run before anyone else is served. With no more threads
/// than processors it spins and is there at once. With more it may not be running: a pass that has waited for a few rounds
/// sleeps, and each turn then costs a wake and a change of threads, some microseconds, which grows little with the number of
/// threads. Make turns short, and work outside them.
pub struct TicketDesk<T, K: Turns<T>> {
    // Word 0 is the next ticket, and word 1 the one that is served. The slot has the state.
    table: Table<T, View<T, K::Call, K::Reply>, Terms<T>, Orderly<K>, Global>,
    ghost sized: { (table.shared.table_id.words ≡ 2) × (table.shared.table_id.slots ≡ 1) },
}

impl<T: Drop, K: Turns<T>> Drop for TicketDesk<T, K> {
    fn drop(self) {
        let TicketDesk { table } = self;
        drop(table);
    }
}

/// The right to make calls at one desk. It has no bytes, and can go to another thread.
///
/// A pass owns numbers, bears the least of them, and knows a beginning of the history.
pub type Pass<T, C, R> = Seat<T, View<T, C, R>>;

/// There was no memory to open a desk. The object comes back as it was.
#[derive(Drop)]
pub struct NoMemory<T>(pub T);
