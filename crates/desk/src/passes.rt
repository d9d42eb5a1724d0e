// Who calls: the feeder, who bears the number 0, or a worker.
ghost use Rattle.std.specs.Prelude.{◌≡◌, ◌<◌};

use crate::turns::{BookTurns, Reply};
use cover_core::Book;
use cover_steps::Call;
use desk_lock::{Pass, TicketDesk};
use std::sync::Wait;

/// The lock of the book.
pub type Lock = TicketDesk<Book, BookTurns>;

/// The right to make any call at one desk, also to change its rows. A desk has one. It has no bytes, and can go to another
/// thread.
#[derive(Drop)]
pub struct FeederPass {
    pub(crate) pass: Pass<Book, Call, Reply>,
    ghost first: { pass.me.0.low ≡ 0 },
}

/// The right to make any call at one desk but to change its rows. It has no bytes, and can go to another thread.
#[derive(Drop)]
pub struct WorkerPass {
    pub(crate) pass: Pass<Book, Call, Reply>,
    ghost later: { 0 < pass.me.0.low },
}

/// A pass of either kind. Contracts see its seat at the lock, and with it what it knows.
pub trait DeskPass {
    ghost use Rattle.std.specs.Prelude.{◌≡◌};
    ghost use Rattle.atomic_table.specs.declared.shared.Seat.{Seat};
    ghost use Rattle.cover_steps.specs.Core.{Core};
    ghost use Rattle.cover_steps.specs.declared.step.Call.{Call};
    ghost use Rattle.desk_lock.specs.declared.view.View.{View};
    ghost use Rattle.desk_lock.specs.History.{GoesOn};
    ghost use Rattle.desk_lock.specs.Views.{Turned, InHome, united};
    ghost use Rattle.desk_lock.specs.Passes.{view, opened, IsPassOf};
    ghost use Rattle.desk.specs.declared.turns.Reply.{Reply};
    ghost use Rattle.desk.specs.Turns.{booked, allowed};

    ghost seat: { Self → Seat Core (View Core Call Reply) };

    /// Takes a turn. `Desk` has a call for each kind of turn.
    fn turn<R: Wait>(&mut self, rt: &R, lock: &Lock, call: Call) -> Reply
        requires own { IsPassOf lock.now (seat self.old) }
        requires may { allowed (opened lock.now) (view (seat self.old)).low (view (seat self.old)).seen call }
        ensures own { IsPassOf lock.now (seat self.new) }
        ensures turned { Turned booked allowed (opened lock.now) (view (seat self.old)) call result (view (seat self.new)) };

    /// Takes in another pass. `Desk::join` calls it.
    fn take_in(&mut self, lock: &Lock, gone: WorkerPass)
        requires own { IsPassOf lock.now (seat self.old) × IsPassOf lock.now gone.pass }
        ensures own { IsPassOf lock.now (seat self.new) }
        ensures united { view (seat self.new) ≡ united (view (seat self.old)) (view gone.pass) }
        ensures into { GoesOn (InHome (view (seat self.old))) (view (seat self.old)).seen (view (seat self.new)).seen }
        ensures gone { GoesOn (InHome (view gone.pass)) (view gone.pass).seen (view (seat self.new)).seen };
}

impl DeskPass for FeederPass {
    ghost seat = { λ p. p.pass };

    fn turn<R: Wait>(&mut self, rt: &R, lock: &Lock, call: Call) -> Reply {
        lock.turn(rt, &mut self.pass, call)
    }

    fn take_in(&mut self, lock: &Lock, gone: WorkerPass) {
        let WorkerPass { pass } = gone;
        lock.join(&mut self.pass, pass);
    }
}

impl DeskPass for WorkerPass {
    ghost seat = { λ p. p.pass };

    fn turn<R: Wait>(&mut self, rt: &R, lock: &Lock, call: Call) -> Reply {
        lock.turn(rt, &mut self.pass, call)
    }

    fn take_in(&mut self, lock: &Lock, gone: WorkerPass) {
        let WorkerPass { pass } = gone;
        lock.join(&mut self.pass, pass);
    }
}
