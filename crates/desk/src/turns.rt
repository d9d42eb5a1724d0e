// What the book is asked at the desk, and what it replies.
use cover_core::{Applying, Book, Draw, Marking, Outdated, Refutation, Release, Settling};
use cover_steps::Call;
use desk_lock::Turns;
use rel_base::{Batch, Job};

/// What the book replies at the desk. A job or a batch that was handed in comes back, and with it what the call put something else in
/// place of, so that nothing large is let go of while others wait.
#[derive(Drop)]
pub enum Reply {
    Drawn(Draw),
    Refuted(Refutation, Outdated),
    Marked(Marking, Job),
    Released(Release, Job),
    Applied(Applying, Batch, Outdated),
    Settled(Settling),
    /// To a draw, a refutation or a settle: memory ran out, and nothing changed.
    NoMemory,
}

/// How the book answers calls, one after another.
pub struct BookTurns;

impl Turns<Book> for BookTurns {
    ghost use Rattle.desk.specs.Turns.{booked, allowed, allowed_later};

    type Call = Call;

    type Reply = Reply;

    ghost step = { booked };

    ghost may = { allowed };

    ghost lasts = { allowed_later };

    fn turn(state: &mut Book, call: Call) -> Reply {
        match call {
            Call::Draw => match state.draw() {
                Ok(draw) => Reply::Drawn(draw),
                Err(_) => Reply::NoMemory,
            },
            Call::Refute(i, j) => match state.refute(i, j) {
                Ok(refutation) => Reply::Refuted(refutation, state.take_outdated()),
                Err(_) => Reply::NoMemory,
            },
            Call::Mark(job) => Reply::Marked(state.mark(&job), job),
            Call::Release(job) => Reply::Released(state.release(&job), job),
            Call::Apply(batch) => {
                let applying = state.apply(&batch);
                Reply::Applied(applying, batch, state.take_outdated())
            }
            Call::Settle => match state.settle() {
                Ok(settling) => Reply::Settled(settling),
                Err(_) => Reply::NoMemory,
            },
        }
    }
}
