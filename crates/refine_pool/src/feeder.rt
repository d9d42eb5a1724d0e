// Applies batches at the desk, one after another, and keeps the replies.
ghost use Rattle.std.specs.Prelude.{◌≡◌, ◌≤◌, [], take, length, vec_capacity};
ghost use Rattle.std.specs.List.{All};
ghost use Rattle.rel_base.specs.RowState.{width};
ghost use Rattle.rel_base.specs.Batches.{IsAsWide};
ghost use Rattle.desk.specs.Desks.{opened_book, seen, IsAt};
ghost use Rattle.refine_pool.specs.Crews.{IsFed, OnDone, WentOn};

use crate::crew::Ending;
use cover_core::Applying;
use desk::{Desk, FeederPass};
use ports::{Gate, Point};
use rel_base::Batch;
use std::sync::Wait;

// The feeder's number at the gate.
const FEEDER: u32 = 0;

/// What comes back of the feeder: what the batches were answered, as many as there was memory for.
#[derive(Drop)]
pub struct Fed {
    pub pass: FeederPass,
    pub replies: Vec<Applying>,
    pub ending: Ending,
}

/// Applies the batches in order, each once, and passes the gate after each that was answered. For want of memory it stops.
pub fn feed<R: Wait, G: Gate>(
    rt: &R,
    desk: &Desk,
    mut pass: FeederPass,
    batches: Vec<Batch>,
    mut replies: Vec<Applying>,
    gate: &G,
) -> Fed
    requires own { IsAt desk.now pass.pass }
    requires fresh { seen pass.pass ≡ [] }
    requires wide { All (All (IsAsWide (width (opened_book desk.now).rows))) batches.items }
    requires room { (replies.items ≡ []) × (length batches.items ≤ vec_capacity replies) }
    ensures own { IsAt desk.now result.pass.pass }
    ensures on { WentOn pass.pass result.pass.pass }
    ensures fed { IsFed desk.now result.pass.pass (take (length result.replies.items) batches.items) result.replies.items }
    ensures all { OnDone result.ending (length result.replies.items ≡ length batches.items) }
{
    for batch in batches {
        let Ok(reply) = desk.apply(rt, &mut pass, batch) else {
            let ending = Ending::NoMemory;
            return Fed {
                pass,
                replies,
                ending,
            };
        };
        replies.push_reserved(reply);
        gate.at(FEEDER, Point::Fed);
    }
    let ending = Ending::Done;
    Fed {
        pass,
        replies,
        ending,
    }
}
