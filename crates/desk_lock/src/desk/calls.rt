// Opening a desk, and what whoever holds a pass does: draw a ticket, take a turn, give the pass back.
ghost use Rattle.std.specs.Prelude.{◌≡◌, ℕ, ◌<◌, ◌≤◌, List, [], ◌++◌, Some, IfOk, IfErr};
ghost use Rattle.desk_lock.specs.declared.history.Entry.{Entry};
ghost use Rattle.desk_lock.specs.History.{NoneIn, GoesOn};
ghost use Rattle.desk_lock.specs.Views.{Turned, InHome, fresh, kept_of, given_of, united};
ghost use Rattle.desk_lock.specs.Passes.{view, opened, passes, IsPassOf, IsSamePass, IsEnd};

use super::{NoMemory, Pass, TicketDesk};
use crate::plays::{Listen, Silent, Together};
use crate::turns::Turns;
use crate::view::Terms;
use atomic_table::{Refused, Table};
use std::alloc::Global;
use std::marker::Brand;
use std::snapshot::Snapshot;
use std::sync::Wait;

impl<T, K: Turns<T>> TicketDesk<T, K> {
    /// A desk with this object, and its one pass, which owns the numbers from 0 to below `passes` and has seen nothing.
    ///
    /// Takes memory three times, for the object and two words.
    pub fn open(
        alloc: Global,
        state: T,
        passes: u32,
    ) -> Result<(TicketDesk<T, K>, Pass<T, K::Call, K::Reply>), NoMemory<T>>
        requires { (0 < passes) × (passes ≤ 64) }
        ensures ok { IfOk result (λ r. IsPassOf r.0 r.1 × (opened r.0 ≡ state) × (r.0.table.shared.key.passes ≡ passes) × (view r.1 ≡ fresh (Some state) 0 passes [])) }
        ensures refused { IfErr result (λ r. r.0 ≡ state) }
    {
        let terms = Terms {
            opened: Snapshot::of(&state),
            passes: u64::from(passes),
        };
        let Ok(mut slots) = Vec::with_capacity(alloc, 1) else {
            return Err(NoMemory(state));
        };
        slots.push_reserved(state);
        match Table::new(alloc, &[0, 0], slots, &terms) {
            Ok((table, pass)) => Ok((TicketDesk { table }, pass)),
            Err(Refused { mut slots }) => {
                let Some(state) = slots.pop() else {
                    unreachable!()
                };
                slots.destroy_empty();
                Err(NoMemory(state))
            }
        }
    }

    /// Makes one call, once all tickets drawn before have been served.
    ///
    /// What the pass has seen grows to the whole history up to this call. It takes the memory that the object takes, and
    /// without other callers a few atomic steps. While it waits it spins, then yields, then sleeps.
    pub fn turn<R: Wait>(
        &self,
        rt: &R,
        pass: &mut Pass<T, K::Call, K::Reply>,
        call: K::Call,
    ) -> K::Reply
        requires own { IsPassOf self.now pass.old }
        requires may { K.may (opened self.now) (view pass.old).low (view pass.old).seen call }
        ensures own { IsPassOf self.now pass.new × IsSamePass pass.old pass.new }
        ensures turned { Turned K.step K.may (opened self.now) (view pass.old) call result (view pass.new) }
    {
        let ticket = self.ask::<Brand>(pass, &call);
        self.reach(rt, pass, ticket);
        let reply = K::turn(pass.slot_mut(&self.table.shared, 0), call);
        self.leave::<Brand>(pass, &reply);
        reply
    }

    /// The numbers from `at` on go to a new pass, which bears `at` and has seen as much. Takes no memory, and waits for nobody.
    pub fn split(
        &self,
        pass: &mut Pass<T, K::Call, K::Reply>,
        at: u32,
    ) -> Pass<T, K::Call, K::Reply>
        requires own { IsPassOf self.now pass.old }
        requires within { ((view pass.old).low < at) × (at < (view pass.old).high) }
        ensures own { IsPassOf self.now pass.new × IsSamePass pass.old pass.new × IsPassOf self.now result }
        ensures kept { view pass.new ≡ kept_of at (view pass.old) }
        ensures given { view result ≡ given_of at (view pass.old) }
        // no call by a number of the new pass was made
        ensures unborne { NoneIn (InHome (view result)) (view result).seen }
    {
        self.cut::<Brand>(pass, at)
    }

    /// The one pass has the numbers of both, and has seen the longer of the two histories. Takes no memory, and waits for
    /// nobody. The numbers of `gone` make no more calls.
    pub fn join(&self, into: &mut Pass<T, K::Call, K::Reply>, gone: Pass<T, K::Call, K::Reply>)
        requires own { IsPassOf self.now into.old × IsPassOf self.now gone }
        ensures own { IsPassOf self.now into.new × IsSamePass into.old into.new }
        ensures united { view into.new ≡ united (view into.old) (view gone) }
        ensures into { GoesOn (InHome (view into.old)) (view into.old).seen (view into.new).seen }
        ensures gone { GoesOn (InHome (view gone)) (view gone).seen (view into.new).seen }
    {
        self.table.shared.join_seat::<Together>(into, gone);
        self.table.shared.load::<Listen>(into, 0);
    }

    /// Waits for the calls whose tickets were drawn before, and hands back the object. Takes no memory.
    ///
    /// It makes no entry. A pass that was joined with all others has seen the whole history.
    pub fn close<R: Wait>(self, rt: &R, mut pass: Pass<T, K::Call, K::Reply>) -> T
        requires { IsPassOf self pass }
        ensures ended { (more : List (Entry K.Call K.Reply)) × NoneIn (InHome (view pass)) more × IsEnd K.step K.may self ((view pass).seen ++ more) result }
        ensures whole { ((n : ℕ) → n < passes self → InHome (view pass) n) → IsEnd K.step K.may self (view pass).seen result }
    {
        let ticket = self.draw::<Silent>(&mut pass);
        self.reach(rt, &mut pass, ticket);
        let TicketDesk { table } = self;
        let mut closed = table.close_with(pass);
        let state = closed.take(0);
        closed.free();
        state
    }
}
