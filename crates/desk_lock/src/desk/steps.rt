// The steps that a turn is made of.
ghost use Rattle.std.specs.Prelude.{◌≡◌, ℕ, ◌%◌, ◌<◌, [], ◌∷◌, ◌++◌, Some, Option};
ghost use Rattle.desk_lock.specs.declared.view.Stage.TheVariants.{Idle, Drawn, Served};
ghost use Rattle.desk_lock.specs.History.{NoneIn, entry, Legal};
ghost use Rattle.desk_lock.specs.Views.{InHome, Took, at_stage, seeing, kept_of, given_of};
ghost use Rattle.desk_lock.specs.Passes.{view, opened, IsPassOf, IsSamePass};

use super::{Pass, TicketDesk};
use crate::plays::{Apart, Cut, Draw, Leave, Reach, Said};
use crate::turns::Turns;
use std::hint::spin_loop;
use std::sync::Wait;
use std::thread::yield_now;

// A round of waiting spins twice as long as the one before, at first.
const SPINNING: u32 = 7;

// From this round on a pass sleeps.
const SLEEPING: u32 = 11;

impl<T, K: Turns<T>> TicketDesk<T, K> {
    pub(super) fn draw<G: Said<K::Call>>(&self, pass: &mut Pass<T, K::Call, K::Reply>) -> u64
        requires { IsPassOf self.now pass.old }
        ensures same { IsSamePass pass.old pass.new }
        ensures drawn { (t : ℕ) × (pass.new.me ≡ (at_stage (Drawn t G.said) (view pass.old), [])) × (result ≡ t % 18446744073709551616) }
    {
        self.table.shared.fetch_add::<Draw<G>>(pass, 0, 1)
    }

    // Draws a ticket for a call.
    pub(super) fn ask<G: Said<K::Call>>(
        &self,
        pass: &mut Pass<T, K::Call, K::Reply>,
        _call: &K::Call,
    ) -> u64
        requires own { IsPassOf self.now pass.old }
        requires said { G.said ≡ Some _call.now }
        ensures same { IsSamePass pass.old pass.new }
        ensures drawn { (t : ℕ) × (pass.new.me ≡ (at_stage (Drawn t (Some _call.now)) (view pass.old), [])) × (result ≡ t % 18446744073709551616) }
    {
        self.draw::<G>(pass)
    }

    // Spins, then yields the processor, and then sleeps until the next ticket is served.
    fn rest<R: Wait>(&self, rt: &R, round: u32, served: u64) {
        if round < SPINNING {
            for _ in 0..1u32 << round {
                spin_loop();
            }
        } else if round < SLEEPING {
            yield_now();
        } else {
            self.table.shared.park(rt, 1, (served % (1 << 32)) as u32);
        }
    }

    // Waits for the ticket to be served. Where it is for a call, the pass has the state then.
    pub(super) fn reach<R: Wait>(&self, rt: &R, pass: &mut Pass<T, K::Call, K::Reply>, ticket: u64)
        requires own { pass.old.table_id ≡ self.now.table.shared.table_id }
        requires drawn { (t : ℕ) × (call : Option K.Call) × (pass.old.me.0.stage ≡ Drawn t call) × (ticket ≡ t % 18446744073709551616) }
        ensures same { IsSamePass pass.old pass.new }
        ensures took { (t : ℕ) × (call : Option K.Call) × (pass.old.me.0.stage ≡ Drawn t call) × Took K.step K.may t call pass.old.me pass.new.me }
    {
        let mut round = 0u32;
        for _ in rt.forever() {
            let found = self.table.shared.load::<Reach<K>>(pass, 1);
            if found == ticket {
                return;
            }
            self.rest(rt, round, found);
            round = round.saturating_add(1);
        }
        unreachable!()
    }

    // Gives the state back, and serves the next ticket.
    pub(super) fn leave<G: Said<K::Reply>>(
        &self,
        pass: &mut Pass<T, K::Call, K::Reply>,
        _reply: &K::Reply,
    )
        requires own { pass.old.table_id ≡ self.now.table.shared.table_id }
        requires said { G.said ≡ Some _reply.now }
        requires served { (t : ℕ) × (call : K.Call) × (y : T) × (pass.old.me.0.stage ≡ Served t (Some call)) × (pass.old.me.1 ≡ (0, y) ∷ []) × Legal K.step K.may (opened self.now) ((view pass.old).seen ++ entry (view pass.old).low call _reply.now ∷ []) y }
        ensures same { IsSamePass pass.old pass.new }
        ensures left { (t : ℕ) (call : K.Call) → pass.old.me.0.stage ≡ Served t (Some call) → pass.new.me ≡ (seeing (entry (view pass.old).low call _reply.now ∷ []) (at_stage Idle (view pass.old)), []) }
    {
        let served = self.table.shared.fetch_add::<Leave<G>>(pass, 1, 1);
        if self.table.shared.peek(0) != served.wrapping_add(1) {
            self.table.shared.wake_all(1);
        }
    }

    // Splits the pass at the number that is picked.
    pub(super) fn cut<G: Cut>(
        &self,
        pass: &mut Pass<T, K::Call, K::Reply>,
        _at: u32,
    ) -> Pass<T, K::Call, K::Reply>
        requires own { IsPassOf self.now pass.old }
        requires picked { G.at ≡ _at }
        requires within { ((view pass.old).low < _at) × (_at < (view pass.old).high) }
        ensures own { IsPassOf self.now pass.new × IsSamePass pass.old pass.new × IsPassOf self.now result }
        ensures kept { view pass.new ≡ kept_of _at (view pass.old) }
        ensures given { view result ≡ given_of _at (view pass.old) }
        ensures unborne { NoneIn (InHome (view result)) (view result).seen }
    {
        self.table.shared.split_seat::<Apart<G>>(pass)
    }
}
