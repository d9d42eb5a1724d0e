// Laws of histories. Each function does nothing, and its contract is the law.
ghost use Rattle.desk_lock.specs.Laws.{GrowsAtTheEnd, EndsWithAStep, BeginningIsLegal, CallsStandOnce, OneBeginsTheOther, CallsStay, HomesDivide, HomesUnite};

use crate::turns::Turns;

/// A legal history with one more entry, which its pass may make, is legal.
pub fn histories_grow_at_their_end<T, K: Turns<T>>()
    ensures { GrowsAtTheEnd K.step K.may }
{}

/// The last entry of a legal history is a step from the state after the others, which its pass might make.
pub fn histories_end_with_a_step<T, K: Turns<T>>()
    ensures { EndsWithAStep K.step K.may }
{}

/// A beginning of a legal history is legal.
pub fn beginnings_are_legal<T, K: Turns<T>>()
    ensures { BeginningIsLegal K.step K.may }
{}

/// After a turn the caller's calls are those before and this one.
pub fn calls_stand_once<T, K: Turns<T>>()
    ensures { CallsStandOnce K.step K.may }
{}

/// Of two beginnings of one history, one begins the other.
pub fn one_beginning_begins_the_other<C, R>()
    ensures { OneBeginsTheOther C R }
{}

/// What others add to a history leaves the calls of a pass's home as they are.
pub fn calls_of_a_home_stay<T, C, R>()
    ensures { CallsStay T C R }
{}

/// A split divides the home of a pass between it and the new one.
pub fn a_split_divides_a_home<T, C, R>()
    ensures { HomesDivide T C R }
{}

/// A join unites the homes of two passes.
pub fn a_join_unites_homes<T, C, R>()
    ensures { HomesUnite T C R }
{}
