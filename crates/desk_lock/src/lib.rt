//! A ticket lock over any object, whose calls form one legal history that the callers can cite.
//!
//! Tickets are served in the order in which they were drawn (Reed and Kanodia, 1979; Mellor-Crummey and Scott, 1991). Each
//! call under the lock is an entry of one history, which exists in the proofs alone and takes no bytes: who called, what was
//! asked and what was replied. A [`Pass`] knows a beginning of it, in which each of its calls stands once, so what a caller
//! was replied can be compared with what others were (histories as in Herlihy and Wing, 1990).
//!
//! That anyone is served, fairness, freedom from deadlock and an order between passes that never met are not proved.
#![tactic(auto)]

mod desk;
mod history;
pub mod laws;
mod plays;
mod rule;
#[cfg(test)]
mod tests;
mod turns;
mod view;

pub use desk::{NoMemory, Pass, TicketDesk};
pub use history::Entry;
pub use turns::Turns;
pub use view::View;
