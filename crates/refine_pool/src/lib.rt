//! A phase of the shared cover: batches are fed to it while workers draw, validate and book beside them, until each candidate is
//! known to hold in all rows.
//!
//! The book stands at a desk meanwhile, where each call of a thread is one turn. The workers divide the search that HyFD does by
//! turns of sampling and validation (Papenbrock and Naumann, 2016), and what a batch leaves unfinished is found again from the
//! marks that stay (DynFD, Schirmer and others, 2019).
//!
//! That the threads run beside each other, that waiting ends, and how the work is shared are not proved.
#![tactic(auto)]

mod bench;
mod bulk;
mod crew;
mod feeder;
mod preparing;
mod refining;
mod rounds;
mod worker;

pub use desk::NoMemory;
pub use refining::{Refined, phase};
