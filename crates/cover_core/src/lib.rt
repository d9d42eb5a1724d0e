//! The book: the rows of a relation, the witnesses that refute dependencies, and the candidates that they leave, in one
//! object. Each call is one step of the shared cover (HyFD, Papenbrock and Naumann, 2016; DynFD, Schirmer and others, 2019).
#![tactic(auto)]

mod answers;
mod book;
mod cursor;
mod judging;
mod known;
mod known_lefts;
mod outdated;
mod queue;
mod renewal;
mod searcher;
mod searching;
mod sought;
#[cfg(test)]
mod tests;
mod waiting;

pub use answers::{Draw, Refutation, Release, Settling};
pub use book::Book;
pub use candidate_cover::Marking;
pub use known::Known;
pub use outdated::Outdated;
pub use row_log::Applying;
