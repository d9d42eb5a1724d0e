//! The negative cover of HyFD (Papenbrock and Naumann, 2016): pairs of rows, each with the columns on which the two agree.
#![tactic(auto)]

mod agreeing;
mod concerned;
mod ended_rows;
mod found_pairs;
mod live_rows;
mod negative_cover;
mod pairing;
mod rows;

pub use concerned::Concerned;
pub use ended_rows::ended;
pub use negative_cover::{NegativeCover, Withdrawal, Witness};
pub use pairing::all_pairs;
