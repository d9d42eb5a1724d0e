//! Approximate dependencies: those that hold but for a few rows, by the error g3 (Kivinen and Mannila, 1995; TANE, Huhtala, Kärkkäinen,
//! Porkka and Toivonen, 1999).
#![tactic(auto)]

mod approximate;
mod by_workers;
mod candidates;
mod climb;
mod found;
pub mod laws;
mod removal;
mod rounds;
mod search;
mod seen;
mod sweeps;

pub use approximate::{approx, near_keys};
pub use by_workers::approx_by;
pub use found::{Approx, NearKey};
pub use removal::removed;
