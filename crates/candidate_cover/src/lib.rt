//! The positive cover of HyFD (Papenbrock and Naumann, 2016): for each target the left sides that no agree set refutes and
//! of which no part is such a set, each with the rows that it is known to hold in.
#![tactic(auto)]

mod cand;
mod cand_list;
mod candidate_cover;
mod new_list;
mod old_list;
mod place;

pub use cand::{Cand, Marking};
pub use candidate_cover::CandidateCover;
pub use new_list::NewList;
pub use old_list::OldList;
