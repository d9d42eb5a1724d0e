//! Plain, slow programs whose contracts are the definitions of the base, for small inputs and to test faster ones by.
#![tactic(auto)]

mod evidence;
mod inclusion;
mod pairwise;
mod plain_rows;
mod projection;
mod samples;
mod validity;

pub use evidence::{least_sets, minimal_sets, refutes, specialise};
pub use inclusion::{inclusions, is_included};
pub use pairwise::{agree, agree_sets, covers, least_covers};
pub use plain_rows::PlainRows;
pub use projection::{part, projected};
pub use samples::{Samples, are_as_wide, relation_of};
