//! Total sets: a list, or all that is not in it.
#![tactic(auto)]

pub mod laws;
pub mod total_vec_set;
