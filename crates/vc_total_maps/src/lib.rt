//! Total maps: a map, and a value at every key that it lacks.
#![tactic(auto)]

pub mod laws;
pub mod total_vec_map;
