//! Programs of users. Each has its own API, whose contracts use only the words of its subject. All
//! names come from `vec_collections`.
#![tactic(auto)]

pub mod configuration;
pub mod counters;
pub mod hours;
pub mod paths;
pub mod tags;
