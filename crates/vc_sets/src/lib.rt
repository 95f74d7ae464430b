//! Sets as ascending lists.
#![tactic(auto)]

pub mod borrowed;
pub mod cloning;
mod combine;
pub mod laws;
mod operations;
pub mod vec_set;
mod witness;
