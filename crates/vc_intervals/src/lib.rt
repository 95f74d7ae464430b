//! Sets of half-open intervals over an ordered type, as the places at which membership changes.
#![tactic(auto)]

mod combine;
pub mod interval_set;
pub mod laws;
mod witness;
