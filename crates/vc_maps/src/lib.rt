//! Maps as ascending lists of pairs.
#![tactic(auto)]

mod combine;
mod fresh;
mod in_place;
mod join;
pub mod vec_map;
