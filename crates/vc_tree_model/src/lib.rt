//! The model of radix trees that contracts use: trees, keys, the map of a tree, canonical trees,
//! and the laws of these definitions.
#![tactic(auto)]

pub mod laws;
