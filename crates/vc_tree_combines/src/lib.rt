//! Combines of two radix trees that build a new one, tests of the keys of two trees, and trees
//! without the front of their prefixes. For the crates above; the traits that users name are in
//! `vc_trees`.
#![tactic(auto)]

mod adding;
pub mod combines;
mod engine;
pub mod keys;
mod kids;
pub mod left;
mod operation;
