//! How a key is removed from a radix tree in place, or all keys that begin with a prefix, and how
//! the value of one key is changed. For the crates above; the trait that users name is in
//! `vc_trees`.
#![tactic(auto)]

pub mod changing;
pub mod removal;
pub mod removal_below;
