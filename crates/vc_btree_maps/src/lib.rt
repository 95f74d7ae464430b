//! Joins of `BTreeMap`.
#![tactic(auto)]

pub mod btree_map;
