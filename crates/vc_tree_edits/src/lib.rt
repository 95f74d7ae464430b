//! Changes of a radix tree in place: components put before all its keys, another tree moved in,
//! combines, and removal and retention of the keys that another tree covers. For the crates above;
//! the trait that users name is in `vc_trees`.
#![tactic(auto)]

pub mod appending;
mod changes;
pub mod combining;
pub mod comers;
pub mod engine;
pub mod lessening;
pub mod pairs;
pub mod prepending;
