//! Joins of finite maps: what a join asks its closure, and how the answers become its result.
//!
//! A finite map is seen as the list of its pairs, ascending by key. Nothing here names a type of
//! map.
#![tactic(auto)]

pub mod answers;
pub mod in_place;
pub mod laws;
pub mod question;
