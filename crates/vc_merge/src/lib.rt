//! The merge of two ascending lists, event by event, and what is built around it.
#![tactic(auto)]

pub mod choosing;
pub mod iterators;
pub mod laws;
mod linear;
pub mod lists;
pub mod merge;
pub mod moving;
pub mod parts;
pub mod plan;
pub mod search;
pub mod searching;
pub mod states;
