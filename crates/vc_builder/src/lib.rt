//! A list that is built before the list that is left, in one block of raw memory.
#![tactic(auto)]

pub mod inplace;
