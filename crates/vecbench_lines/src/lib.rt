//! The lines of the program `vecbench`: how they are read, checked and answered.
#![tactic(auto)]

pub mod changes;
pub mod command;
pub mod fault;
pub mod keys;
pub mod numbers;
pub mod parts;
pub mod permit_line;
pub mod prefix_line;
pub mod rules;
pub mod serve;
pub mod set_line;
pub mod shape_line;
pub mod total_line;
pub mod totals;
pub mod tree_line;
