//! Code of a user, with all names from `vec_collections`: each public call, operator and iteration
//! of sets, trees and merges, with contracts in the words of the subject.
#![tactic(auto)]

pub mod changes;
pub mod combines;
pub mod directories;
pub mod filters;
pub mod generic;
pub mod intervals;
pub mod keys;
pub mod ledgers;
pub mod loading;
pub mod maps;
pub mod nested;
pub mod one_tree;
pub mod overlays;
pub mod segments;
pub mod sets;
pub mod settings;
pub mod totals;
pub mod trees;
pub mod walks;
