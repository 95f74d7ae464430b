//! Radix trees that are always canonical, plain and with shared children: each map of keys to
//! values has one tree. Also commands on trees, and runs of commands: a machine whose states are
//! maps.
#![tactic(auto)]

pub mod commands;
pub mod radix_tree;
