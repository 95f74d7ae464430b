//! Two radix trees side by side: where their prefixes diverge, the events of the children below,
//! and the node that is made there. For the crates above: `vc_tree_combines` has combines,
//! `vc_tree_edits` changes in place.
#![tactic(auto)]

pub mod facing;
pub mod nodes;
pub mod sides;
