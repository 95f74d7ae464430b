//! Filters of paths by rules: of the rules that are prefixes of a path, the longest decides. For
//! the crate above, which exports it.
#![tactic(auto)]

pub mod path_filter;
