//! Walks over radix trees of any flavour. There are iterators over all pairs, over the pairs under
//! a prefix, over the values, and over the pairs of a tree that the iterator owns. There are also
//! counts of pairs, and the tree of the keys under a prefix. For the crates above; the calls that
//! users make are in `vc_trees`.
#![tactic(auto)]

pub mod beside;
pub mod counting;
pub mod ends;
pub mod filtering;
pub mod folding;
pub mod iter;
pub mod key;
pub mod owned;
pub mod prefixes;
pub mod range;
pub mod scan;
mod seeking;
mod turn;
pub mod values;
pub mod walks;
