//! The nodes of radix trees: how they are read, the two flavours in which they are stored, how a
//! key is looked up, and how it is bound. For the crates above; the traits that users name are in
//! `vc_trees`.
#![tactic(auto)]

mod ascending;
mod body;
pub mod building;
pub mod children;
pub mod collecting;
pub mod comparing;
pub mod copying;
pub mod descent;
mod gathering;
pub mod insertion;
pub mod making;
pub mod parting;
pub mod places;
pub mod plain;
pub mod prefix;
pub mod reading;
mod sealed;
pub mod shared;
pub mod sharing;
pub mod showing;
pub mod spelling;
