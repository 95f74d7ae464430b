//! Routes by prefixes of IPv4 addresses. Of the prefixes that cover an address, the longest
//! decides.
#![tactic(auto)]

pub mod answer;
pub mod fault;
pub mod line;
pub mod prefix;
pub mod table;
