//! Total sets, and sets that are written out.
#![tactic(auto)]

#[cfg(test)]
mod written;
