//! Total maps, and maps that are written out.
#![tactic(auto)]

#[cfg(test)]
mod written;
