//! A crate that uses sets as a user does: a borrowed form of a user's own type, and sets of
//! borrowed words. Tests, of this crate and of others, use its allocator, three of its elements,
//! and the lengths for counted comparisons.
#![tactic(auto)]

#[cfg(test)]
mod borrowed;
pub mod compared;
#[cfg(test)]
mod contracts;
pub mod held;
pub mod lengths;
pub mod marked;
pub mod nth;
#[cfg(test)]
mod outcomes;
