//! Callers of all that the facade exports, as a user writes them: an export under a wrong name
//! leaves a clause here unproved, or does not compile.

mod example;
mod lawful;
mod named;
