//! What tests of maps and of their joins stand on: the modules in `tests`.
#![tactic(auto)]
