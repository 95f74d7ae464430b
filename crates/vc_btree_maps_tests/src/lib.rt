//! What tests of joins of `BTreeMap` stand on: the modules in `tests`.
#![tactic(auto)]
