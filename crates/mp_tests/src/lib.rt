//! Tests by what the crates export. They are a crate of their own since a crate with tests is proved twice.
//!
//! `making` has what tests make netlists of, sessions of them, and gates at which calls meet or are counted. Each other folder tests one layer.
#![tactic(auto)]

mod calls;
mod commands;
mod desks;
mod engine;
#[cfg(test)]
mod making;
mod redo;
mod seats;
mod sessions;
