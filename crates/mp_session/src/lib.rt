//! Sessions: a netlist, the edits that are accepted on it one after the other, and the version after each of them.
#![tactic(auto)]

mod editing;
mod opening_version;
mod prepared;
mod session;
mod versions;

pub use prepared::Prepared;
pub use session::Session;
