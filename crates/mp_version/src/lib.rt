//! Versions of a netlist that is edited, the trait of sessions that edit it, and the trait of what keeps its edits. Contracts speak of a story: the first
//! netlist and the accepted edits in order. `publication` has how versions are published.
#![tactic(auto)]

mod edit_keeper;
mod edit_session;
mod history;
pub mod publication;
mod same_netlist;
mod same_version;
mod version;

pub use edit_keeper::{EditKeeper, NotKept};
pub use edit_session::EditSession;
pub use history::{History, MAX_EDITS};
pub use version::Version;
