//! The findings of a netlist, and their lines.
#![tactic(auto)]

mod ahead;
mod bundles;
mod lines;
mod modules;
mod places;
mod reporting;
mod watch;

pub use lines::{FindingText, put_report};
pub use reporting::report;
