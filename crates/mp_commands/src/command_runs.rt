//! How a command is run: what it reads, with which options, and how it ends; and the command that writes a view.

mod check_run;
mod command;
mod input;
mod opening;
mod options;
mod run_fault;
mod viewed;

pub use check_run::run_check;
pub use command::{InputCommand, run_command};
pub use opening::{opened, read_opening};
pub use options::Options;
pub use run_fault::{RunFault, exit_status, fault_line};
pub use viewed::{Viewed, run_view};
