//! The command line, which `clap` reads, and the texts of help and of `explain`.
//!
//! The files at the top have the commands, their arguments and their help. `explain` says what the codes of the program's answers and the kinds of
//! event module mean. `faults` shows the word at fault in a netlist's text that can't be read. Begin with `request.rt`.
#![tactic(auto)]

mod argument_form;
mod arguments;
mod command_form;
mod command_line;
pub mod explain;
mod faults;
mod help;
mod help_editing;
mod help_exports;
mod label;
mod parser;
mod picture_reading;
mod picture_words;
mod range_words;
mod reading;
mod request;
mod telling;
mod timescale_reading;

pub use command_line::CommandLine;
pub use explain::{CheckWord, Entry, SeatCode, Topic, guide, put_explanation, put_titles};
pub use faults::fault_text;
pub use picture_words::PictureWords;
pub use range_words::RangeWords;
pub use reading::{read_words, unknown_word};
pub use request::{Command, Request};
pub use telling::{TellError, tell};
