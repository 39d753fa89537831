//! The outcome of reading the command line.
use crate::request::Request;

/// What the command line asks for.
#[derive(Drop)]
pub enum CommandLine<'a> {
    /// Explain the word, or list all that can be explained if there is none.
    Explain(Option<&'a str>),
    /// Run a command.
    Run(Request<'a>),
}
