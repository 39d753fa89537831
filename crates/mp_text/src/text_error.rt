//! The line in which a text can't be read, and the reason.
use crate::text_code::TextCode;
use thiserror::Error;

/// The first line of a text that can't be read, and what is wrong with it.
#[derive(Clone, Copy, Debug, PartialEq, Eq, Error)]
#[error("line {line}: {code}")]
pub struct TextError {
    /// The line, counted from 1. It is 0 if the whole text is too long, and if it is empty.
    pub line: u32,
    /// What is wrong with the line.
    pub code: TextCode,
}
