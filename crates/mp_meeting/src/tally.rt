//! How a designer's lines fared.

/// How many lines of a designer were accepted, and how many refused.
#[derive(Clone, Copy)]
pub struct Tally {
    /// The edits that were accepted.
    pub accepted: u32,
    /// The edits that were refused, and the lines that are no edits.
    pub refused: u64,
}
