//! The lines of a script.
use crate::question::Question;
use mp_netlist::Edit;

/// A line of a script.
#[derive(Drop)]
pub enum Line {
    /// A line without words.
    Empty,
    /// An edit.
    Change(Edit),
    /// A question.
    Ask(Question),
}
