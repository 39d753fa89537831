//! What a seat replies.
use mp_netlist::EditError;
use mp_text::LineError;

/// A reply to a line, unless that asks a question.
#[derive(Clone, Copy)]
pub enum Reply {
    /// The edit was accepted, as the one of this number, from 1.
    Accepted(u32),
    /// The edit was refused.
    Refused(EditError),
    /// Only a designer edits.
    NotADesigner,
    /// The desk can't keep the edit.
    NotKept,
    /// The line is not read.
    Unread(LineError),
    /// The line is too long to be read.
    TooLong,
}
