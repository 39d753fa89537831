//! Why a journal's edits aren't made again.
use mp_netlist::EditError;
use mp_text::LineError;
use thiserror::Error;

/// Why a journal's edits aren't made again. Lines are numbered from 1.
#[derive(Clone, Copy, Debug, PartialEq, Eq, Error)]
pub enum ReplayFault {
    /// The line isn't read.
    #[error("line {0}: {1}")]
    Unread(u64, LineError),
    /// The line asks a question.
    #[error("line {0}: a question")]
    Question(u64),
    /// The netlist refuses the edit of the line.
    #[error("line {0}: {1}")]
    Refused(u64, EditError),
    /// The last line doesn't end.
    #[error("the last line has no line feed")]
    Unended,
    /// Memory ran out.
    #[error("out of memory")]
    OutOfMemory,
}
