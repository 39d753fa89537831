//! Why an edit isn't made at a seat.
use mp_netlist::EditError;
use thiserror::Error;

/// Why an edit isn't made at a seat.
#[derive(Clone, Copy, Debug, PartialEq, Eq, Error)]
pub enum Refusal {
    /// The desk refused it.
    #[error("refused")]
    Refused(EditError),
    /// Only a designer edits.
    #[error("not a designer")]
    NotADesigner,
    /// The desk can't keep it.
    #[error("not kept")]
    NotKept,
}
