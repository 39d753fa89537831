//! An input of a module over a span of time.

use crate::response::changes::Changes;

/// The level of an input at the first time of a span, and its changes at the times after that and before the span's end.
#[derive(Drop)]
pub struct InPiece {
    pub at_from: u64,
    pub changes: Changes,
}
