//! What a module does over a span of time.

mod changes;
mod cursor;
mod cursors;
mod findings;
mod in_piece;
pub mod laws;
mod outputs;
mod piece;
mod span;

pub use changes::Changes;
pub use findings::Findings;
pub use in_piece::InPiece;
pub use outputs::Outputs;
pub use piece::Piece;
pub use span::{cut, cut_delayed, respond};
