//! Lists whose copies share their entries: a copy costs a few bytes for 256 entries, and a write makes only the piece anew in which the entry stands.

mod kept;
mod piece;
mod pieces;
mod replacing;
mod rows;

pub use kept::Kept;
pub use pieces::{Pieces, push_to_row};
pub use rows::Row;
