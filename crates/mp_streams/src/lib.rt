//! Sinks and sources: where bytes go to and come from, and how all of some bytes get there.
#![tactic(auto)]

mod failed;
mod initial_block;
mod number;
mod out;
mod piece;
mod putting;
mod read_source;
mod sink;
mod source;
mod take_error;
mod taking;
mod text;
mod write_error;
mod write_sink;

pub use failed::Failed;
pub use initial_block::InitialBlock;
pub use number::spelled_number;
pub use out::Out;
pub use piece::Piece;
pub use putting::put_all;
pub use read_source::ReadSource;
pub use sink::Sink;
pub use source::Source;
pub use take_error::TakeError;
pub use taking::{take_all, take_more};
pub use text::Text;
pub use write_error::WriteError;
pub use write_sink::WriteSink;
