//! The greatest length of a line.
use thiserror::Error;

/// The greatest number of bytes of a line, without its line feed.
pub const LINE_BYTES: usize = 65_536;

/// The line has more bytes than a line may have.
#[derive(Clone, Copy, Debug, PartialEq, Eq, Error)]
#[error("a line of more than 65536 bytes")]
pub struct TooLong;
