//! What is wrong with a line by itself.
ghost use Rattle.std.specs.Prelude.{◌≡◌};
ghost use Rattle.mp_text.specs.lexing.Clauses.{OutOfMemory};

use std::alloc::{AllocError, AllocFailed};
use thiserror::Error;

/// The reason why a line can't be read.
#[derive(Clone, Copy, Debug, PartialEq, Eq, Error)]
pub enum LineError {
    #[error("a byte that is not allowed")]
    NotAscii,
    #[error("an unknown statement, or an unknown kind of module")]
    UnknownStatement,
    #[error("too few or too many words, or one that doesn't belong there")]
    WordCount,
    #[error("a number in its range, or a pair such as `y/3` or `5=1`, is expected here")]
    BadNumber,
    #[error("out of memory")]
    OutOfMemory,
}

impl From<AllocError> for LineError {
    ghost from_gives = { λ _ error. error ≡ OutOfMemory };

    fn from(_error: AllocError) -> LineError {
        LineError::OutOfMemory
    }
}

impl<T: Drop> From<AllocFailed<T>> for LineError {
    ghost from_gives = { λ _ error. error ≡ OutOfMemory };

    fn from(_error: AllocFailed<T>) -> LineError {
        LineError::OutOfMemory
    }
}

impl LineError {
    ghost use Rattle.mp_text.specs.lexing.LineErrors.{line_number_of, line_name_of};

    /// The number of the code: 1 to 4, or 9.
    pub fn number(self) -> u32
        ensures { result ≡ line_number_of self }
    {
        match self {
            LineError::NotAscii => 1,
            LineError::UnknownStatement => 2,
            LineError::WordCount => 3,
            LineError::BadNumber => 4,
            LineError::OutOfMemory => 9,
        }
    }

    /// The name of the code, which is that of the variant.
    pub fn name(self) -> &'static str
        ensures { result.now ≡ line_name_of self }
    {
        match self {
            LineError::NotAscii => "NotAscii",
            LineError::UnknownStatement => "UnknownStatement",
            LineError::WordCount => "WordCount",
            LineError::BadNumber => "BadNumber",
            LineError::OutOfMemory => "OutOfMemory",
        }
    }
}
