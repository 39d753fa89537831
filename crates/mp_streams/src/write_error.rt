//! The reason why a text wasn't written.
ghost use Rattle.mp_streams.specs.declared.write_error.WriteError.TheVariants as errors;
ghost use Rattle.std.specs.Prelude.{◌≡◌};

use crate::failed::Failed;
use std::alloc::{AllocError, AllocFailed};
use thiserror::Error;

/// The reason why a text that takes memory wasn't written to its end.
#[derive(Clone, Copy, Debug, PartialEq, Eq, Error)]
pub enum WriteError {
    /// A write of the output failed.
    #[error("write failed")]
    WriteFailed,
    /// Memory ran out.
    #[error("out of memory")]
    OutOfMemory,
}

impl From<Failed> for WriteError {
    ghost from_gives = { λ _ error. error ≡ errors.WriteFailed };

    fn from(_failed: Failed) -> WriteError {
        WriteError::WriteFailed
    }
}

impl From<AllocError> for WriteError {
    ghost from_gives = { λ _ error. error ≡ errors.OutOfMemory };

    fn from(_error: AllocError) -> WriteError {
        WriteError::OutOfMemory
    }
}

impl<T: Drop> From<AllocFailed<T>> for WriteError {
    ghost from_gives = { λ _ error. error ≡ errors.OutOfMemory };

    fn from(_error: AllocFailed<T>) -> WriteError {
        WriteError::OutOfMemory
    }
}
