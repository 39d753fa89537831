//! The reason why a source wasn't read.
ghost use Rattle.mp_streams.specs.declared.take_error.TakeError.TheVariants as errors;
ghost use Rattle.std.specs.Prelude.{◌≡◌};

use crate::failed::Failed;
use std::alloc::AllocError;
use thiserror::Error;

/// The reason why a source was read neither to its end nor to the limit.
#[derive(Clone, Copy, Debug, PartialEq, Eq, Error)]
pub enum TakeError {
    #[error("the device failed")]
    Failed,
    #[error("out of memory")]
    OutOfMemory,
}

impl From<Failed> for TakeError {
    ghost from_gives = { λ _ error. error ≡ errors.Failed };

    fn from(_failed: Failed) -> TakeError {
        TakeError::Failed
    }
}

impl From<AllocError> for TakeError {
    ghost from_gives = { λ _ error. error ≡ errors.OutOfMemory };

    fn from(_error: AllocError) -> TakeError {
        TakeError::OutOfMemory
    }
}
