//! Why no desk was made.
ghost use Rattle.std.specs.Prelude.{◌≡◌};

use crate::kept_session::KeptSession;
use mp_version::publication::NoPlace;
use mp_version::{EditKeeper, EditSession};
use std::alloc::AllocError;
use thiserror::Error;

/// What a desk wanted.
#[derive(Clone, Copy, Debug, PartialEq, Eq, Error)]
pub enum DeskCause {
    /// Memory ran out.
    #[error("out of memory")]
    OutOfMemory,
    /// There was no place for a reader.
    #[error("no place for a reader")]
    NoPlace,
}

impl From<AllocError> for DeskCause {
    ghost use Rattle.mp_desk.specs.declared.desk_refused.DeskCause.TheVariants.{OutOfMemory};

    ghost from_gives = { λ _ cause. cause ≡ OutOfMemory };

    fn from(_error: AllocError) -> DeskCause {
        DeskCause::OutOfMemory
    }
}

impl From<NoPlace> for DeskCause {
    ghost use Rattle.mp_desk.specs.declared.desk_refused.DeskCause.TheVariants as causes;

    ghost from_gives = { λ _ cause. cause ≡ causes.NoPlace };

    fn from(_error: NoPlace) -> DeskCause {
        DeskCause::NoPlace
    }
}

/// A refusal, with the session as it was, and what keeps its edits.
#[derive(Drop)]
pub struct DeskRefused<S: EditSession, K: EditKeeper> {
    pub cause: DeskCause,
    pub kept: KeptSession<S, K>,
}

impl<S: EditSession, K: EditKeeper> DeskRefused<S, K> {
    pub(crate) fn new(cause: DeskCause, kept: KeptSession<S, K>) -> DeskRefused<S, K>
        ensures cause { result.cause ≡ cause }
        ensures session { result.kept ≡ kept }
    {
        DeskRefused { cause, kept }
    }
}
