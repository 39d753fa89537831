//! Why a desk was not closed.
use crate::designer::Designer;
use crate::desk::Desk;
use crate::name::DeskName;
use mp_version::{EditKeeper, EditSession};
use std::sync::Wait;
use thiserror::Error;

/// What a close wanted.
#[derive(Clone, Copy, Debug, PartialEq, Eq, Error)]
pub enum CloseCause {
    /// Not all designers of the desk were given.
    #[error("a designer is missing")]
    MissingPass,
}

/// A refusal, with all that was given.
#[derive(Drop)]
pub struct CloseRefused<S: EditSession, K: EditKeeper, L: DeskName, R: Wait + Drop> {
    pub cause: CloseCause,
    pub desk: Desk<S, K, L, R>,
    pub designers: Vec<Designer<L>>,
}
