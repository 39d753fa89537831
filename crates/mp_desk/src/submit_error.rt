//! Why an edit isn't accepted.
ghost use Rattle.std.specs.Prelude.{◌≡◌};
ghost use Rattle.mp_desk.specs.declared.submit_error.SubmitError.TheVariants as errors;

use mp_netlist::EditError;
use thiserror::Error;

/// Why a desk doesn't accept an edit. Then it changes nothing.
#[derive(Clone, Copy, Debug, PartialEq, Eq, Error)]
pub enum SubmitError {
    /// The session refuses it.
    #[error("{0}")]
    Refused(EditError),
    /// The desk can't keep it, nor any edit after it.
    #[error("the edit can't be kept")]
    NotKept,
}

impl From<EditError> for SubmitError {
    ghost from_gives = { λ error cause. cause ≡ errors.Refused error };

    fn from(error: EditError) -> SubmitError {
        SubmitError::Refused(error)
    }
}
