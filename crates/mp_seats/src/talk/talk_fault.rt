//! Why a conversation ended early.
ghost use Rattle.std.specs.Prelude.{◌≡◌};
ghost use Rattle.mp_seats.specs.talk.TalkFaults.{fault_of_write};

use mp_streams::WriteError;
use thiserror::Error;

/// Why a conversation ended before the end of its lines.
#[derive(Clone, Copy, Debug, PartialEq, Eq, Error)]
pub enum TalkFault {
    /// A read of the lines failed.
    #[error("read failed")]
    ReadFailed,
    /// A write of the answers failed.
    #[error("write failed")]
    WriteFailed,
    /// Memory ran out for an answer.
    #[error("out of memory")]
    OutOfMemory,
}

impl From<WriteError> for TalkFault {
    ghost from_gives = { λ error fault. fault ≡ fault_of_write error };

    fn from(error: WriteError) -> TalkFault {
        match error {
            WriteError::WriteFailed => TalkFault::WriteFailed,
            WriteError::OutOfMemory => TalkFault::OutOfMemory,
        }
    }
}
