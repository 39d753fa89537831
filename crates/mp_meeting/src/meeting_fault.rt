//! Why there was no meeting.
use mp_desk::DeskCause;
use std::alloc::AllocError;
use thiserror::Error;

/// What a meeting wanted.
#[derive(Clone, Copy, Debug, PartialEq, Eq, Error)]
pub enum MeetingFault {
    /// Memory ran out.
    #[error("out of memory")]
    OutOfMemory,
    /// There was no place for a reader.
    #[error("no place for a reader")]
    NoPlace,
}

impl From<AllocError> for MeetingFault {
    ghost use Rattle.std.specs.Prelude.{◌≡◌};
    ghost use Rattle.mp_meeting.specs.declared.meeting_fault.MeetingFault.TheVariants.{OutOfMemory};

    ghost from_gives = { λ _ fault. fault ≡ OutOfMemory };

    fn from(_error: AllocError) -> MeetingFault {
        MeetingFault::OutOfMemory
    }
}

impl From<DeskCause> for MeetingFault {
    ghost use Rattle.std.specs.Prelude.{◌≡◌};
    ghost use Rattle.mp_meeting.specs.MeetingFaults.{fault_of};

    ghost from_gives = { λ cause fault. fault ≡ fault_of cause };

    fn from(cause: DeskCause) -> MeetingFault {
        match cause {
            DeskCause::OutOfMemory => MeetingFault::OutOfMemory,
            DeskCause::NoPlace => MeetingFault::NoPlace,
        }
    }
}
