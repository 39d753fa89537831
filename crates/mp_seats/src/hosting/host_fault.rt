//! Why a desk isn't served.
ghost use Rattle.std.specs.Prelude.{◌≡◌};
ghost use Rattle.mp_meeting.specs.declared.meeting_fault.MeetingFault.TheVariants.{OutOfMemory};
ghost use Rattle.mp_seats.specs.declared.hosting.host_fault.HostFault.TheVariants as faults;

use mp_meeting::MeetingFault;
use std::alloc::{AllocError, AllocFailed};
use thiserror::Error;

/// Why a desk isn't served to its end.
#[derive(Clone, Copy, Debug, PartialEq, Eq, Error)]
pub enum HostFault {
    /// The doors aren't those of 1 to 8 designers and of at most 31 viewers.
    #[error("a desk has doors for 1 to 8 designers and for at most 31 viewers")]
    BadSize,
    /// There was no meeting.
    #[error("{0}")]
    Meeting(MeetingFault),
}

impl From<MeetingFault> for HostFault {
    ghost from_gives = { λ error fault. fault ≡ faults.Meeting error };

    fn from(error: MeetingFault) -> HostFault {
        HostFault::Meeting(error)
    }
}

impl From<AllocError> for HostFault {
    ghost from_gives = { λ _ fault. fault ≡ faults.Meeting OutOfMemory };

    fn from(_error: AllocError) -> HostFault {
        HostFault::Meeting(MeetingFault::OutOfMemory)
    }
}

impl<T: Drop> From<AllocFailed<T>> for HostFault {
    ghost from_gives = { λ _ fault. fault ≡ faults.Meeting OutOfMemory };

    fn from(_error: AllocFailed<T>) -> HostFault {
        HostFault::Meeting(MeetingFault::OutOfMemory)
    }
}
