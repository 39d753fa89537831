//! The fault of a run whose meeting didn't come about.
ghost use Rattle.std.specs.Prelude.{◌≡◌};
ghost use Rattle.mp_commands.specs.MeetingFaults.{run_fault_of};

use crate::command_runs::RunFault;
use mp_meeting::MeetingFault;

/// The fault of a run whose meeting ended with this one.
pub fn fault_of_meeting(fault: MeetingFault) -> RunFault
    ensures { result ≡ run_fault_of fault }
{
    match fault {
        MeetingFault::OutOfMemory => RunFault::OutOfMemory,
        MeetingFault::NoPlace => RunFault::NoPlace,
    }
}
