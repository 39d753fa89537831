//! The fault of a run whose lines ended with one.
ghost use Rattle.std.specs.Prelude.{◌≡◌};
ghost use Rattle.mp_commands.specs.live.TalkFaults.{run_fault_of};

use crate::command_runs::RunFault;
use mp_seats::TalkFault;

/// The fault of a run whose lines ended with this one.
pub fn fault_of_talk(fault: TalkFault) -> RunFault
    ensures { result ≡ run_fault_of fault }
{
    match fault {
        TalkFault::ReadFailed => RunFault::ReadFailed,
        TalkFault::WriteFailed => RunFault::WriteFailed,
        TalkFault::OutOfMemory => RunFault::OutOfMemory,
    }
}
