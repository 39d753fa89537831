//! The netlist that a script edits, from an input of its own.
ghost use Rattle.std.specs.Prelude.{◌≡◌, IfOk, IfErr};
ghost use Rattle.mp_commands.specs.command_runs.RunFaults.{counted_reads};
ghost use Rattle.mp_commands.specs.command_runs.Runs.{TakesInput};
ghost use Rattle.mp_commands.specs.ScriptOpenings.{OpensAs, StaysShut};

use crate::command_runs::{Options, RunFault, read_opening};
use crate::script_session::ScriptSession;
use crate::sessions::Sessions;
use mp_streams::Source;
use std::alloc::Global;
use std::sync::Wait;
use std::thread::Threads;

/// Reads the text of a netlist, all that the source has, and evaluates it. `ReadFailed` comes if the source fails; then `Text` if the input is too
/// long or the text is not read, `BadCount` if the options have no valid crew, and `OutOfMemory` if memory runs out.
pub fn open_keeper<R: Threads + Wait + Sync, S: Source, P: Sessions>(
    sessions: &P,
    rt: &R,
    alloc: Global,
    source: &mut S,
    options: &Options,
) -> Result<ScriptSession<P>, RunFault>
    ensures opened { IfOk result (λ session. OpensAs (S.left source.old) options.now session) }
    ensures refused { IfErr result (StaysShut (S.left source.old) options.now) }
    ensures taken { TakesInput (S.left source.old) (S.left source.new) }
    ensures read_faults { S.fault_count source.new ≡ counted_reads result (S.fault_count source.old) }
{
    let (netlist, crew) = read_opening(alloc, options.keys, source, options.crew())?;
    Ok(ScriptSession::of_netlist(sessions, rt, alloc, netlist, crew)?)
}
