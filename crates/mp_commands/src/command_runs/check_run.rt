//! The command `check`.
ghost use Rattle.std.specs.Prelude.{◌≡◌};
ghost use Rattle.mp_commands.specs.command_runs.Clauses.{[], IfErr, IfOk, TakesInput, counted_reads, has_valid_crew};
ghost use Rattle.mp_commands.specs.command_runs.CheckRuns.{ChecksInput, ChecksNetlist, StopsInput, StopsNetlist};

use crate::command_runs::opening::read_opening_at;
use crate::command_runs::options::{Finders, Options};
use crate::command_runs::run_fault::RunFault;
use crate::views::Evaluated;
use mp_check::{CheckAsked, check, put_check};
use mp_engine::find_waves;
use mp_netlist::Netlist;
use mp_streams::{Out, Sink, Source};
use std::alloc::Global;
use std::mem::forget;
use std::sync::Wait;
use std::thread::Threads;

/// Reads the text of a netlist, all of it first, and writes what is asked for of its check. Returns whether anything is wrong: whether a line is written
/// that is no note.
///
/// `ReadFailed` comes if the source fails; then `Text` if the input is too long or the text is not read, `BadCount` if the options have no valid
/// crew, `NoSuchPlace` if neither a module nor a bundle has a name of the selection, and `OutOfMemory` if memory runs out: then nothing is written.
/// `WriteFailed` comes if the sink fails: then a part of the text, from its front, is written.
pub fn run_check<R: Threads + Wait + Sync, S: Source, T: Sink>(
    rt: &R,
    alloc: Global,
    source: &mut S,
    out: &mut Out<T>,
    options: &Options,
    asked: CheckAsked<'_>,
) -> Result<bool, RunFault>
    requires { out.old.held ≡ [] }
    ensures checked { IfOk result (ChecksInput asked.entry (S.left source.old) (has_valid_crew options.now) out.old out.new) }
    ensures stopped { IfErr result (StopsInput asked.entry (S.left source.old) (has_valid_crew options.now) out.old out.new) }
    ensures taken { TakesInput (S.left source.old) (S.left source.new) }
    ensures read_faults { S.fault_count source.new ≡ counted_reads result (S.fault_count source.old) }
{
    let names = asked.selection.names;
    let (netlist, crew) = read_opening_at(alloc, options.keys, source, options.crew(), names)?;
    let progress = options.progress;
    let checked = check_netlist(rt, alloc, out, &netlist, Finders { crew, progress }, asked);
    // the run is over: all memory goes back to the system at once
    forget(netlist);
    let is_wrong = checked?;
    out.flush()?;
    Ok(is_wrong)
}

/// Writes what is asked for of the check of a netlist, and returns whether anything is wrong.
fn check_netlist<R: Threads + Wait + Sync, T: Sink>(
    rt: &R,
    alloc: Global,
    out: &mut Out<T>,
    netlist: &Netlist,
    finders: Finders<'_>,
    asked: CheckAsked<'_>,
) -> Result<bool, RunFault>
    ensures checked { IfOk result (ChecksNetlist asked.entry out.old out.new netlist.now) }
    ensures stopped { IfErr result (StopsNetlist asked.entry out.old out.new netlist.now) }
{
    let Finders { crew, progress } = finders;
    let waves = find_waves(rt, alloc, netlist, &crew, progress)?;
    let of = Evaluated {
        netlist,
        waves: &waves,
        crew,
    };
    let checked = check_waves(rt, alloc, out, &of, asked);
    forget(waves);
    checked
}

/// Writes what is asked for of the check of a netlist with its waves, and returns whether anything is wrong.
fn check_waves<R: Threads + Sync, T: Sink>(
    rt: &R,
    alloc: Global,
    out: &mut Out<T>,
    of: &Evaluated<'_>,
    asked: CheckAsked<'_>,
) -> Result<bool, RunFault>
    ensures checked { IfOk result (ChecksNetlist asked.entry out.old out.new of.now.netlist.now) }
    ensures stopped { IfErr result (StopsNetlist asked.entry out.old out.new of.now.netlist.now) }
{
    let found = check(rt, alloc, of.netlist, of.waves, of.threads())?;
    let is_wrong = found.is_wrong(of.netlist, asked.selection);
    let put = put_check(alloc, out, of.netlist, of.waves, &found, asked);
    drop(found);
    put?;
    Ok(is_wrong)
}
