//! What is asked for of a check.
ghost use Rattle.mp_streams.specs.WriteErrors.{Writes};
ghost use Rattle.mp_streams.specs.Outgoing.{Writes as WritesTo};
ghost use Rattle.std.specs.Prelude.{◌≡◌, ◌++◌, IfErr};
ghost use Rattle.mp_streams.specs.declared.write_error.WriteError.TheVariants.{OutOfMemory};
ghost use Rattle.mp_model.specs.Waves.{AreWavesOf};
ghost use Rattle.mp_check.specs.CheckTexts.{check_text, problem_lines, selected_deadlocks, selected_late, selected_notes, selected_report};
ghost use Rattle.mp_check.specs.Checks.{IsCheckOf};
ghost use Rattle.mp_check.specs.Selections.{selected};

use crate::brief::put_groups;
use crate::checked::Checked;
use crate::grouping::groups_of;
use crate::notes::put_notes;
use crate::run_end::RunEnd;
use crate::selected::{put_all_late, put_deadlocks, put_selected_report};
use crate::selection::Selection;
use mp_model::Waves;
use mp_netlist::Netlist;
use mp_streams::{Failed, Out, Sink, WriteError};
use std::alloc::Global;

/// Which lines of a check are written.
#[derive(Clone, Copy)]
pub struct CheckAsked<'a> {
    pub selection: Selection<'a>,
    /// Whether all findings and late data of a module or bundle that have one code share a line.
    pub is_brief: bool,
}

/// Writes what a check of a netlist found, as far as it is selected: the lines of the report, a line `TIME bundle NAME late UNITS` for each change of
/// data that is late, a line `TIME deadlock MODULE waits for WIRE, ..` for each deadlock, a line `note wire NAME ..` for each note on a wire, and a line
/// `note bundle NAME is busy since TIME` for each bundle that nobody ended in a run that is over. Times are in units from 0.
///
/// In brief there is a line for all findings, and one for all late data, of a module or bundle that have one code:
/// `module NAME CODE COUNT times, first TIME, last TIME` or `bundle NAME late COUNT times, first TIME, last TIME, worst UNITS`, and if there is only one
/// `module NAME CODE 1 time, at TIME` or `bundle NAME late 1 time, at TIME, by UNITS`. These lines come by the first time, and if that is the same, in
/// the order of the lines for which they stand.
///
/// `WriteFailed` comes if the sink fails; then the sink has a beginning of what was held and of the lines, and nothing is held. `OutOfMemory` comes if
/// memory runs out; then nothing is written. It takes memory only in brief, for what is selected of findings and late data.
pub fn put_check<S: Sink>(
    alloc: Global,
    out: &mut Out<S>,
    netlist: &Netlist,
    waves: &Waves,
    check: &Checked,
    asked: CheckAsked<'_>,
) -> Result<(), WriteError>
    requires waves { AreWavesOf netlist.now waves.now }
    requires check { IsCheckOf netlist.now check.now }
    ensures written { Writes result out.old out.new (check_text netlist.now (selected asked.entry.selection) asked.entry.is_brief) }
    ensures wanting { IfErr result (λ error. error ≡ OutOfMemory → out.new ≡ out.old) }
{
    let end = RunEnd::new(netlist, waves, check.drivers.as_slice());
    put_problems(alloc, out, netlist, check, asked)?;
    put_rest(out, &end, check, asked.selection)?;
    Ok(())
}

/// Writes findings and late data.
fn put_problems<S: Sink>(
    alloc: Global,
    out: &mut Out<S>,
    netlist: &Netlist,
    check: &Checked,
    asked: CheckAsked<'_>,
) -> Result<(), WriteError>
    requires { IsCheckOf netlist.now check.now }
    ensures written { Writes result out.old out.new (problem_lines netlist.now (selected asked.entry.selection) asked.entry.is_brief) }
    ensures wanting { IfErr result (λ error. error ≡ OutOfMemory → out.new ≡ out.old) }
{
    let selection = asked.selection;
    if asked.is_brief {
        let groups = groups_of(alloc, netlist, check, selection)?;
        put_groups(out, netlist, groups.as_slice())?;
        return Ok(());
    }
    put_each(out, netlist, check, selection)?;
    Ok(())
}

/// Writes findings and late data, a line each.
fn put_each<S: Sink>(
    out: &mut Out<S>,
    netlist: &Netlist,
    check: &Checked,
    selection: Selection<'_>,
) -> Result<(), Failed>
    requires { IsCheckOf netlist.now check.now }
    ensures { WritesTo result out.old out.new (selected_report netlist.now (selected selection.entry) ++ selected_late netlist.now (selected selection.entry)) }
{
    put_selected_report(out, netlist, check.findings.as_slice(), selection)?;
    put_all_late(out, netlist, check.late.as_slice(), selection)
}

/// Writes deadlocks and notes.
fn put_rest<S: Sink>(
    out: &mut Out<S>,
    end: &RunEnd<'_>,
    check: &Checked,
    selection: Selection<'_>,
) -> Result<(), Failed>
    requires { IsCheckOf end.now.at.netlist.now check.now }
    ensures { WritesTo result out.old out.new (selected_deadlocks end.now.at.netlist.now (selected selection.entry) ++ selected_notes end.now.at.netlist.now (selected selection.entry)) }
{
    put_deadlocks(out, end, check.deadlocks.as_slice(), selection)?;
    put_notes(out, end, check.read.as_slice(), selection)
}
