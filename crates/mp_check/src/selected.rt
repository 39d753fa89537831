//! The lines of what is selected.
ghost use Rattle.std.specs.Prelude.{[], filter, if◌then◌else◌};
ghost use Rattle.std.specs.List.{flat_map};
ghost use Rattle.mp_streams.specs.Outgoing.{Writes};
ghost use Rattle.mp_report.specs.Lines.{finding_line};
ghost use Rattle.mp_check.specs.CheckLines.{deadlock_line, late_line};
ghost use Rattle.mp_check.specs.CheckTexts.{selected_findings};
ghost use Rattle.mp_check.specs.Selections.{keeps_deadlock, keeps_finding, keeps_late, selected};

use crate::deadlocks::Deadlock;
use crate::lines::{put_deadlock, put_late};
use crate::run_end::RunEnd;
use crate::selection::Selection;
use mp_model::Finding;
use mp_netlist::Netlist;
use mp_questions::Late;
use mp_report::FindingText;
use mp_streams::{Failed, Out, Sink, Text};

/// Writes the lines of a report for those of the findings that are selected. `Failed` comes if the sink fails; then the sink has a beginning of what was
/// held and of the lines, and nothing is held. It takes no memory.
pub fn put_selected_report<S: Sink>(
    out: &mut Out<S>,
    netlist: &Netlist,
    findings: &[Finding],
    selection: Selection<'_>,
) -> Result<(), Failed>
    ensures { Writes result out.old out.new (selected_findings netlist.now (selected selection.entry) findings.now) }
{
    for &finding in findings {
        put_finding(out, netlist, finding, selection)?;
    }
    Ok(())
}

/// Writes the line of a finding, if it is selected.
fn put_finding<S: Sink>(
    out: &mut Out<S>,
    netlist: &Netlist,
    finding: Finding,
    selection: Selection<'_>,
) -> Result<(), Failed>
    ensures { Writes result out.old out.new (if keeps_finding netlist.now (selected selection.entry) finding then finding_line netlist.now finding else []) }
{
    if !selection.keeps_finding(netlist, finding) {
        return Ok(());
    }
    let end = "\n";
    FindingText {
        netlist,
        finding,
        end,
    }
    .put_to(out)
}

/// Writes the lines of the late data that are selected.
pub(crate) fn put_all_late<S: Sink>(
    out: &mut Out<S>,
    netlist: &Netlist,
    late: &[Late],
    selection: Selection<'_>,
) -> Result<(), Failed>
    ensures { Writes result out.old out.new (flat_map (late_line netlist.now) (filter (keeps_late netlist.now (selected selection.entry)) late.now)) }
{
    for &one in late {
        put_selected_late(out, netlist, one, selection)?;
    }
    Ok(())
}

/// Writes the line of late data, if they are selected.
fn put_selected_late<S: Sink>(
    out: &mut Out<S>,
    netlist: &Netlist,
    late: Late,
    selection: Selection<'_>,
) -> Result<(), Failed>
    ensures { Writes result out.old out.new (if keeps_late netlist.now (selected selection.entry) late then late_line netlist.now late else []) }
{
    if !selection.keeps_late(netlist, late) {
        return Ok(());
    }
    put_late(out, netlist, late)
}

/// Writes the lines of the deadlocks that are selected.
pub(crate) fn put_deadlocks<S: Sink>(
    out: &mut Out<S>,
    end: &RunEnd<'_>,
    deadlocks: &[Deadlock],
    selection: Selection<'_>,
) -> Result<(), Failed>
    ensures { Writes result out.old out.new (flat_map (deadlock_line end.now.at.netlist.now) (filter (keeps_deadlock end.now.at.netlist.now (selected selection.entry)) deadlocks.now)) }
{
    for deadlock in deadlocks {
        put_selected_deadlock(out, end, deadlock, selection)?;
    }
    Ok(())
}

/// Writes the line of a deadlock, if it is selected.
fn put_selected_deadlock<S: Sink>(
    out: &mut Out<S>,
    end: &RunEnd<'_>,
    deadlock: &Deadlock,
    selection: Selection<'_>,
) -> Result<(), Failed>
    ensures { Writes result out.old out.new (if keeps_deadlock end.now.at.netlist.now (selected selection.entry) deadlock.now then deadlock_line end.now.at.netlist.now deadlock.now else []) }
{
    let waits = deadlock.waits();
    if !selection.keeps_deadlock(end.at.netlist, waits) {
        return Ok(());
    }
    put_deadlock(out, end, waits)
}
