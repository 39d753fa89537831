//! The report of a netlist.
ghost use Rattle.mp_streams.specs.WriteErrors.{Writes};
ghost use Rattle.mp_check.specs.CheckTexts.{selected_report};
ghost use Rattle.mp_check.specs.Selections.{selected};

use crate::views::evaluated::Evaluated;
use mp_check::{Selection, put_selected_report};
use mp_report::report;
use mp_streams::{Out, Sink, WriteError};
use std::alloc::Global;
use std::thread::Threads;

/// Writes a line for each finding that is selected: by time, then the modules by number and the bundles by number, then by the codes' numbers.
#[tactic(auto, unfolding(mp_check::specs::CheckTexts::selected_report))]
pub(crate) fn put_report_lines<R: Threads + Sync, T: Sink>(
    rt: &R,
    alloc: Global,
    out: &mut Out<T>,
    of: &Evaluated<'_>,
    selection: Selection<'_>,
) -> Result<(), WriteError>
    ensures { Writes result out.old out.new (selected_report of.now.netlist.now (selected selection.entry)) }
{
    let found = report(rt, alloc, of.netlist, of.waves, of.threads())?;
    Ok(put_selected_report(out, of.netlist, found.as_slice(), selection)?)
}
