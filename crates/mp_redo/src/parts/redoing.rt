//! What has changed with a netlist is evaluated again, part by part.
ghost use Rattle.std.specs.Prelude.{IfOk};
ghost use Rattle.mp_partition.specs.runs.Runs.{IsRun};
ghost use Rattle.mp_depend.specs.work.Revisions.{IsRevision};
ghost use Rattle.mp_depend.specs.work.WorkSpans.{AreWorkSpans};
ghost use Rattle.mp_depend.specs.work.Work.{IsEntry, IsWork};
ghost use Rattle.mp_phase.specs.Allowed.{IsAllowed};
ghost use Rattle.mp_redo.specs.parts.Changes.{IsChange};
ghost use Rattle.mp_redo.specs.parts.Redone.{AreRedone};

use crate::parts::partition::choose_partition;
use crate::parts::parts_change::PartsChange;
use crate::parts::redone::Redone;
use crate::parts::together::redo_together;
use crate::parts::whole_run::whole_run;
use crate::rerun::RerunContext;
use mp_depend::{Work, WorkSpan};
use mp_netlist::Netlist;
use mp_partition::Run;
use mp_phase::Gate;
use std::alloc::{AllocError, Global};
use std::sync::Wait;
use std::thread::Threads;

/// The run of a netlist after an edit, from the run before it, and the work of it. If the change reaches many modules at once, and both netlists fall
/// into the same parts that no wire connects, each part is evaluated again on a thread of its own. Otherwise the calling thread does all, but for the
/// modules that begin to work in the same unit, which the threads of the crew share. A module passes the gate for each entry of the work. If memory
/// runs out, the old run stays.
pub fn redo<R: Threads + Wait + Sync, G: Gate + Sync>(
    context: &RerunContext<'_, R, G>,
    old: &Netlist,
    run: &Run,
    new: &Netlist,
) -> Result<(Run, Work), AllocError>
    requires revision { IsRevision old.now new.now }
    requires run { IsRun old.now run.now }
    requires allowed { IsAllowed (IsEntry old.now new.now) (G.may context.now.gate.now) }
    ensures run { IfOk result (λ both. IsRun new.now both.0) }
    ensures work { IfOk result (λ both. IsWork old.now new.now both.1) }
{
    // Their contracts say that the netlists are well formed.
    let _old_horizon = old.horizon();
    let _new_horizon = new.horizon();
    let Some(partition) = choose_partition(context.alloc, old, new, context.crew)? else {
        let (run, work_spans) = crate::rerun::redo(context, old, run, new)?;
        return Ok((run, Work::of_change(old, new, work_spans)));
    };
    let partition = &partition;
    let change = PartsChange {
        old,
        run,
        new,
        partition,
    };
    redo_parts(context, change)
}

/// Evaluates each part again as a netlist of its own, and puts the runs and the work of all parts together.
fn redo_parts<R: Threads + Wait + Sync, G: Gate + Sync>(
    context: &RerunContext<'_, R, G>,
    change: PartsChange<'_>,
) -> Result<(Run, Work), AllocError>
    requires change { IsChange change }
    requires allowed { IsAllowed (IsEntry change.old.now change.new.now) (G.may context.now.gate.now) }
    ensures run { IfOk result (λ both. IsRun change.entry.new.now both.0) }
    ensures work { IfOk result (λ both. IsWork change.entry.old.now change.entry.new.now both.1) }
{
    let alloc = context.alloc;
    let parts = redo_together(context.rt, alloc, change, context.gate)?;
    let run = whole_run(alloc, &change, parts.as_slice())?;
    let Ok(work_spans) = all_work_spans(alloc, &change, parts.as_slice()) else {
        drop(run);
        return Err(AllocError);
    };
    Ok((run, Work::of_change(change.old, change.new, work_spans)))
}

/// The work spans of all parts.
fn all_work_spans(
    alloc: Global,
    change: &PartsChange<'_>,
    parts: &[Redone],
) -> Result<Vec<WorkSpan>, AllocError>
    requires change { IsChange change.now }
    requires parts { AreRedone change.now parts.now }
    ensures { IfOk result (λ all. AreWorkSpans change.now.old.now change.now.new.now all.items) }
{
    let mut all = Vec::new(alloc);
    for k in 0..change.partition.division.parts {
        all.extend_from_slice(parts[k as usize].work_spans.as_slice())?;
    }
    Ok(all)
}
