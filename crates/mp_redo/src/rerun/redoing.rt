//! What has changed with a netlist is evaluated again.
ghost use Rattle.std.specs.Prelude.{◌≡◌, IfOk};
ghost use Rattle.mp_partition.specs.runs.Runs.{IsRun};
ghost use Rattle.mp_phase.specs.Allowed.{IsAllowed};
ghost use Rattle.mp_redo.specs.rerun.Reruns.{IsChange};
ghost use Rattle.mp_depend.specs.work.Revisions.{IsRevision};
ghost use Rattle.mp_depend.specs.work.WorkSpans.{AreWorkSpans};
ghost use Rattle.mp_depend.specs.work.Work.{IsEntry};

use crate::rerun::change::Change;
use crate::rerun::rerun::Rerun;
use crate::rerun::rerun_context::RerunContext;
use mp_depend::WorkSpan;
use mp_netlist::Netlist;
use mp_partition::Run;
use mp_phase::Gate;
use std::alloc::AllocError;
use std::sync::Wait;
use std::thread::Threads;

/// The run of a netlist after an edit, from the run before it, and the work spans of its work, in any order. One simulation of the new netlist has
/// only the active modules: those that the change touches from time 0 on, and any other from the unit on in which one of its inputs first differs
/// from the old run. At the border of a block an untouched module whose state is that of the old run again becomes inactive. A module passes the gate
/// for each entry of the work. Modules that become active in the same unit answer once more from their block's begin up to it on the threads of the
/// crew, if they are as many as it shares out. The calling thread does all else. If memory runs out, the old run stays.
pub fn redo<R: Threads + Wait + Sync, G: Gate + Sync>(
    context: &RerunContext<'_, R, G>,
    old: &Netlist,
    run: &Run,
    new: &Netlist,
) -> Result<(Run, Vec<WorkSpan>), AllocError>
    requires allowed { IsAllowed (IsEntry old.now new.now) (G.may context.now.gate.now) }
    requires revision { IsRevision old.now new.now }
    requires run { IsRun old.now run.now }
    ensures run { IfOk result (λ both. IsRun new.now both.0) }
    ensures work_spans { IfOk result (λ both. AreWorkSpans old.now new.now both.1.items) }
{
    let change = change_between(old, run, new);
    run_again(context, &change)
}

/// Evaluates again what the change reaches, unit by unit, and returns the run with the spans of work in no order.
fn run_again<R: Threads + Wait + Sync, G: Gate + Sync>(
    context: &RerunContext<'_, R, G>,
    change: &Change<'_>,
) -> Result<(Run, Vec<WorkSpan>), AllocError>
    requires allowed { IsAllowed (IsEntry change.now.old.now change.now.new.now) (G.may context.now.gate.now) }
    requires change { IsChange change.now }
    ensures run { IfOk result (λ both. IsRun change.now.new.now both.0) }
    ensures work_spans { IfOk result (λ both. AreWorkSpans change.now.old.now change.now.new.now both.1.items) }
{
    let mut rerun = Rerun::begin(context.alloc, change)?;
    let entered = rerun.enter_window(context.rt, context.gate, change, 0);
    let Ok(end) = rerun.pass_all(context, change, entered) else {
        drop(rerun);
        return Err(AllocError);
    };
    rerun.finish(context.alloc, change, end)
}

/// The change from a netlist with this run to a new netlist.
fn change_between<'a>(old: &'a Netlist, run: &'a Run, new: &'a Netlist) -> Change<'a>
    requires revision { IsRevision old.now new.now }
    requires run { IsRun old.now run.now }
    ensures is { IsChange result }
    ensures old { result.old.now ≡ old.now }
    ensures new { result.new.now ≡ new.now }
{
    // Their contracts say that the netlists are well formed.
    let _old_horizon = old.horizon();
    let _new_horizon = new.horizon();
    let least = new.least_delay();
    Change {
        old,
        run,
        new,
        least,
    }
}
