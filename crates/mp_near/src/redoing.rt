//! What an edit reaches is evaluated again.
ghost use Rattle.std.specs.Prelude.{◌≡◌, IfOk, Ok, true};
ghost use Rattle.mp_netlist.specs.Delays.{least_delay};
ghost use Rattle.mp_netlist.specs.Edits.{after};
ghost use Rattle.mp_partition.specs.runs.Runs.{IsRun};
ghost use Rattle.mp_depend.specs.work.Revisions.{IsRevision};
ghost use Rattle.mp_depend.specs.work.WorkSpans.{AreWorkSpans};
ghost use Rattle.mp_depend.specs.work.Work.{IsEntry, IsWork};
ghost use Rattle.mp_phase.specs.Allowed.{IsAllowed};
ghost use Rattle.mp_near.specs.Changes.{IsChange};
ghost use Rattle.mp_near.specs.region.Regions.{HasLeast, IsSmall};

use crate::region::{Small, find_small};
use crate::revision::Revision;
use crate::runs::{RegionGate, all_work_spans, run_after, run_before};
use mp_depend::{Work, WorkSpan};
use mp_netlist::{Edit, Netlist};
use mp_partition::Run;
use mp_phase::Gate;
use mp_redo::{RerunContext, redo};
use std::alloc::{AllocError, Global};
use std::sync::Wait;
use std::thread::Threads;

/// The run of a netlist after an edit, from the run before it, and the work of it. If the edit reaches few modules, these are evaluated again as a
/// netlist of their own, and otherwise as `redo` of the crate below does it. A module passes the gate for each entry of the work. If memory runs out,
/// the old run stays.
pub fn redo_edit<R: Threads + Wait + Sync, G: Gate + Sync>(
    context: &RerunContext<'_, R, G>,
    old: &Netlist,
    run: &Run,
    edit: &Edit,
    new: &Netlist,
) -> Result<(Run, Work), AllocError>
    requires after { after old.now edit.now ≡ Ok new.now }
    requires revision { IsRevision old.now new.now }
    requires run { IsRun old.now run.now }
    requires allowed { IsAllowed (IsEntry old.now new.now) (G.may context.now.gate.now) }
    ensures run { IfOk result (λ both. IsRun new.now both.0) }
    ensures work { IfOk result (λ both. IsWork old.now new.now both.1) }
{
    // Their contracts say that the netlists are well formed.
    let _old_horizon = old.horizon();
    let _new_horizon = new.horizon();
    let least = new.least_delay();
    let change = Revision {
        old,
        run,
        new,
        least,
    };
    let Some(region) = find_small(context.alloc, &change, edit)? else {
        return redo(context, old, run, new);
    };
    let redone = redo_by(context, &change, &region);
    drop(region);
    redone
}

/// Evaluates a change again by a region of it, if that has the least delay of its netlist.
fn redo_by<R: Threads + Wait + Sync, G: Gate + Sync>(
    context: &RerunContext<'_, R, G>,
    change: &Revision<'_>,
    region: &Small,
) -> Result<(Run, Work), AllocError>
    requires change { IsChange change.now }
    requires region { IsSmall change.now.old.now change.now.new.now region.now }
    requires allowed { IsAllowed (IsEntry change.now.old.now change.now.new.now) (G.may context.now.gate.now) }
    ensures run { IfOk result (λ both. IsRun change.now.new.now both.0) }
    ensures work { IfOk result (λ both. IsWork change.now.old.now change.now.new.now both.1) }
{
    if !has_least(change, region) {
        return redo(context, change.old, change.run, change.new);
    }
    redo_region(context, change, region)
}

/// Whether a region has the least delay of its netlist, or no modules.
fn has_least(change: &Revision<'_>, region: &Small) -> bool
    requires { change.now.least ≡ least_delay change.now.new.now }
    ensures { result ≡ true → HasLeast change.now.new.now region.entry.now }
{
    region.picked.modules.numbers.is_empty() || region.now.least_delay() == change.least
}

/// Evaluates a region again, and puts what becomes of it into the run of the netlist.
fn redo_region<R: Threads + Wait + Sync, G: Gate + Sync>(
    context: &RerunContext<'_, R, G>,
    change: &Revision<'_>,
    region: &Small,
) -> Result<(Run, Work), AllocError>
    requires change { IsChange change.now }
    requires region { IsSmall change.now.old.now change.now.new.now region.now }
    requires least { HasLeast change.now.new.now region.now }
    requires allowed { IsAllowed (IsEntry change.now.old.now change.now.new.now) (G.may context.now.gate.now) }
    ensures run { IfOk result (λ both. IsRun change.now.new.now both.0) }
    ensures work { IfOk result (λ both. IsWork change.now.old.now change.now.new.now both.1) }
{
    let alloc = context.alloc;
    let (found, work_spans) = redo_small(context, change, region)?;
    let work = work_of(alloc, change, region, work_spans.as_slice());
    drop(work_spans);
    let Ok(work) = work else {
        drop(found);
        return Err(AllocError);
    };
    let after = run_after(alloc, change, region, &found);
    drop(found);
    match after {
        Ok(after) => Ok((after, work)),
        Err(error) => {
            drop(work);
            Err(error)
        }
    }
}

/// The run of a region after a change, and the work spans of it.
fn redo_small<R: Threads + Wait + Sync, G: Gate + Sync>(
    context: &RerunContext<'_, R, G>,
    change: &Revision<'_>,
    region: &Small,
) -> Result<(Run, Vec<WorkSpan>), AllocError>
    requires change { IsChange change.now }
    requires region { IsSmall change.now.old.now change.now.new.now region.now }
    requires least { HasLeast change.now.new.now region.now }
    requires allowed { IsAllowed (IsEntry change.now.old.now change.now.new.now) (G.may context.now.gate.now) }
    ensures run { IfOk result (λ both. IsRun region.entry.now.now both.0) }
    ensures work_spans { IfOk result (λ both. AreWorkSpans region.entry.now.was region.entry.now.now both.1.items) }
{
    let before = run_before(context.alloc, change, region)?;
    let gate = RegionGate {
        gate: context.gate,
        modules: region.picked.modules.numbers.as_slice(),
    };
    let inner = RerunContext {
        rt: context.rt,
        alloc: context.alloc,
        crew: context.crew,
        gate: &gate,
    };
    let redone = mp_redo::rerun::redo(&inner, &region.was, &before, &region.now);
    drop(before);
    redone
}

/// The work of a change, by the work spans of its region.
fn work_of(
    alloc: Global,
    change: &Revision<'_>,
    region: &Small,
    work_spans: &[WorkSpan],
) -> Result<Work, AllocError>
    requires change { IsChange change.now }
    requires region { IsSmall change.now.old.now change.now.new.now region.now }
    requires least { HasLeast change.now.new.now region.now }
    requires work_spans { AreWorkSpans region.now.was region.now.now work_spans.now }
    ensures { IfOk result (IsWork change.now.old.now change.now.new.now) }
{
    let modules = region.picked.modules.numbers.as_slice();
    let all = all_work_spans(alloc, modules, work_spans)?;
    Ok(Work::of_change(change.old, change.new, all))
}
