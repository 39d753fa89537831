//! The versions before an edit and after it.
ghost use Rattle.std.specs.Prelude.{◌≡◌, ◌<◌, Ok, IfOk, length};
ghost use Rattle.std.specs.Arc.{arc_value};
ghost use Rattle.mp_netlist.specs.Edits.{after};
ghost use Rattle.mp_partition.specs.runs.Runs.{IsRun};
ghost use Rattle.mp_version.specs.Limits.{max_edits};
ghost use Rattle.mp_version.specs.Stories.{present, one_more};

use mp_netlist::{Edit, Netlist};
use mp_partition::Run;
use mp_version::Version;
use std::alloc::{AllocError, Global};
use std::sync::Arc;

/// The version before an edit, the edit, and the version after it, with its netlist and the waves of its run.
pub(crate) fn versions_of(
    alloc: Global,
    version: &Arc<Version, Global>,
    edit: Edit,
    next: Netlist,
    run: &Run,
) -> Result<
    (
        Arc<Version, Global>,
        Arc<Edit, Global>,
        Arc<Version, Global>,
    ),
    AllocError,
>
    requires accepted { after (present (arc_value version.now)) edit ≡ Ok next }
    requires room { length (arc_value version.now).edits < max_edits }
    requires run { IsRun next run.now }
    ensures before { IfOk result (λ all. arc_value all.0 ≡ arc_value version.now) }
    ensures edit { IfOk result (λ all. arc_value all.1 ≡ edit) }
    ensures story { IfOk result (λ all. arc_value all.2 ≡ one_more (arc_value version.now) edit) }
    ensures now { IfOk result (λ all. present (arc_value all.2) ≡ next) }
{
    let edit = match Arc::new(alloc, edit) {
        Ok(edit) => edit,
        Err(refused) => {
            drop(refused);
            drop(next);
            return Err(AllocError);
        }
    };
    let Ok(next) = next_version(alloc, version, &edit, next, run) else {
        drop(edit);
        return Err(AllocError);
    };
    let Ok(before) = Arc::try_clone(version) else {
        drop(edit);
        drop(next);
        return Err(AllocError);
    };
    Ok((before, edit, next))
}

/// The version after an edit, with its netlist and the waves of its run.
fn next_version(
    alloc: Global,
    version: &Version,
    edit: &Arc<Edit, Global>,
    next: Netlist,
    run: &Run,
) -> Result<Arc<Version, Global>, AllocError>
    requires accepted { after (present version.now) (arc_value edit.now) ≡ Ok next }
    requires room { length version.now.edits < max_edits }
    requires run { IsRun next run.now }
    ensures story { IfOk result (λ after. arc_value after ≡ one_more version.now (arc_value edit.now)) }
    ensures now { IfOk result (λ after. present (arc_value after) ≡ next) }
{
    let Ok(waves) = run.waves().share(alloc) else {
        drop(next);
        return Err(AllocError);
    };
    let Ok(edit) = Arc::try_clone(edit) else {
        drop(next);
        drop(waves);
        return Err(AllocError);
    };
    let next = version.next(alloc, edit, next, waves)?;
    Ok(Arc::new(alloc, next)?)
}
