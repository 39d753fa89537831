//! The run of a netlist after an edit, by its run before the edit and the run of a region after it.
ghost use Rattle.std.specs.Prelude.{IfOk};
ghost use Rattle.mp_partition.specs.runs.Runs.{IsRun};
ghost use Rattle.mp_near.specs.region.Regions.{AreRuns};

use crate::region::Small;
use crate::revision::Revision;
use mp_partition::Run;
use std::alloc::{AllocError, Global};

/// The run of the new netlist: what is picked is as in the run of the region, and all else as in the old run, with which it is shared.
pub(crate) fn run_after(
    alloc: Global,
    change: &Revision<'_>,
    small: &Small,
    found: &Run,
) -> Result<Run, AllocError>
    requires { AreRuns change.now small.now found.now }
    ensures { IfOk result (IsRun change.now.new.now) }
{
    let wires = small.picked.wires.numbers.as_slice();
    let modules = small.picked.modules.numbers.as_slice();
    change.run.with_part(alloc, wires, modules, found)
}
