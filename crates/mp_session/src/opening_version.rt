//! The run and the version that a session begins with.
ghost use Rattle.std.specs.Prelude.{◌≡◌, IfOk};
ghost use Rattle.std.specs.Arc.{arc_value};
ghost use Rattle.mp_partition.specs.runs.Runs.{IsRun};
ghost use Rattle.mp_version.specs.Stories.{opening};
ghost use Rattle.mp_phase.specs.Allowed.{IsOpen};

use mp_engine::evaluate;
use mp_netlist::Netlist;
use mp_partition::Run;
use mp_phase::{Crew, Gate};
use mp_version::Version;
use std::alloc::{AllocError, Global};
use std::sync::{Arc, Wait};
use std::thread::Threads;

/// The run of a netlist, to be shared: what an edit leaves as it is isn't copied.
pub(crate) fn first_run<R: Threads + Wait + Sync, G: Gate + Sync>(
    rt: &R,
    alloc: Global,
    netlist: &Netlist,
    crew: &Crew,
    gate: &G,
) -> Result<Run, AllocError>
    requires open { IsOpen (G.may gate.now) }
    ensures { IfOk result (IsRun netlist.now) }
{
    let run = evaluate(rt, alloc, netlist, crew, gate)?;
    let shared = run.share(alloc);
    drop(run);
    shared
}

/// The version of a netlist before the first edit, with the waves of its run.
pub(crate) fn opening_version(
    alloc: Global,
    netlist: &Netlist,
    run: &Run,
) -> Result<Arc<Version, Global>, AllocError>
    requires { IsRun netlist.now run.now }
    ensures { IfOk result (λ version. arc_value version ≡ opening netlist.now) }
{
    let copy = netlist.copy()?;
    let Ok(waves) = run.waves().share(alloc) else {
        drop(copy);
        return Err(AllocError);
    };
    let version = Version::opening(alloc, copy, waves)?;
    Ok(Arc::new(alloc, version)?)
}
