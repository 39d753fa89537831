//! Modules pass the gate before they answer.
ghost use Rattle.std.specs.Prelude.{◌+◌, ◌<◌, ◌^◌};
ghost use Rattle.mp_phase.specs.Allowed.{IsOpen};

use mp_netlist::ModuleId;
use mp_partition::Region;
use mp_phase::Gate;
use std::alloc::{AllocError, Global};
use std::sync::Wait;

/// The modules of these numbers pass the gate, each for the unit at a time.
pub(crate) fn pass_gate<G: Gate, R: Wait>(rt: &R, gate: &G, modules: &[u32], time: u32)
    requires open { IsOpen (G.may gate.now) }
    requires time { time + 1 < 2 ^ 32 }
{
    for number in modules {
        gate.enter(rt, ModuleId(*number), time, time + 1);
    }
}

/// All modules of the partition pass the gate for time 0.
pub(crate) fn pass_all<R: Wait, G: Gate>(
    rt: &R,
    alloc: Global,
    region: &Region<'_>,
    gate: &G,
) -> Result<(), AllocError>
    requires open { IsOpen (G.may gate.now) }
{
    let modules = all_modules(alloc, region)?;
    pass_gate(rt, gate, modules.as_slice(), 0);
    Ok(())
}

/// The modules of the partition, by number.
fn all_modules(alloc: Global, netlist: &Region<'_>) -> Result<Vec<u32>, AllocError> {
    let mut modules = Vec::new(alloc);
    for m in 0..netlist.module_slots() {
        if netlist.module(ModuleId(m)).is_some() {
            modules.push(m)?;
        }
    }
    Ok(modules)
}
