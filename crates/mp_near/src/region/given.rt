//! Wires that have their levels from outside of a region.
ghost use Rattle.std.specs.Prelude.{◌≡◌, IfOk};
ghost use Rattle.mp_netlist.specs.Drivers.{driver};
ghost use Rattle.mp_near.specs.region.Given.{AreGiven, is_outside};

use crate::reach::is_marked;
use mp_netlist::{Driver, Netlist, WireId};
use std::alloc::{AllocError, Global};

/// Whether a module that isn't marked drives each of these wires.
pub(crate) fn given_wires(
    alloc: Global,
    new: &Netlist,
    modules: &[bool],
    wires: &[u32],
) -> Result<Vec<bool>, AllocError>
    ensures { IfOk result (λ given. AreGiven new.now modules.now wires.now given.items) }
{
    let mut given = Vec::with_capacity(alloc, wires.len())?;
    for wire in wires {
        given.push(is_given(new, modules, *wire))?;
    }
    Ok(given)
}

/// Whether a module that isn't marked drives the wire.
fn is_given(new: &Netlist, modules: &[bool], wire: u32) -> bool
    ensures { result ≡ is_outside modules.now (driver new.now wire) }
{
    match new.driver_of(WireId(wire)) {
        Driver::Port(id, _) => !is_marked(modules, id.0),
        _ => false,
    }
}
