//! What comes of the numbers of wires and copies: the copies of wires of width 1, those of wires with data, and the level that each number begins with.
ghost use Rattle.std.specs.Prelude.{◌≡◌, IfOk, length, map, not, if◌then◌else◌};
ghost use Rattle.mp_netlist.specs.Circuit.{wire_at};
ghost use Rattle.mp_model.specs.Levels.{initial_of};
ghost use Rattle.mp_kernel.specs.events.Firing.{no_port};
ghost use Rattle.mp_simulation.specs.units.DataLevels.{is_data};
ghost use Rattle.mp_simulation.specs.run.Numbering.{AreCopiesOf, level_of_wire, is_bit};

use crate::run::seating::no_port;
use crate::run::widths::has_data;
use mp_kernel::OutputPort;
use mp_netlist::WireId;
use mp_partition::Region;
use std::alloc::{AllocError, Global};

/// What is next after each number that is of a wire of width 1. The wires of the numbers are listed.
pub(crate) fn bit_copies(
    alloc: Global,
    netlist: &Region<'_>,
    wires: &[u32],
    next: &[OutputPort],
) -> Result<Vec<OutputPort>, AllocError>
    requires { length wires.now ≡ length next.now }
    ensures { IfOk result (λ copies. AreCopiesOf (is_bit netlist.now) wires.now next.now copies.items) }
{
    let mut copies = Vec::new(alloc);
    for x in 0..next.len() {
        let is_bit = !has_data(netlist, WireId(wires[x]));
        copies.push(kept_if(is_bit, next[x]))?;
    }
    Ok(copies)
}

/// What is next after each number that is of a wire with data. The wires of the numbers are listed.
pub(crate) fn data_copies(
    alloc: Global,
    netlist: &Region<'_>,
    wires: &[u32],
    next: &[OutputPort],
) -> Result<Vec<OutputPort>, AllocError>
    requires { length wires.now ≡ length next.now }
    ensures { IfOk result (λ copies. AreCopiesOf (is_data netlist.now) wires.now next.now copies.items) }
{
    let mut copies = Vec::new(alloc);
    for x in 0..next.len() {
        let is_data = has_data(netlist, WireId(wires[x]));
        copies.push(kept_if(is_data, next[x]))?;
    }
    Ok(copies)
}

/// The port, if it is kept, and otherwise one that drives no wire.
fn kept_if(is_kept: bool, port: OutputPort) -> OutputPort
    ensures { result ≡ (if is_kept then port else no_port) }
{
    if is_kept { port } else { no_port() }
}

/// The initial levels of these wires.
pub(crate) fn levels_of(
    alloc: Global,
    netlist: &Region<'_>,
    wires: &[u32],
) -> Result<Vec<u64>, AllocError>
    ensures { IfOk result (λ levels. levels.items ≡ map (level_of_wire netlist.now) wires.now) }
{
    let mut levels = Vec::new(alloc);
    for wire in wires {
        levels.push(netlist.initial_level(WireId(*wire)))?;
    }
    Ok(levels)
}
