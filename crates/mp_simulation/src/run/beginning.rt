//! What a simulation of a netlist begins with.
ghost use Rattle.std.specs.Prelude.{◌≡◌, ◌<◌, IfOk};
ghost use Rattle.mp_netlist.specs.Circuit.{IsCircuit};
ghost use Rattle.mp_simulation.specs.units.NetlistSimulations.{IsSimulated};
ghost use Rattle.mp_simulation.specs.run.Narrow.{IsNarrow};
ghost use Rattle.mp_simulation.specs.run.Evaluations.{IsEvaluated};

use crate::bits::Simulation;
use crate::run::layout::Layout;
use crate::run::settling::all_outputs;
use crate::units::NetlistSimulation;
use mp_modules::TransitionTable;
use mp_partition::Region;
use std::alloc::{AllocError, Global};

/// A simulation of a netlist at time 0: all wires have their initial levels, and each module is settled. An output whose level isn't the initial
/// one of its wire changes that after its delay.
pub fn begin(alloc: Global, netlist: &Region<'_>) -> Result<NetlistSimulation, AllocError>
    requires { IsCircuit netlist.now }
    ensures simulated { IfOk result (λ simulation. IsSimulated netlist.now 0 simulation) }
    ensures narrow { IfOk result (λ simulation. IsNarrow netlist.now → IsEvaluated netlist.now 0 simulation.bits) }
{
    let layout = Layout::of(alloc, netlist)?;
    let outputs = all_outputs(alloc, netlist)?;
    let table = TransitionTable::new(alloc)?;
    layout.begin(alloc, netlist, outputs, table)
}

/// A simulation at time 0 of a netlist whose wires have width 1, so that no module and no wire has data.
pub(crate) fn begin_bits(alloc: Global, netlist: &Region<'_>) -> Result<Simulation, AllocError>
    requires form { IsCircuit netlist.now }
    requires narrow { IsNarrow netlist.now }
    ensures { IfOk result (λ bits. IsEvaluated netlist.now 0 bits) }
{
    let layout = Layout::of(alloc, netlist)?;
    let outputs = all_outputs(alloc, netlist)?;
    let table = TransitionTable::new(alloc)?;
    let bits = layout.first_bits(alloc, netlist, outputs, table)?;
    Ok(bits)
}
