//! What is read of a netlist before its simulation begins.
ghost use Rattle.std.specs.Prelude.{◌≡◌, ◌<◌, ℕ, [], IfOk, length, map, slice_index_or};
ghost use Rattle.mp_simulation.specs.run.Beginnings.{AreFirstWires};
ghost use Rattle.mp_simulation.specs.run.FirstLevels.{first_wave};
ghost use Rattle.mp_simulation.specs.run.Numbering.{AreCopiesOf, is_bit};

use crate::bits::{DelayedCopies, Simulation, Simulator};
use crate::run::delays::Delays;
use crate::run::first_levels::{first_buildings, first_waves};
use crate::run::numbering::{bit_copies, data_copies, levels_of};
use crate::run::seating::{Seating, seat_all};
use crate::run::settling::{Settling, settle_all};
use crate::run::wiring::{WiredInputs, Wiring, wiring_of};
use crate::units::{DataWires, NetlistSimulation};
use mp_kernel::{
    EventSlot, EventWheel, Fanout, LevelSlot, LevelWheel, OutputPorts, OutputTable, WaveTable,
};
use mp_modules::TransitionTable;
use mp_partition::Region;
use std::alloc::{AllocError, Global};

/// The longest delays of a netlist, the numbers of its wires and of their delayed copies, and which modules read each. The simulation of a part
/// of the netlist, which has some of its modules, can begin by it too: it has the numbers of all.
#[derive(Drop)]
pub struct Layout {
    pub(crate) delays: Delays,
    pub wired: WiredInputs,
}

impl Layout {
    ghost use Rattle.std.specs.Prelude.{◌≡◌, IfOk, map};
    ghost use Rattle.mp_netlist.specs.Circuit.{Circuit, IsCircuit};
    ghost use Rattle.mp_simulation.specs.units.NetlistSimulations.{IsSimulated};
    ghost use Rattle.mp_simulation.specs.run.Narrow.{IsNarrow};
    ghost use Rattle.mp_simulation.specs.run.Evaluations.{IsEvaluated};
    ghost use Rattle.mp_simulation.specs.run.Settling.{ports_of};
    ghost use Rattle.mp_simulation.specs.run.Beginnings.{IsPartOf, AreFirstBits, IsLayout, CanBegin, IsBegun};

    /// The layout of a netlist.
    pub fn of(alloc: Global, netlist: &Region<'_>) -> Result<Layout, AllocError>
        requires { IsCircuit netlist.now }
        ensures { IfOk result (λ layout. IsLayout netlist.now layout) }
    {
        let delays = Delays::of(netlist);
        let wired = wiring_of(alloc, netlist)?;
        Ok(Layout { delays, wired })
    }

    /// A simulation of a part of the netlist at time 0, by the outputs of all modules: all wires have their initial levels, each module of the
    /// part is settled, and the places of the others sleep. An output whose level isn't the initial one of its wire changes that after its delay.
    pub fn begin(
        &self,
        alloc: Global,
        netlist: &Region<'_>,
        outputs: Vec<OutputPorts>,
        table: TransitionTable,
    ) -> Result<NetlistSimulation, AllocError>
        requires form { IsCircuit netlist.now }
        requires can { CanBegin netlist.now self.now outputs.items }
        ensures begun { IfOk result (λ simulation. (all : Circuit) → IsCircuit all → IsPartOf netlist.now all → IsLayout all self.now → outputs.items ≡ map ports_of all.modules →
            IsBegun netlist.now all self.now simulation) }
        ensures simulated { IfOk result (λ simulation. IsSimulated netlist.now 0 simulation) }
        ensures narrow { IfOk result (λ simulation. IsNarrow netlist.now → IsEvaluated netlist.now 0 simulation.bits) }
    {
        let inputs = self.wired.inputs.as_slice();
        let units = self.delays.longest() as usize;
        let Seating { modules, wheel } = seat_all(alloc, netlist, inputs, units)?;
        let wires = first_data_wires(alloc, netlist, &self.wired.wiring, wheel)?;
        let bits = self.first_bits(alloc, netlist, outputs, table)?;
        Ok(NetlistSimulation {
            bits,
            wires,
            modules,
        })
    }

    /// The modules and wires of width 1 at time 0.
    pub(crate) fn first_bits(
        &self,
        alloc: Global,
        netlist: &Region<'_>,
        outputs: Vec<OutputPorts>,
        table: TransitionTable,
    ) -> Result<Simulation, AllocError>
        requires form { IsCircuit netlist.now }
        requires can { CanBegin netlist.now self.now outputs.items }
        ensures { IfOk result (λ bits. (all : Circuit) → IsCircuit all → IsPartOf netlist.now all → outputs.items ≡ map ports_of all.modules →
            AreFirstBits netlist.now all self.now.wired.wiring self.now.delays bits) }
    {
        let wiring = &self.wired.wiring;
        let units = self.delays.outputs as usize;
        let Settling {
            states,
            levels,
            wheel,
        } = settle_all(alloc, netlist, outputs.as_slice(), units)?;
        let copies = first_copies(alloc, netlist, wiring, self.delays.inputs as usize)?;
        let FirstTables {
            fanout,
            outputs,
            waves,
        } = first_tables(alloc, netlist, wiring, outputs.as_slice())?;
        let simulator = Simulator {
            table,
            fanout,
            outputs,
            states,
            levels,
            due: Vec::new(alloc),
            waves,
            wheel,
            present: EventSlot::new(alloc),
        };
        Ok(Simulation { simulator, copies })
    }
}

/// The delayed copies of wires of width 1 at time 0, none of which is to change. None has a longer delay than so many units.
fn first_copies(
    alloc: Global,
    netlist: &Region<'_>,
    wiring: &Wiring,
    units: usize,
) -> Result<DelayedCopies, AllocError>
    requires { length wiring.now.wires.items ≡ length wiring.now.next.items }
    ensures next { IfOk result (λ copies. AreCopiesOf (is_bit netlist.now) wiring.now.wires.items wiring.now.next.items copies.next.items) }
    ensures units { IfOk result (λ copies. length copies.wheel ≡ units) }
    ensures empty { IfOk result (λ copies. (k : ℕ) → slice_index_or copies.wheel k [] ≡ []) }
{
    let wires = wiring.wires.as_slice();
    let next = bit_copies(alloc, netlist, wires, wiring.next.as_slice())?;
    let wheel = EventWheel::new(alloc, units)?;
    Ok(DelayedCopies {
        next,
        wheel,
        present: EventSlot::new(alloc),
    })
}

/// Which modules of width 1 read each wire, the outputs of all modules, and the waves of all wires up to time 0.
#[derive(Drop)]
struct FirstTables {
    fanout: Fanout,
    outputs: OutputTable,
    waves: WaveTable,
}

fn first_tables(
    alloc: Global,
    netlist: &Region<'_>,
    wiring: &Wiring,
    outputs: &[OutputPorts],
) -> Result<FirstTables, AllocError>
    ensures fanout { IfOk result (λ tables. tables.fanout ≡ wiring.now.rows.items) }
    ensures outputs { IfOk result (λ tables. tables.outputs ≡ outputs.now) }
    ensures waves { IfOk result (λ tables. tables.waves ≡ map first_wave netlist.now.wires) }
{
    let waves = first_waves(alloc, netlist)?;
    let waves = WaveTable::from_waves(alloc, waves)?;
    let fanout = Fanout::from_rows(alloc, wiring.rows.as_slice())?;
    let outputs = OutputTable::from_ports(alloc, outputs)?;
    Ok(FirstTables {
        fanout,
        outputs,
        waves,
    })
}

/// The wires of any width at time 0, with the levels to come.
fn first_data_wires(
    alloc: Global,
    netlist: &Region<'_>,
    wiring: &Wiring,
    wheel: LevelWheel,
) -> Result<DataWires, AllocError>
    requires { length wiring.now.wires.items ≡ length wiring.now.next.items }
    ensures { IfOk result (λ wires. AreFirstWires netlist.now wiring.now wheel wires) }
{
    let numbers = wiring.wires.as_slice();
    Ok(DataWires {
        levels: levels_of(alloc, netlist, numbers)?,
        next: data_copies(alloc, netlist, numbers, wiring.next.as_slice())?,
        wheel,
        present: LevelSlot::new(alloc),
        waves: first_buildings(alloc, netlist)?,
        heard: Vec::new(alloc),
    })
}
