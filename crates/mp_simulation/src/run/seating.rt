//! Modules with data at time 0: what they read and drive, how they settle, and which levels come of that.
ghost use Rattle.std.specs.Prelude.{◌≡◌, ◌<◌, IfOk, All, length};
ghost use Rattle.mp_records.specs.Outputs.{output_in};
ghost use Rattle.mp_netlist.specs.Circuit.{IsCircuit, IsModule};
ghost use Rattle.mp_modules.specs.storage.DataParts.{data_part, outputs_in};
ghost use Rattle.mp_kernel.specs.events.Firing.{no_port};
ghost use Rattle.mp_simulation.specs.units.DataSeats.{bit_port_of, bit_ports_of, level_port_of};
ghost use Rattle.mp_simulation.specs.run.Settling.{IsShort};
ghost use Rattle.mp_simulation.specs.run.Seating.{has_data_at, level_departs, level_output_of, AreOutputsWithin, IsSeated};

use crate::run::settling::{output_port, settled};
use crate::run::widths::{has_data, is_bit_module};
use crate::units::DataModules;
use mp_kernel::{DataModule, DataPorts, LevelWheel, OutputPort, OutputPorts, schedule_level_if};
use mp_modules::{AnyModule, DataPart, EventModule, MOST_INPUTS, Memory, OutputLevels};
use mp_netlist::{ModuleId, ModuleRecord, Output, WireId};
use mp_partition::Region;
use std::alloc::{AllocError, Global};

/// The modules with data, and the wheel of the levels to come of the wires with data that they drive.
#[derive(Drop)]
pub(crate) struct Seating {
    pub modules: DataModules,
    pub wheel: LevelWheel,
}

/// Settles all modules with data, whose inputs read these numbers. If the level of an output isn't the initial one of its wire, and the wire has
/// data, the wire changes after the output's delay. The wheel has `units` units.
pub(crate) fn seat_all(
    alloc: Global,
    netlist: &Region<'_>,
    inputs: &[[Option<u32>; MOST_INPUTS]],
    units: usize,
) -> Result<Seating, AllocError>
    requires form { IsCircuit netlist.now }
    requires inputs { length inputs.now ≡ length netlist.now.modules }
    requires within { AreOutputsWithin netlist.now units }
    requires some { 0 < units }
    ensures seated { IfOk result (λ seating. IsSeated netlist.now (length netlist.now.modules) inputs.now seating) }
    ensures units { IfOk result (λ seating. length seating.wheel ≡ units) }
{
    let mut seating = Seating {
        modules: DataModules {
            places: Vec::new(alloc),
            modules: Vec::new(alloc),
        },
        wheel: LevelWheel::new(alloc, units)?,
    };
    for m in 0..netlist.module_slots() {
        seating.add(netlist, ModuleId(m), inputs[m as usize])?;
    }
    Ok(seating)
}

impl Seating {
    ghost use Rattle.std.specs.Prelude.{◌≡◌, ℕ, ◌<◌, ◌^◌, Some, false, OnOk, length};
    ghost use Rattle.mp_records.specs.declared.module_record.ModuleRecord.{ModuleRecord as Part};
    ghost use Rattle.mp_netlist.specs.Circuit.{IsCircuit, IsModule, module_at};
    ghost use Rattle.mp_kernel.specs.events.Firing.{HasSlot};
    ghost use Rattle.mp_simulation.specs.units.DataSeats.{level_port_of};
    ghost use Rattle.mp_simulation.specs.run.Widths.{is_bit_module};
    ghost use Rattle.mp_simulation.specs.run.Seating.{Seats};

    /// Adds the place of the module of a number, with the module, if it has data.
    fn add(
        &mut self,
        netlist: &Region<'_>,
        id: ModuleId,
        inputs: [Option<u32>; MOST_INPUTS],
    ) -> Result<(), AllocError>
        requires form { IsCircuit netlist.now }
        requires few { length self.old.modules.modules.items < 2 ^ 32 }
        requires within { (r : Part) → module_at netlist.now id.0 ≡ Some r → HasSlot (length self.old.wheel) (level_port_of netlist.now r) }
        ensures { OnOk result (Seats netlist.now id.0 inputs self.old self.new) }
    {
        let Some(found) = netlist.module(id) else {
            self.modules.places.push(None)?;
            return Ok(());
        };
        if is_bit_module(netlist, found) {
            self.modules.places.push(None)?;
            return Ok(());
        }
        self.seat(netlist, found, inputs)
    }

    /// Adds the place of a module with data, and the module.
    fn seat(
        &mut self,
        netlist: &Region<'_>,
        found: &ModuleRecord,
        inputs: [Option<u32>; MOST_INPUTS],
    ) -> Result<(), AllocError>
        requires form { IsCircuit netlist.now }
        requires module { IsModule netlist.now found.now }
        requires wide { is_bit_module netlist.now found.now ≡ false }
        requires few { length self.old.modules.modules.items < 2 ^ 32 }
        requires within { HasSlot (length self.old.wheel) (level_port_of netlist.now found.now) }
        ensures { OnOk result ((m : ℕ) → module_at netlist.now m ≡ Some found.now → Seats netlist.now m inputs self.old self.new) }
    {
        let part = netlist.built(found);
        let memory = settled(netlist, found, &part);
        let module = data_module(netlist, found, &part, &memory, inputs);
        let port = module.ports.level;
        let level = memory.output(0);
        let departs = level_departs(netlist, port, level);
        schedule_level_if(departs, port, level, &mut self.wheel)?;
        let number = self.modules.modules.len() as u32;
        self.modules.places.push(Some(number))?;
        self.modules.modules.push(module)?;
        Ok(())
    }
}

/// A module with data in a state, whose inputs read these numbers by port.
pub fn data_module(
    netlist: &Region<'_>,
    found: &ModuleRecord,
    part: &AnyModule,
    memory: &Memory,
    inputs: [Option<u32>; MOST_INPUTS],
) -> DataModule
    requires form { IsCircuit netlist.now }
    requires module { IsModule netlist.now found.now }
    ensures part { result.part ≡ data_part part.now }
    ensures outputs { result.outputs ≡ outputs_in memory.now }
    ensures inputs { result.inputs ≡ inputs }
    ensures level { result.ports.level ≡ level_port_of netlist.now found.now }
    ensures bits { result.ports.bits ≡ bit_ports_of netlist.now found.now }
{
    DataModule {
        part: DataPart::of(part),
        outputs: OutputLevels::of(memory),
        inputs,
        ports: data_ports(netlist, found.outputs.as_slice()),
    }
}

/// The outputs of a module with data, divided into those whose wires have data and the others.
fn data_ports(netlist: &Region<'_>, outputs: &[Output]) -> DataPorts
    requires { All IsShort outputs.now }
    ensures level { result.level ≡ level_output_of netlist.now (output_in outputs.now 0) }
    ensures first { result.bits.first ≡ bit_port_of netlist.now (output_in outputs.now 0) }
    ensures second { result.bits.second ≡ bit_port_of netlist.now (output_in outputs.now 1) }
    ensures third { result.bits.third ≡ bit_port_of netlist.now (output_in outputs.now 2) }
{
    DataPorts {
        level: level_port(netlist, outputs),
        bits: OutputPorts {
            first: bit_port(netlist, outputs, 0),
            second: bit_port(netlist, outputs, 1),
            third: bit_port(netlist, outputs, 2),
        },
    }
}

/// The first output, if its wire has data.
fn level_port(netlist: &Region<'_>, outputs: &[Output]) -> OutputPort
    requires { All IsShort outputs.now }
    ensures { result ≡ level_output_of netlist.now (output_in outputs.now 0) }
{
    let port = output_port(outputs, 0);
    if drives_data(netlist, port) {
        port
    } else {
        no_port()
    }
}

/// An output, if its wire has width 1.
fn bit_port(netlist: &Region<'_>, outputs: &[Output], port: usize) -> OutputPort
    requires { All IsShort outputs.now }
    ensures { result ≡ bit_port_of netlist.now (output_in outputs.now port) }
{
    let port = output_port(outputs, port);
    if drives_data(netlist, port) {
        no_port()
    } else {
        port
    }
}

/// A port that drives no wire.
pub(crate) fn no_port() -> OutputPort
    ensures { result ≡ no_port }
{
    OutputPort {
        wire: None,
        delay: 1,
    }
}

/// Whether the wire that an output drives has data.
fn drives_data(netlist: &Region<'_>, port: OutputPort) -> bool
    ensures { result ≡ has_data_at netlist.now port.wire }
{
    match port.wire {
        Some(wire) => has_data(netlist, WireId(wire)),
        None => false,
    }
}

/// Whether a level isn't the initial one of the wire that an output drives.
fn level_departs(netlist: &Region<'_>, port: OutputPort, level: u64) -> bool
    ensures { result ≡ level_departs netlist.now port level }
{
    match port.wire {
        Some(wire) => netlist.initial_level(WireId(wire)) != level,
        None => false,
    }
}
