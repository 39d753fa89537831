//! Modules at time 0: what they drive, how they settle, and which wires change by that.
ghost use Rattle.std.specs.Prelude.{◌≡◌, ◌==◌, ◌&&◌, ℕ, ◌≤◌, Some, not, IfOk, OnOk, All, length, map, take};
ghost use Rattle.mp_records.specs.declared.ports.Input.{Input as Entry};
ghost use Rattle.mp_records.specs.declared.module_record.ModuleRecord.{ModuleRecord as Part};
ghost use Rattle.mp_records.specs.Outputs.{output_in};
ghost use Rattle.mp_netlist.specs.Circuit.{IsCircuit, wire_at, module_at};
ghost use Rattle.mp_model.specs.Levels.{initial_of, built};
ghost use Rattle.mp_model.specs.Waves.{state};
ghost use Rattle.mp_modules.specs.automata.PortLevels.{levels_code};
ghost use Rattle.mp_kernel.specs.events.Firing.{HaveSlots, scheduled, fired_at, number_of, ports_at};
ghost use Rattle.mp_simulation.specs.bits.Schedules.{output_port_of, output_ports_of};
ghost use Rattle.mp_simulation.specs.units.DataLevels.{is_data};
ghost use Rattle.mp_simulation.specs.run.Settling.{IsShort, ports_of, departs, departing, no_unit, first_unit_of, first_unit, first_entries, IsSettled, AreFirstLevels};

use crate::run::widths::{has_data, is_bit_module};
use mp_kernel::{EventWheel, OutputPort, OutputPorts, schedule_if};
use mp_modules::{
    AnyModule, Automaton, AutomatonState, EventModule, MOST_INPUTS, Memory, Phase, PortLevels,
};
use mp_netlist::{Input, ModuleId, ModuleRecord, Output, WireId};
use mp_partition::Region;
use std::alloc::{AllocError, Global};

/// The outputs of each module, by number; ports that drive no wire if there is no module.
pub fn all_outputs(alloc: Global, netlist: &Region<'_>) -> Result<Vec<OutputPorts>, AllocError>
    requires { IsCircuit netlist.now }
    ensures { IfOk result (λ ports. ports.items ≡ map ports_of netlist.now.modules) }
{
    let mut ports = Vec::new(alloc);
    for m in 0..netlist.module_slots() {
        ports.push(outputs_of(netlist, ModuleId(m)))?;
    }
    Ok(ports)
}

fn outputs_of(netlist: &Region<'_>, id: ModuleId) -> OutputPorts
    requires { IsCircuit netlist.now }
    ensures { result ≡ ports_of (module_at netlist.now id.0) }
{
    match netlist.module(id) {
        Some(found) => output_ports(found.outputs.as_slice()),
        None => output_ports(&[]),
    }
}

fn output_ports(outputs: &[Output]) -> OutputPorts
    requires { All IsShort outputs.now }
    ensures first { result.first ≡ output_port_of (output_in outputs.now 0) }
    ensures second { result.second ≡ output_port_of (output_in outputs.now 1) }
    ensures third { result.third ≡ output_port_of (output_in outputs.now 2) }
{
    OutputPorts {
        first: output_port(outputs, 0),
        second: output_port(outputs, 1),
        third: output_port(outputs, 2),
    }
}

pub(crate) fn output_port(outputs: &[Output], port: usize) -> OutputPort
    requires { All IsShort outputs.now }
    ensures { result ≡ output_port_of (output_in outputs.now port) }
{
    match outputs.get(port) {
        Some(output) => OutputPort {
            wire: output.wire.map(|wire| wire.0),
            delay: output.delay as u16,
        },
        None => OutputPort {
            wire: None,
            delay: 1,
        },
    }
}

/// The states of modules, by number, with the levels at their ports, and the wheel of the events to come of wires of width 1.
#[derive(Drop)]
pub(crate) struct Settling {
    pub states: Vec<AutomatonState>,
    pub levels: Vec<PortLevels>,
    pub wheel: EventWheel,
}

/// A settled module: its state, and the levels at its ports. A module with data, or one that doesn't exist, is asleep.
#[derive(Clone, Copy)]
pub(crate) struct SettledModule {
    pub state: AutomatonState,
    pub levels: PortLevels,
}

/// Settles all modules. If the level of an output isn't the initial one of its wire, and the wire has width 1, the wire changes after the output's
/// delay. Modules with data are asleep. The wheel has `units` units.
pub(crate) fn settle_all(
    alloc: Global,
    netlist: &Region<'_>,
    outputs: &[OutputPorts],
    units: usize,
) -> Result<Settling, AllocError>
    requires form { IsCircuit netlist.now }
    requires places { length outputs.now ≡ length netlist.now.modules }
    requires ports { (m : ℕ) (r : Part) → module_at netlist.now m ≡ Some r → ports_at outputs.now m ≡ output_ports_of r }
    requires within { All (HaveSlots units) outputs.now }
    ensures settled { IfOk result (λ s. IsSettled netlist.now (length netlist.now.modules) s.states.items s.wheel) }
    ensures levels { IfOk result (λ s. AreFirstLevels netlist.now (length netlist.now.modules) s.levels.items) }
    ensures units { IfOk result (λ s. length s.wheel ≡ units) }
{
    let mut states = Vec::new(alloc);
    let mut levels = Vec::new(alloc);
    let mut wheel = EventWheel::new(alloc, units)?;
    for m in 0..netlist.module_slots() {
        let ports = outputs[m as usize];
        let settled = settle_module(netlist, ModuleId(m), ports, &mut wheel)?;
        states.push(settled.state)?;
        levels.push(settled.levels)?;
    }
    Ok(Settling {
        states,
        levels,
        wheel,
    })
}

/// Settles a module. If there is none, the place is asleep.
fn settle_module(
    netlist: &Region<'_>,
    id: ModuleId,
    ports: OutputPorts,
    wheel: &mut EventWheel,
) -> Result<SettledModule, AllocError>
    requires form { IsCircuit netlist.now }
    requires ports { (r : Part) → module_at netlist.now id.0 ≡ Some r → ports ≡ output_ports_of r }
    requires within { HaveSlots (length wheel.old) ports }
    ensures state { IfOk result (λ settled. settled.state.0 ≡ number_of (first_unit netlist.now id.0)) }
    ensures levels { IfOk result (λ settled. (r : Part) → module_at netlist.now id.0 ≡ Some r → settled.levels.0 ≡ levels_code (state netlist.now id.0 0)) }
    ensures wheel { OnOk result (wheel.new ≡ scheduled wheel.old (first_entries netlist.now id.0)) }
    ensures units { OnOk result (length wheel.new ≡ length wheel.old) }
{
    let Some(found) = netlist.module(id) else {
        return Ok(SettledModule {
            state: asleep(),
            levels: PortLevels(0),
        });
    };
    let part = netlist.built(found);
    let memory = settled(netlist, found, &part);
    schedule_departing(netlist, ports, &memory, wheel)?;
    Ok(SettledModule {
        state: first_state(netlist, found, &part, &memory),
        levels: PortLevels::of(&memory),
    })
}

/// The state of a place that sleeps.
fn asleep() -> AutomatonState
    ensures { result.0 ≡ number_of no_unit }
{
    AutomatonState::quiet(Automaton::Sleep, Phase::unserved(false, false))
}

/// The automaton of a module in its state at time 0, if all its ports have width 1. The place of one with data sleeps.
fn first_state(
    netlist: &Region<'_>,
    found: &ModuleRecord,
    part: &AnyModule,
    memory: &Memory,
) -> AutomatonState
    requires { part.now ≡ built netlist.now found.now }
    ensures { (m : ℕ) → memory.now ≡ state netlist.now m 0 → result.0 ≡ number_of (first_unit_of netlist.now m found.now) }
{
    if !is_bit_module(netlist, found) {
        return asleep();
    }
    AutomatonState::quiet(Automaton::of(part), Phase::of(part, memory))
}

/// The state of a module at time 0.
pub(crate) fn settled(netlist: &Region<'_>, found: &ModuleRecord, part: &AnyModule) -> Memory
    requires form { IsCircuit netlist.now }
    requires few { length found.now.inputs ≤ MOST_INPUTS }
    requires part { part.now ≡ built netlist.now found.now }
    ensures { (m : ℕ) → module_at netlist.now m ≡ Some found.now → result ≡ state netlist.now m 0 }
{
    let inputs = found.inputs.as_slice();
    let mut levels = [0; MOST_INPUTS];
    read_initial_levels(netlist, inputs, &mut levels);
    part.settle(&levels[..inputs.len()])
}

/// Reads the initial levels of the wires at inputs, by port, into their places.
fn read_initial_levels(netlist: &Region<'_>, inputs: &[Input], levels: &mut [u64; MOST_INPUTS])
    requires { length inputs.now ≤ MOST_INPUTS }
    ensures { take (length inputs.now) levels.new ≡ map (λ (i : Entry). initial_of (wire_at netlist.now i.wire.0)) inputs.now }
{
    for (p, input) in inputs.iter().enumerate() {
        levels[p] = netlist.initial_level(input.wire);
    }
}

/// The wires of width 1 of outputs whose levels aren't the initial ones toggle after the delays.
fn schedule_departing(
    netlist: &Region<'_>,
    ports: OutputPorts,
    memory: &Memory,
    wheel: &mut EventWheel,
) -> Result<(), AllocError>
    requires { HaveSlots (length wheel.old) ports }
    ensures scheduled { OnOk result (wheel.new ≡ scheduled wheel.old (fired_at ports (departing netlist.now ports memory.now))) }
    ensures units { OnOk result (length wheel.new ≡ length wheel.old) }
{
    let first = departs(netlist, ports.first, memory.output(0));
    let second = departs(netlist, ports.second, memory.output(1));
    let third = departs(netlist, ports.third, memory.output(2));
    schedule_if(first, ports.first, wheel)?;
    schedule_if(second, ports.second, wheel)?;
    schedule_if(third, ports.third, wheel)
}

/// Whether a level isn't the initial one of the wire of width 1 that an output drives.
fn departs(netlist: &Region<'_>, port: OutputPort, level: u64) -> bool
    ensures { result ≡ departs netlist.now port level }
{
    match port.wire {
        Some(wire) => is_departure(netlist, WireId(wire), level),
        None => false,
    }
}

/// Whether a level isn't the initial one of a wire of width 1.
fn is_departure(netlist: &Region<'_>, wire: WireId, level: u64) -> bool
    ensures { result ≡ not (is_data netlist.now wire.0) && not (initial_of (wire_at netlist.now wire.0) == level) }
{
    !has_data(netlist, wire) && netlist.initial_level(wire) != level
}
