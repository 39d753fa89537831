//! The run of a netlist that gives its waves, and nothing else.
ghost use Rattle.std.specs.Prelude.{◌≡◌, ◌-◌, ◌<◌, ◌≤◌, IsTrue, IfOk, OnOk};
ghost use Rattle.mp_netlist.specs.Circuit.{IsCircuit, wire_at};
ghost use Rattle.mp_model.specs.Waves.{AreWavesOf};
ghost use Rattle.mp_simulation.specs.bits.Simulations.{IsIdle};
ghost use Rattle.mp_simulation.specs.units.NetlistSimulations.{IsSimulated, IsAtRest};
ghost use Rattle.mp_simulation.specs.run.Evaluations.{IsEvaluated};
ghost use Rattle.mp_simulation.specs.run.Narrow.{IsNarrow};
ghost use Rattle.mp_simulation.specs.run.Runs.{wave_in};
ghost use Rattle.mp_simulation.specs.run.Stimuli.{rest_of, AreAhead};
ghost use Rattle.mp_simulation.specs.run.WavesRuns.{IsAnySimulated};

use crate::bits::{Simulation, Simulator};
use crate::run::beginning::{begin, begin_bits};
use crate::run::finishing::{found_waves, toggled_wave};
use crate::run::narrow::is_narrow;
use crate::run::stimuli::Stimuli;
use crate::units::NetlistSimulation;
use mp_netlist::{Netlist, WireId};
use mp_partition::Region;
use mp_wave::{ToggleWave, Wave};
use std::alloc::{AllocError, Global};

/// Every so often, after this number of units, a run checks whether anything changes that isn't set from outside. A check looks at as many slots as
/// the longest delay has units.
const LOOK_UNITS: u32 = 65_536;

/// A run of a netlist, unit by unit, that keeps only the waves.
#[derive(Drop)]
pub struct WavesRun {
    simulation: AnySimulation,
    stimuli: Stimuli,
}

/// A simulation that costs less, for a netlist whose wires all have width 1.
#[derive(Drop)]
enum AnySimulation {
    Narrow(Simulation),
    Wide(NetlistSimulation),
}

impl WavesRun {
    ghost use Rattle.std.specs.Prelude.{◌≤◌, IfOk, OnOk};
    ghost use Rattle.mp_model.specs.Waves.{AreWavesOf};
    ghost use Rattle.mp_simulation.specs.run.WavesRuns.{IsWavesRun};

    /// The run after time 0.
    pub fn begin(alloc: Global, netlist: &Netlist) -> Result<WavesRun, AllocError>
        ensures { IfOk result (IsWavesRun netlist.now 1) }
    {
        let _horizon = netlist.horizon();
        let stimuli = Stimuli::of(alloc, netlist)?;
        Ok(WavesRun {
            simulation: first_simulation(alloc, netlist)?,
            stimuli,
        })
    }

    /// Runs the units from a time to before another.
    pub fn run_units(&mut self, netlist: &Netlist, from: u32, to: u32) -> Result<(), AllocError>
        requires later { from ≤ to }
        requires within { to ≤ netlist.now.horizon }
        requires before { IsWavesRun netlist.now from self.old }
        ensures { OnOk result (IsWavesRun netlist.now to self.new) }
    {
        match &mut self.simulation {
            AnySimulation::Narrow(simulation) => {
                run_bits(netlist, simulation, &mut self.stimuli, from, to)
            }
            AnySimulation::Wide(simulation) => {
                run_all(netlist, simulation, &mut self.stimuli, from, to)
            }
        }
    }

    /// How often wires have changed so far.
    pub fn count_changes(&self) -> usize {
        match &self.simulation {
            AnySimulation::Narrow(simulation) => simulation.simulator.waves.count_toggles(),
            AnySimulation::Wide(simulation) => simulation.count_changes(),
        }
    }

    /// The wave of each wire, if all units are over: one place per wire number, and none if there is no wire.
    pub fn finish(self, alloc: Global, netlist: &Netlist) -> Result<Vec<Option<Wave>>, AllocError>
        requires { IsWavesRun netlist.now netlist.now.horizon self }
        ensures { IfOk result (λ waves. AreWavesOf netlist.now waves.items) }
    {
        let _horizon = netlist.horizon();
        let WavesRun { simulation, .. } = self;
        match simulation {
            AnySimulation::Narrow(simulation) => bit_waves(alloc, netlist, simulation),
            AnySimulation::Wide(simulation) => {
                found_waves(alloc, &Region::whole(netlist), simulation)
            }
        }
    }
}

/// The simulation of a netlist at time 0.
fn first_simulation(alloc: Global, netlist: &Netlist) -> Result<AnySimulation, AllocError>
    ensures { IfOk result (IsAnySimulated netlist.now 0) }
{
    let _horizon = netlist.horizon();
    let region = Region::whole(netlist);
    if is_narrow(netlist) {
        Ok(AnySimulation::Narrow(begin_bits(alloc, &region)?))
    } else {
        Ok(AnySimulation::Wide(begin(alloc, &region)?))
    }
}

/// Runs the units from a time to before another.
fn run_all(
    netlist: &Netlist,
    simulation: &mut NetlistSimulation,
    stimuli: &mut Stimuli,
    from: u32,
    to: u32,
) -> Result<(), AllocError>
    requires later { 0 < from }
    requires some { from ≤ to }
    requires within { to ≤ netlist.now.horizon }
    requires before { IsSimulated netlist.now (from - 1) simulation.old }
    requires ahead { AreAhead netlist.now (from - 1) (rest_of stimuli.old) }
    ensures simulated { OnOk result (IsSimulated netlist.now (to - 1) simulation.new) }
    ensures ahead { OnOk result (AreAhead netlist.now (to - 1) (rest_of stimuli.new)) }
{
    let _horizon = netlist.horizon();
    let mut time = from;
    while time < to {
        stimuli.advance(time)?;
        simulation.pass_unit(stimuli.bits(), stimuli.levels(), time)?;
        let rests = is_seen_at_rest(simulation, time);
        time = stimuli.unit_after(time, rests, to);
    }
    Ok(())
}

/// Whether a run looks in this unit, and nothing changes from then on that isn't set from outside.
#[inline(always)]
pub fn is_seen_at_rest(simulation: &NetlistSimulation, time: u32) -> bool
    ensures { IsTrue result → IsAtRest simulation.now }
{
    time.is_multiple_of(LOOK_UNITS) && simulation.is_at_rest()
}

/// Runs the units from a time to before another, if all wires have width 1.
fn run_bits(
    netlist: &Netlist,
    simulation: &mut Simulation,
    stimuli: &mut Stimuli,
    from: u32,
    to: u32,
) -> Result<(), AllocError>
    requires narrow { IsNarrow netlist.now }
    requires later { 0 < from }
    requires some { from ≤ to }
    requires within { to ≤ netlist.now.horizon }
    requires before { IsEvaluated netlist.now (from - 1) simulation.old }
    requires ahead { AreAhead netlist.now (from - 1) (rest_of stimuli.old) }
    ensures evaluated { OnOk result (IsEvaluated netlist.now (to - 1) simulation.new) }
    ensures ahead { OnOk result (AreAhead netlist.now (to - 1) (rest_of stimuli.new)) }
{
    let _horizon = netlist.horizon();
    let mut time = from;
    while time < to {
        stimuli.advance(time)?;
        simulation.pass_unit(stimuli.bits(), time)?;
        let rests = is_seen_idle(simulation, time);
        time = stimuli.unit_after(time, rests, to);
    }
    Ok(())
}

/// Whether it is looked in this unit, and nothing changes from then on that no stimulus sets.
#[inline(always)]
fn is_seen_idle(simulation: &Simulation, time: u32) -> bool
    ensures { IsTrue result → IsIdle simulation.now }
{
    time.is_multiple_of(LOOK_UNITS) && simulation.is_idle()
}

/// The waves of a simulation that has come to the horizon, if all wires have width 1.
fn bit_waves(
    alloc: Global,
    netlist: &Netlist,
    simulation: Simulation,
) -> Result<Vec<Option<Wave>>, AllocError>
    requires form { IsCircuit netlist.now }
    requires narrow { IsNarrow netlist.now }
    requires over { IsEvaluated netlist.now (netlist.now.horizon - 1) simulation }
    ensures { IfOk result (λ waves. AreWavesOf netlist.now waves.items) }
{
    let mut rest = waves_in(simulation)?.into_iter();
    let mut found = Vec::new(alloc);
    for w in 0..netlist.wire_slots() {
        found.push(wave_of(netlist, WireId(w), rest.next()))?;
    }
    Ok(found)
}

/// The waves of a simulation, which is dropped.
fn waves_in(simulation: Simulation) -> Result<Vec<ToggleWave>, AllocError>
    ensures { IfOk result (λ waves. waves.items ≡ simulation.simulator.waves) }
{
    let Simulation { simulator, .. } = simulation;
    let Simulator { waves, .. } = simulator;
    waves.into_waves()
}

/// The wave, if its wire exists.
fn wave_of(netlist: &Netlist, wire: WireId, wave: Option<ToggleWave>) -> Option<Wave>
    ensures { result ≡ wave_in (wire_at netlist.now wire.0) wave }
{
    match netlist.wire(wire) {
        Some(_) => toggled_wave(wave),
        None => None,
    }
}
