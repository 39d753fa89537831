//! A module at the end of a run.
ghost use Rattle.std.specs.Prelude.{◌≡◌, ◌<◌, ℕ, Bool, IsSome, Some};
ghost use Rattle.mp_records.specs.Outputs.{output_at};
ghost use Rattle.mp_netlist.specs.Circuit.{module_at, wire_at};
ghost use Rattle.mp_netlist.specs.declared.driver.Driver.TheVariants.{Port};
ghost use Rattle.mp_netlist.specs.Drivers.{driver};
ghost use Rattle.mp_model.specs.Levels.{input_by};
ghost use Rattle.mp_model.specs.Waves.{level};
ghost use Rattle.mp_holding.specs.sets.Needs.{is_met};
ghost use Rattle.mp_check.specs.Dead.{is_driven_within, is_still, is_still_in, port_number, port_slots};
ghost use Rattle.mp_check.specs.Waiting.{has_driver};

use crate::run_end::RunEnd;
use mp_holding::sets::Need;
use mp_modules::{MOST_OUTPUTS, Memory};
use mp_netlist::{Driver, Input, ModuleId, ModuleRecord, Output, WireId};
use mp_questions::timing::follow;

/// How many numbers of ports there are for each module.
pub(crate) const PORTS: u32 = MOST_OUTPUTS as u32;

/// How many numbers of ports there are.
pub(crate) fn port_slots(end: &RunEnd<'_>) -> u32
    ensures { result ≡ port_slots end.now.at.netlist.now }
{
    PORTS * end.at.netlist.module_slots()
}

/// A module in the last unit of a run.
#[derive(Clone, Copy)]
pub(crate) struct ModuleEnd<'a> {
    pub(crate) end: RunEnd<'a>,
    pub(crate) id: ModuleId,
    pub(crate) part: &'a ModuleRecord,
    ghost stands: { module_at end.at.netlist.now id.0 ≡ Some part.now },
}

impl<'a> ModuleEnd<'a> {
    ghost use Rattle.std.specs.Prelude.{◌≡◌, ◌<◌, ℕ, Bool, Some, slice_get, slice_index};
    ghost use Rattle.mp_model.specs.Waves.{state};
    ghost use Rattle.mp_holding.specs.sets.Needs.{is_met};
    ghost use Rattle.mp_check.specs.Dead.{is_still_in, last_unit};
    ghost use Rattle.mp_check.specs.Waiting.{is_port_in};

    /// The state of the module. The module is followed through the whole run.
    pub(crate) fn memory(&self) -> Memory
        ensures { result ≡ state self.now.end.at.netlist.now self.now.id.0 (last_unit self.now.end.at.netlist.now) }
    {
        // Its contract says that the netlist is well formed.
        let _horizon = self.end.at.netlist.horizon();
        follow(&self.end.at, self.id, self.part).memory
    }

    /// The level at an input, as the module hears it; 0 if there is no such port.
    pub(crate) fn heard(&self, port: usize) -> u64
        requires { port < 4 }
        ensures { result ≡ slice_index (state self.now.end.at.netlist.now self.now.id.0 (last_unit self.now.end.at.netlist.now)).inputs port }
    {
        // Its contract says that the netlist is well formed.
        let _horizon = self.end.at.netlist.horizon();
        match self.part.inputs.as_slice().get(port) {
            Some(input) => self.end.at.heard(*input).level_at(self.end.at.time),
            None => 0,
        }
    }

    /// What an input needs to stay as it is: the port that drives its wire has to stay. It won't stay if a change is on its way, or if a stimulus sets the
    /// wire.
    pub(crate) fn need(&self, port: usize) -> Need
        ensures { (dead : ℕ → Bool) → is_met dead result ≡ is_still_in self.now.end.at.netlist.now dead (slice_get self.now.part.now.inputs port) }
    {
        // Its contract says that the netlist is well formed.
        let _horizon = self.end.at.netlist.horizon();
        match self.part.inputs.as_slice().get(port) {
            Some(input) => input_need(&self.end, *input),
            None => Need::Never,
        }
    }

    /// That a set has the port that drives an input's wire. No set has it if no port drives the wire.
    pub(crate) fn port_need(&self, port: usize) -> Need
        ensures { (set : ℕ → Bool) → is_met set result ≡ is_port_in self.now.end.at.netlist.now set (slice_get self.now.part.now.inputs port) }
    {
        match self.part.inputs.as_slice().get(port) {
            Some(input) => port_of(&self.end, input.wire),
            None => Need::Never,
        }
    }
}

/// An output of a module, one without a wire if there is no such port.
pub(crate) fn output_at(part: &ModuleRecord, port: u32) -> Output
    ensures { result ≡ output_at part.now port }
{
    match part.outputs.as_slice().get(port as usize) {
        Some(output) => *output,
        None => Output {
            wire: None,
            delay: 1,
        },
    }
}

/// What an input needs to stay as it is.
fn input_need(end: &RunEnd<'_>, input: Input) -> Need
    requires { IsSome (wire_at end.now.at.netlist.now input.wire.0) }
    ensures { (dead : ℕ → Bool) → is_met dead result ≡ is_still_in end.now.at.netlist.now dead (Some input) }
{
    let last = end.at.time;
    if end.at.prompt(input.wire).since(last) > last.saturating_sub(input.delay) {
        return Need::Never;
    }
    driver_need(end, input.wire)
}

/// That what drives a wire stays, if anything does.
fn driver_need(end: &RunEnd<'_>, wire: WireId) -> Need
    ensures { (dead : ℕ → Bool) → is_met dead result ≡ is_driven_within dead (driver end.now.at.netlist.now wire.0) }
{
    match end.driver_of(wire) {
        Driver::Port(id, output) => Need::Member(port_number(end, wire, id, output)),
        Driver::Nothing => Need::Always,
        Driver::Stimulus => Need::Never,
    }
}

/// The port that drives a wire.
fn port_of(end: &RunEnd<'_>, wire: WireId) -> Need
    ensures { (set : ℕ → Bool) → is_met set result ≡ has_driver set (driver end.now.at.netlist.now wire.0) }
{
    match end.driver_of(wire) {
        Driver::Port(id, output) => Need::Member(port_number(end, wire, id, output)),
        Driver::Nothing | Driver::Stimulus => Need::Never,
    }
}

/// The number of the port that drives a wire.
pub(crate) fn port_number(end: &RunEnd<'_>, wire: WireId, id: ModuleId, output: u32) -> u32
    requires { driver end.now.at.netlist.now wire.0 ≡ Port id output }
    ensures value { result ≡ port_number id.0 output }
    ensures within { result < port_slots end.now.at.netlist.now }
{
    // Its contract says that the netlist is well formed.
    let _horizon = end.at.netlist.horizon();
    PORTS * id.0 + output
}
