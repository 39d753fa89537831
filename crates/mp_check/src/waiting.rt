//! What dead ports wait for.
ghost use Rattle.std.specs.Prelude.{◌≡◌, ℕ, Bool, IfOk, slice_get};
ghost use Rattle.std.specs.List.{list_any};
ghost use Rattle.std.specs.Option.{option_to_list};
ghost use Rattle.mp_holding.specs.declared.sets.needs.Shape.TheVariants.{Any};
ghost use Rattle.mp_holding.specs.sets.Needs.{are_met, is_met};
ghost use Rattle.mp_check.specs.Awaited.{inputs_list};
ghost use Rattle.mp_check.specs.Dead.{AreDead};
ghost use Rattle.mp_check.specs.Waiting.{AreWaiting, is_port_in, may_wait};

use crate::awaited::{AwaitedInputs, awaited};
use crate::dead::NEVER;
use crate::module_end::{ModuleEnd, PORTS, port_number, port_slots};
use crate::run_end::RunEnd;
use crate::wait::Wait;
use mp_holding::sets::{Need, Needs, Shape, greatest_closed_set, is_marked};
use mp_netlist::{Driver, ModuleId, WireId};
use std::alloc::{AllocError, Global};

/// The ports that are dead and those that wait, as marks by number.
#[derive(Clone, Copy)]
pub(crate) struct WaitingPorts<'a> {
    pub(crate) end: RunEnd<'a>,
    pub(crate) dead: &'a [bool],
    pub(crate) waiting: &'a [bool],
    ghost are_dead: { AreDead end.at.netlist.now dead.now },
    ghost are_waiting: { AreWaiting end.at.netlist.now waiting.now },
}

/// A mark for each port by number: whether it waits, given marks of those that are dead.
pub(crate) fn waiting_ports(
    alloc: Global,
    end: &RunEnd<'_>,
    dead: &[bool],
) -> Result<Vec<bool>, AllocError>
    requires { AreDead end.now.at.netlist.now dead.now }
    ensures { IfOk result (λ marks. AreWaiting end.now.at.netlist.now marks.items) }
{
    // Its contract says that the netlist is well formed.
    let _horizon = end.at.netlist.horizon();
    let count = port_slots(end);
    let mut needs = Vec::with_capacity(alloc, count as usize)?;
    for number in 0..count {
        needs.push(needs_of(end, dead, number))?;
    }
    greatest_closed_set(alloc, Shape::Any, needs.as_slice())
}

/// What a port needs to wait: a port that drives a wire that it may wait for.
fn needs_of(end: &RunEnd<'_>, dead: &[bool], number: u32) -> Needs
    requires { AreDead end.now.at.netlist.now dead.now }
    ensures { (set : ℕ → Bool) → are_met Any set result ≡ may_wait end.now.at.netlist.now set number }
{
    if !is_marked(dead, number) {
        return NEVER;
    }
    let id = ModuleId(number / PORTS);
    match end.at.netlist.module(id) {
        Some(part) => {
            let of = ModuleEnd {
                end: *end,
                id,
                part,
            };
            port_needs(&of, awaited(&of, dead, number % PORTS))
        }
        None => NEVER,
    }
}

/// The ports that drive the wires of some inputs.
fn port_needs(of: &ModuleEnd<'_>, found: AwaitedInputs) -> Needs
    ensures { (set : ℕ → Bool) → are_met Any set result ≡ list_any (λ q. is_port_in of.now.end.at.netlist.now set (slice_get of.now.part.now.inputs q)) (inputs_list found) }
{
    Needs {
        first: port_need(of, found.first),
        second: port_need(of, found.second),
        third: port_need(of, found.third),
        fourth: port_need(of, found.fourth),
    }
}

/// The port that drives the wire of an input, if there is an input.
fn port_need(of: &ModuleEnd<'_>, port: Option<usize>) -> Need
    ensures { (set : ℕ → Bool) → is_met set result ≡ list_any (λ q. is_port_in of.now.end.at.netlist.now set (slice_get of.now.part.now.inputs q)) (option_to_list port) }
{
    match port {
        Some(port) => of.port_need(port),
        None => Need::Never,
    }
}

impl<'a> WaitingPorts<'a> {
    ghost use Rattle.std.specs.Prelude.{◌≡◌, ◌<◌, IfSome, Some};
    ghost use Rattle.std.specs.Option.{option_to_list};
    ghost use Rattle.mp_check.specs.Awaited.{inputs_list, waiting_for};
    ghost use Rattle.mp_check.specs.Dead.{AreDead, port_slots};
    ghost use Rattle.mp_check.specs.Waiting.{AreWaiting, first_wait, wait_of};

    /// What the port of a number waits for, if anything.
    pub(crate) fn wait_of(&self, number: u32) -> Option<Wait>
        ensures value { result ≡ wait_of self.now.end.at.netlist.now number }
        ensures within { IfSome result (λ wait. wait.next < port_slots self.now.end.at.netlist.now) }
    {
        if !is_marked(self.waiting, number) {
            return None;
        }
        let id = ModuleId(number / PORTS);
        match self.end.at.netlist.module(id) {
            Some(part) => {
                let of = ModuleEnd {
                    end: self.end,
                    id,
                    part,
                };
                self.first_wait(&of, awaited(&of, self.dead, number % PORTS))
            }
            None => None,
        }
    }

    /// The first of some inputs whose wire a port drives that waits.
    fn first_wait(&self, of: &ModuleEnd<'_>, found: AwaitedInputs) -> Option<Wait>
        requires { of.now.end.at.netlist.now ≡ self.now.end.at.netlist.now }
        ensures value { result ≡ first_wait self.now.end.at.netlist.now of.now.id.0 of.now.part.now (inputs_list found) }
        ensures within { IfSome result (λ wait. wait.next < port_slots self.now.end.at.netlist.now) }
    {
        let first = self.wait_at(of, found.first);
        let second = first.or(self.wait_at(of, found.second));
        let third = second.or(self.wait_at(of, found.third));
        third.or(self.wait_at(of, found.fourth))
    }

    /// That a module waits for the wire at an input, if a port drives it that waits.
    fn wait_at(&self, of: &ModuleEnd<'_>, port: Option<usize>) -> Option<Wait>
        ensures value { result ≡ first_wait self.now.end.at.netlist.now of.now.id.0 of.now.part.now (option_to_list port) }
        ensures within { IfSome result (λ wait. wait.next < port_slots self.now.end.at.netlist.now) }
    {
        let Some(port) = port else {
            return None;
        };
        match of.part.inputs.as_slice().get(port) {
            Some(input) => self.wait_for(of.id, input.wire),
            None => None,
        }
    }

    /// That a module waits for a wire, if a port drives it that waits.
    fn wait_for(&self, waiter: ModuleId, wire: WireId) -> Option<Wait>
        ensures value { result ≡ waiting_for self.now.end.at.netlist.now waiter.0 wire }
        ensures within { IfSome result (λ wait. wait.next < port_slots self.now.end.at.netlist.now) }
    {
        match self.end.driver_of(wire) {
            Driver::Port(driver, output) => {
                let next = port_number(&self.end, wire, driver, output);
                if is_marked(self.waiting, next) {
                    return Some(Wait { waiter, wire, next });
                }
                None
            }
            Driver::Nothing | Driver::Stimulus => None,
        }
    }
}
