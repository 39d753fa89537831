//! Runs that are over.
ghost use Rattle.std.specs.Prelude.{◌≡◌, Some, map};
ghost use Rattle.mp_records.specs.declared.ports.Input.{Input as Port};
ghost use Rattle.mp_check.specs.Over.{delay_at, greatest, input_delay_at, is_over, last_change, longest_delay, longest_input_delay, port_input_delay};

use crate::lines::since;
use crate::module_end::{PORTS, output_at, port_slots};
use crate::run_end::RunEnd;
use mp_modules::Kind;
use mp_netlist::{Input, ModuleId, ModuleRecord, WireId};

/// Whether nothing changes any more: the last change has come through every port before the end.
pub(crate) fn is_over(end: &RunEnd<'_>) -> bool
    ensures { result ≡ is_over end.now.at.netlist.now }
{
    let delays = u64::from(longest_delay(end)) + u64::from(longest_input_delay(end));
    u64::from(last_change(end)) + delays <= u64::from(end.at.time)
}

/// The last time at which a wire changes, 0 if none does.
fn last_change(end: &RunEnd<'_>) -> u32
    ensures { result ≡ last_change end.now.at.netlist.now }
{
    let mut latest: u32 = 0;
    for number in 0..end.at.netlist.wire_slots() {
        latest = latest.max(since(end, WireId(number)));
    }
    latest
}

/// The longest delay of a port that drives a wire, 0 if none does.
fn longest_delay(end: &RunEnd<'_>) -> u32
    ensures { result ≡ longest_delay end.now.at.netlist.now }
{
    let mut longest: u32 = 0;
    for number in 0..port_slots(end) {
        longest = longest.max(delay_at(end, number));
    }
    longest
}

/// The longest delay of an input that such a port depends on.
fn longest_input_delay(end: &RunEnd<'_>) -> u32
    ensures { result ≡ longest_input_delay end.now.at.netlist.now }
{
    let mut longest: u32 = 0;
    for number in 0..port_slots(end) {
        longest = longest.max(input_delay_at(end, number));
    }
    longest
}

/// The delay of the port of a number, 0 if it drives no wire.
fn delay_at(end: &RunEnd<'_>, number: u32) -> u32
    ensures { result ≡ delay_at end.now.at.netlist.now number }
{
    match end.at.netlist.module(ModuleId(number / PORTS)) {
        Some(part) => {
            let output = output_at(part, number % PORTS);
            if output.wire.is_some() {
                output.delay
            } else {
                0
            }
        }
        None => 0,
    }
}

/// The longest delay of the inputs that the port of a number depends on, 0 if it drives no wire.
fn input_delay_at(end: &RunEnd<'_>, number: u32) -> u32
    ensures { result ≡ input_delay_at end.now.at.netlist.now number }
{
    match end.at.netlist.module(ModuleId(number / PORTS)) {
        Some(part) => part_input_delay(part, number % PORTS),
        None => 0,
    }
}

fn part_input_delay(part: &ModuleRecord, port: u32) -> u32
    ensures { result ≡ port_input_delay (Some part.now) port }
{
    if output_at(part, port).wire.is_none() {
        return 0;
    }
    if part.kind != Kind::Reg || port == 0 {
        return longest_of(part.inputs.as_slice());
    }
    match part.inputs.as_slice().get(port as usize) {
        Some(input) => input.delay,
        None => 0,
    }
}

/// The longest delay of some inputs, 0 of none.
fn longest_of(inputs: &[Input]) -> u32
    ensures { result ≡ greatest (map (λ (i : Port). i.delay) inputs.now) }
{
    let mut longest: u32 = 0;
    for input in inputs {
        longest = longest.max(input.delay);
    }
    longest
}
