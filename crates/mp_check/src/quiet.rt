//! Outputs whose changes have all reached their wires.
ghost use Rattle.std.specs.Prelude.{◌≡◌, ◌<◌, ◌≤◌, true, IsSome, Some};
ghost use Rattle.mp_modules.specs.Kinds.{output_count};
ghost use Rattle.mp_records.specs.Outputs.{delay_of, output_at};
ghost use Rattle.mp_netlist.specs.Circuit.{IsModule, wire_at};
ghost use Rattle.mp_model.specs.Levels.{input_by};
ghost use Rattle.mp_model.specs.Waves.{level};
ghost use Rattle.mp_questions.specs.timing.Waits.{given};
ghost use Rattle.mp_check.specs.Dead.{is_quiet, is_still, last_unit};
ghost use Rattle.mp_check.specs.Quiet.{are_all_still, is_told_by_output, mark_of};

use crate::module_end::{ModuleEnd, output_at};
use crate::run_end::RunEnd;
use mp_model::built;
use mp_modules::{EventModule, Kind, Memory};
use mp_netlist::{Input, ModuleRecord, WireId};
use mp_questions::timing::{InputPorts, Marks, follow};

/// Whether what a port on a wire gives has been the same for its whole delay.
pub(crate) fn is_quiet(of: &ModuleEnd<'_>, port: u32, wire: WireId) -> bool
    requires { (output_at of.now.part.now port).wire ≡ Some wire }
    ensures { result ≡ is_quiet of.now.end.at.netlist.now of.now.id.0 port (delay_of of.now.part.now port) }
{
    // Its contract says that the netlist is well formed.
    let _horizon = of.end.at.netlist.horizon();
    let delay = output_at(of.part, port).delay;
    let last = of.end.at.time;
    if delay > last {
        return false;
    }
    let level = of.end.at.prompt(wire).level_at(last);
    is_still_after(of, port, last - delay, level)
}

/// Whether an output has no event later than a time, given its level at that time. A module whose output doesn't follow from that level and from the
/// inputs is followed through the whole run, if an input has an event later than that.
fn is_still_after(of: &ModuleEnd<'_>, port: u32, after: u32, level: u64) -> bool
    requires port { port < output_count of.now.part.now.kind }
    requires after { after ≤ of.now.end.at.time }
    requires level { level ≡ given of.now.end.at.netlist.now of.now.id.0 port after }
    ensures { result ≡ is_still of.now.end.at.netlist.now (given of.now.end.at.netlist.now of.now.id.0 port) after }
{
    if !is_told_by_output(of.part.kind) {
        return is_still_in_run(of, port, after);
    }
    if port > 0 {
        return is_passed_still(of, port, after);
    }
    keeps_level(of, after, level)
}

/// Whether the next level of the first output of a kind follows from its level before and from the inputs.
fn is_told_by_output(kind: Kind) -> bool
    ensures { result ≡ is_told_by_output kind }
{
    match kind {
        Kind::Toggle | Kind::Select | Kind::Call | Kind::Arbiter => false,
        Kind::C | Kind::Reg | Kind::Function(_) => true,
    }
}

/// The same of any output. The module is followed through the whole run if an input has an event later than that time.
fn is_still_in_run(of: &ModuleEnd<'_>, port: u32, after: u32) -> bool
    requires port { port < output_count of.now.part.now.kind }
    requires after { after ≤ of.now.end.at.time }
    ensures { result ≡ is_still of.now.end.at.netlist.now (given of.now.end.at.netlist.now of.now.id.0 port) after }
{
    // Its contract says that the netlist is well formed.
    let _horizon = of.end.at.netlist.horizon();
    are_all_still(&of.end, of.part, after)
        || mark_of(&follow(&of.end.at, of.id, of.part).marks, port) <= after
}

/// The same of an output that passes on the input of the same place.
fn is_passed_still(of: &ModuleEnd<'_>, port: u32, after: u32) -> bool
    requires kind { is_told_by_output of.now.part.now.kind ≡ true }
    requires some { 0 < port }
    requires port { port < output_count of.now.part.now.kind }
    ensures { result ≡ is_still of.now.end.at.netlist.now (given of.now.end.at.netlist.now of.now.id.0 port) after }
{
    // Its contract says that the netlist is well formed.
    let _horizon = of.end.at.netlist.horizon();
    match of.part.inputs.as_slice().get(port as usize) {
        Some(input) => is_input_still(&of.end, *input, after),
        None => unreachable!(),
    }
}

/// Whether the first output keeps its level from a time on. The module steps from one event of an input to the next, as long as it does.
fn keeps_level(of: &ModuleEnd<'_>, after: u32, level: u64) -> bool
    requires kind { is_told_by_output of.now.part.now.kind ≡ true }
    requires after { after ≤ of.now.end.at.time }
    requires level { level ≡ given of.now.end.at.netlist.now of.now.id.0 0 after }
    ensures { result ≡ is_still of.now.end.at.netlist.now (given of.now.end.at.netlist.now of.now.id.0 0) after }
{
    // Its contract says that the netlist is well formed.
    let _horizon = of.end.at.netlist.horizon();
    let part = built(of.end.at.netlist, of.part);
    let ears = InputPorts::of(&of.end.at, of.part);
    let end = of.end.at.time + 1;
    let mut now = ears.next(after, end);
    while now < end {
        let mut memory = Memory::with_one_output(&[], level);
        part.step(&mut memory, &ears.levels(now));
        if memory.output(0) != level {
            return false;
        }
        now = ears.next(now, end);
    }
    true
}

/// Since when an output is what it is.
fn mark_of(marks: &Marks, port: u32) -> u32
    ensures { result ≡ mark_of marks.now port }
{
    match port {
        0 => marks.first_output,
        1 => marks.second_output,
        _ => marks.third_output,
    }
}

/// Whether no input of a module has an event later than a time.
fn are_all_still(end: &RunEnd<'_>, part: &ModuleRecord, after: u32) -> bool
    requires { IsModule end.now.at.netlist.now part.now }
    ensures { result ≡ are_all_still end.now.at.netlist.now after part.now.inputs }
{
    for &input in part.inputs.as_slice() {
        if !is_input_still(end, input, after) {
            return false;
        }
    }
    true
}

/// Whether an input has no event later than a time.
fn is_input_still(end: &RunEnd<'_>, input: Input, after: u32) -> bool
    requires { IsSome (wire_at end.now.at.netlist.now input.wire.0) }
    ensures { result ≡ is_still end.now.at.netlist.now (input_by end.now.at.netlist.now (level end.now.at.netlist.now) input) after }
{
    end.at.heard(input).since(end.at.time) <= after
}
