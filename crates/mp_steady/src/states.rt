//! Whether modules come to a state again.
ghost use Rattle.std.specs.Prelude.{◌≡◌, ◌<◌, ◌≤◌, ℕ, All, IfOk, IsSome, length, map, vec_len, if◌then◌else◌};
ghost use Rattle.std.specs.List.{list_all};
ghost use Rattle.mp_records.specs.declared.ports.Input.{Input as Port};
ghost use Rattle.mp_netlist.specs.Circuit.{module_at, wire_at};
ghost use Rattle.mp_netlist.specs.Drivers.{driver};
ghost use Rattle.mp_model.specs.Levels.{input_by};
ghost use Rattle.mp_model.specs.Waves.{level, state};
ghost use Rattle.mp_model.specs.response.Pieces.{levels_at, piece_level};
ghost use Rattle.mp_questions.specs.late.Sources.{has_memory};
ghost use Rattle.mp_steady.specs.Periods.{is_again_by, is_again_in, is_same_state, is_state_again, last_unit, told_until};
ghost use Rattle.mp_steady.specs.RunTimes.{AreTimes};
ghost use Rattle.mp_steady.specs.WireSets.{numbers};

use crate::run_times::RunTimes;
use crate::wire_inputs::passes_on;
use crate::wire_set::WireSet;
use mp_model::{InPiece, built, cut_delayed, respond};
use mp_modules::{EventModule, Kind, Memory};
use mp_netlist::{Driver, Input, ModuleId};
use std::alloc::{AllocError, Global};

/// Whether each module that drives one of the wires, if it doesn't only pass an input on, has the state of so many units before.
pub(crate) fn are_states_again(
    alloc: Global,
    set: WireSet<'_>,
    times: RunTimes,
    units: u32,
) -> Result<bool, AllocError>
    requires times { AreTimes set.of.netlist.now (numbers set.wires.now) times }
    requires few { units ≤ told_until set.of.netlist.now (numbers set.wires.now) }
    ensures { IfOk result (λ is. is ≡ list_all (λ w. is_again_by set.entry.of.netlist.now (numbers set.entry.wires.now) units (driver set.entry.of.netlist.now w)) (numbers set.entry.wires.now)) }
{
    for &wire in set.wires {
        let again = is_again(alloc, set, times, units, set.of.driver_of(wire))?;
        if !again {
            return Ok(false);
        }
    }
    Ok(true)
}

/// Whether the module of a port that is a driver has that state.
fn is_again(
    alloc: Global,
    set: WireSet<'_>,
    times: RunTimes,
    units: u32,
    driver: Driver,
) -> Result<bool, AllocError>
    requires times { AreTimes set.of.netlist.now (numbers set.wires.now) times }
    requires few { units ≤ told_until set.of.netlist.now (numbers set.wires.now) }
    ensures { IfOk result (λ is. is ≡ is_again_by set.entry.of.netlist.now (numbers set.entry.wires.now) units driver) }
{
    match driver {
        Driver::Port(id, port) => is_port_again(alloc, set, times, units, id, port),
        Driver::Nothing | Driver::Stimulus => Ok(true),
    }
}

/// Whether the module of an output has that state, if the output doesn't only pass an input on.
fn is_port_again(
    alloc: Global,
    set: WireSet<'_>,
    times: RunTimes,
    units: u32,
    id: ModuleId,
    port: u32,
) -> Result<bool, AllocError>
    requires times { AreTimes set.of.netlist.now (numbers set.wires.now) times }
    requires few { units ≤ told_until set.of.netlist.now (numbers set.wires.now) }
    ensures { IfOk result (λ is. is ≡ is_again_in set.entry.of.netlist.now (numbers set.entry.wires.now) units id.0 port (module_at set.entry.of.netlist.now id.0)) }
{
    match set.of.netlist.module(id) {
        Some(part) => {
            if passes_on(part.kind, port) {
                return Ok(true);
            }
            is_state_again(alloc, set, times, units, id)
        }
        None => Ok(true),
    }
}

/// Whether a module has that state.
fn is_state_again(
    alloc: Global,
    set: WireSet<'_>,
    times: RunTimes,
    units: u32,
    id: ModuleId,
) -> Result<bool, AllocError>
    requires times { AreTimes set.of.netlist.now (numbers set.wires.now) times }
    requires few { units ≤ told_until set.of.netlist.now (numbers set.wires.now) }
    requires stands { IsSome (module_at set.of.netlist.now id.0) }
    ensures { IfOk result (λ is. is ≡ is_state_again set.entry.of.netlist.now (numbers set.entry.wires.now) units id.0) }
{
    let last = times.told_until();
    let before = state_at(alloc, set, id, last - units)?;
    let now = state_at(alloc, set, id, last)?;
    Ok(is_same_state(&before, &now))
}

/// The state of a module at a time. One without memory has it from the levels that it hears then, so nothing before is run.
fn state_at(alloc: Global, set: WireSet<'_>, id: ModuleId, time: u32) -> Result<Memory, AllocError>
    requires stands { IsSome (module_at set.of.netlist.now id.0) }
    requires within { time ≤ last_unit set.of.netlist.now }
    ensures { IfOk result (λ found. found ≡ state set.entry.of.netlist.now id.0 time) }
{
    // Its contract says that the netlist is well formed.
    let _horizon = set.of.netlist.horizon();
    let Some(record) = set.of.netlist.module(id) else {
        unreachable!()
    };
    let part = built(set.of.netlist, record);
    let from = first_heard(record.kind, time);
    let heard = pieces(alloc, set, record.inputs.as_slice(), from, time + 1)?;
    let piece = respond(alloc, &part, part.start(), heard.as_slice(), from, time + 1)?;
    Ok(piece.memory)
}

/// From when on a module's levels make its state at a time.
fn first_heard(kind: Kind, time: u32) -> u32
    ensures { result ≡ (if has_memory kind then 0 else time) }
{
    if kind.is_function() { time } else { 0 }
}

/// Whether two states are the same.
fn is_same_state(one: &Memory, other: &Memory) -> bool
    ensures { result ≡ is_same_state one.now other.now }
{
    one.inputs == other.inputs
        && one.outputs == other.outputs
        && one.served == other.served
        && one.waiting.first == other.waiting.first
        && one.waiting.second == other.waiting.second
}

/// The waves at the inputs of a module, from one time to before another.
fn pieces(
    alloc: Global,
    set: WireSet<'_>,
    inputs: &[Input],
    from: u32,
    to: u32,
) -> Result<Vec<InPiece>, AllocError>
    requires stand { All (λ (i : Port). IsSome (wire_at set.of.netlist.now i.wire.0)) inputs.now }
    requires some { from < to }
    requires within { to ≤ set.of.netlist.now.horizon }
    ensures count { IfOk result (λ pieces. vec_len pieces ≡ length inputs.now) }
    ensures levels { IfOk result (λ pieces. (t : ℕ) → from ≤ t → t < to
        → levels_at pieces.items t ≡ map (λ i. input_by set.entry.of.netlist.now (level set.entry.of.netlist.now) i t) inputs.now) }
{
    let mut pieces = Vec::with_capacity(alloc, inputs.len())?;
    for &input in inputs {
        pieces.push(piece(alloc, set, input, from, to)?)?;
    }
    Ok(pieces)
}

/// The wave at an input, from one time to before another.
fn piece(
    alloc: Global,
    set: WireSet<'_>,
    input: Input,
    from: u32,
    to: u32,
) -> Result<InPiece, AllocError>
    requires stands { IsSome (wire_at set.of.netlist.now input.wire.0) }
    requires some { from < to }
    requires within { to ≤ set.of.netlist.now.horizon }
    ensures { IfOk result (λ piece. (t : ℕ) → from ≤ t → t < to → piece_level piece t ≡ input_by set.entry.of.netlist.now (level set.entry.of.netlist.now) input t) }
{
    // Its contract says that the netlist is well formed.
    let _horizon = set.of.netlist.horizon();
    cut_delayed(alloc, set.wave_of(input.wire), input.delay, from, to)
}
