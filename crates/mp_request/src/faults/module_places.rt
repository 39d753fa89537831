//! The word at fault in a line whose module is refused.
ghost use Rattle.std.specs.Prelude.{◌≡◌, ◌≤◌, ◌==◌, ◌<◌, length, min, not, nat_lt, take};
ghost use Rattle.std.specs.List.{position_or_len, enumerate_from, list_any};
ghost use Rattle.std.specs.Str.{bytes_eq};
ghost use Rattle.mp_modules.specs.Kinds.{param_bound, input_width, output_width};
ghost use Rattle.mp_netlist.specs.Edits.{stands, output_stands, is_delay, is_input_delay, driven_names, new_width, width_named, output_fits};
ghost use Rattle.mp_records.specs.declared.port_names.InputName.{InputName};
ghost use Rattle.mp_records.specs.declared.port_names.OutputName.{OutputName};
ghost use Rattle.mp_request.specs.faults.EditPlaces.{module_place, uncounted_port, missing_port, misfit_input, misfit_output, misfit_port, bad_param, bad_delay, is_taken, taken_output};
ghost use Rattle.mp_request.specs.faults.WordPlaces.{port_place};

use crate::faults::wires::{is_undriven, output_fits, output_stands, stands, width_named};
use crate::faults::word_place::WordPlace;
use mp_modules::Kind;
use mp_netlist::{EditError, InputName, MAX_DELAY, Name, Netlist, NewModule, OutputName};

/// The word at fault in a line whose module is refused with this error.
pub(crate) fn module_place(netlist: &Netlist, new: &NewModule, error: EditError) -> WordPlace
    ensures { result ≡ module_place netlist.now new.now error }
{
    match error {
        EditError::BadName | EditError::NameTaken => WordPlace::Word(1),
        EditError::WrongPorts => uncounted_port(new),
        EditError::NoSuchWire => missing_port(netlist, new),
        EditError::WidthMismatch => misfit_port(netlist, new),
        EditError::BadParam => {
            let width = new_width(netlist, new.kind, new.inputs.as_slice());
            bad_param(new.kind, width, new.params.as_slice())
        }
        EditError::BadDelay => bad_delay(new),
        EditError::AlreadyDriven => WordPlace::Output(taken_output(
            netlist,
            new.outputs.as_slice(),
        )),
        _ => WordPlace::Word(0),
    }
}

/// The place of the input at index `input` if there is one, and otherwise of the output at index `output`.
pub(crate) fn port_place(inputs: usize, input: usize, output: usize) -> WordPlace
    ensures { result ≡ port_place inputs input output }
{
    if input < inputs {
        return WordPlace::Input(input);
    }
    WordPlace::Output(output)
}

/// The first input too many, or the end of the inputs if one is missing; otherwise the same of the outputs.
fn uncounted_port(new: &NewModule) -> WordPlace
    ensures { result ≡ uncounted_port new.now }
{
    let (inputs, outputs) = (new.inputs.as_slice().len(), new.outputs.as_slice().len());
    if inputs == new.kind.inputs() {
        return WordPlace::Output(outputs.min(new.kind.outputs()));
    }
    WordPlace::Input(inputs.min(new.kind.inputs()))
}

/// The first port whose wire doesn't exist.
fn missing_port(netlist: &Netlist, new: &NewModule) -> WordPlace
    ensures { result ≡ missing_port netlist.now new.now }
{
    let inputs = new.inputs.as_slice();
    port_place(
        inputs.len(),
        missing_input(netlist, inputs),
        missing_output(netlist, new.outputs.as_slice()),
    )
}

fn missing_input(netlist: &Netlist, inputs: &[InputName]) -> usize
    ensures { result ≡ position_or_len (λ (i : InputName). not (stands netlist.now i.wire)) inputs.now }
{
    for (port, input) in inputs.iter().enumerate() {
        if !stands(netlist, &input.wire) {
            return port;
        }
    }
    inputs.len()
}

fn missing_output(netlist: &Netlist, outputs: &[OutputName]) -> usize
    ensures { result ≡ position_or_len (λ (o : OutputName). not (output_stands netlist.now o.wire)) outputs.now }
{
    for (port, output) in outputs.iter().enumerate() {
        if !output_stands(netlist, &output.wire) {
            return port;
        }
    }
    outputs.len()
}

/// The first port whose wire has another width than the port.
fn misfit_port(netlist: &Netlist, new: &NewModule) -> WordPlace
    ensures { result ≡ misfit_port netlist.now new.now }
{
    let inputs = new.inputs.as_slice();
    let width = new_width(netlist, new.kind, inputs);
    port_place(
        inputs.len(),
        misfit_input(netlist, new.kind, width, inputs),
        misfit_output(netlist, new.kind, width, new.outputs.as_slice()),
    )
}

fn misfit_input(netlist: &Netlist, kind: Kind, width: u32, inputs: &[InputName]) -> usize
    ensures { result ≡ misfit_input netlist.now kind width inputs.now }
{
    for (port, input) in inputs.iter().enumerate() {
        if width_named(netlist, &input.wire) != kind.input_width(width, port) {
            return port;
        }
    }
    inputs.len()
}

fn misfit_output(netlist: &Netlist, kind: Kind, width: u32, outputs: &[OutputName]) -> usize
    ensures { result ≡ misfit_output netlist.now kind width outputs.now }
{
    for (port, output) in outputs.iter().enumerate() {
        if !output_fits(netlist, &output.wire, kind.output_width(width, port)) {
            return port;
        }
    }
    outputs.len()
}

/// The width of a module with these inputs.
fn new_width(netlist: &Netlist, kind: Kind, inputs: &[InputName]) -> u32
    ensures { result ≡ new_width netlist.now kind inputs.now }
{
    let first = match inputs {
        [first, ..] => width_named(netlist, &first.wire),
        [] => 0,
    };
    kind.width_from(first)
}

/// The first parameter out of its range or too many, or the end of the parameters if one is missing.
fn bad_param(kind: Kind, width: u32, params: &[u64]) -> WordPlace
    ensures { result ≡ bad_param kind width params.now }
{
    WordPlace::Param(unfit_param(kind, width, params).min(kind.params()))
}

fn unfit_param(kind: Kind, width: u32, params: &[u64]) -> usize
    ensures { result ≡ position_or_len (λ param. not (nat_lt param (param_bound kind width))) params.now }
{
    for (place, param) in params.iter().enumerate() {
        if !kind.is_in_range(width, *param) {
            return place;
        }
    }
    params.len()
}

/// The first port with a delay out of range.
fn bad_delay(new: &NewModule) -> WordPlace
    ensures { result ≡ bad_delay new.now }
{
    let inputs = new.inputs.as_slice();
    port_place(
        inputs.len(),
        slow_input(inputs),
        unfit_output(new.outputs.as_slice()),
    )
}

fn slow_input(inputs: &[InputName]) -> usize
    ensures { result ≡ position_or_len (λ (i : InputName). not (is_input_delay i.delay)) inputs.now }
{
    for (port, input) in inputs.iter().enumerate() {
        if input.delay > MAX_DELAY {
            return port;
        }
    }
    inputs.len()
}

fn unfit_output(outputs: &[OutputName]) -> usize
    ensures { result ≡ position_or_len (λ (o : OutputName). not (is_delay o.delay)) outputs.now }
{
    for (port, output) in outputs.iter().enumerate() {
        if output.delay < 1 || output.delay > MAX_DELAY {
            return port;
        }
    }
    outputs.len()
}

/// The first output whose wire is driven already or named by an earlier output.
fn taken_output(netlist: &Netlist, outputs: &[OutputName]) -> usize
    ensures { result ≡ taken_output netlist.now outputs.now }
{
    for (port, output) in outputs.iter().enumerate() {
        if is_taken(netlist, &outputs[..port], &output.wire) {
            return port;
        }
    }
    outputs.len()
}

fn is_taken(netlist: &Netlist, before: &[OutputName], wire: &Option<Name>) -> bool
    ensures { result ≡ is_taken netlist.now before.now wire.now }
{
    match wire {
        Some(name) => !is_undriven(netlist, name) || is_driven(before, name),
        None => false,
    }
}

/// Whether one of the outputs names this wire.
fn is_driven(outputs: &[OutputName], name: &Name) -> bool
    ensures { result ≡ list_any (bytes_eq name.now) (driven_names outputs.now) }
{
    for output in outputs {
        if let Some(driven) = &output.wire {
            if name.as_str() == driven.as_str() {
                return true;
            }
        }
    }
    false
}
