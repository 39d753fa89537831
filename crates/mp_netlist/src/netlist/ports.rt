//! The ports of a module that is to be added, by themselves.
ghost use Rattle.std.specs.Prelude.{◌≡◌, ◌==◌, ◌&&◌, ◌≤◌, IsTrue, length};
ghost use Rattle.std.specs.List.{list_all, list_any};
ghost use Rattle.std.specs.Str.{bytes_eq};
ghost use Rattle.mp_modules.specs.Kinds.{input_count, output_count};
ghost use Rattle.mp_records.specs.declared.port_names.InputName.{InputName};
ghost use Rattle.mp_records.specs.declared.port_names.OutputName.{OutputName};
ghost use Rattle.mp_netlist.specs.Edits.{are_distinct, driven_names, delays_fit, is_input_delay, is_delay};

use crate::netlist::MAX_DELAY;
use mp_modules::{Kind, MOST_INPUTS, MOST_OUTPUTS};
use mp_records::{InputName, InputNames, Name, OutputName, OutputNames};

/// Whether no two of the outputs name the same wire.
pub(crate) fn are_distinct(outputs: &[OutputName]) -> bool
    ensures { result ≡ are_distinct (driven_names outputs.now) }
{
    for (port, output) in outputs.iter().enumerate() {
        if let Some(name) = &output.wire {
            if is_driven(name, &outputs[port + 1..]) {
                return false;
            }
        }
    }
    true
}

/// Whether one of the outputs names the wire.
fn is_driven(name: &Name, outputs: &[OutputName]) -> bool
    ensures { result ≡ list_any (bytes_eq name.now) (driven_names outputs.now) }
{
    for output in outputs {
        if let Some(other) = &output.wire {
            if name.as_str() == other.as_str() {
                return true;
            }
        }
    }
    false
}

/// Whether there are as many inputs and outputs as the kind has.
pub(crate) fn has_ports(kind: Kind, inputs: &InputNames, outputs: &OutputNames) -> bool
    ensures value { result ≡ (length inputs.now == input_count kind && length outputs.now == output_count kind) }
    ensures few_inputs { IsTrue result → length inputs.now ≤ MOST_INPUTS }
    ensures few_outputs { IsTrue result → length outputs.now ≤ MOST_OUTPUTS }
{
    inputs.as_slice().len() == kind.inputs() && outputs.as_slice().len() == kind.outputs()
}

/// Whether each port has a delay that it may have.
pub(crate) fn delays_fit(inputs: &InputNames, outputs: &OutputNames) -> bool
    ensures { result ≡ delays_fit inputs.now outputs.now }
{
    are_input_delays(inputs) && are_delays(outputs)
}

/// Whether each input has a delay that an input may have.
fn are_input_delays(inputs: &InputNames) -> bool
    ensures { result ≡ list_all (λ (port : InputName). is_input_delay port.delay) inputs.now }
{
    inputs.as_slice().iter().all(|port| port.delay <= MAX_DELAY)
}

/// Whether each output has a delay that an output may have.
fn are_delays(outputs: &OutputNames) -> bool
    ensures { result ≡ list_all (λ (port : OutputName). is_delay port.delay) outputs.now }
{
    outputs.as_slice().iter().all(|port| is_delay(port.delay))
}

/// Whether an output port may have the delay.
pub(crate) fn is_delay(delay: u64) -> bool
    ensures { result ≡ is_delay delay }
{
    1 <= delay && delay <= MAX_DELAY
}
