//! What a wire depends on.
ghost use Rattle.std.specs.Prelude.{◌≡◌};
ghost use Rattle.mp_steady.specs.WireSets.{inputs_by, passes_on, port_inputs, wire_inputs};

use mp_modules::Kind;
use mp_netlist::{Driver, Input, ModuleRecord, Netlist, WireId};
use mp_questions::Driven;

/// Whether an output only passes one input on: the `cd` and the `pd` of a REG.
pub(crate) fn passes_on(kind: Kind, port: u32) -> bool
    ensures { result ≡ passes_on kind port }
{
    match kind {
        Kind::Reg => port > 0,
        _ => false,
    }
}

/// The inputs on which an output depends.
fn port_inputs(part: &ModuleRecord, port: u32) -> &[Input]
    ensures { result.now ≡ port_inputs part.now port }
{
    let inputs = part.inputs.as_slice();
    if !passes_on(part.kind, port) {
        return inputs;
    }
    let place = port as usize;
    if place < inputs.len() {
        &inputs[place..place + 1]
    } else {
        &[]
    }
}

/// The inputs on which a wire depends; none if no port drives it.
pub(crate) fn wire_inputs<'a>(of: Driven<'a>, wire: WireId) -> &'a [Input]
    ensures { result.now ≡ wire_inputs of.entry.netlist.now wire.0 }
{
    inputs_by(of.netlist, of.driver_of(wire))
}

fn inputs_by(netlist: &Netlist, driver: Driver) -> &[Input]
    ensures { result.now ≡ inputs_by netlist.now driver }
{
    match driver {
        Driver::Port(id, port) => match netlist.module(id) {
            Some(part) => port_inputs(part, port),
            None => &[],
        },
        Driver::Nothing | Driver::Stimulus => &[],
    }
}
