//! A module as a netlist keeps it.
ghost use Rattle.std.specs.Prelude.{◌≡◌, ◌==◌};
ghost use Rattle.std.specs.List.{list_any};
ghost use Rattle.mp_records.specs.declared.ports.Input.{Input};
ghost use Rattle.mp_records.specs.declared.ports.Output.{Output};
ghost use Rattle.mp_records.specs.NamedWires.{is_wire};

use crate::ids::WireId;
use crate::name::Name;
use crate::params::Params;
use crate::ports::{Input, Inputs, Output, Outputs};
use mp_modules::Kind;

/// A module: its name, its kind with the parameters, its input ports and its output ports.
#[derive(Clone, Drop)]
pub struct ModuleRecord {
    pub name: Name,
    pub kind: Kind,
    pub params: Params,
    pub inputs: Inputs,
    pub outputs: Outputs,
}

impl ModuleRecord {
    ghost use Rattle.std.specs.Prelude.{◌≡◌};
    ghost use Rattle.mp_records.specs.NamedWires.{module_names};
    ghost use Rattle.mp_records.specs.PortChanges.{with_input, with_input_delay, with_output, with_delay};

    /// Whether a port of the module is at the wire.
    pub fn names(&self, wire: WireId) -> bool
        ensures { result ≡ module_names wire.0 self.now }
    {
        reads(self.inputs.as_slice(), wire) || drives(self.outputs.as_slice(), wire)
    }

    /// Sets the wire of an input port, if the port exists. The port keeps its delay.
    pub fn set_input(&mut self, port: usize, wire: WireId)
        ensures { self.new ≡ with_input port wire self.old }
    {
        self.inputs.set_wire(port, wire);
    }

    /// Sets the delay of an input port, if the port exists.
    pub fn set_input_delay(&mut self, port: usize, delay: u32)
        ensures { self.new ≡ with_input_delay port delay self.old }
    {
        self.inputs.set_delay(port, delay);
    }

    /// Sets the wire of an output port, if the port exists. The port keeps its delay.
    pub fn set_output(&mut self, port: usize, wire: Option<WireId>)
        ensures { self.new ≡ with_output port wire self.old }
    {
        self.outputs.set_wire(port, wire);
    }

    /// Sets the delay of an output port, if the port exists.
    pub fn set_delay(&mut self, port: usize, delay: u32)
        ensures { self.new ≡ with_delay port delay self.old }
    {
        self.outputs.set_delay(port, delay);
    }
}

/// Whether one of the inputs reads the wire.
fn reads(inputs: &[Input], wire: WireId) -> bool
    ensures { result ≡ list_any (λ (i : Input). i.wire.0 == wire.0) inputs.now }
{
    inputs.iter().any(|port| port.wire.0 == wire.0)
}

/// Whether one of the outputs drives the wire.
fn drives(outputs: &[Output], wire: WireId) -> bool
    ensures { result ≡ list_any (λ (o : Output). is_wire o.wire wire.0) outputs.now }
{
    outputs.iter().any(|port| is_wire(port.wire, wire))
}

fn is_wire(named: Option<WireId>, wire: WireId) -> bool
    ensures { result ≡ is_wire named wire.0 }
{
    match named {
        Some(id) => id.0 == wire.0,
        None => false,
    }
}
