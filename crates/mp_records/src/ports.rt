//! The ports of a module in a netlist, with their wires by number.
ghost use Rattle.std.specs.Prelude.{◌≡◌, slice_set};

use crate::ids::WireId;
use arrayvec::ArrayVec;
use mp_modules::{MOST_INPUTS, MOST_OUTPUTS};
use std::alloc::AllocError;
use std::marker::Model;

/// An input port: the wire that it reads, and its transport delay in units. A level of the wire reaches the module later by that delay.
#[derive(Clone, Copy, Default, PartialEq, Eq)]
pub struct Input {
    pub wire: WireId,
    pub delay: u32,
}

/// The inputs of a module, by port. They are kept in place, without a block of memory of their own.
#[derive(Drop)]
pub struct Inputs {
    ports: ArrayVec<Input, MOST_INPUTS>,
}

impl Model for Inputs {
    ghost use Rattle.std.specs.Prelude.{List};
    ghost use Rattle.mp_records.specs.declared.ports.Input.{Input};

    ghost Value = { List Input };

    ghost view = { λ inputs. inputs.ports.items };
}

impl Clone for Inputs {
    ghost is_clone = { λ old new. new ≡ old };

    fn clone(&self) -> Result<Self, AllocError> {
        Ok(Inputs {
            ports: self.ports.clone()?,
        })
    }
}

impl Inputs {
    ghost use Rattle.mp_records.specs.Inputs.{input_in};

    /// These input ports, the first being port 0.
    pub fn new(ports: ArrayVec<Input, MOST_INPUTS>) -> Self
        ensures { result ≡ ports.items }
    {
        Inputs { ports }
    }

    /// The input ports, in order.
    pub fn as_slice(&self) -> &[Input]
        ensures { result.now ≡ self.now }
    {
        self.ports.as_slice()
    }

    /// Sets the wire of a port, if there is such a port.
    pub(crate) fn set_wire(&mut self, port: usize, wire: WireId)
        ensures { self.new ≡ slice_set self.old port (record (input_in self.old port) { wire = wire }) }
    {
        if let Some(found) = self.ports.get_mut(port) {
            found.wire = wire;
        }
    }

    /// Sets the delay of a port, if there is such a port.
    pub(crate) fn set_delay(&mut self, port: usize, delay: u32)
        ensures { self.new ≡ slice_set self.old port (record (input_in self.old port) { delay = delay }) }
    {
        if let Some(found) = self.ports.get_mut(port) {
            found.delay = delay;
        }
    }
}

/// An output port: the wire that it drives, if any, and its transport delay in units.
#[derive(Clone, Copy, Default, PartialEq, Eq)]
pub struct Output {
    pub wire: Option<WireId>,
    pub delay: u32,
}

/// The outputs of a module, by port. They are kept in place, like inputs.
#[derive(Drop)]
pub struct Outputs {
    ports: ArrayVec<Output, MOST_OUTPUTS>,
}

impl Model for Outputs {
    ghost use Rattle.std.specs.Prelude.{List};
    ghost use Rattle.mp_records.specs.declared.ports.Output.{Output};

    ghost Value = { List Output };

    ghost view = { λ outputs. outputs.ports.items };
}

impl Clone for Outputs {
    ghost is_clone = { λ old new. new ≡ old };

    fn clone(&self) -> Result<Self, AllocError> {
        Ok(Outputs {
            ports: self.ports.clone()?,
        })
    }
}

impl Outputs {
    ghost use Rattle.mp_records.specs.Outputs.{output_in};

    /// These output ports, the first being port 0.
    pub fn new(ports: ArrayVec<Output, MOST_OUTPUTS>) -> Self
        ensures { result ≡ ports.items }
    {
        Outputs { ports }
    }

    /// The output ports, in order.
    pub fn as_slice(&self) -> &[Output]
        ensures { result.now ≡ self.now }
    {
        self.ports.as_slice()
    }

    /// Sets the wire of a port, if there is such a port.
    pub(crate) fn set_wire(&mut self, port: usize, wire: Option<WireId>)
        ensures { self.new ≡ slice_set self.old port (record (output_in self.old port) { wire = wire }) }
    {
        if let Some(found) = self.ports.get_mut(port) {
            found.wire = wire;
        }
    }

    /// Sets the delay of a port, if there is such a port.
    pub(crate) fn set_delay(&mut self, port: usize, delay: u32)
        ensures { self.new ≡ slice_set self.old port (record (output_in self.old port) { delay = delay }) }
    {
        if let Some(found) = self.ports.get_mut(port) {
            found.delay = delay;
        }
    }
}
