//! The ports of a module that is to be added, with their wires by name.
ghost use Rattle.std.specs.Prelude.{◌≡◌};

use crate::name::Name;
use std::marker::Model;

/// An input port that is to be added: the name of the wire that it reads, and its transport delay in units.
#[derive(Drop)]
pub struct InputName {
    pub wire: Name,
    pub delay: u64,
}

/// The inputs that a module is to have, by port.
#[derive(Drop)]
pub struct InputNames {
    ports: Vec<InputName>,
}

impl Model for InputNames {
    ghost use Rattle.std.specs.Prelude.{List};
    ghost use Rattle.mp_records.specs.declared.port_names.InputName.{InputName};

    ghost Value = { List InputName };

    ghost view = { λ inputs. inputs.ports.items };
}

impl InputNames {
    /// These input ports, the first being port 0.
    pub fn new(ports: Vec<InputName>) -> Self
        ensures { result ≡ ports.items }
    {
        InputNames { ports }
    }

    /// The input ports, in order.
    pub fn as_slice(&self) -> &[InputName]
        ensures { result.now ≡ self.now }
    {
        self.ports.as_slice()
    }
}

/// An output port that is to be added: the name of the wire that it drives, if any, and its transport delay in units.
#[derive(Drop)]
pub struct OutputName {
    pub wire: Option<Name>,
    pub delay: u64,
}

/// The outputs that a module is to have, by port.
#[derive(Drop)]
pub struct OutputNames {
    ports: Vec<OutputName>,
}

impl Model for OutputNames {
    ghost use Rattle.std.specs.Prelude.{List};
    ghost use Rattle.mp_records.specs.declared.port_names.OutputName.{OutputName};

    ghost Value = { List OutputName };

    ghost view = { λ outputs. outputs.ports.items };
}

impl OutputNames {
    /// These output ports, the first being port 0.
    pub fn new(ports: Vec<OutputName>) -> Self
        ensures { result ≡ ports.items }
    {
        OutputNames { ports }
    }

    /// The output ports, in order.
    pub fn as_slice(&self) -> &[OutputName]
        ensures { result.now ≡ self.now }
    {
        self.ports.as_slice()
    }
}
