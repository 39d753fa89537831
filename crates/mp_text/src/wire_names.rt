//! The names of wires.
ghost use Rattle.std.specs.Prelude.{◌≡◌};

use mp_netlist::Name;
use std::marker::Model;

/// Some names of wires, in order.
#[derive(Drop)]
pub struct WireNames {
    names: Vec<Name>,
}

impl Model for WireNames {
    ghost use Rattle.std.specs.Prelude.{List, ℕ};

    ghost Value = { List (List ℕ) };

    ghost view = { λ wires. wires.names.items };
}

impl WireNames {
    /// These names.
    pub fn new(names: Vec<Name>) -> Self
        ensures { result ≡ names.items }
    {
        WireNames { names }
    }

    /// The names, in order.
    pub fn as_slice(&self) -> &[Name]
        ensures { result.now ≡ self.now }
    {
        self.names.as_slice()
    }
}
