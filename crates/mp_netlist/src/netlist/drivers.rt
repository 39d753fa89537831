//! What drives a wire of a netlist.
ghost use Rattle.std.specs.Prelude.{◌≡◌};
ghost use Rattle.mp_netlist.specs.Drivers.{is_free_for};

use crate::driver::Driver;
use crate::netlist::Netlist;
use mp_records::{ModuleId, WireId};

impl Netlist {
    ghost use Rattle.std.specs.Prelude.{◌≡◌, ℕ, true, is_some, IfSome};
    ghost use Rattle.mp_records.specs.NamedWires.{module_names};
    ghost use Rattle.mp_netlist.specs.Around.{is_in};
    ghost use Rattle.mp_netlist.specs.Slots.{stands_and};
    ghost use Rattle.mp_netlist.specs.Circuit.{module_at, stimulus_at};
    ghost use Rattle.mp_netlist.specs.Drivers.{driver};

    /// What drives the wire of this number: nothing if there is none.
    pub fn driver_of(&self, wire: WireId) -> Driver
        ensures { result ≡ driver self.now wire.0 }
    {
        let modules = &self.modules;
        if self.has_stimulus(wire) {
            // No port drives such a wire, and texts may set one wire many times.
            return Driver::Stimulus;
        }
        match modules.port_at(wire) {
            Some((id, port)) => Driver::Port(id, port),
            None => Driver::Nothing,
        }
    }

    /// The modules that are at a wire, and others that were; `None` where that isn't known, as in a netlist that isn't a copy.
    pub fn around(&self, wire: WireId) -> Option<&[u32]>
        ensures { IfSome result (λ row. (m : ℕ) → stands_and (module_names wire.0) (module_at self.now m) ≡ true → is_in m row.now ≡ true) }
    {
        self.modules.around(wire)
    }

    /// Whether the wire of this number exists and has a stimulus.
    pub(crate) fn has_stimulus(&self, wire: WireId) -> bool
        ensures { result ≡ is_some (stimulus_at self.now wire.0) }
    {
        match self.wire(wire) {
            Some(found) => found.stimulus.is_some(),
            None => false,
        }
    }
}

/// Whether the driver is nothing, or that port of that module.
pub(crate) fn is_free_for(id: ModuleId, port: u64, driver: Driver) -> bool
    ensures { result ≡ is_free_for id.0 port driver }
{
    match driver {
        Driver::Nothing => true,
        Driver::Stimulus => false,
        Driver::Port(other, output) => other.0 == id.0 && u64::from(output) == port,
    }
}
