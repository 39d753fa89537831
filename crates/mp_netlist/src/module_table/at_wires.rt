//! The modules at a wire.
ghost use Rattle.std.specs.Prelude.{◌≡◌, ◌<◌, ◌^◌, length};
ghost use Rattle.mp_netlist.specs.Drivers.{port_from};

use crate::module_table::ModuleTable;
use mp_records::{ModuleId, Output, WireId};

impl ModuleTable {
    ghost use Rattle.std.specs.Prelude.{◌≡◌, ℕ, true, None, Some, IfSome};
    ghost use Rattle.std.specs.List.{list_any};
    ghost use Rattle.mp_records.specs.NamedWires.{module_names};
    ghost use Rattle.mp_netlist.specs.Slots.{slot_at, stands_and};
    ghost use Rattle.mp_netlist.specs.Around.{is_in};
    ghost use Rattle.mp_netlist.specs.Drivers.{port_of};
    ghost use Rattle.mp_netlist.specs.DriverSearch.{HasFewPorts};

    /// The modules that are at a wire, and others; `None` if that isn't known.
    pub fn around(&self, wire: WireId) -> Option<&[u32]>
        ensures { IfSome result (λ row. (m : ℕ) → stands_and (module_names wire.0) (slot_at self.now m) ≡ true → is_in m row.now ≡ true) }
    {
        self.known.around(wire)
    }

    /// The module and the port that drive a wire, if a port does.
    pub fn port_at(&self, wire: WireId) -> Option<(ModuleId, u32)>
        requires { (m : ℕ) → HasFewPorts (slot_at self.now m) }
        ensures some { IfSome result (λ at. port_of (slot_at self.now at.0.0) wire.0 ≡ Some at.1) }
        ensures none { result ≡ None → (m : ℕ) → port_of (slot_at self.now m) wire.0 ≡ None }
    {
        match self.known.drivers_among(wire) {
            Some(row) => self.port_among(row, wire),
            None => self.port_sought(wire),
        }
    }

    /// The module and the port that drive a wire, by a look at each module.
    fn port_sought(&self, wire: WireId) -> Option<(ModuleId, u32)>
        requires { (m : ℕ) → HasFewPorts (slot_at self.now m) }
        ensures some { IfSome result (λ at. port_of (slot_at self.now at.0.0) wire.0 ≡ Some at.1) }
        ensures none { result ≡ None → (m : ℕ) → port_of (slot_at self.now m) wire.0 ≡ None }
    {
        for m in 0..self.table.len() {
            if let Some(port) = self.port_of(m as u32, wire) {
                return Some((ModuleId(m as u32), port));
            }
        }
        None
    }

    /// The first of these modules that drives a wire, and the port.
    fn port_among(&self, modules: &[u32], wire: WireId) -> Option<(ModuleId, u32)>
        requires { (m : ℕ) → HasFewPorts (slot_at self.now m) }
        ensures some { IfSome result (λ at. port_of (slot_at self.now at.0.0) wire.0 ≡ Some at.1) }
        ensures none { result ≡ None → (m : ℕ) → is_in m modules.now ≡ true → port_of (slot_at self.now m) wire.0 ≡ None }
    {
        for m in modules {
            if let Some(port) = self.port_of(*m, wire) {
                return Some((ModuleId(*m), port));
            }
        }
        None
    }

    /// The port of a module that drives a wire.
    fn port_of(&self, number: u32, wire: WireId) -> Option<u32>
        requires { HasFewPorts (slot_at self.now number) }
        ensures { result ≡ port_of (slot_at self.now number) wire.0 }
    {
        match self.table.get(number) {
            Some(found) => port_among(found.outputs.as_slice(), wire),
            None => None,
        }
    }

    /// Whether a port of a module is at a wire.
    pub fn name_wire(&self, wire: WireId) -> bool
        ensures { result ≡ list_any (stands_and (module_names wire.0)) self.now }
    {
        match self.known.around(wire) {
            Some(row) => self.one_names(row, wire),
            None => self.any_names(wire),
        }
    }

    fn any_names(&self, wire: WireId) -> bool
        ensures { result ≡ list_any (stands_and (module_names wire.0)) self.now }
    {
        for m in 0..self.table.len() {
            if self.names(m as u32, wire) {
                return true;
            }
        }
        false
    }

    fn one_names(&self, modules: &[u32], wire: WireId) -> bool
        ensures { result ≡ list_any (λ m. stands_and (module_names wire.0) (slot_at self.now m)) modules.now }
    {
        for m in modules {
            if self.names(*m, wire) {
                return true;
            }
        }
        false
    }

    fn names(&self, number: u32, wire: WireId) -> bool
        ensures { result ≡ stands_and (module_names wire.0) (slot_at self.now number) }
    {
        match self.table.get(number) {
            Some(found) => found.names(wire),
            None => false,
        }
    }
}

/// The port that has the wire as its output.
fn port_among(ports: &[Output], wire: WireId) -> Option<u32>
    requires { length ports.now < 2 ^ 32 }
    ensures { result ≡ port_from 0 ports.now wire.0 }
{
    for (p, port) in ports.iter().enumerate() {
        if let Some(named) = port.wire {
            if named.0 == wire.0 {
                return Some(p as u32);
            }
        }
    }
    None
}
