//! The wires, modules and bundles that an edit names, and the ports of such a module.

use crate::netlist::Netlist;
use mp_records::{BundleId, ModuleId, Name, WireId};

impl Netlist {
    ghost use Rattle.std.specs.Prelude.{◌≡◌, option_map};
    ghost use Rattle.mp_netlist.specs.Circuit.{module_at, wire_named, module_named, bundle_named};
    ghost use Rattle.mp_netlist.specs.Edits.{input_ports, output_ports, input_width_of, output_width_of};

    /// The number of the wire that has the name.
    pub(crate) fn find_wire(&self, name: &Name) -> Option<WireId>
        ensures { option_map (λ id. id.0) result ≡ wire_named self.now name.now }
    {
        match self.wires.number_named(name) {
            Some(number) => Some(WireId(number)),
            None => None,
        }
    }

    /// The number of the module that has the name.
    pub(crate) fn find_module(&self, name: &Name) -> Option<ModuleId>
        ensures { option_map (λ id. id.0) result ≡ module_named self.now name.now }
    {
        match self.modules.number_named(name) {
            Some(number) => Some(ModuleId(number)),
            None => None,
        }
    }

    /// The number of the bundle that has the name.
    pub(crate) fn find_bundle(&self, name: &Name) -> Option<BundleId>
        ensures { option_map (λ id. id.0) result ≡ bundle_named self.now name.now }
    {
        match self.bundles.number_named(name) {
            Some(number) => Some(BundleId(number)),
            None => None,
        }
    }

    /// The number of input ports of the module of this number, 0 if there is none.
    pub(crate) fn input_ports(&self, id: ModuleId) -> u64
        ensures { result ≡ input_ports (module_at self.now id.0) }
    {
        match self.module(id) {
            Some(found) => found.inputs.as_slice().len() as u64,
            None => 0,
        }
    }

    /// The number of output ports of the module of this number, 0 if there is none.
    pub(crate) fn output_ports(&self, id: ModuleId) -> u64
        ensures { result ≡ output_ports (module_at self.now id.0) }
    {
        match self.module(id) {
            Some(found) => found.outputs.as_slice().len() as u64,
            None => 0,
        }
    }

    /// The width of an input port of the module of this number, 0 if there is none.
    pub(crate) fn input_width(&self, id: ModuleId, port: u64) -> u32
        ensures { result ≡ input_width_of self.now (module_at self.now id.0) port }
    {
        match self.module(id) {
            Some(found) => found
                .kind
                .input_width(self.module_width(found), port as usize),
            None => 0,
        }
    }

    /// The width of an output port of the module of this number, 0 if there is none.
    pub(crate) fn output_width(&self, id: ModuleId, port: u64) -> u32
        ensures { result ≡ output_width_of self.now (module_at self.now id.0) port }
    {
        match self.module(id) {
            Some(found) => found
                .kind
                .output_width(self.module_width(found), port as usize),
            None => 0,
        }
    }
}
