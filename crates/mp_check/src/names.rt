//! The names of modules and bundles.
ghost use Rattle.std.specs.Prelude.{◌≡◌};
ghost use Rattle.mp_check.specs.Selections.{bundle_name, module_name, place_name};

use mp_model::Place;
use mp_netlist::{BundleId, ModuleId, Netlist};

/// The name of a module; empty if there is none.
pub(crate) fn module_name(netlist: &Netlist, id: ModuleId) -> &str
    ensures { result.now ≡ module_name netlist.now id.0 }
{
    match netlist.module(id) {
        Some(found) => found.name.as_str(),
        None => "",
    }
}

/// The name of a bundle; empty if there is none.
pub(crate) fn bundle_name(netlist: &Netlist, id: BundleId) -> &str
    ensures { result.now ≡ bundle_name netlist.now id.0 }
{
    match netlist.bundle(id) {
        Some(found) => found.name.as_str(),
        None => "",
    }
}

/// The name of the module or the bundle at a place; empty if there is none.
pub(crate) fn place_name(netlist: &Netlist, place: Place) -> &str
    ensures { result.now ≡ place_name netlist.now place }
{
    match place {
        Place::Module(id) => module_name(netlist, id),
        Place::Bundle(id) => bundle_name(netlist, id),
    }
}
