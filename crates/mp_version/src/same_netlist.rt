//! Whether two netlists have the same records in the same slots.
ghost use Rattle.std.specs.Prelude.{◌≡◌, IsTrue, ◌↔◌};

use mp_netlist::{BundleId, ModuleId, Netlist, WireId};
use mp_records::same_place;

/// Whether two netlists are the same.
pub(crate) fn same_netlist(a: &Netlist, b: &Netlist) -> bool
    ensures { IsTrue result ↔ (a.now ≡ b.now) }
{
    a.format() == b.format()
        && a.horizon() == b.horizon()
        && same_wires(a, b)
        && same_modules(a, b)
        && same_bundles(a, b)
}

fn same_wires(a: &Netlist, b: &Netlist) -> bool
    ensures { IsTrue result ↔ (a.now.wires ≡ b.now.wires) }
{
    if a.wire_slots() != b.wire_slots() {
        return false;
    }
    for number in 0..a.wire_slots() {
        if !same_place(a.wire(WireId(number)), b.wire(WireId(number))) {
            return false;
        }
    }
    true
}

fn same_modules(a: &Netlist, b: &Netlist) -> bool
    ensures { IsTrue result ↔ (a.now.modules ≡ b.now.modules) }
{
    if a.module_slots() != b.module_slots() {
        return false;
    }
    for number in 0..a.module_slots() {
        if !same_place(a.module(ModuleId(number)), b.module(ModuleId(number))) {
            return false;
        }
    }
    true
}

fn same_bundles(a: &Netlist, b: &Netlist) -> bool
    ensures { IsTrue result ↔ (a.now.bundles ≡ b.now.bundles) }
{
    if a.bundle_slots() != b.bundle_slots() {
        return false;
    }
    for number in 0..a.bundle_slots() {
        if !same_place(a.bundle(BundleId(number)), b.bundle(BundleId(number))) {
            return false;
        }
    }
    true
}
