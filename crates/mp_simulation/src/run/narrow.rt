//! Netlists without data.
ghost use Rattle.std.specs.Prelude.{◌≡◌, ◌<◌, ◌↔◌, ℕ, IsTrue};
ghost use Rattle.mp_netlist.specs.Circuit.{wire_at, module_at};
ghost use Rattle.mp_simulation.specs.run.Narrow.{IsNarrow, has_one_bit, has_bit_module};

use mp_netlist::{ModuleId, Netlist, WireId};

/// Whether each wire and each module of a netlist has width 1.
pub fn is_narrow(netlist: &Netlist) -> bool
    ensures { IsTrue result ↔ IsNarrow netlist.now }
{
    has_bit_wires(netlist) && has_bit_modules(netlist)
}

fn has_bit_wires(netlist: &Netlist) -> bool
    ensures { IsTrue result ↔ ((w : ℕ) → IsTrue (has_one_bit (wire_at netlist.now w))) }
{
    for w in 0..netlist.wire_slots() {
        if !has_one_bit(netlist, WireId(w)) {
            return false;
        }
    }
    true
}

fn has_bit_modules(netlist: &Netlist) -> bool
    ensures { IsTrue result ↔ ((m : ℕ) → IsTrue (has_bit_module netlist.now (module_at netlist.now m))) }
{
    for m in 0..netlist.module_slots() {
        if !has_bit_module(netlist, ModuleId(m)) {
            return false;
        }
    }
    true
}

/// Whether the wire of this number has width 1 or doesn't exist.
fn has_one_bit(netlist: &Netlist, wire: WireId) -> bool
    ensures { result ≡ has_one_bit (wire_at netlist.now wire.0) }
{
    match netlist.wire(wire) {
        Some(found) => found.width == 1,
        None => true,
    }
}

/// Whether the module of this number has width 1 or doesn't exist.
fn has_bit_module(netlist: &Netlist, module: ModuleId) -> bool
    ensures { result ≡ has_bit_module netlist.now (module_at netlist.now module.0) }
{
    match netlist.module(module) {
        Some(found) => netlist.module_width(found) == 1,
        None => true,
    }
}
