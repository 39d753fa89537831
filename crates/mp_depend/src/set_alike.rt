//! What is set on a wire from outside, before a change and after it.
ghost use Rattle.std.specs.Prelude.{◌≡◌, ◌↔◌, IsTrue};
ghost use Rattle.mp_netlist.specs.Drivers.{driver};
ghost use Rattle.mp_depend.specs.SetAlike.{IsSetAlike};

use mp_netlist::{Driver, Netlist, WireId};
use mp_records::same_option;

/// Whether a wire exists in both netlists and has the same stimulus, if no port drives it. `was` is its driver in the old netlist.
pub fn is_set_alike(old: &Netlist, new: &Netlist, wire: WireId, was: Driver) -> bool
    requires { was ≡ driver old.now wire.0 }
    ensures { IsTrue result ↔ IsSetAlike old.now new.now wire.0 }
{
    // Its contract says that the netlist is well formed.
    let _horizon = old.horizon();
    if let Driver::Port(..) = was {
        return false;
    }
    let Some(before) = old.wire(wire) else {
        return false;
    };
    let Some(after) = new.wire(wire) else {
        return false;
    };
    same_option(&before.stimulus, &after.stimulus)
}
