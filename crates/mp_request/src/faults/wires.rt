//! The wires of a netlist by name.
ghost use Rattle.std.specs.Prelude.{◌≡◌, is_some, option_map};
ghost use Rattle.mp_netlist.specs.Circuit.{wire_named};
ghost use Rattle.mp_netlist.specs.Edits.{stands, output_stands, width_named, is_undriven, output_fits};

use mp_netlist::{Driver, Name, Netlist, WireId};

/// Whether the netlist has a wire of this name.
pub(crate) fn stands(netlist: &Netlist, name: &Name) -> bool
    ensures { result ≡ stands netlist.now name.now }
{
    netlist.wire_named(name.as_str()).is_some()
}

/// Whether the netlist has the wire that an output is to drive, if it is to drive one.
pub(crate) fn output_stands(netlist: &Netlist, wire: &Option<Name>) -> bool
    ensures { result ≡ output_stands netlist.now wire.now }
{
    match wire {
        Some(name) => stands(netlist, name),
        None => true,
    }
}

/// The width of the wire of this name, 0 if there is none.
pub(crate) fn width_named(netlist: &Netlist, name: &Name) -> u32
    ensures { result ≡ width_named netlist.now name.now }
{
    match netlist.wire_named(name.as_str()) {
        Some(id) => match netlist.wire(id) {
            Some(found) => found.width,
            None => 0,
        },
        None => 0,
    }
}

/// Whether the wire that an output is to drive has this width, if it is to drive one.
pub(crate) fn output_fits(netlist: &Netlist, wire: &Option<Name>, width: u32) -> bool
    ensures { result ≡ output_fits netlist.now wire.now width }
{
    match wire {
        Some(name) => width_named(netlist, name) == width,
        None => true,
    }
}

/// Whether nothing drives the wire of this name.
pub(crate) fn is_undriven(netlist: &Netlist, name: &Name) -> bool
    ensures { result ≡ is_undriven netlist.now name.now }
{
    let id = netlist.wire_named(name.as_str()).unwrap_or(WireId(0));
    matches!(netlist.driver_of(id), Driver::Nothing)
}
