//! How wide the names of a picture are.
ghost use Rattle.std.specs.Prelude.{◌≡◌, ◌<◌, ◌^◌, map};
ghost use Rattle.mp_text.specs.Written.{wire_name};
ghost use Rattle.mp_picture.specs.Found.{place_name};
ghost use Rattle.mp_picture.specs.Diagrams.{longest, margin};

use crate::found::place_name;
use mp_model::Place;
use mp_netlist::{Netlist, WireId};
use mp_text::wire_name;

/// The number of blanks after the longest name.
const GAP: usize = 2;

/// The width of the names of a picture, in characters: that of the longest name of its wires and places, and two more. Without any it is two.
pub fn margin_of(netlist: &Netlist, wires: &[WireId], places: &[Place]) -> usize
    ensures { result ≡ margin netlist.now wires.now places.now }
{
    longest_wire(netlist, wires).max(longest_place(netlist, places)) + GAP
}

/// How long the longest name of a wire is, 0 if there is none.
fn longest_wire(netlist: &Netlist, wires: &[WireId]) -> usize
    ensures value { result ≡ longest (map (wire_name netlist.now) wires.now) }
    ensures short { result < 2 ^ 63 }
{
    let mut longest = 0;
    for &wire in wires {
        longest = wire_name(netlist, wire).len().max(longest);
    }
    longest
}

/// How long the longest name of a place is, 0 if there is none.
fn longest_place(netlist: &Netlist, places: &[Place]) -> usize
    ensures value { result ≡ longest (map (place_name netlist.now) places.now) }
    ensures short { result < 2 ^ 63 }
{
    let mut longest = 0;
    for &place in places {
        longest = place_name(netlist, place).len().max(longest);
    }
    longest
}
