//! The widths of wires as a list.
ghost use Rattle.std.specs.Prelude.{◌≡◌, ◌≤◌};
ghost use Rattle.mp_exports.specs.vcd.Clauses.{ℕ, IfOk, map, slice_index, wire_at, width_of};

use mp_netlist::{Netlist, WireId};
use std::alloc::{AllocError, Global};

/// The width in bits of each wire by number, 0 for a number without a wire. So no record is looked at for a change. The error comes if memory runs
/// out.
#[tactic(auto, using(crate::proofs::lemmas::vcd::StandingLemmas::widths_of_steps))]
pub fn widths_of(alloc: Global, netlist: &Netlist) -> Result<Vec<u32>, AllocError>
    ensures are { IfOk result (λ widths. widths.items ≡ map width_of netlist.now.wires) }
    ensures narrow { IfOk result (λ widths. (w : ℕ) → slice_index widths.items w ≤ 64) }
{
    let _horizon = netlist.horizon();
    let mut widths = Vec::with_capacity(alloc, netlist.wire_slots() as usize)?;
    for number in 0..netlist.wire_slots() {
        widths.push(width_of(netlist, WireId(number)))?;
    }
    Ok(widths)
}

fn width_of(netlist: &Netlist, wire: WireId) -> u32
    ensures { result ≡ width_of (wire_at netlist.now wire.0) }
{
    match netlist.wire(wire) {
        Some(record) => record.width,
        None => 0,
    }
}
