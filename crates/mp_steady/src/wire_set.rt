//! Some wires of a netlist that has run.
ghost use Rattle.std.specs.Prelude.{◌≡◌, All, IfOk, IsSome, is_some};
ghost use Rattle.mp_netlist.specs.Circuit.{wire_at};
ghost use Rattle.mp_records.specs.declared.ids.WireId.{WireId as Id};
ghost use Rattle.mp_steady.specs.WireSets.{all_wires, numbers};

use mp_netlist::{Netlist, WireId};
use mp_questions::Driven;
use mp_wave::Wave;
use std::alloc::{AllocError, Global};

/// Wires of a netlist that has run.
#[derive(Clone, Copy)]
pub(crate) struct WireSet<'a> {
    pub(crate) of: Driven<'a>,
    /// By number.
    pub(crate) wires: &'a [WireId],
    ghost stand: { All (λ (w : Id). IsSome (wire_at of.netlist.now w.0)) wires.now },
}

impl<'a> WireSet<'a> {
    ghost use Rattle.std.specs.Prelude.{◌≡◌, IsSome};
    ghost use Rattle.mp_netlist.specs.Circuit.{wire_at};
    ghost use Rattle.mp_model.specs.Waves.{wave};

    /// The wave of a wire that exists.
    pub(crate) fn wave_of(self, wire: WireId) -> &'a Wave
        requires { IsSome (wire_at self.of.netlist.now wire.0) }
        ensures { result.now ≡ wave self.entry.of.netlist.now wire.0 }
    {
        match self.of.waves.of(wire) {
            Some(wave) => wave,
            None => unreachable!(),
        }
    }
}

/// All wires, by number.
pub(crate) fn all_wires(alloc: Global, netlist: &Netlist) -> Result<Vec<WireId>, AllocError>
    ensures value { IfOk result (λ found. numbers found.items ≡ all_wires netlist.now) }
    ensures stand { IfOk result (λ found. All (λ (w : Id). IsSome (wire_at netlist.now w.0)) found.items) }
{
    let mut found = Vec::new(alloc);
    for number in 0..netlist.wire_slots() {
        if stands(netlist, WireId(number)) {
            found.push(WireId(number))?;
        }
    }
    Ok(found)
}

/// Whether there is a wire of this number.
fn stands(netlist: &Netlist, wire: WireId) -> bool
    ensures { result ≡ is_some (wire_at netlist.now wire.0) }
{
    match netlist.wire(wire) {
        Some(_) => true,
        None => false,
    }
}
