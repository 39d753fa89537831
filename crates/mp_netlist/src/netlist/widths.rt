//! The widths of wires and modules.
ghost use Rattle.std.specs.Prelude.{◌≡◌};
ghost use Rattle.mp_records.specs.Inputs.{input_in};

use crate::netlist::Netlist;
use mp_records::{Input, ModuleRecord, WireId};

impl Netlist {
    ghost use Rattle.std.specs.Prelude.{◌≡◌};
    ghost use Rattle.mp_netlist.specs.Circuit.{wire_at, width_of, module_width};

    /// The width of the wire of this number, 0 if there is none.
    pub(crate) fn wire_width(&self, id: WireId) -> u32
        ensures { result ≡ width_of (wire_at self.now id.0) }
    {
        match self.wire(id) {
            Some(found) => found.width,
            None => 0,
        }
    }

    /// The width of a module, from that of the wire at its first input (`Kind::width_from`).
    #[tactic(auto, using(mp_modules::proofs::KindLemmas::width_from_narrow))]
    pub fn module_width(&self, found: &ModuleRecord) -> u32
        ensures { result ≡ module_width self.now found.now }
    {
        if !found.kind.has_width() {
            return 1;
        }
        let first = self.wire_width(first_wire(found.inputs.as_slice()));
        found.kind.width_from(first)
    }
}

fn first_wire(inputs: &[Input]) -> WireId
    ensures { result ≡ (input_in inputs.now 0).wire }
{
    match inputs {
        [first, ..] => first.wire,
        [] => WireId(0),
    }
}
