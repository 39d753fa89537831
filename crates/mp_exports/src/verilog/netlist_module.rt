//! A netlist as a module.
use crate::verilog::declarations::Range;
use crate::verilog::instances::{Bundles, Instances};
use crate::verilog::listed::{Listed, Separated};
use crate::verilog::names::Identifier;
use crate::verilog::numbered::Each;
use crate::verilog::wires::Wires;
use mp_streams::{Failed, Out, Sink, Text};

/// The wires as ports: an input if no port of a module drives it, and otherwise an output.
#[derive(Clone, Copy)]
struct ModulePorts<'a> {
    wires: Wires<'a>,
}

impl<'a> Listed for ModulePorts<'a> {
    ghost use Rattle.mp_exports.specs.verilog.Verilog.{port_item};

    ghost item = { λ ports w. port_item ports.wires.netlist.now w };

    fn has_item(&self, number: u32) -> bool {
        self.wires.at(number).is_some()
    }

    fn put_item<S: Sink>(
        &self,
        out: &mut Out<S>,
        number: u32,
        is_first: bool,
    ) -> Result<(), Failed> {
        let Some(wire) = self.wires.at(number) else {
            return Ok(());
        };
        let start = if is_first { "\n  " } else { ",\n  " };
        let direction = if self.wires.is_input(number) {
            "input "
        } else {
            "output "
        };
        let range = Range { width: wire.width };
        let name = wire.name.as_str();
        (start, direction, range, Identifier { name }).put_to(out)
    }
}

/// A netlist as a module: its wires as ports, an instance for each module, and a comment for each bundle.
#[derive(Clone, Copy)]
pub(crate) struct NetlistModule<'a> {
    pub(crate) wires: Wires<'a>,
}

impl<'a> Text for NetlistModule<'a> {
    ghost use Rattle.mp_exports.specs.verilog.Verilog.{netlist_text};

    ghost text = { λ whole. netlist_text whole.wires.netlist.now };

    #[tactic(auto, unfolding(crate::specs::verilog::Verilog::netlist_text))]
    fn put_to<S: Sink>(&self, out: &mut Out<S>) -> Result<(), Failed> {
        let wires = self.wires;
        let netlist = wires.netlist;
        let ports = Separated {
            items: ModulePorts { wires },
            count: netlist.wire_slots(),
        };
        let instances = Each {
            items: Instances { netlist },
            count: netlist.module_slots(),
        };
        let bundles = Each {
            items: Bundles { netlist },
            count: netlist.bundle_slots(),
        };
        let end = (instances, bundles, "endmodule\n");
        ("\nmodule netlist (", ports, "\n);\n", end).put_to(out)
    }
}
