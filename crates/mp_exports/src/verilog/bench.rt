//! The test bench of a netlist's module.
ghost use Rattle.std.specs.Prelude.{◌≡◌, ◌++◌};
ghost use Rattle.std.specs.List.{flat_map};
ghost use Rattle.mp_streams.specs.Outgoing.{Writes};
ghost use Rattle.mp_exports.specs.verilog.Verilog.{change_line};

use crate::verilog::declarations::{Level, Register};
use crate::verilog::listed::{Listed, Separated};
use crate::verilog::module_items::Given;
use crate::verilog::names::Identifier;
use crate::verilog::numbered::{Each, Numbered};
use crate::verilog::wires::Wires;
use mp_netlist::{Netlist, WireId, WireRecord};
use mp_streams::{Failed, Out, Sink, Text};

const DUMPING: &str =
    "  initial begin\n    $dumpfile(\"waves.vcd\");\n    $dumpvars(1, netlist$);\n";

const START: &str = "\nmodule bench;\n  reg last$ = 1'd0;\n";

const END: &str = " - 1) 1'd1;\n    @(last$) #0 $finish;\n  end\nendmodule\n";

/// The registers of the wires that come from outside.
#[derive(Clone, Copy)]
struct Registers<'a> {
    wires: Wires<'a>,
}

impl<'a> Numbered for Registers<'a> {
    ghost use Rattle.mp_exports.specs.verilog.Verilog.{register_line};

    ghost item = { λ registers w. register_line registers.wires.netlist.now w };

    fn put_item<S: Sink>(&self, out: &mut Out<S>, number: u32) -> Result<(), Failed> {
        let Some(wire) = self.wires.at(number) else {
            return Ok(());
        };
        if !self.wires.is_input(number) {
            return Ok(());
        }
        let name = Identifier {
            name: wire.name.as_str(),
        };
        (Register { name, wire }, "\n").put_to(out)
    }
}

/// The wires that come from outside, as they are given to the netlist's module.
#[derive(Clone, Copy)]
struct Connections<'a> {
    wires: Wires<'a>,
}

impl<'a> Listed for Connections<'a> {
    ghost use Rattle.mp_exports.specs.verilog.Verilog.{connection_item};

    ghost item = { λ connections w. connection_item connections.wires.netlist.now w };

    fn has_item(&self, number: u32) -> bool {
        self.wires.at(number).is_some() && self.wires.is_input(number)
    }

    fn put_item<S: Sink>(
        &self,
        out: &mut Out<S>,
        number: u32,
        is_first: bool,
    ) -> Result<(), Failed> {
        let Some(wire) = self.wires.at(number) else {
            return Ok(());
        };
        if !self.wires.is_input(number) {
            return Ok(());
        }
        let start = if is_first { "\n    " } else { ",\n    " };
        let name = Identifier {
            name: wire.name.as_str(),
        };
        (start, Given { name, value: name }).put_to(out)
    }
}

/// The changes of a stimulus of a wire, a line each.
#[derive(Clone, Copy)]
struct ChangeLines<'a> {
    wire: &'a WireRecord,
    changes: &'a [(u32, u64)],
}

impl<'a> Text for ChangeLines<'a> {
    ghost use Rattle.mp_exports.specs.verilog.Verilog.{change_line};

    ghost text = { λ lines. flat_map (change_line lines.wire.now) lines.changes.now };

    fn put_to<S: Sink>(&self, out: &mut Out<S>) -> Result<(), Failed> {
        for &(time, level) in self.changes {
            put_change(out, self.wire, time, level)?;
        }
        Ok(())
    }
}

/// Writes the line of a change.
fn put_change<S: Sink>(
    out: &mut Out<S>,
    wire: &WireRecord,
    time: u32,
    level: u64,
) -> Result<(), Failed>
    ensures { Writes result out.old out.new (change_line wire.now (time, level)) }
{
    let name = Identifier {
        name: wire.name.as_str(),
    };
    let width = wire.width;
    let set = (time, " ", Level { width, level }, ";\n");
    ("    ", name, " <= #", set).put_to(out)
}

/// The changes that stimuli make.
#[derive(Clone, Copy)]
struct StimulusItems<'a> {
    netlist: &'a Netlist,
}

impl<'a> Numbered for StimulusItems<'a> {
    ghost use Rattle.mp_netlist.specs.Circuit.{wire_at};
    ghost use Rattle.mp_exports.specs.verilog.Verilog.{stimulus_lines};

    ghost item = { λ stimuli w. stimulus_lines (wire_at stimuli.netlist.now w) };

    fn put_item<S: Sink>(&self, out: &mut Out<S>, number: u32) -> Result<(), Failed> {
        let Some(wire) = self.netlist.wire(WireId(number)) else {
            return Ok(());
        };
        match &wire.stimulus {
            Some(stimulus) => {
                let changes = stimulus.as_slice();
                ChangeLines { wire, changes }.put_to(out)
            }
            None => Ok(()),
        }
    }
}

/// A test bench: it drives what comes from outside, and dumps the waves. It ends in the last unit below the horizon, once that unit's changes have
/// occurred.
#[derive(Clone, Copy)]
pub(crate) struct Bench<'a> {
    pub(crate) wires: Wires<'a>,
}

impl<'a> Text for Bench<'a> {
    ghost use Rattle.mp_exports.specs.verilog.Verilog.{bench_text};

    ghost text = { λ bench. bench_text bench.wires.netlist.now };

    #[tactic(auto, unfolding(crate::specs::verilog::Verilog::bench_text))]
    fn put_to<S: Sink>(&self, out: &mut Out<S>) -> Result<(), Failed> {
        let wires = self.wires;
        let netlist = wires.netlist;
        let registers = Each {
            items: Registers { wires },
            count: netlist.wire_slots(),
        };
        let connections = Separated {
            items: Connections { wires },
            count: netlist.wire_slots(),
        };
        let stimuli = Each {
            items: StimulusItems { netlist },
            count: netlist.wire_slots(),
        };
        let end = (stimuli, "    last$ <= #(", netlist.horizon(), END);
        let instance = (connections, "\n  );\n", DUMPING, end);
        (START, registers, "  netlist netlist$ (", instance).put_to(out)
    }
}
