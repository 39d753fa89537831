//! The modules of a netlist, each as an instance of its kind's module.
ghost use Rattle.std.specs.Prelude.{Some};
ghost use Rattle.mp_streams.specs.Outgoing.{Writes};
ghost use Rattle.mp_exports.specs.verilog.Instances.{bundle_line};

use crate::verilog::declarations::Wire;
use crate::verilog::kinds::module_word;
use crate::verilog::module_items::{
    Copies, Given, InputItems, InstancedModule, OutputDelays, OutputItems, ParamItems,
};
use crate::verilog::names::Identifier;
use crate::verilog::numbered::{Each, Numbered};
use crate::verilog::ports::{input_count, output_count, param_count};
use mp_netlist::{BundleId, BundleRecord, ModuleId, Netlist};
use mp_streams::{Failed, Out, Sink, Text};

/// The width of a module whose kind has ports of any width.
#[derive(Clone, Copy)]
struct WidthItem<'a> {
    part: InstancedModule<'a>,
}

impl<'a> Text for WidthItem<'a> {
    ghost use Rattle.mp_exports.specs.verilog.Instances.{width_item};

    ghost text = { λ item. width_item item.part.netlist.now item.part.found.now };

    fn put_to<S: Sink>(&self, out: &mut Out<S>) -> Result<(), Failed> {
        let found = self.part.found;
        if !found.kind.has_width() {
            return Ok(());
        }
        let name = "W";
        let value = self.part.netlist.module_width(found);
        (", ", Given { name, value }).put_to(out)
    }
}

/// What an instance of a module is called.
#[derive(Clone, Copy)]
struct InstanceName<'a> {
    part: InstancedModule<'a>,
}

impl<'a> Text for InstanceName<'a> {
    ghost use Rattle.mp_exports.specs.verilog.Instances.{instance_name};

    ghost text = { λ instance. instance_name instance.part.netlist.now instance.part.found.now };

    fn put_to<S: Sink>(&self, out: &mut Out<S>) -> Result<(), Failed> {
        let name = self.part.found.name.as_str();
        if self.part.netlist.wire_named(name).is_some() {
            return (name, "$").put_to(out);
        }
        Identifier { name }.put_to(out)
    }
}

/// Delays, initial levels, parameters and the width of a module.
#[derive(Clone, Copy)]
struct Values<'a> {
    part: InstancedModule<'a>,
}

impl<'a> Text for Values<'a> {
    ghost use Rattle.mp_exports.specs.verilog.Instances.{values_text};

    ghost text = { λ values. values_text values.part.netlist.now values.part.found.now };

    fn put_to<S: Sink>(&self, out: &mut Out<S>) -> Result<(), Failed> {
        let part = self.part;
        let delays = Each {
            items: OutputDelays { part },
            count: output_count(part.found.kind),
        };
        let params = Each {
            items: ParamItems { part },
            count: param_count(part.found.kind),
        };
        (delays, params, WidthItem { part }).put_to(out)
    }
}

/// What the ports of a module read and drive.
#[derive(Clone, Copy)]
struct PortItems<'a> {
    part: InstancedModule<'a>,
}

impl<'a> Text for PortItems<'a> {
    ghost use Rattle.mp_exports.specs.verilog.Instances.{ports_text};

    ghost text = { λ ports. ports_text ports.part.netlist.now ports.part.found.now };

    fn put_to<S: Sink>(&self, out: &mut Out<S>) -> Result<(), Failed> {
        let part = self.part;
        let inputs = Each {
            items: InputItems { part },
            count: input_count(part.found.kind),
        };
        let outputs = Each {
            items: OutputItems { part },
            count: output_count(part.found.kind),
        };
        (inputs, outputs).put_to(out)
    }
}

/// The copies that the inputs of a module read.
#[derive(Clone, Copy)]
struct CopyLines<'a> {
    part: InstancedModule<'a>,
}

impl<'a> Text for CopyLines<'a> {
    ghost use Rattle.mp_exports.specs.verilog.Instances.{copy_lines};

    ghost text = { λ lines. copy_lines lines.part.netlist.now lines.part.found.now };

    fn put_to<S: Sink>(&self, out: &mut Out<S>) -> Result<(), Failed> {
        let part = self.part;
        let copies = Each {
            items: Copies { part },
            count: input_count(part.found.kind),
        };
        copies.put_to(out)
    }
}

/// The modules of a netlist, each with the copies that its inputs read.
#[derive(Clone, Copy)]
pub(crate) struct Instances<'a> {
    pub(crate) netlist: &'a Netlist,
}

impl<'a> Numbered for Instances<'a> {
    ghost use Rattle.mp_netlist.specs.Circuit.{module_at};
    ghost use Rattle.mp_exports.specs.verilog.Instances.{instance_lines};

    ghost item = { λ instances m. instance_lines instances.netlist.now (module_at instances.netlist.now m) };

    fn put_item<S: Sink>(&self, out: &mut Out<S>, number: u32) -> Result<(), Failed> {
        let netlist = self.netlist;
        let Some(found) = netlist.module(ModuleId(number)) else {
            return Ok(());
        };
        let part = InstancedModule { netlist, found };
        let kind = module_word(found.kind);
        let ports = (InstanceName { part }, " (", PortItems { part }, ");\n");
        let values = (" #(", Values { part }, ") ", ports);
        (CopyLines { part }, "  ", kind, values).put_to(out)
    }
}

/// The bundles of a netlist, each as a comment.
#[derive(Clone, Copy)]
pub(crate) struct Bundles<'a> {
    pub(crate) netlist: &'a Netlist,
}

impl<'a> Numbered for Bundles<'a> {
    ghost use Rattle.mp_netlist.specs.Circuit.{bundle_at};
    ghost use Rattle.mp_exports.specs.verilog.Instances.{bundle_line};

    ghost item = { λ bundles b. bundle_line bundles.netlist.now (bundle_at bundles.netlist.now b) };

    fn put_item<S: Sink>(&self, out: &mut Out<S>, number: u32) -> Result<(), Failed> {
        match self.netlist.bundle(BundleId(number)) {
            Some(bundle) => put_bundle(out, self.netlist, bundle),
            None => Ok(()),
        }
    }
}

/// Writes the comment of a bundle.
fn put_bundle<S: Sink>(
    out: &mut Out<S>,
    netlist: &Netlist,
    bundle: &BundleRecord,
) -> Result<(), Failed>
    ensures { Writes result out.old out.new (bundle_line netlist.now (Some bundle.now)) }
{
    let request = Wire {
        netlist,
        id: bundle.request,
    };
    let acknowledge = Wire {
        netlist,
        id: bundle.acknowledge,
    };
    let payload = Wire {
        netlist,
        id: bundle.payload,
    };
    let name = bundle.name.as_str();
    let data = (", data ", payload, ", setup ", (bundle.setup, "\n"));
    let wires = (request, ", acknowledge ", acknowledge, data);
    ("  // bundle ", name, ": request ", wires).put_to(out)
}
