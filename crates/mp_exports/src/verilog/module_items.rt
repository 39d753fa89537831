//! What is given to an instance by name: its delays, its parameters and its ports.
ghost use Rattle.std.specs.Prelude.{◌≡◌, slice_index};
ghost use Rattle.mp_records.specs.Inputs.{input_at};
ghost use Rattle.mp_records.specs.Outputs.{output_at};
ghost use Rattle.mp_exports.specs.verilog.Instances.{comma};

use crate::verilog::declarations::{Level, Register, Wire};
use crate::verilog::names::Identifier;
use crate::verilog::numbered::Numbered;
use crate::verilog::ports::{input_name, output_name, param_name};
use mp_netlist::{Input, ModuleRecord, Netlist, Output, WireId};
use mp_streams::{Failed, Out, Sink, Text};

/// What is given by name to a port or a parameter.
#[derive(Clone, Copy)]
pub(crate) struct Given<N, V> {
    pub(crate) name: N,
    pub(crate) value: V,
}

impl<N: Text, V: Text> Text for Given<N, V> {
    ghost use Rattle.mp_exports.specs.verilog.Instances.{given};

    ghost text = { λ item. given (N.text item.name) (V.text item.value) };

    fn put_to<S: Sink>(&self, out: &mut Out<S>) -> Result<(), Failed> {
        (".", &self.name, "(", (&self.value, ")")).put_to(out)
    }
}

/// The text before the item of this number.
fn comma(number: u32) -> &'static str
    ensures { result.now ≡ comma number }
{
    if number == 0 { "" } else { ", " }
}

/// A module of a netlist, which is written as an instance.
#[derive(Clone, Copy)]
pub(crate) struct InstancedModule<'a> {
    pub(crate) netlist: &'a Netlist,
    pub(crate) found: &'a ModuleRecord,
}

/// The name of the copy that an input with a delay reads.
#[derive(Clone, Copy)]
struct CopyName<'a> {
    found: &'a ModuleRecord,
    port: u32,
}

impl<'a> Text for CopyName<'a> {
    ghost use Rattle.mp_exports.specs.verilog.Instances.{copy_name};

    ghost text = { λ copy. copy_name copy.found.now copy.port };

    fn put_to<S: Sink>(&self, out: &mut Out<S>) -> Result<(), Failed> {
        let port = input_name(self.found.kind, self.port);
        (self.found.name.as_str(), "$", port).put_to(out)
    }
}

/// The copies that inputs with a delay read, a line each.
#[derive(Clone, Copy)]
pub(crate) struct Copies<'a> {
    pub(crate) part: InstancedModule<'a>,
}

impl<'a> Numbered for Copies<'a> {
    ghost use Rattle.mp_exports.specs.verilog.Instances.{copy_line};

    ghost item = { λ copies p. copy_line copies.part.netlist.now copies.part.found.now p };

    fn put_item<S: Sink>(&self, out: &mut Out<S>, number: u32) -> Result<(), Failed> {
        let found = self.part.found;
        let input = input_at(found, number);
        if input.delay == 0 {
            return Ok(());
        }
        let Some(wire) = self.part.netlist.wire(input.wire) else {
            return Ok(());
        };
        let port = number;
        let copy = CopyName { found, port };
        let name = wire.name.as_str();
        let of = Identifier { name };
        let sets = (") ", copy, " <= #", (input.delay, " ", of, ";\n"));
        (Register { name: copy, wire }, " always @(", of, sets).put_to(out)
    }
}

/// What the input ports read.
#[derive(Clone, Copy)]
pub(crate) struct InputItems<'a> {
    pub(crate) part: InstancedModule<'a>,
}

impl<'a> Numbered for InputItems<'a> {
    ghost use Rattle.mp_exports.specs.verilog.Instances.{input_item};

    ghost item = { λ items p. input_item items.part.netlist.now items.part.found.now p };

    fn put_item<S: Sink>(&self, out: &mut Out<S>, number: u32) -> Result<(), Failed> {
        let found = self.part.found;
        let input = input_at(found, number);
        let name = input_name(found.kind, number);
        if input.delay == 0 {
            let value = Wire {
                netlist: self.part.netlist,
                id: input.wire,
            };
            return (comma(number), Given { name, value }).put_to(out);
        }
        let port = number;
        let value = CopyName { found, port };
        (comma(number), Given { name, value }).put_to(out)
    }
}

/// The wire that an output drives, if any.
#[derive(Clone, Copy)]
struct DrivenItem<'a> {
    netlist: &'a Netlist,
    wire: Option<WireId>,
}

impl<'a> Text for DrivenItem<'a> {
    ghost use Rattle.mp_exports.specs.verilog.Instances.{driven_text};

    ghost text = { λ driven. driven_text driven.netlist.now driven.wire };

    fn put_to<S: Sink>(&self, out: &mut Out<S>) -> Result<(), Failed> {
        let netlist = self.netlist;
        match self.wire {
            Some(id) => Wire { netlist, id }.put_to(out),
            None => Ok(()),
        }
    }
}

/// What the output ports drive.
#[derive(Clone, Copy)]
pub(crate) struct OutputItems<'a> {
    pub(crate) part: InstancedModule<'a>,
}

impl<'a> Numbered for OutputItems<'a> {
    ghost use Rattle.mp_exports.specs.verilog.Instances.{output_item};

    ghost item = { λ items p. output_item items.part.netlist.now items.part.found.now p };

    fn put_item<S: Sink>(&self, out: &mut Out<S>, number: u32) -> Result<(), Failed> {
        let name = output_name(self.part.found.kind, number);
        let value = DrivenItem {
            netlist: self.part.netlist,
            wire: output_at(self.part.found, number).wire,
        };
        (", ", Given { name, value }).put_to(out)
    }
}

/// The initial level of the wire that an output drives, if any.
#[derive(Clone, Copy)]
struct FirstItem<'a> {
    netlist: &'a Netlist,
    name: &'a str,
    wire: Option<WireId>,
}

impl<'a> Text for FirstItem<'a> {
    ghost use Rattle.mp_exports.specs.verilog.Instances.{first_text};

    ghost text = { λ first. first_text first.netlist.now first.name.now first.wire };

    fn put_to<S: Sink>(&self, out: &mut Out<S>) -> Result<(), Failed> {
        let Some(id) = self.wire else {
            return Ok(());
        };
        let Some(wire) = self.netlist.wire(id) else {
            return Ok(());
        };
        let name = (self.name, "_initial");
        let value = Level {
            width: wire.width,
            level: wire.initial,
        };
        (", ", Given { name, value }).put_to(out)
    }
}

/// The delays of the output ports, and the initial levels of what they drive.
#[derive(Clone, Copy)]
pub(crate) struct OutputDelays<'a> {
    pub(crate) part: InstancedModule<'a>,
}

impl<'a> Numbered for OutputDelays<'a> {
    ghost use Rattle.mp_exports.specs.verilog.Instances.{delay_item};

    ghost item = { λ delays p. delay_item delays.part.netlist.now delays.part.found.now p };

    fn put_item<S: Sink>(&self, out: &mut Out<S>, number: u32) -> Result<(), Failed> {
        let output = output_at(self.part.found, number);
        let name = output_name(self.part.found.kind, number);
        let first = FirstItem {
            netlist: self.part.netlist,
            name,
            wire: output.wire,
        };
        let delay = Given {
            name: (name, "_delay"),
            value: output.delay,
        };
        (comma(number), delay, first).put_to(out)
    }
}

/// The parameters of the kind.
#[derive(Clone, Copy)]
pub(crate) struct ParamItems<'a> {
    pub(crate) part: InstancedModule<'a>,
}

impl<'a> Numbered for ParamItems<'a> {
    ghost use Rattle.mp_exports.specs.verilog.Instances.{param_item};

    ghost item = { λ items k. param_item items.part.netlist.now items.part.found.now k };

    fn put_item<S: Sink>(&self, out: &mut Out<S>, number: u32) -> Result<(), Failed> {
        let found = self.part.found;
        let name = param_name(found.kind, number);
        let value = Level {
            width: self.part.netlist.module_width(found),
            level: param_at(found, number),
        };
        (", ", Given { name, value }).put_to(out)
    }
}

fn input_at(found: &ModuleRecord, port: u32) -> Input
    ensures { result ≡ input_at found.now port }
{
    match found.inputs.as_slice().get(port as usize) {
        Some(input) => *input,
        None => Input {
            wire: WireId(0),
            delay: 0,
        },
    }
}

fn output_at(found: &ModuleRecord, port: u32) -> Output
    ensures { result ≡ output_at found.now port }
{
    match found.outputs.as_slice().get(port as usize) {
        Some(output) => *output,
        None => Output {
            wire: None,
            delay: 1,
        },
    }
}

fn param_at(found: &ModuleRecord, place: u32) -> u64
    ensures { result ≡ slice_index found.now.params place }
{
    match found.params.as_slice().get(place as usize) {
        Some(param) => *param,
        None => 0,
    }
}
