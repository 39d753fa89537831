//! The ports of modules in a graph.
ghost use Rattle.std.specs.Prelude.{◌≡◌};
ghost use Rattle.mp_netlist.specs.Circuit.{module_at};
ghost use Rattle.mp_picture.specs.GraphPorts.{has_cells, input_cells, output_cells, input_port, output_port, bubble, is_bubble};

use mp_modules::{Function, Kind};
use mp_netlist::{ModuleId, ModuleRecord, Netlist};
use mp_streams::{Failed, Out, Sink, Text};

/// The place at which an edge meets a module.
#[derive(Clone, Copy, PartialEq, Eq)]
pub(crate) enum EdgePort {
    /// Anywhere, since the ports of its kind don't differ.
    Whole,
    /// At the cell of an input.
    Input(u32),
    /// At the cell of an output.
    Output(u32),
}

impl Text for EdgePort {
    ghost use Rattle.mp_picture.specs.GraphPorts.{port_text};

    ghost text = { λ port. port_text port };

    fn put_to<S: Sink>(&self, out: &mut Out<S>) -> Result<(), Failed> {
        match *self {
            EdgePort::Whole => Ok(()),
            EdgePort::Input(port) => (":i", port, ":w").put_to(out),
            EdgePort::Output(port) => (":o", port, ":e").put_to(out),
        }
    }
}

/// Whether the ports of a kind differ, so that they are drawn as cells.
fn has_cells(kind: Kind) -> bool
    ensures { result ≡ has_cells kind }
{
    match kind {
        Kind::Toggle | Kind::Select | Kind::Call | Kind::Arbiter | Kind::Reg => true,
        Kind::Function(Function::Sub | Function::Less | Function::Mux | Function::Join) => true,
        _ => false,
    }
}

/// The inputs of a kind whose ports differ, as cells.
pub(crate) fn input_cells(kind: Kind) -> &'static str
    ensures { result.now ≡ input_cells kind }
{
    match kind {
        Kind::Toggle => "{{<i0>a}|",
        Kind::Select => "{{<i0>a|<i1>diamond}|",
        Kind::Call => "{{<i0>r1|<i1>r2|<i2>d}|",
        Kind::Arbiter => "{{<i0>r1|<i1>r2|<i2>d1|<i3>d2}|",
        Kind::Reg => "{{<i0>d|<i1>c|<i2>p}|",
        Kind::Function(Function::Sub | Function::Less | Function::Join) => "{{<i0>a|<i1>b}|",
        Kind::Function(Function::Mux) => "{{<i0>a|<i1>b|<i2>s}|",
        _ => "",
    }
}

/// The outputs of a kind whose ports differ, as cells.
pub(crate) fn output_cells(kind: Kind) -> &'static str
    ensures { result.now ≡ output_cells kind }
{
    match kind {
        Kind::Toggle => "|{<o0>dot|<o1>blank}}",
        Kind::Select => "|{<o0>true|<o1>false}}",
        Kind::Call => "|{<o0>r|<o1>d1|<o2>d2}}",
        Kind::Arbiter => "|{<o0>g1|<o1>g2}}",
        Kind::Reg => "|{<o0>q|<o1>cd|<o2>pd}}",
        _ if has_cells(kind) => "|{<o0>y}}",
        _ => "",
    }
}

/// The place at which the edge of a read meets the module that reads.
pub(crate) fn input_port(netlist: &Netlist, part: ModuleId, port: u32) -> EdgePort
    ensures { result ≡ input_port (module_at netlist.now part.0) port }
{
    match netlist.module(part) {
        Some(found) if has_cells(found.kind) => EdgePort::Input(port),
        _ => EdgePort::Whole,
    }
}

/// The place at which the edges of a wire leave the module that drives it.
pub(crate) fn output_port(netlist: &Netlist, part: ModuleId, port: u32) -> EdgePort
    ensures { result ≡ output_port (module_at netlist.now part.0) port }
{
    match netlist.module(part) {
        Some(found) if has_cells(found.kind) => EdgePort::Output(port),
        _ => EdgePort::Whole,
    }
}

/// The bubble of an input that a C-element inverts, as an attribute, and no text for any other input.
pub(crate) fn bubble(netlist: &Netlist, part: ModuleId, port: u32) -> &'static str
    ensures { result.now ≡ bubble (module_at netlist.now part.0) port }
{
    match netlist.module(part) {
        Some(found) if is_bubble(found, port) => " arrowhead=odot",
        _ => "",
    }
}

/// Whether a C-element inverts an input.
fn is_bubble(found: &ModuleRecord, port: u32) -> bool
    ensures { result ≡ is_bubble found.now port }
{
    match found.kind {
        Kind::C => found.params.as_slice().get(port as usize + 1) == Some(&1),
        _ => false,
    }
}
