//! The nodes of a netlist's graph.
ghost use Rattle.std.specs.Prelude.{◌≡◌, Some};
ghost use Rattle.mp_streams.specs.Outgoing.{Writes};
ghost use Rattle.mp_netlist.specs.Circuit.{module_at};
ghost use Rattle.mp_picture.specs.Graphs.{node, module_node, shape_of, function_shape};

use crate::edge_port::{input_cells, output_cells};
use mp_modules::{Function, Kind};
use mp_netlist::{ModuleId, ModuleRecord, Netlist};
use mp_streams::{Failed, Out, Sink, Text};
use mp_text::Spaced;

/// The node of a module, a wire or a bundle, between quotes.
#[derive(Clone, Copy)]
pub(crate) struct Id<'a> {
    pub(crate) kind: &'a str,
    pub(crate) name: &'a str,
}

impl<'a> Text for Id<'a> {
    ghost use Rattle.mp_picture.specs.Graphs.{id};

    ghost text = { λ node. id node.kind.now node.name.now };

    fn put_to<S: Sink>(&self, out: &mut Out<S>) -> Result<(), Failed> {
        ("\"", self.kind, self.name, "\"").put_to(out)
    }
}

/// Writes the line of a node with a label and other attributes.
pub(crate) fn put_node<S: Sink, T: Text>(
    out: &mut Out<S>,
    id: Id<'_>,
    label: &T,
    attributes: &str,
) -> Result<(), Failed>
    ensures { Writes result out.old out.new (node id.entry.kind.now id.entry.name.now (T.text label.now) attributes.now) }
{
    let start = ("  ", id, " [label=\"");
    (start, label, "\"", (attributes, "];\n")).put_to(out)
}

/// Writes the line of a module's node, and nothing if there is no module: its name, its kind and its parameters, in the shape of its kind, with the
/// ports of the kind if they differ.
pub(crate) fn put_module_node<S: Sink>(
    out: &mut Out<S>,
    netlist: &Netlist,
    number: u32,
) -> Result<(), Failed>
    ensures { Writes result out.old out.new (module_node (module_at netlist.now number)) }
{
    match netlist.module(ModuleId(number)) {
        Some(part) => put_module(out, part),
        None => Ok(()),
    }
}

fn put_module<S: Sink>(out: &mut Out<S>, part: &ModuleRecord) -> Result<(), Failed>
    ensures { Writes result out.old out.new (module_node (Some part.now)) }
{
    let (kind, name) = ("module ", part.name.as_str());
    let params = Spaced {
        items: part.params.as_slice(),
    };
    let inputs = input_cells(part.kind);
    let outputs = output_cells(part.kind);
    let label = (inputs, name, "\\n", (part.kind.word(), params, outputs));
    put_node(out, Id { kind, name }, &label, shape_of(part.kind))
}

/// The shape of a kind, as an attribute: a box with cells if the ports of the kind differ.
fn shape_of(kind: Kind) -> &'static str
    ensures { result.now ≡ shape_of kind }
{
    match kind {
        Kind::C => " shape=circle",
        Kind::Reg | Kind::Toggle | Kind::Select | Kind::Call | Kind::Arbiter => " shape=record",
        Kind::Function(function) => function_shape(function),
    }
}

fn function_shape(function: Function) -> &'static str
    ensures { result.now ≡ function_shape function }
{
    match function {
        Function::Buf | Function::Not => " shape=triangle orientation=270 margin=0",
        Function::Xor => " shape=diamond",
        Function::Sub | Function::Less | Function::Mux | Function::Join => " shape=record",
        _ => " shape=ellipse",
    }
}
