//! The bundles of a netlist's graph.
ghost use Rattle.std.specs.Prelude.{Some};
ghost use Rattle.mp_streams.specs.Outgoing.{Writes};
ghost use Rattle.mp_netlist.specs.Circuit.{bundle_at};
ghost use Rattle.mp_picture.specs.Graphs.{bundle_node, bundle_edge, bundle_lines};

use crate::edges::tail;
use crate::nodes::{Id, put_node};
use crate::wired_netlist::WiredNetlist;
use mp_netlist::{BundleId, BundleRecord, Netlist, WireId};
use mp_streams::{Failed, Out, Sink, Text};
use mp_text::wire_name;

/// Writes the lines of a bundle, and nothing if there is no bundle: its node, and a line to it from each of its wires.
pub(crate) fn put_bundle_lines<S: Sink>(
    out: &mut Out<S>,
    wired: WiredNetlist<'_>,
    number: u32,
) -> Result<(), Failed>
    ensures { Writes result out.old out.new (bundle_lines wired.entry.netlist.now (bundle_at wired.entry.netlist.now number)) }
{
    match wired.netlist.bundle(BundleId(number)) {
        Some(bundle) => put_bundle(out, wired, bundle),
        None => Ok(()),
    }
}

fn put_bundle<S: Sink>(
    out: &mut Out<S>,
    wired: WiredNetlist<'_>,
    bundle: &BundleRecord,
) -> Result<(), Failed>
    ensures { Writes result out.old out.new (bundle_lines wired.entry.netlist.now (Some bundle.now)) }
{
    let name = bundle.name.as_str();
    put_box(out, wired.netlist, bundle)?;
    put_line(out, wired, name, bundle.request, ":r:w")?;
    put_line(out, wired, name, bundle.acknowledge, ":a:w")?;
    put_line(out, wired, name, bundle.payload, ":d:w")
}

/// Writes the node of a bundle: its name and its setup above its request, acknowledge and data.
fn put_box<S: Sink>(
    out: &mut Out<S>,
    netlist: &Netlist,
    bundle: &BundleRecord,
) -> Result<(), Failed>
    ensures { Writes result out.old out.new (bundle_node netlist.now bundle.now) }
{
    let (kind, name) = ("bundle ", bundle.name.as_str());
    let request = wire_name(netlist, bundle.request);
    let acknowledge = wire_name(netlist, bundle.acknowledge);
    let payload = wire_name(netlist, bundle.payload);
    let later = ("|<a>", acknowledge, "|<d>", payload);
    let wires = ("|<r>", request, later);
    let label = (name, "\\nsetup ", bundle.setup, wires);
    let style = " shape=record style=dashed";
    put_node(out, Id { kind, name }, &label, style)
}

/// Writes the line from the tail of a wire to its cell in the bundle of this name.
fn put_line<S: Sink>(
    out: &mut Out<S>,
    wired: WiredNetlist<'_>,
    name: &str,
    wire: WireId,
    cell: &str,
) -> Result<(), Failed>
    ensures { Writes result out.old out.new (bundle_edge wired.entry.netlist.now name.now wire cell.now) }
{
    let from = tail(wired.netlist, wire, wired.driver_of(wire));
    let kind = "bundle ";
    let style = " [style=dashed color=gray50 arrowhead=none];\n";
    ("  ", from, " -> ", (Id { kind, name }, cell, style)).put_to(out)
}
