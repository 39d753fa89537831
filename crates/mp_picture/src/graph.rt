//! A netlist as a graph in the language of Graphviz.
ghost use Rattle.std.specs.Prelude.{◌≡◌, ◌<◌, length};
ghost use Rattle.mp_streams.specs.Outgoing.{Writes};
ghost use Rattle.mp_streams.specs.WriteErrors.{Writes as WritesIfMemory};
ghost use Rattle.mp_picture.specs.Graphs.{wire_lines, wire_edges, is_inner};
ghost use Rattle.mp_picture.specs.GraphSections.{slot_count, section_line, section_text, graph};

use crate::bundle_lines::put_bundle_lines;
use crate::edges::{put_edges, put_own_lines};
use crate::nodes::put_module_node;
use crate::readers::Readers;
use crate::wired_netlist::WiredNetlist;
use mp_depend::drivers_of;
use mp_netlist::{Driver, Netlist, WireId};
use mp_streams::{Failed, Out, Sink, WriteError};
use std::alloc::Global;

/// The lines of a graph, of one sort each.
#[derive(Clone, Copy, PartialEq, Eq)]
pub enum GraphSection {
    Modules,
    Wires,
    Reads,
    Bundles,
}

/// What a graph begins with: it goes from left to right.
const HEAD: &str = "digraph netlist {
  rankdir=LR;
  node [fontname=Helvetica fontsize=12 margin=0.05 height=0.3];
  edge [fontname=Helvetica fontsize=10 arrowsize=0.7];
";

/// Writes a netlist as a graph, for `dot`: a node for each module, each wire that no port drives or no module reads, and each bundle, an edge for
/// each read, and a dashed line to each bundle from each of its wires. `WriteFailed` comes if the sink fails; then the sink has a beginning of what
/// was held and of the graph, and nothing is held. `OutOfMemory` comes before anything is written. It takes memory for the driver and the readers of
/// each wire.
pub fn put_graph<S: Sink>(
    alloc: Global,
    out: &mut Out<S>,
    netlist: &Netlist,
) -> Result<(), WriteError>
    ensures { WritesIfMemory result out.old out.new (graph netlist.now) }
{
    let drivers = drivers_of(alloc, netlist)?;
    let readers = Readers::of(alloc, netlist)?;
    let wired = WiredNetlist {
        netlist,
        drivers: drivers.as_slice(),
        readers: &readers,
    };
    put_sections(out, wired)?;
    Ok(())
}

/// Writes the sections of a graph, with what stands around them.
fn put_sections<S: Sink>(out: &mut Out<S>, wired: WiredNetlist<'_>) -> Result<(), Failed>
    ensures { Writes result out.old out.new (graph wired.entry.netlist.now) }
{
    out.put_text(HEAD)?;
    put_section(out, wired, GraphSection::Modules)?;
    put_section(out, wired, GraphSection::Wires)?;
    put_section(out, wired, GraphSection::Reads)?;
    put_section(out, wired, GraphSection::Bundles)?;
    out.put_text("}\n")
}

/// Writes the lines of a section, by number.
fn put_section<S: Sink>(
    out: &mut Out<S>,
    wired: WiredNetlist<'_>,
    section: GraphSection,
) -> Result<(), Failed>
    ensures { Writes result out.old out.new (section_text wired.entry.netlist.now section) }
{
    for number in 0..slot_count(wired.netlist, section) {
        put_slot(out, wired, section, number)?;
    }
    Ok(())
}

/// How many slots a section goes through.
fn slot_count(netlist: &Netlist, section: GraphSection) -> u32
    ensures { result ≡ slot_count netlist.now section }
{
    match section {
        GraphSection::Modules => netlist.module_slots(),
        GraphSection::Wires | GraphSection::Reads => netlist.wire_slots(),
        GraphSection::Bundles => netlist.bundle_slots(),
    }
}

/// Writes the lines of a section for the slot of this number.
fn put_slot<S: Sink>(
    out: &mut Out<S>,
    wired: WiredNetlist<'_>,
    section: GraphSection,
    number: u32,
) -> Result<(), Failed>
    requires { number < slot_count wired.netlist.now section }
    ensures { Writes result out.old out.new (section_line wired.entry.netlist.now section number) }
{
    match section {
        GraphSection::Modules => put_module_node(out, wired.netlist, number),
        GraphSection::Wires => put_wire_lines(out, wired, WireId(number)),
        GraphSection::Reads => put_wire_edges(out, wired, WireId(number)),
        GraphSection::Bundles => put_bundle_lines(out, wired, number),
    }
}

/// Writes the lines of a wire that no port drives or no module reads, and for any other nothing.
fn put_wire_lines<S: Sink>(
    out: &mut Out<S>,
    wired: WiredNetlist<'_>,
    wire: WireId,
) -> Result<(), Failed>
    requires { wire.0 < length wired.netlist.now.wires }
    ensures { Writes result out.old out.new (wire_lines wired.entry.netlist.now wire.0) }
{
    if wired.netlist.wire(wire).is_none() || is_inner(wired, wire) {
        return Ok(());
    }
    put_own_lines(out, wired.netlist, wire, wired.driver_of(wire))
}

/// Whether a port drives the wire and a module reads it.
fn is_inner(wired: WiredNetlist<'_>, wire: WireId) -> bool
    requires { wire.0 < length wired.netlist.now.wires }
    ensures { result ≡ is_inner wired.entry.netlist.now wire.0 }
{
    match wired.driver_of(wire) {
        Driver::Port(..) => !wired.readers_of(wire).is_empty(),
        Driver::Nothing | Driver::Stimulus => false,
    }
}

/// Writes the lines of a wire's edges.
fn put_wire_edges<S: Sink>(
    out: &mut Out<S>,
    wired: WiredNetlist<'_>,
    wire: WireId,
) -> Result<(), Failed>
    requires { wire.0 < length wired.netlist.now.wires }
    ensures { Writes result out.old out.new (wire_edges wired.entry.netlist.now wire.0) }
{
    let driver = wired.driver_of(wire);
    let readers = wired.readers_of(wire);
    put_edges(out, wired.netlist, wire, driver, readers)
}
