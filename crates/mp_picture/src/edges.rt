//! The reads of a netlist, as edges of its graph.
ghost use Rattle.std.specs.Prelude.{◌≡◌};
ghost use Rattle.std.specs.List.{flat_map};
ghost use Rattle.mp_streams.specs.Outgoing.{Writes};
ghost use Rattle.mp_netlist.specs.Circuit.{module_at};
ghost use Rattle.mp_picture.specs.Found.{module_name};
ghost use Rattle.mp_picture.specs.Graphs.{edge, own_lines, own_edge, tail_kind, tail_name, tail_port, tail_delay, input_delay, output_delay};

use crate::edge_port::{EdgePort, bubble, input_port, output_port};
use crate::nodes::{Id, put_node};
use mp_netlist::{Driver, ModuleId, Netlist, WireId};
use mp_streams::{Failed, Out, Sink, Text};
use mp_text::wire_name;

/// A node, and the place at which an edge meets it.
#[derive(Clone, Copy)]
pub(crate) struct End<'a> {
    pub(crate) id: Id<'a>,
    pub(crate) port: EdgePort,
}

impl<'a> Text for End<'a> {
    ghost use Rattle.mp_picture.specs.Graphs.{end};

    ghost text = { λ node. end node.id.kind.now node.id.name.now node.port };

    fn put_to<S: Sink>(&self, out: &mut Out<S>) -> Result<(), Failed> {
        (self.id, self.port).put_to(out)
    }
}

/// The name of a wire with the delay of the port that drives it, as `q1/2`, and nothing if none does.
#[derive(Clone, Copy)]
struct DrivenName<'a> {
    name: &'a str,
    delay: Option<u32>,
}

impl<'a> Text for DrivenName<'a> {
    ghost use Rattle.mp_picture.specs.Graphs.{driven_name};

    ghost text = { λ wire. driven_name wire.name.now wire.delay };

    #[tactic(auto, unfolding(crate::specs::Graphs::driven_name))]
    fn put_to<S: Sink>(&self, out: &mut Out<S>) -> Result<(), Failed> {
        match self.delay {
            Some(delay) => (self.name, "/", delay).put_to(out),
            None => Ok(()),
        }
    }
}

/// The delay of an input, as `+4`; nothing if there is none.
#[derive(Clone, Copy)]
struct InputDelay {
    delay: u32,
}

impl Text for InputDelay {
    ghost use Rattle.mp_picture.specs.Graphs.{more_text};

    ghost text = { λ input. more_text input.delay };

    fn put_to<S: Sink>(&self, out: &mut Out<S>) -> Result<(), Failed> {
        if self.delay == 0 {
            return Ok(());
        }
        ("+", self.delay).put_to(out)
    }
}

/// Writes the lines of a wire's edges: from the port that drives it, or its own node, to each module that reads it, by module and port.
pub(crate) fn put_edges<S: Sink>(
    out: &mut Out<S>,
    netlist: &Netlist,
    wire: WireId,
    driver: Driver,
    readers: &[(ModuleId, u32)],
) -> Result<(), Failed>
    ensures { Writes result out.old out.new (flat_map (edge netlist.now wire.0 driver) readers.now) }
{
    for &(reader, port) in readers {
        put_edge(out, netlist, wire, driver, reader, port)?;
    }
    Ok(())
}

fn put_edge<S: Sink>(
    out: &mut Out<S>,
    netlist: &Netlist,
    wire: WireId,
    driver: Driver,
    reader: ModuleId,
    port: u32,
) -> Result<(), Failed>
    ensures { Writes result out.old out.new (edge netlist.now wire.0 driver (reader, port)) }
{
    let (kind, name) = ("module ", module_name(netlist, reader));
    let id = Id { kind, name };
    let head = End {
        id,
        port: input_port(netlist, reader, port),
    };
    let ends = ("  ", tail(netlist, wire, driver), " -> ", head);
    let delay = tail_delay(netlist, driver);
    let name = wire_name(netlist, wire);
    let driven = DrivenName { name, delay };
    let delay = input_delay(netlist, reader, port);
    let label = (" [label=\"", driven, InputDelay { delay }, "\"");
    (ends, label, bubble(netlist, reader, port), "];\n").put_to(out)
}

/// The tail of a wire's edges: the port that drives it, or its own node.
pub(crate) fn tail<'a>(netlist: &'a Netlist, wire: WireId, driver: Driver) -> End<'a>
    ensures kind { result.id.kind.now ≡ tail_kind driver }
    ensures name { result.id.name.now ≡ tail_name netlist.now wire.0 driver }
    ensures port { result.port ≡ tail_port netlist.now driver }
{
    match driver {
        Driver::Port(part, port) => End {
            id: Id {
                kind: "module ",
                name: module_name(netlist, part),
            },
            port: output_port(netlist, part, port),
        },
        Driver::Nothing | Driver::Stimulus => End {
            id: Id {
                kind: "wire ",
                name: wire_name(netlist, wire),
            },
            port: EdgePort::Whole,
        },
    }
}

/// Writes the node of a wire that no port drives or no module reads, and the edge to it from the port that drives it, if one does.
pub(crate) fn put_own_lines<S: Sink>(
    out: &mut Out<S>,
    netlist: &Netlist,
    wire: WireId,
    driver: Driver,
) -> Result<(), Failed>
    ensures { Writes result out.old out.new (own_lines netlist.now wire.0 driver) }
{
    let (kind, name) = ("wire ", wire_name(netlist, wire));
    let id = Id { kind, name };
    put_node(out, id, &name, " shape=plaintext")?;
    match driver {
        Driver::Port(part, port) => put_own_edge(out, netlist, wire, part, port),
        Driver::Nothing | Driver::Stimulus => Ok(()),
    }
}

/// Writes the edge from the port that drives a wire to the wire's own node.
fn put_own_edge<S: Sink>(
    out: &mut Out<S>,
    netlist: &Netlist,
    wire: WireId,
    part: ModuleId,
    port: u32,
) -> Result<(), Failed>
    ensures { Writes result out.old out.new (own_edge netlist.now wire.0 (Driver.Port part port)) }
{
    let from = tail(netlist, wire, Driver::Port(part, port));
    let (kind, name) = ("wire ", wire_name(netlist, wire));
    let delay = output_delay(netlist, part, port);
    let label = (" [label=\"/", delay, "\"];\n");
    ("  ", from, " -> ", (Id { kind, name }, label)).put_to(out)
}

/// The delay of the port that drives a wire, if one does.
fn tail_delay(netlist: &Netlist, driver: Driver) -> Option<u32>
    ensures { result ≡ tail_delay netlist.now driver }
{
    match driver {
        Driver::Port(part, port) => Some(output_delay(netlist, part, port)),
        Driver::Nothing | Driver::Stimulus => None,
    }
}

/// The name of a module; empty if there is none.
fn module_name(netlist: &Netlist, part: ModuleId) -> &str
    ensures { result.now ≡ module_name (module_at netlist.now part.0) }
{
    match netlist.module(part) {
        Some(found) => found.name.as_str(),
        None => "",
    }
}

/// The delay of an input port: 0 if there is no such port.
fn input_delay(netlist: &Netlist, part: ModuleId, port: u32) -> u32
    ensures { result ≡ input_delay (module_at netlist.now part.0) port }
{
    match netlist.module(part) {
        Some(found) => match found.inputs.as_slice().get(port as usize) {
            Some(input) => input.delay,
            None => 0,
        },
        None => 0,
    }
}

/// The delay of an output port: 1, as the least, if there is no such port.
fn output_delay(netlist: &Netlist, part: ModuleId, port: u32) -> u32
    ensures { result ≡ output_delay (module_at netlist.now part.0) port }
{
    match netlist.module(part) {
        Some(found) => match found.outputs.as_slice().get(port as usize) {
            Some(output) => output.delay,
            None => 1,
        },
        None => 1,
    }
}
