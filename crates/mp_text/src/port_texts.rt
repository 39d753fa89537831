//! The ports of a module as texts.
ghost use Rattle.std.specs.Prelude.{◌≡◌, ◌∷◌};
ghost use Rattle.mp_text.specs.Clauses.{ℕ, List, flat_map, Circuit, Writes, wire_name, input_text, output_name, output_text};

use mp_netlist::{Input, Netlist, Output, WireId};
use mp_streams::{Failed, Out, Sink, Text};

/// A port of a module, as in a text.
pub trait Port {
    // Its text in a netlist.
    ghost port_text: { Circuit → Self → List ℕ };

    /// Writes a space and its text. `Failed` comes as in `Out::put_bytes`.
    fn put_spaced<S: Sink>(&self, out: &mut Out<S>, netlist: &Netlist) -> Result<(), Failed>
        ensures { Writes result out.old out.new (32 ∷ port_text netlist.now self.now) };
}

impl Port for Input {
    ghost port_text = { input_text };

    fn put_spaced<S: Sink>(&self, out: &mut Out<S>, netlist: &Netlist) -> Result<(), Failed> {
        let name = wire_name(netlist, self.wire);
        if self.delay == 0 {
            return (" ", name).put_to(out);
        }
        (" ", name, "/", self.delay).put_to(out)
    }
}

impl Port for Output {
    ghost port_text = { output_text };

    fn put_spaced<S: Sink>(&self, out: &mut Out<S>, netlist: &Netlist) -> Result<(), Failed> {
        let name = output_word(netlist, self.wire);
        (" ", name, "/", self.delay).put_to(out)
    }
}

/// Ports of a module of the netlist, each after a space.
#[derive(Clone, Copy)]
pub struct Ports<'a, P> {
    pub netlist: &'a Netlist,
    pub ports: &'a [P],
}

impl<'a, P: Port> Text for Ports<'a, P> {
    ghost text = { λ list. flat_map (λ port. 32 ∷ P.port_text list.netlist.now port) list.ports.now };

    fn put_to<S: Sink>(&self, out: &mut Out<S>) -> Result<(), Failed> {
        for port in self.ports {
            port.put_spaced(out, self.netlist)?;
        }
        Ok(())
    }
}

/// The name of the wire at an output, `-` if there is none.
fn output_word(netlist: &Netlist, wire: Option<WireId>) -> &str
    ensures { result.now ≡ output_name netlist.now wire }
{
    match wire {
        Some(id) => wire_name(netlist, id),
        None => "-",
    }
}

/// The name of the wire of this number; empty if there is none.
pub fn wire_name(netlist: &Netlist, wire: WireId) -> &str
    ensures { result.now ≡ wire_name netlist.now wire }
{
    match netlist.wire(wire) {
        Some(found) => found.name.as_str(),
        None => "",
    }
}
