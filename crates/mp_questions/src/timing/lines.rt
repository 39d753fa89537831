//! The lines of what waits.
ghost use Rattle.std.specs.Prelude.{◌<◌, length};
ghost use Rattle.mp_streams.specs.Outgoing.{Writes};
ghost use Rattle.mp_questions.specs.timing.Waits.{input_line, since_line};

use mp_netlist::{ModuleRecord, Netlist};
use mp_streams::{Failed, Out, Sink, Text};
use mp_text::wire_name;

/// Writes a name, what it does, with what, and since when.
pub(crate) fn put_since<S: Sink, T: Text>(
    out: &mut Out<S>,
    name: &str,
    does: &str,
    what: &T,
    since: u32,
) -> Result<(), Failed>
    ensures { Writes result out.old out.new (since_line name.now does.now (T.text what.now) since) }
{
    (name, does, what, (" since ", since, "\n")).put_to(out)
}

/// Writes a module's name, what it does, the wire at one of its inputs, and since when.
pub(crate) fn put_input<S: Sink>(
    out: &mut Out<S>,
    netlist: &Netlist,
    found: &ModuleRecord,
    does: &str,
    port: usize,
    since: u32,
) -> Result<(), Failed>
    requires { port < length found.now.inputs }
    ensures { Writes result out.old out.new (input_line netlist.now found.now does.now port since) }
{
    let input = found.inputs.as_slice()[port];
    let what = wire_name(netlist, input.wire);
    put_since(out, found.name.as_str(), does, &what, since)
}
