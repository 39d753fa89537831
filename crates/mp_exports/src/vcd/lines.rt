//! The lines of a dump.
ghost use Rattle.mp_exports.specs.vcd.Clauses.{Some, Writes, slot_declaration, time_mark};

use crate::vcd::code::Code;
use mp_netlist::{WireId, WireRecord};
use mp_streams::{Failed, Out, Sink, Text};

/// Writes the declaration of a wire.
pub fn put_declaration<S: Sink>(
    out: &mut Out<S>,
    id: WireId,
    wire: &WireRecord,
) -> Result<(), Failed>
    ensures { Writes result out.old out.new (slot_declaration id.0 (Some wire.now)) }
{
    let named = (Code(id.0), " ", wire.name.as_str(), " $end\n");
    ("$var wire ", wire.width, " ", named).put_to(out)
}

/// Writes the line of a time, in units.
pub fn put_time_mark<S: Sink>(out: &mut Out<S>, time: u32) -> Result<(), Failed>
    ensures { Writes result out.old out.new (time_mark time) }
{
    ("#", time, "\n").put_to(out)
}
