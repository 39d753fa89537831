//! Whether a netlist repeats for ever.
ghost use Rattle.mp_streams.specs.WriteErrors.{Writes};
ghost use Rattle.mp_steady.specs.SteadyLines.{steady_text};

use crate::views::evaluated::Evaluated;
use mp_depend::drivers_of;
use mp_questions::Driven;
use mp_steady::put_steady;
use mp_streams::{Out, Sink, WriteError};
use std::alloc::Global;

/// Writes whether a netlist repeats for ever, how fast, and which modules set the pace.
pub(crate) fn put_steady_lines<T: Sink>(
    alloc: Global,
    out: &mut Out<T>,
    of: &Evaluated<'_>,
) -> Result<(), WriteError>
    ensures { Writes result out.old out.new (steady_text of.now.netlist.now) }
{
    let drivers = drivers_of(alloc, of.netlist)?;
    let driven = Driven {
        netlist: of.netlist,
        waves: of.waves,
        drivers: drivers.as_slice(),
    };
    put_steady(alloc, out, driven)
}
