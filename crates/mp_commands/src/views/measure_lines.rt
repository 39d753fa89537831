//! Events, gaps and margins in a range of times.
ghost use Rattle.mp_streams.specs.WriteErrors.{Writes};
ghost use Rattle.mp_questions.specs.timing.Measures.{measure};

use crate::views::evaluated::Evaluated;
use mp_depend::drivers_of;
use mp_netlist::Name;
use mp_questions::{Driven, TimeRange, late_lists, put_measure, put_wire_measures};
use mp_streams::{Out, Sink, WriteError};
use std::alloc::Global;
use std::thread::Threads;

/// The measures of a range of times: of the wires of these names, or of all wires and bundles if there are no names.
#[derive(Clone, Copy)]
pub struct MeasureLines<'a> {
    pub range: TimeRange,
    pub wires: &'a [Name],
}

impl<'a> MeasureLines<'a> {
    ghost use Rattle.mp_commands.specs.views.Measured.{measure_of};

    /// Writes their text, with no line for a name that no wire has.
    pub(crate) fn put<R: Threads + Sync, T: Sink>(
        &self,
        rt: &R,
        alloc: Global,
        out: &mut Out<T>,
        of: &Evaluated<'_>,
    ) -> Result<(), WriteError>
        ensures { Writes result out.old out.new (measure_of of.now.netlist.now self.now.range.from self.now.range.to self.now.wires.now) }
    {
        if self.wires.is_empty() {
            return put_all_measures(rt, alloc, out, of, self.range);
        }
        Ok(put_wire_measures(out, of.netlist, of.waves, self.range, self.wires)?)
    }
}

/// Writes the events and gaps of all wires, and the margins and late data of all bundles, in a range of times, in units.
fn put_all_measures<R: Threads + Sync, T: Sink>(
    rt: &R,
    alloc: Global,
    out: &mut Out<T>,
    of: &Evaluated<'_>,
    range: TimeRange,
) -> Result<(), WriteError>
    ensures { Writes result out.old out.new (measure of.now.netlist.now range.from range.to) }
{
    let drivers = drivers_of(alloc, of.netlist)?;
    let driven = Driven {
        netlist: of.netlist,
        waves: of.waves,
        drivers: drivers.as_slice(),
    };
    let late = late_lists(rt, alloc, driven, of.threads())?;
    Ok(put_measure(out, of.netlist, of.waves, range, late.as_slice())?)
}
