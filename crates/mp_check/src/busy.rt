//! Bundles that nobody ended.
ghost use Rattle.std.specs.Prelude.{[], Some, filter, if◌then◌else◌, length};
ghost use Rattle.std.specs.List.{flat_map, range_with_len};
ghost use Rattle.mp_streams.specs.Outgoing.{Writes};
ghost use Rattle.mp_netlist.specs.Circuit.{IsBundle};
ghost use Rattle.mp_check.specs.CheckTexts.{selected_bundle_notes};
ghost use Rattle.mp_check.specs.Over.{busy_note, busy_slot_note};
ghost use Rattle.mp_check.specs.Selections.{keeps_bundle, selected};

use crate::over::is_over;
use crate::run_end::RunEnd;
use crate::selection::Selection;
use mp_netlist::{BundleId, BundleRecord};
use mp_streams::{Failed, Out, Sink, Text};

/// Writes that bundles are busy in the last unit, by number, as far as they are selected, if the run is over.
pub(crate) fn put_bundle_notes<S: Sink>(
    out: &mut Out<S>,
    end: &RunEnd<'_>,
    selection: Selection<'_>,
) -> Result<(), Failed>
    ensures { Writes result out.old out.new (selected_bundle_notes end.now.at.netlist.now (selected selection.entry)) }
{
    if end.at.netlist.bundle_slots() == 0 || !is_over(end) {
        return Ok(());
    }
    put_bundles(out, end, selection)
}

fn put_bundles<S: Sink>(
    out: &mut Out<S>,
    end: &RunEnd<'_>,
    selection: Selection<'_>,
) -> Result<(), Failed>
    ensures { Writes result out.old out.new (flat_map (busy_note end.now.at.netlist.now) (filter (keeps_bundle end.now.at.netlist.now (selected selection.entry)) (range_with_len 0 (length end.now.at.netlist.now.bundles)))) }
{
    for number in 0..end.at.netlist.bundle_slots() {
        put_bundle(out, end, BundleId(number), selection)?;
    }
    Ok(())
}

/// Writes the note on a bundle, if there is one and it is selected.
fn put_bundle<S: Sink>(
    out: &mut Out<S>,
    end: &RunEnd<'_>,
    id: BundleId,
    selection: Selection<'_>,
) -> Result<(), Failed>
    ensures { Writes result out.old out.new (if keeps_bundle end.now.at.netlist.now (selected selection.entry) id.0 then busy_note end.now.at.netlist.now id.0 else []) }
{
    if !selection.keeps_bundle(end.at.netlist, id) {
        return Ok(());
    }
    put_slot(out, end, id)
}

/// Writes the note on a bundle, if there is one.
fn put_slot<S: Sink>(out: &mut Out<S>, end: &RunEnd<'_>, id: BundleId) -> Result<(), Failed>
    ensures { Writes result out.old out.new (busy_note end.now.at.netlist.now id.0) }
{
    match end.at.netlist.bundle(id) {
        Some(bundle) => put_busy(out, end, bundle),
        None => Ok(()),
    }
}

fn put_busy<S: Sink>(
    out: &mut Out<S>,
    end: &RunEnd<'_>,
    bundle: &BundleRecord,
) -> Result<(), Failed>
    requires { IsBundle end.now.at.netlist.now bundle.now }
    ensures { Writes result out.old out.new (busy_slot_note end.now.at.netlist.now (Some bundle.now)) }
{
    let last = end.at.time;
    let request = end.at.prompt(bundle.request);
    if request.level_at(last) == end.at.prompt(bundle.acknowledge).level_at(last) {
        return Ok(());
    }
    let since = (" is busy since ", request.since(last), "\n");
    ("note bundle ", bundle.name.as_str(), since).put_to(out)
}
