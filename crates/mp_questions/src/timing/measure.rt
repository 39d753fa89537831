//! The events, gaps and margins of a netlist over a range of times.
ghost use Rattle.std.specs.Prelude.{◌≡◌, ◌≤◌, length, map};
ghost use Rattle.std.specs.List.{flat_map, range_with_len};
ghost use Rattle.mp_streams.specs.Outgoing.{Writes};
ghost use Rattle.mp_netlist.specs.Circuit.{IsCircuit, IsBundle};
ghost use Rattle.mp_model.specs.Waves.{AreWavesOf, level};
ghost use Rattle.mp_questions.specs.late.Lists.{late_lists};
ghost use Rattle.mp_questions.specs.late.Searching.{late_over};
ghost use Rattle.mp_questions.specs.timing.Events.{event_times};
ghost use Rattle.mp_questions.specs.timing.Measures.{bundle_line, bundle_measure, lateness, measure, wire_measure};

use crate::late::Late;
use crate::timing::events::events_within;
use crate::timing::figures::{FirstAndLast, Least, LeastAndMost, Most, put_figures};
use crate::timing::margins::{gaps, lateness, responses, setups};
use crate::timing::range::{TimeRange, Units};
use mp_model::Waves;
use mp_netlist::{BundleId, BundleRecord, Netlist, WireId};
use mp_streams::{Failed, Out, Sink};

/// Writes the measures of a range of times, given the waves of the netlist and the late data of each bundle by number. For each wire by number a line
/// `wire NAME EVENTS`, if it has events the times of the first and the last, and if it has two the least and the greatest gap between two that follow
/// each other. Then for each bundle by number a line `bundle NAME REQUESTS`, ` setup S` with the least time for which the data of a request stood, if
/// they changed at all, ` response LEAST MOST` with how long after a request the next acknowledge came, if one did, and ` late L` with the greatest
/// number of units by which data are late that change in the range, if any are. Data of requests and acknowledges count wherever they lie below the
/// horizon.
///
/// `Failed` comes if the sink fails; then the sink has a beginning of what was held and of the lines, and nothing is held. It takes no memory, and
/// reads each wave once for each line that needs it.
pub fn put_measure<S: Sink>(
    out: &mut Out<S>,
    netlist: &Netlist,
    waves: &Waves,
    range: TimeRange,
    late: &[Vec<Late>],
) -> Result<(), Failed>
    requires waves { AreWavesOf netlist.now waves.now }
    requires late { map (λ list. list.items) late.now ≡ late_lists netlist.now }
    ensures { Writes result out.old out.new (measure netlist.now range.from range.to) }
{
    let units = range.read(netlist.horizon());
    put_wires(out, netlist, waves, units)?;
    put_bundles(out, netlist, waves, units, late)
}

/// Writes the lines of the wires.
fn put_wires<S: Sink>(
    out: &mut Out<S>,
    netlist: &Netlist,
    waves: &Waves,
    units: Units,
) -> Result<(), Failed>
    requires form { IsCircuit netlist.now }
    requires waves { AreWavesOf netlist.now waves.now }
    requires within { units.to ≤ netlist.now.horizon }
    ensures { Writes result out.old out.new (flat_map (wire_measure netlist.now units.from units.to) (range_with_len 0 (length netlist.now.wires))) }
{
    for number in 0..netlist.wire_slots() {
        put_wire(out, netlist, waves, units, WireId(number))?;
    }
    Ok(())
}

/// Writes the line of a wire; nothing if there is none.
pub(crate) fn put_wire<S: Sink>(
    out: &mut Out<S>,
    netlist: &Netlist,
    waves: &Waves,
    units: Units,
    wire: WireId,
) -> Result<(), Failed>
    requires form { IsCircuit netlist.now }
    requires waves { AreWavesOf netlist.now waves.now }
    requires within { units.to ≤ netlist.now.horizon }
    ensures { Writes result out.old out.new (wire_measure netlist.now units.from units.to wire.0) }
{
    let Some(found) = netlist.wire(wire) else {
        return Ok(());
    };
    let events = events_within(netlist, waves, wire, units);
    let ends = FirstAndLast { events };
    let gaps = LeastAndMost {
        word: "",
        found: gaps(events),
    };
    let name = found.name.as_str();
    put_figures(out, "wire ", name, events.len(), &(ends, gaps))
}

/// Writes the lines of the bundles.
fn put_bundles<S: Sink>(
    out: &mut Out<S>,
    netlist: &Netlist,
    waves: &Waves,
    units: Units,
    late: &[Vec<Late>],
) -> Result<(), Failed>
    requires form { IsCircuit netlist.now }
    requires waves { AreWavesOf netlist.now waves.now }
    requires within { units.to ≤ netlist.now.horizon }
    requires late { map (λ list. list.items) late.now ≡ late_lists netlist.now }
    ensures { Writes result out.old out.new (flat_map (bundle_measure netlist.now units.from units.to) (range_with_len 0 (length netlist.now.bundles))) }
{
    for number in 0..netlist.bundle_slots() {
        let late = late[number as usize].as_slice();
        put_slot(out, netlist, waves, units, BundleId(number), late)?;
    }
    Ok(())
}

/// Writes the line of a bundle with all that is late at it; nothing if there is none.
fn put_slot<S: Sink>(
    out: &mut Out<S>,
    netlist: &Netlist,
    waves: &Waves,
    units: Units,
    id: BundleId,
    late: &[Late],
) -> Result<(), Failed>
    requires form { IsCircuit netlist.now }
    requires waves { AreWavesOf netlist.now waves.now }
    requires within { units.to ≤ netlist.now.horizon }
    requires late { late.now ≡ late_over netlist.now id }
    ensures { Writes result out.old out.new (bundle_measure netlist.now units.from units.to id.0) }
{
    match netlist.bundle(id) {
        Some(bundle) => put_bundle(out, netlist, waves, units, bundle, late),
        None => Ok(()),
    }
}

fn put_bundle<S: Sink>(
    out: &mut Out<S>,
    netlist: &Netlist,
    waves: &Waves,
    units: Units,
    bundle: &BundleRecord,
    late: &[Late],
) -> Result<(), Failed>
    requires form { IsCircuit netlist.now }
    requires waves { AreWavesOf netlist.now waves.now }
    requires within { units.to ≤ netlist.now.horizon }
    requires stands { IsBundle netlist.now bundle.now }
    ensures { Writes result out.old out.new (bundle_line netlist.now bundle.now (event_times (level netlist.now bundle.now.request.0) units.from units.to) (lateness units.from units.to late.now)) }
{
    let requests = events_within(netlist, waves, bundle.request, units);
    let setup = Least {
        word: " setup",
        found: setups(netlist, waves, bundle.payload, requests),
    };
    let response = LeastAndMost {
        word: " response",
        found: responses(netlist, waves, bundle.acknowledge, requests),
    };
    let late = Most {
        word: " late",
        found: lateness(late, units),
    };
    let name = bundle.name.as_str();
    let figures = (setup, response, late);
    put_figures(out, "bundle ", name, requests.len(), &figures)
}
